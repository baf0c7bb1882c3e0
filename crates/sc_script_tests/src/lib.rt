//! Tests of scripts: each fault of a line, whose the lines are, and what is drawn from a number. Tests of the words of
//! a command line. What lines say, `tests/runs` shows.
#![tactic(auto)]

#[cfg(test)]
mod faults;
#[cfg(test)]
mod generated;
#[cfg(test)]
mod meanings;
#[cfg(test)]
mod words;
