//! Tests of what is said of faulty inputs: the place and the names that a sentence has to tell.
#![tactic(auto)]

#[cfg(test)]
mod charts;
#[cfg(test)]
mod scripts;
#[cfg(test)]
mod told;
#[cfg(test)]
mod words;
