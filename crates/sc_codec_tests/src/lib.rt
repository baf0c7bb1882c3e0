//! Tests of the bodies of commands: worked bodies byte for byte, commands at each limit, and bodies of no command.
#![tactic(auto)]

#[cfg(test)]
mod bodies;
#[cfg(test)]
mod hostile;
#[cfg(test)]
mod limits;
#[cfg(test)]
mod samples;
