//! Tests of the journal over a disk in memory: worked examples, stops and faults at each device call, and each call
//! once with ample memory. A case is a list of steps and what comes of each.
#![tactic(auto)]

#[cfg(test)]
mod cases;
#[cfg(test)]
mod damage;
#[cfg(test)]
mod disks;
#[cfg(test)]
mod doubts;
#[cfg(test)]
mod faults;
#[cfg(test)]
mod lending;
#[cfg(test)]
mod silent;
#[cfg(test)]
mod steps;
#[cfg(test)]
mod stops;
