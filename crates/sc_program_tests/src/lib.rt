//! Tests of the program over devices in memory: streams and disks that fail at one call, what stops of the machine
//! leave, and runs in threads. Tests of these devices. What a run over files shows, `tests/` has.
#![tactic(auto)]

#[cfg(test)]
mod devices;
#[cfg(test)]
mod faults;
#[cfg(test)]
mod program;
#[cfg(test)]
mod rows;
#[cfg(test)]
mod stops;
#[cfg(test)]
mod threads;
