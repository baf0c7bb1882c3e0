//! The host machine, without a program: what the host answers to each command, what becomes of what a turn asks for,
//! and which histories are legal; and theorems on it: no legal history consumes an event twice, what a step consumes
//! was given to that session before, what waits for a session stays until it steps, and sessions that step go on to fit
//! their charts.
#![tactic(auto)]

mod limits;

pub use limits::CHILD_NAME_LIMIT;
