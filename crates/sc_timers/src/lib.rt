//! The delayed sends that are pending (SCXML 6.2), in the order in which they come due.
//!
//! Only `reserve` takes memory. What a call costs hardly grows with the sends of other sessions.
#![tactic(auto)]

mod kept;
mod timed;
mod timers;

pub use timed::Timed;
pub use timers::Timers;
