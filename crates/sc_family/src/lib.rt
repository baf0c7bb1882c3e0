//! Which session invoked which (SCXML 6.4): for each invoked session a link to its invoker.
//!
//! Only `reserve` takes memory, and a link is found at a cost that does not grow with their number.
#![tactic(auto)]

mod family;
mod link;

pub use family::Family;
pub use link::Link;
