//! Whether the event descriptors of a transition match the name of an event (SCXML 3.12.1).
//!
//! Both are read as bytes, from left to right, without memory.
#![tactic(auto)]

mod descriptor;
mod text;

pub use descriptor::piece_matches;
pub use text::matches;
