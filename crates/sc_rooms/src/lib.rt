//! Containers with room that was made before: a queue, a table of named items, an index of names and a set of places.
//! What changes the host makes all its memory first, by `reserve`, and then changes these without memory and without a
//! fault.
//!
//! Only `reserve` takes memory.
#![tactic(auto)]

mod name_index;
mod named;
mod places;
mod roomy_queue;

pub use name_index::{HasName, NameIndex};
pub use named::Named;
pub use places::Places;
pub use roomy_queue::RoomyQueue;
