//! A list of ranked keys in which a key is put in and taken out anywhere, and found by its rank, at a cost that hardly
//! grows with the list.
//!
//! Only `reserve` takes memory.
#![tactic(auto)]

mod entry;
mod node;
mod ranks;
mod tree;

pub use entry::Entry;
pub use ranks::Ranks;
