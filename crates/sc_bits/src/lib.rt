//! Sets of small numbers with a width, in which a turn marks states and transitions.
//!
//! Only `new` and `copy` take memory.
#![tactic(auto)]

mod row;
mod words;

pub use row::Row;
