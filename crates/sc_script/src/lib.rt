//! Scripts: the commands that a text spells, set-up and clients, or the first line that spells none; and scripts of
//! any length that are drawn from a number.
//!
//! A line is read on its own, and its bytes are looked at a fixed number of times.
#![tactic(auto)]

mod fault;
mod generator;
mod lines;
mod meaning;
mod names;
mod pairs;
mod pieces;
mod reader;
mod script;
mod short_numbers;
mod words;

pub use fault::{Cause, ScriptFault, ScriptRefusal};
pub use generator::generate;
pub use reader::read_script;
pub use script::Script;
