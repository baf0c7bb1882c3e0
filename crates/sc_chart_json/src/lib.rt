//! Charts as JSON texts: read with every fault at its place, and written compactly.
#![tactic(auto)]

mod element;
mod form;
mod members;
mod pieces;
mod reader;
mod room;
mod tree;
mod writer;

pub use reader::read_chart;
pub use writer::print_chart;
