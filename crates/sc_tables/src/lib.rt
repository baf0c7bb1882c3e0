//! The tree of a chart as tables: for each state its kind, its parent, the rows of its children and of what is below
//! it, its transitions and its default targets; for each transition its source and its targets.
//!
//! Only `build` takes memory. A look-up neither takes memory nor searches the tree; `element` and `transition` follow
//! the path of the element that they give.
#![tactic(auto)]

mod defaults;
mod ids;
mod kinds;
mod nearest;
mod rows;
mod state_kinds;
mod states;
mod tables;
mod transitions;

pub use tables::{Tables, build};
