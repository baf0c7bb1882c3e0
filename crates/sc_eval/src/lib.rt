//! Values of expressions: what an expression reads, and what it comes to, with each fault exact.
//!
//! The data and the ids of states are lists to contracts. But for few data they are looked up through an index, so that
//! a look-up by name takes time in proportion to the logarithm of their number.
#![tactic(auto)]

mod arithmetic;
mod data_table;
mod env;
mod equality;
mod evaluation;
mod ids;
mod index;
mod lists;
mod names;
mod operators;
mod places;

pub use data_table::DataTable;
pub use env::Env;
pub use evaluation::eval;
pub use ids::Ids;
pub use names::{datum, last_pair};
pub use sc_types::EvalFault;
