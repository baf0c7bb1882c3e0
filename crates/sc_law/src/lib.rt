//! The definitions that the host is proved against, in `specs/`; what computes turns, as a trait; and the elements of
//! a chart by their paths.
#![tactic(auto)]

mod defaults;
mod engine;
mod tree;
mod turn_result;
mod turned;

pub use defaults::default_ids;
pub use engine::Engine;
pub use tree::{Path, element, element_paths, has_states, is_atomic_element, leads_on, node_at};
pub use turn_result::TurnResult;
pub use turned::Turned;
