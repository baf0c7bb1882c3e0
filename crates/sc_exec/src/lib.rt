//! Executable content: what a block of elements does to a session in the middle of a turn, and the initial values of
//! data.
//!
//! A fault stops the rest of its block; what came before it stays. SCXML 4, 5 and 6.2.
#![tactic(auto)]

mod branches;
mod condition;
mod content;
mod delay;
mod elements;
mod event_data;
mod events;
mod initial;
mod receiver;
mod running;
mod sending;
mod values;

pub use condition::holds;
pub use content::run_block;
pub use event_data::{named_pairs, params, payload};
pub use events::enqueue_failure;
pub use initial::{first_data, initialise, is_late, state_data};
pub use running::Running;
