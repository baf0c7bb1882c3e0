//! The sets of a microstep over the tables of a chart: the domain of a transition, what it exits, what the histories
//! of exited states record, and what is entered.
//!
//! `domain` and `exit_row` take no memory.
#![tactic(auto)]

mod domains;
mod enter;
mod entering;
mod entry;
mod exit;
mod kept;
mod targets;

pub use domains::domain;
pub use entry::{Entry3, entry_rows, first_rows};
pub use exit::exit_row;
pub use kept::record_histories;
pub use sc_types::Histories;
