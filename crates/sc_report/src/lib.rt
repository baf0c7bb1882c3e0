//! The report of a run, and the summary of one of a drawn script, written piece by piece to a sink.
#![tactic(auto)]

mod end;
mod entries;
mod lines;
mod outlet;
mod piece;
mod replies;
mod report;
mod sessions;
mod summary;
mod totals;
mod values;

pub use end::End;
pub use report::{write_fault, write_report};
pub use summary::write_summary;
