//! The host as a program: makes a journal; runs a script on the host that a journal holds, and writes the report, or
//! runs one that is drawn from a number, and writes its summary; tells that host; or reads a chart, and says whether it
//! is one.
#![tactic(auto)]

mod check;
mod journal;
mod lines;
mod program;
mod run;
mod saying;
mod status;

pub use program::top;
pub use status::Status;
