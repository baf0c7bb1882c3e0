//! Turns of a session, computed over the tables of its chart. SCXML Appendix D: interpret, mainEventLoop and
//! exitInterpreter.
//!
//! `Compiled` is an engine: its plan is made once for each chart, and a turn depends on the plan, the session and the
//! cue alone.
#![tactic(auto)]

mod beginning;
mod compiled;
mod ending;
mod eventless;
mod finalizing;
mod ids;
mod invoking;
mod limit;
mod plan;
mod rounds;
mod rows;
mod run_state;

pub use compiled::Compiled;
pub use plan::Plan;
