//! Which transitions a microstep takes, over the tables of a chart: for each active atomic state the first that matches
//! and whose condition holds, and of these the ones that give way to no other. SCXML 3.13.
//!
//! Where at most one transition is chosen, no row is made.
#![tactic(auto)]

mod chosen;
mod conflicts;
mod enabled;
mod exits;
mod kept;
mod matching;
mod selection;

pub use exits::exit_union;
pub use selection::{eventless, for_event};
