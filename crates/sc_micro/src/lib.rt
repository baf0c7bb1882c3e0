//! What a microstep does to a run: states are exited, the content of the transitions runs, and states are entered; and
//! how a session enters its document and leaves it at its end. SCXML 3.13 and Appendix D.
#![tactic(auto)]

mod blocks;
mod done;
mod ending;
mod entering;
mod finals;
mod leaving;
mod staying;
mod step;

pub use ending::exit_all;
pub use leaving::members;
pub use step::{enter_first, microstep};
