//! The host's body, for any engine: it does what the host machine of `sc_machine` does. A command is prepared with all
//! its memory, and then installed without any.
#![tactic(auto)]

mod additions;
mod aims;
mod body;
mod change;
mod change_list;
mod changes;
mod charts;
mod children;
mod closed;
mod cues;
mod draft;
mod effects;
mod endings;
mod failures;
mod handed;
mod history;
mod host_state;
mod inputs;
mod invocations;
mod kept;
mod lookups;
mod newborns;
mod plans;
mod posts;
mod prepare;
mod prepared;
mod rooms;
mod same_charts;
mod same_states;
mod sameness;
mod session;
mod settling;
mod starts;
mod steps;
mod ticks;
mod weights;

pub use charts::read_legal_chart;
pub use closed::Closed;
pub use history::History;
pub use host_state::HostState;
pub use inputs::TurnInput;
pub use kept::Shown;
pub use prepared::Prepared;
