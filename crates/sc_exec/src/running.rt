use sc_base::{Queue, Sequence};
use sc_bits::Row;
use sc_eval::Env;
use sc_types::{Effect, Event, Invoked, LogLine};

/// A session in the middle of a turn. Its rows have the width of `env.configuration`.
#[derive(Drop)]
pub struct Running {
    pub env: Env,
    /// The states that were entered at least once.
    pub entered: Row,
    /// The internal queue, its front first.
    pub internal: Queue<Event>,
    /// The invocations that run, in the order in which they were started.
    pub invokes: Sequence<Invoked>,
    /// How many ids `send.N` were made.
    pub sends: u64,
    /// How many child sessions were started.
    pub born: u64,
    /// The states whose invokes are still to be started.
    pub todo: Row,
    /// What the host is asked to do, in this order.
    pub effects: Sequence<Effect>,
    pub logs: Sequence<LogLine>,
    /// Whether a final state under the root was entered.
    pub stopped: bool,
}
