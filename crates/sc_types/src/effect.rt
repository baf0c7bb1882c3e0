use crate::event::Event;
use crate::host::To;
use crate::value::PairList;
use sc_base::{SharedBytes, Word};

/// What a turn asks the host to do. The host carries the effects out in the order in which the turn made them.
#[derive(Drop)]
pub enum Effect {
    /// Deliver an event, at once where the delay is 0. `<send>`, SCXML 6.2.
    Send {
        event: Event,
        to: To,
        /// In milliseconds, at most 1,000,000,000,000.
        delay: u64,
    },
    /// Drop the session's pending sends of an id. `<cancel>`, SCXML 6.3.
    CancelSend {
        sendid: SharedBytes,
    },
    /// Start a child session of an installed chart. `<invoke>`, SCXML 6.4.
    Invoke {
        invokeid: SharedBytes,
        child: Word,
        /// The chart's name, as `src` gives it.
        chart: Word,
        /// What the child is started with.
        pairs: PairList,
    },
    /// Cancel a child session, as the state that invoked it was exited. SCXML 6.4.3.
    CancelChild {
        child: Word,
    },
    /// Hand an event on to a child session. `autoforward`, SCXML 6.4.1.
    Forward {
        child: Word,
        event: Event,
    },
}
