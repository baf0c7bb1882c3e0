use crate::event::Event;
use crate::session::SessionState;
use sc_base::{Bytes, Queue, Sequence, SharedBytes, Word};

/// An installed chart: its name, and its text as it was given.
#[derive(Drop)]
pub struct ChartImage {
    pub name: Word,
    pub text: Bytes,
}

/// The session that invoked another, under which id, and whether the two are cut off from one another.
#[derive(Drop)]
pub struct InvokerImage {
    pub session: Word,
    pub invokeid: SharedBytes,
    pub cut: bool,
}

/// A session as the host holds it.
#[derive(Drop)]
pub struct SessionImage {
    pub state: SessionState,
    /// The external queue, its front first.
    pub queued: Queue<Event>,
    /// Whether the session is to be cancelled.
    pub flagged: bool,
    pub invoker: Option<InvokerImage>,
    /// 1, or the invoker's depth plus 1.
    pub depth: u32,
}

/// Who receives an event.
#[derive(Drop)]
pub enum To {
    Own,
    Parent,
    Child(Word),
    Session(Word),
    Nowhere,
}

/// A delayed send that is pending: the session that sent it, its number, and when it is due, in milliseconds
/// of the host's clock.
#[derive(Drop)]
pub struct TimerImage {
    pub session: Word,
    /// Each send has a number of its own; a later one has a larger one.
    pub number: u64,
    pub due: u64,
    pub event: Event,
    pub to: To,
}

/// The host's plain data: the clock in milliseconds, how many commands were accepted, events numbered and
/// sends delayed, the charts in order of installation, the sessions in order of start, and the pending sends
/// in order of their due times.
#[derive(Drop)]
pub struct HostImage {
    pub clock: u64,
    pub commands: u64,
    pub events: u128,
    pub delayed: u64,
    pub charts: Sequence<ChartImage>,
    pub sessions: Sequence<SessionImage>,
    pub timers: Sequence<TimerImage>,
}
