ghost use Rattle.std.proofs.Common.{rules};

use crate::chart::ChartFault;
use crate::session::{CueName, How};
use crate::value::PairList;
use sc_base::{Boxed, Bytes, Plain, Word};

/// What a client or a worker asks of the host.
#[derive(Drop, PartialEq, Eq)]
pub enum Command {
    /// Install a chart, given by its text, under a name.
    Install {
        name: Word,
        chart: Bytes,
    },
    /// Start a session of an installed chart.
    Start {
        session: Word,
        chart: Word,
    },
    /// Put an event into a session's external queue.
    Post {
        session: Word,
        event: Word,
        pairs: PairList,
    },
    /// Advance the clock by so many milliseconds, and fire the sends that come due.
    Tick {
        ticks: u64,
    },
    /// Cancel a session: its next turn ends it.
    Cancel {
        session: Word,
    },
    /// Let a session take the turn of its cue.
    Step {
        session: Word,
    },
}

/// What the host answers.
#[derive(Clone, Drop)]
pub enum Reply {
    Installed,
    Started,
    /// Queued under this number.
    Posted(u128),
    /// How many sends came due and were taken out.
    Ticked(u64),
    /// The session is flagged.
    Cancelled,
    Stepped(CueName),
    Refused(Refusal),
}

/// Why the host refuses a command, which then changes nothing. What is large stands in a place of its own, so that each
/// other reply is small.
#[derive(Clone, Drop)]
pub enum Refusal {
    /// The text spells no legal chart.
    BadChart(Boxed<ChartFault>),
    /// A chart or a session has this name already.
    NameTaken,
    NoChart,
    NoSession,
    /// The session has ended.
    Ended(Boxed<How>),
    /// A limit is passed: 1 the session's name, 2 the chart's name, 3 the event's name, 4 the pairs, 5 their
    /// weight.
    TooLong(u8),
    /// The clock would pass its last value.
    ClockFull,
    /// The session has no cue.
    Idle,
    /// A name that only an invoked session may have.
    BadName,
}

impl Plain for Reply {
    ghost clone_equals = { Prim.search rules };
}

impl Plain for Refusal {
    ghost clone_equals = { Prim.search rules };
}
