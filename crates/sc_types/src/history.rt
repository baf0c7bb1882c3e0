ghost use Rattle.std.specs.Prelude.{◌≡◌};
ghost use Rattle.std.proofs.Common.{rules};

use crate::command::{Command, Reply};
use crate::value::Value;
use sc_base::{BoxedSequence, Bytes, Plain, Sequence, Word};
use std::alloc::AllocError;

/// Who made a command: a client of the script, the set-up being client 0, or a worker.
#[derive(Clone, Copy, Debug, PartialEq, Eq)]
pub enum Who {
    Client(u32),
    Worker,
}

/// What became of an effect of a step, or of a send that came due.
#[derive(Clone, Drop)]
pub enum Delivery {
    /// Put into a session's external queue under this number.
    Queued { number: u128, session: Word },
    /// Kept until its due time, in milliseconds of the host's clock, under this number of a send.
    Timed { number: u64, due: u64 },
    /// No such session takes events; the sender hears of it by `error.communication`.
    Unreachable,
    /// Given up without a word to the sender.
    Dropped,
    /// So many pending sends were dropped.
    Undone(u64),
    /// The child session was started.
    Born(Word),
    /// The child session was not started.
    Unborn,
    /// The child session is to be cancelled.
    Flagged(Word),
    /// The child session has ended before.
    Nothing,
}

/// What a `<log>` wrote.
#[derive(Drop)]
pub struct LogLine {
    pub label: Bytes,
    pub value: Value,
}

/// One event of the host machine: a command, who made it, and what the host answered, logged and delivered. Fields lie
/// in memory in this order, and the reply, which holds 16-byte numbers, stands first, since that leaves no gaps: a
/// history of a million posts is a million entries.
#[derive(Drop)]
pub struct Entry {
    pub reply: Reply,
    pub who: Who,
    pub command: Command,
    pub logs: BoxedSequence<LogLine>,
    pub sent: Sequence<Delivery>,
}

impl Plain for Who {
    ghost clone_equals = { Prim.search rules };
}

impl Plain for Delivery {
    ghost clone_equals = { Prim.search rules };
}

// By hand, since the proof of the derived one takes far longer.
impl Clone for LogLine {
    ghost is_clone = { λ line copy. copy ≡ line };

    fn clone(&self) -> Result<Self, AllocError> {
        Ok(LogLine {
            label: self.label.clone()?,
            value: self.value.clone()?,
        })
    }
}

impl Plain for LogLine {
    ghost clone_equals = { λ line copy same. same };
}
