ghost use Rattle.std.specs.Prelude.{◌≡◌, ◌<◌, None, Some, [], length, take, IfOk, OnErr, MatchResult};
ghost use Rattle.std.specs.Io.{WritesAtMost};
ghost use Rattle.std.specs.Io.KnownBytes.{Appends, Keeps};
ghost use Rattle.sc_dev.specs.Causes.{HasCause};
ghost use Rattle.sc_dev.specs.Memory.{after_write, no_calls, write_count};

use crate::calls::Calls;
use crate::failed::Failed;
use crate::sink::Sink;
use sc_base::NoMemory;
use std::alloc::Global;
use std::marker::Model;

/// A sink that keeps what it takes. It fails at the calls that it is told to, and at each call once it is full.
#[derive(Debug, Drop)]
pub struct MemSink {
    bytes: Vec<u8>,
    room: usize,
    most: usize,
    calls: Calls,
}

impl Model for MemSink {
    ghost use Rattle.std.specs.Prelude.{◌<◌, ◌≤◌, vec_len, vec_capacity};
    ghost use Rattle.sc_dev.specs.Memory.{SinkOf};

    ghost Value = { SinkOf };

    ghost view = { λ s. record { taken = s.bytes.items; room = s.room; most = s.most; calls = s.calls } };

    ghost invariant = { λ s. (0 < s.most) × (vec_len s.bytes ≤ s.room) × (s.room ≤ vec_capacity s.bytes) };
}

impl MemSink {
    /// An empty sink with room for so many bytes, of which one call takes at most `most`. `failing` has the
    /// numbers of the calls that fail, counted from 1. The room is made here, so that no write takes memory.
    pub fn new(
        alloc: Global,
        room: usize,
        most: usize,
        failing: &[u64],
    ) -> Result<MemSink, NoMemory>
        requires { 0 < most }
        ensures { IfOk result (λ s. s ≡ record { taken = []; room = room; most = most; calls = no_calls failing.now }) }
    {
        Ok(MemSink {
            bytes: Vec::with_capacity(alloc, room)?,
            room,
            most,
            calls: Calls::new(alloc, failing)?,
        })
    }

    /// The bytes that were taken.
    pub fn bytes(&self) -> &[u8]
        ensures { result.now ≡ self.now.taken }
    {
        self.bytes.as_slice()
    }
}

impl Sink for MemSink {
    ghost taken = { λ s. Some s.taken };

    ghost faults = { λ s. s.calls.faults };

    fn write(&mut self, piece: &[u8]) -> Result<usize, Failed>
        requires { 0 < length piece.now }
        ensures some { IfOk result (λ n. 0 < n) }
        ensures bound { WritesAtMost result piece.now }
        ensures bytes { IfOk result (λ n. Appends (Some self.old.taken) (Some self.new.taken) (take n piece.now)) }
        ensures failed { OnErr result (Keeps (Some self.old.taken) (Some self.new.taken)) }
        ensures cause { HasCause self.old.calls.faults self.new.calls.faults result }
        ensures count { let n = write_count self.old (length piece.now) in
            MatchResult result (λ m. n ≡ Some m) (λ _. n ≡ None) }
        ensures after { self.new ≡ after_write self.old piece.now (write_count self.old (length piece.now)) }
    {
        if self.calls.is_next_failing() || self.bytes.len() >= self.room {
            self.calls.count_fault();
            return Err(Failed);
        }
        self.calls.count();
        let free = self.room - self.bytes.len();
        let count = piece.len().min(self.most).min(free);
        match self.bytes.extend_from_slice(&piece[..count]) {
            Ok(()) => Ok(count),
            Err(_) => unreachable!(),
        }
    }
}
