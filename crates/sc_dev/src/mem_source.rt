ghost use Rattle.std.specs.Prelude.{◌≡◌, ◌<◌, None, Some, length, take, IfOk, OnErr, MatchResult};
ghost use Rattle.std.specs.Io.{ReadsAtMost};
ghost use Rattle.std.specs.Io.KnownBytes.{Consumes, IsAtEnd, Keeps};
ghost use Rattle.sc_dev.specs.Causes.{HasCause};
ghost use Rattle.sc_dev.specs.Memory.{after_read, no_calls, read_count};

use crate::calls::Calls;
use crate::failed::Failed;
use crate::source::Source;
use crate::unread::Unread;
use sc_base::NoMemory;
use std::alloc::Global;
use std::marker::Model;

/// A source of given bytes, which fails at the calls that it is told to.
#[derive(Debug, Drop)]
pub struct MemSource {
    unread: Unread,
    most: usize,
    calls: Calls,
}

impl Model for MemSource {
    ghost use Rattle.std.specs.Prelude.{◌<◌};
    ghost use Rattle.sc_dev.specs.Memory.{SourceOf};

    ghost Value = { SourceOf };

    ghost view = { λ s. record { left = s.unread; most = s.most; calls = s.calls } };

    ghost invariant = { λ s. 0 < s.most };
}

impl MemSource {
    /// A source of these bytes, of which one call hands over at most `most`. `failing` has the numbers of the
    /// calls that fail, counted from 1.
    pub fn new(
        alloc: Global,
        bytes: &[u8],
        most: usize,
        failing: &[u64],
    ) -> Result<MemSource, NoMemory>
        requires { 0 < most }
        ensures { IfOk result (λ s. s ≡ record { left = bytes.now; most = most; calls = no_calls failing.now }) }
    {
        Ok(MemSource {
            unread: Unread::new(alloc, bytes)?,
            most,
            calls: Calls::new(alloc, failing)?,
        })
    }
}

impl Source for MemSource {
    ghost left = { λ s. Some s.left };

    ghost faults = { λ s. s.calls.faults };

    fn read(&mut self, into: &mut [u8]) -> Result<usize, Failed>
        requires { 0 < length into.old }
        ensures bound { ReadsAtMost result into.new }
        ensures bytes { IfOk result (λ n. Consumes (Some self.old.left) (Some self.new.left) (take n into.new)) }
        ensures end { result ≡ Ok 0 → IsAtEnd (Some self.old.left) }
        ensures failed { OnErr result (Keeps (Some self.old.left) (Some self.new.left)) }
        ensures cause { HasCause self.old.calls.faults self.new.calls.faults result }
        ensures count { let n = read_count self.old (length into.old) in
            MatchResult result (λ m. n ≡ Some m) (λ _. n ≡ None) }
        ensures after { self.new ≡ after_read self.old (read_count self.old (length into.old)) }
    {
        if self.calls.is_next_failing() {
            self.calls.count_fault();
            return Err(Failed);
        }
        self.calls.count();
        let room = into.len().min(self.most);
        Ok(self.unread.hand_over(&mut into[..room]))
    }
}
