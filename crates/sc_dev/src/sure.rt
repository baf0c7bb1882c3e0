ghost use Rattle.std.specs.Prelude.{◌≡◌, ◌<◌, None, Some, min, length, take, drop, IfOk, OnErr};
ghost use Rattle.std.specs.Io.{ReadsAtMost, WritesAtMost};
ghost use Rattle.std.specs.Io.KnownBytes.{Appends, Consumes, IsAtEnd, Keeps};
ghost use Rattle.sc_dev.specs.Causes.{HasCause};

use crate::failed::Failed;
use crate::sink::Sink;
use crate::source::Source;
use crate::unread::Unread;
use sc_base::NoMemory;
use std::alloc::Global;
use std::marker::Model;

/// A source of given bytes that never fails: its count of faults is always 0.
#[derive(Debug, Drop)]
pub struct SureSource {
    unread: Unread,
}

impl Model for SureSource {
    ghost use Rattle.std.specs.Prelude.{List, ℕ};

    ghost Value = { List ℕ };

    ghost view = { λ s. s.unread };
}

impl SureSource {
    pub fn new(alloc: Global, bytes: &[u8]) -> Result<SureSource, NoMemory>
        ensures { IfOk result (λ s. s ≡ bytes.now) }
    {
        Ok(SureSource {
            unread: Unread::new(alloc, bytes)?,
        })
    }
}

impl Source for SureSource {
    ghost left = { λ s. Some s };

    ghost faults = { λ _. 0 };

    fn read(&mut self, into: &mut [u8]) -> Result<usize, Failed>
        requires { 0 < length into.old }
        ensures bound { ReadsAtMost result into.new }
        ensures bytes { IfOk result (λ n. Consumes (Some self.old) (Some self.new) (take n into.new)) }
        ensures end { result ≡ Ok 0 → IsAtEnd (Some self.old) }
        ensures failed { OnErr result (Keeps (Some self.old) (Some self.new)) }
        ensures cause { HasCause 0 0 result }
        ensures count { result ≡ Ok (min (length into.old) (length self.old)) }
    {
        Ok(self.unread.hand_over(into))
    }
}

/// A sink that takes each piece whole, keeps nothing and never fails: its count of faults is always 0.
#[derive(Debug, Drop)]
pub struct SureSink;

impl SureSink {
    pub fn new() -> SureSink {
        SureSink
    }
}

impl Sink for SureSink {
    ghost taken = { λ _. None };

    ghost faults = { λ _. 0 };

    fn write(&mut self, piece: &[u8]) -> Result<usize, Failed>
        requires { 0 < length piece.now }
        ensures some { IfOk result (λ n. 0 < n) }
        ensures bound { WritesAtMost result piece.now }
        ensures bytes { IfOk result (λ n. Appends None None (take n piece.now)) }
        ensures failed { OnErr result (Keeps None None) }
        ensures cause { HasCause 0 0 result }
        ensures count { result ≡ Ok (length piece.now) }
    {
        Ok(piece.len())
    }
}
