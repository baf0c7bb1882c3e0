ghost use Rattle.std.specs.Prelude.{◌≡◌};

use sc_dev::{Failed, Sink, Source};
use std::io::{Read, Write};

/// A stream of the system, with the count of its faults. It tells of its bytes what the stream tells, which of
/// standard input and standard output is nothing. Nothing is held back: what a write takes has been handed to
/// the stream.
#[derive(Drop)]
pub struct Counted<T> {
    stream: T,
    faults: u64,
}

impl<T> Counted<T> {
    pub fn new(stream: T) -> Counted<T>
        ensures stream { result.stream ≡ stream }
        ensures faults { result.faults ≡ 0 }
    {
        Counted { stream, faults: 0 }
    }
}

impl<R: Read> Source for Counted<R> {
    ghost left = { λ s. R.remaining s.stream };

    ghost faults = { λ s. s.faults };

    fn read(&mut self, into: &mut [u8]) -> Result<usize, Failed> {
        match self.stream.read(into) {
            Ok(count) => Ok(count),
            Err(_) => {
                self.faults = self.faults.saturating_add(1);
                Err(Failed)
            }
        }
    }
}

impl<W: Write> Sink for Counted<W> {
    ghost taken = { λ s. W.contents s.stream };

    ghost faults = { λ s. s.faults };

    // A write that takes nothing would be tried for ever, so it counts as one that failed.
    fn write(&mut self, piece: &[u8]) -> Result<usize, Failed> {
        match self.stream.write(piece) {
            Ok(count) if count > 0 => Ok(count),
            _ => {
                self.faults = self.faults.saturating_add(1);
                Err(Failed)
            }
        }
    }
}
