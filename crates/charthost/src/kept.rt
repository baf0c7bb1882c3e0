ghost use Rattle.std.specs.Prelude.{◌≡◌};

use sc_dev::{Failed, Sink, Source};
use std::alloc::Global;

/// A stream, with a copy of the first bytes that passed it, as many as there is room for.
#[derive(Drop)]
pub(crate) struct Kept<T> {
    stream: T,
    copy: Vec<u8>,
    room: usize,
    is_lost: bool,
}

impl<T> Kept<T> {
    pub(crate) fn new(alloc: Global, stream: T, room: usize) -> Kept<T>
        ensures { result.stream ≡ stream }
    {
        Kept {
            stream,
            copy: Vec::new(alloc),
            room,
            is_lost: false,
        }
    }

    /// The copy; `None` where there was no memory for it.
    pub(crate) fn copy(&self) -> Option<&[u8]> {
        if self.is_lost {
            return None;
        }
        Some(self.copy.as_slice())
    }

    fn keep(&mut self, bytes: &[u8])
        ensures { self.new.stream ≡ self.old.stream }
    {
        let count = bytes.len().min(self.room);
        self.room -= count;
        if self.copy.extend_from_slice(&bytes[..count]).is_err() {
            self.is_lost = true;
        }
    }
}

impl<S: Source> Source for Kept<S> {
    ghost left = { λ k. S.left k.stream };

    ghost faults = { λ k. S.faults k.stream };

    fn read(&mut self, into: &mut [u8]) -> Result<usize, Failed> {
        let count = self.stream.read(into)?;
        self.keep(&into[..count]);
        Ok(count)
    }
}

impl<K: Sink> Sink for Kept<K> {
    ghost taken = { λ k. K.taken k.stream };

    ghost faults = { λ k. K.faults k.stream };

    fn write(&mut self, piece: &[u8]) -> Result<usize, Failed> {
        let count = self.stream.write(piece)?;
        self.keep(&piece[..count]);
        Ok(count)
    }
}
