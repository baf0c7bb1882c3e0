ghost use Rattle.std.specs.Prelude.{◌≡◌, ◌<◌, ◌≤◌, [], ◌++◌, false, length, take, true};
ghost use Rattle.sc_report.specs.declared.piece.TheConstants.{PIECE};

use arrayvec::ArrayVec;
use std::marker::Model;

/// How many bytes are written at once.
pub(crate) const PIECE: usize = 16_384;

/// Bytes that wait to be written together.
#[derive(Drop)]
pub(crate) struct Piece {
    bytes: ArrayVec<u8, PIECE>,
}

impl Model for Piece {
    ghost use Rattle.std.specs.Prelude.{ℕ, List};

    ghost Value = { List ℕ };

    ghost view = { λ p. p.bytes.items };
}

impl Piece {
    pub(crate) fn new() -> Piece
        ensures { result ≡ [] }
    {
        Piece {
            bytes: ArrayVec::new(),
        }
    }

    /// Adds bytes where there is room for all of them, and answers whether there is.
    #[inline(always)]
    pub(crate) fn add_all(&mut self, bytes: &[u8]) -> bool
        ensures added { result ≡ true → self.new ≡ self.old ++ bytes.now }
        ensures full { result ≡ false → self.new ≡ self.old }
    {
        self.bytes.try_extend_from_slice(bytes).is_ok()
    }

    /// Adds the first of some bytes, so many as there is room for, and answers how many they are.
    pub(crate) fn add(&mut self, bytes: &[u8]) -> usize
        ensures added { self.new ≡ self.old ++ take result bytes.now }
        ensures within { result ≤ length bytes.now }
        ensures some { 0 < length bytes.now → length self.old < PIECE → 0 < result }
    {
        let count = bytes.len().min(self.bytes.remaining_capacity());
        match self.bytes.try_extend_from_slice(&bytes[..count]) {
            Ok(()) => count,
            Err(_) => unreachable!(),
        }
    }

    pub(crate) fn is_full(&self) -> bool
        ensures { result ≡ false → length self.now < PIECE }
    {
        self.bytes.is_full()
    }

    pub(crate) fn slice(&self) -> &[u8]
        ensures { result.now ≡ self.now }
    {
        self.bytes.as_slice()
    }

    pub(crate) fn clear(&mut self)
        ensures { self.new ≡ [] }
    {
        self.bytes.clear();
    }
}
