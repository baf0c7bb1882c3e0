ghost use Rattle.std.specs.Prelude.{ℕ, ◌≡◌, ◌<◌, ◌≤◌, [], ◌++◌, List, true, false, length, map, take, OnOk, OnErr, codes};
ghost use Rattle.std.specs.Io.KnownBytes.{Appends};
ghost use Rattle.sc_dev.specs.Causes.{Rose};
ghost use Rattle.sc_dev.specs.Transfer.{AppendsPart};
ghost use Rattle.sc_report.specs.Outlets.{Writes, joined, seen};
ghost use Rattle.sc_report.specs.Lines.{line};

use crate::piece::Piece;
use itoa::{Buffer, Integer};
use sc_dev::{Failed, Sink, write_all};

/// Where a text is put that goes to a sink in pieces. Once the sink has failed nothing more is written, and what is put
/// is lost; so whoever puts a text asks only at its end.
#[derive(Drop)]
pub(crate) struct Outlet<'k, K: Sink> {
    sink: &'k mut K,
    piece: Piece,
    has_failed: bool,
}

impl<'k, K: Sink> Outlet<'k, K> {
    pub(crate) fn new(sink: &'k mut K) -> Outlet<'k, K>
        ensures sink { (result.sink.ghost_name ≡ sink.entry.ghost_name) × (result.sink.now ≡ sink.old) }
        ensures empty { result.piece ≡ [] }
        ensures fine { result.has_failed ≡ false }
    {
        Outlet {
            sink,
            piece: Piece::new(),
            has_failed: false,
        }
    }

    /// Puts bytes behind what was put before. Most find room in the piece as they are.
    #[inline(always)]
    pub(crate) fn bytes(&mut self, bytes: &[u8])
        ensures { Writes K.taken K.faults self.old self.new bytes.now }
    {
        if !self.piece.add_all(bytes) {
            self.in_pieces(bytes);
        }
    }

    /// Puts bytes behind what was put before, handing on each piece that they fill.
    #[inline(never)]
    fn in_pieces(&mut self, bytes: &[u8])
        ensures { Writes K.taken K.faults self.old self.new bytes.now }
    {
        let mut at = 0;
        while at < bytes.len() {
            at += self.add(&bytes[at..]);
        }
    }

    /// Puts the first of some bytes, and answers how many they are.
    fn add(&mut self, bytes: &[u8]) -> usize
        requires { 0 < length bytes.now }
        ensures puts { Writes K.taken K.faults self.old self.new (take result bytes.now) }
        ensures some { 0 < result }
        ensures within { result ≤ length bytes.now }
    {
        if self.piece.is_full() {
            self.hand_on();
        }
        self.piece.add(bytes)
    }

    /// Puts texts one behind another.
    #[inline(always)]
    pub(crate) fn texts(&mut self, texts: &[&[u8]])
        ensures { Writes K.taken K.faults self.old self.new (joined (map (λ t. t.now) texts.now)) }
    {
        for text in texts {
            self.bytes(text);
        }
    }

    /// Puts a number in decimal digits.
    #[inline(always)]
    pub(crate) fn number<I: Integer>(&mut self, number: I)
        ensures { Writes K.taken K.faults self.old self.new (I.text number) }
    {
        let mut digits = Buffer::new();
        self.bytes(digits.format(number).as_bytes());
    }

    /// Puts a word and a number behind it.
    #[inline(always)]
    pub(crate) fn counted<I: Integer>(&mut self, word: &[u8], number: I)
        ensures { Writes K.taken K.faults self.old self.new (word.now ++ I.text number) }
    {
        let mut digits = Buffer::new();
        self.texts(&[word, digits.format(number).as_bytes()]);
    }

    /// Puts a line of a word and a number.
    pub(crate) fn counted_line<I: Integer>(&mut self, word: &[u8], number: I)
        ensures { Writes K.taken K.faults self.old self.new (line (word.now ++ I.text number)) }
    {
        self.counted(word, number);
        self.end_line();
    }

    pub(crate) fn end_line(&mut self)
        ensures { Writes K.taken K.faults self.old self.new (codes "\n") }
    {
        self.bytes(b"\n");
    }

    /// Hands on what still waits, and says whether the sink has failed.
    pub(crate) fn close(&mut self) -> Result<(), Failed>
        ensures puts { Writes K.taken K.faults self.old self.new [] }
        ensures empty { self.new.piece ≡ [] }
        ensures ok { OnOk result (self.new.has_failed ≡ false) }
        ensures err { OnErr result (self.new.has_failed ≡ true) }
    {
        self.hand_on();
        if self.has_failed { Err(Failed) } else { Ok(()) }
    }

    /// Hands the waiting bytes on to the sink.
    fn hand_on(&mut self)
        ensures puts { Writes K.taken K.faults self.old self.new [] }
        ensures empty { self.new.piece ≡ [] }
    {
        self.has_failed = write_piece(self.sink, self.piece.slice(), self.has_failed);
        self.piece.clear();
    }
}

/// Writes a piece, unless the sink has failed before, and says whether it has failed.
fn write_piece<K: Sink>(sink: &mut K, piece: &[u8], has_failed: bool) -> bool
    ensures passed { has_failed ≡ true → (result ≡ true) × (sink.new ≡ sink.old) }
    ensures wrote { has_failed ≡ false → result ≡ false → Appends (K.taken sink.old) (K.taken sink.new) piece.now }
    ensures lost { has_failed ≡ false → result ≡ true → AppendsPart (K.taken sink.old) (K.taken sink.new) piece.now }
    ensures rose { has_failed ≡ false → result ≡ true → Rose (K.faults sink.old) (K.faults sink.new) }
    ensures later { K.faults sink.old ≤ K.faults sink.new }
{
    if has_failed {
        return true;
    }
    write_all(sink, piece).is_err()
}
