ghost use Rattle.std.specs.Prelude.{◌≡◌, ◌<◌, ◌≤◌, ◌==◌, nat_le, not, find, filter, replicate, [], IfOk, IfSome};
ghost use Rattle.std.specs.List.{list_any};
ghost use Rattle.sc_base.specs.Ascending.{contains, with_number, joined};
ghost use Rattle.sc_bits.specs.Rows.{IsAscending};

use crate::words::{
    clear_bit, clear_words, has_bit, join_words, meet_words, minus_words, next_bit, set_bit,
    words_meet,
};
use sc_base::NoMemory;
use smallvec::SmallVec;
use std::alloc::Global;
use std::marker::Model;

/// How many words a row keeps in place: those of 128 numbers.
const WORDS_IN_PLACE: usize = 2;

/// A set of numbers below a width, seen as the ascending list of its members. A row of at most 128 numbers takes no
/// memory beside itself.
#[derive(Debug, Drop)]
pub struct Row {
    width: u32,
    words: SmallVec<u64, WORDS_IN_PLACE>,
}

impl Model for Row {
    ghost use Rattle.sc_bits.specs.Rows.{RowOf};
    ghost use Rattle.sc_bits.specs.Words.{bit_of, numbers, Holds};

    ghost Value = { RowOf };

    ghost view = { λ r. record { width = r.width; members = numbers (bit_of r.words.items) 0 r.width } };

    ghost invariant = { λ r. Holds r.width r.words.items };
}

/// So many words of 0.
fn zeros(alloc: Global, count: usize) -> Result<SmallVec<u64, WORDS_IN_PLACE>, NoMemory>
    ensures { IfOk result (λ words. words.items ≡ replicate count 0) }
{
    if count <= WORDS_IN_PLACE {
        return Ok(SmallVec::from_buf_and_len(alloc, [0u64; WORDS_IN_PLACE], count));
    }
    Ok(SmallVec::from_vec(vec![in alloc; 0u64; count]?))
}

impl Row {
    /// The empty row of a width.
    pub fn new(alloc: Global, width: u32) -> Result<Row, NoMemory>
        ensures { IfOk result (λ r. r ≡ record { width = width; members = [] }) }
    {
        let words = zeros(alloc, width.div_ceil(64) as usize)?;
        Ok(Row { width, words })
    }

    /// Another row with the same members.
    pub fn copy(&self, alloc: Global) -> Result<Row, NoMemory>
        ensures { IfOk result (λ r. r ≡ self.now) }
    {
        let words = SmallVec::from_slice(alloc, self.words.as_slice())?;
        Ok(Row {
            width: self.width,
            words,
        })
    }

    pub fn add(&mut self, n: u32)
        requires { n < self.old.width }
        ensures { self.new ≡ record self.old { members = with_number n self.old.members } }
    {
        set_bit(self.words.as_mut_slice(), n);
    }

    pub fn take(&mut self, n: u32)
        requires { n < self.old.width }
        ensures { self.new ≡ record self.old { members = filter (λ m. not (m == n)) self.old.members } }
    {
        clear_bit(self.words.as_mut_slice(), n);
    }

    pub fn has(&self, n: u32) -> bool
        requires { n < self.now.width }
        ensures { result ≡ contains self.now.members n }
    {
        has_bit(self.words.as_slice(), n)
    }

    /// Adds all members of the other row.
    pub fn join(&mut self, other: &Row)
        requires { self.old.width ≡ other.now.width }
        ensures { self.new ≡ record self.old { members = joined self.old.members other.now.members } }
    {
        join_words(self.words.as_mut_slice(), other.words.as_slice());
    }

    /// Keeps the members that the other row has too.
    pub fn meet(&mut self, other: &Row)
        requires { self.old.width ≡ other.now.width }
        ensures { self.new ≡ record self.old { members = filter (λ m. contains other.now.members m) self.old.members } }
    {
        meet_words(self.words.as_mut_slice(), other.words.as_slice());
    }

    /// Takes all members of the other row out.
    pub fn minus(&mut self, other: &Row)
        requires { self.old.width ≡ other.now.width }
        ensures { self.new
            ≡ record self.old { members = filter (λ m. not (contains other.now.members m)) self.old.members } }
    {
        minus_words(self.words.as_mut_slice(), other.words.as_slice());
    }

    /// Takes over the members of the other row.
    pub fn copy_from(&mut self, other: &Row)
        requires { self.old.width ≡ other.now.width }
        ensures { self.new ≡ other.now }
    {
        self.words
            .as_mut_slice()
            .copy_from_slice(other.words.as_slice());
    }

    /// Whether the rows have a member in common.
    pub fn meets(&self, other: &Row) -> bool
        requires { self.now.width ≡ other.now.width }
        ensures { result ≡ list_any (λ m. contains other.now.members m) self.now.members }
    {
        words_meet(self.words.as_slice(), other.words.as_slice())
    }

    /// The first member that is at least `from`.
    pub fn next(&self, from: u32) -> Option<u32>
        ensures value { result ≡ find (λ m. nat_le from m) self.now.members }
        ensures within { IfSome result (λ n. (from ≤ n) × (n < self.now.width)) }
        ensures form { IsAscending 0 self.now.width self.now.members }
    {
        next_bit(self.words.as_slice(), from)
    }

    pub fn clear(&mut self)
        ensures { self.new ≡ record self.old { members = [] } }
    {
        clear_words(self.words.as_mut_slice());
    }
}
