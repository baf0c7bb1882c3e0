ghost use Rattle.std.specs.Prelude.{◌≡◌, [], ◌∷◌, ◌++◌, length, IsTrue, ◌↔◌, OnOk, OnErr, MatchOption};

use sc_base::{NoMemory, Plain};
use smallvec::SmallVec;
use std::alloc::{AllocError, Global};
use std::marker::Model;

/// How many numbers a list keeps in place.
const NUMBERS_IN_PLACE: usize = 8;

/// A growable list of the numbers of states or of transitions, which contracts see as a list. One of at most 8 numbers
/// takes no memory beside itself: most sessions are in few states, and most microsteps take, exit and enter few.
#[derive(Drop)]
pub struct ShortList {
    numbers: SmallVec<u32, NUMBERS_IN_PLACE>,
}

impl Model for ShortList {
    ghost use Rattle.std.specs.Prelude.{List, ℕ};

    ghost Value = { List ℕ };

    ghost view = { λ l. l.numbers.items };
}

impl ShortList {
    pub fn new(alloc: Global) -> ShortList
        ensures { result ≡ [] }
    {
        ShortList {
            numbers: SmallVec::new(alloc),
        }
    }

    pub fn len(&self) -> usize
        ensures { result ≡ length self.now }
    {
        self.numbers.len()
    }

    pub fn is_empty(&self) -> bool
        ensures { IsTrue result ↔ (self.now ≡ []) }
    {
        self.numbers.is_empty()
    }

    pub fn slice(&self) -> &[u32]
        ensures { result.now ≡ self.now }
    {
        self.numbers.as_slice()
    }

    /// Puts a number at the end. Out of memory, the list stays as it was.
    pub fn push(&mut self, number: u32) -> Result<(), NoMemory>
        ensures ok { OnOk result (self.new ≡ self.old ++ number ∷ []) }
        ensures err { OnErr result (self.new ≡ self.old) }
    {
        self.numbers.push(number)?;
        Ok(())
    }

    /// Takes the last number out.
    pub fn pop(&mut self) -> Option<u32>
        ensures { MatchOption result ((self.old ≡ []) × (self.new ≡ [])) (λ last. self.old ≡ self.new ++ last ∷ []) }
    {
        self.numbers.pop()
    }
}

impl Clone for ShortList {
    ghost is_clone = { λ l copy. copy ≡ l };

    fn clone(&self) -> Result<Self, AllocError> {
        let numbers = SmallVec::from_slice(*self.numbers.allocator(), self.numbers.as_slice())?;
        Ok(ShortList { numbers })
    }
}

impl Plain for ShortList {
    ghost clone_equals = { λ l copy same. same };
}

impl PartialEq for ShortList {
    ghost use Rattle.std.specs.Prelude.{nat_eq};
    ghost use Rattle.std.specs.Cmp.{partial_equiv_from_equiv};
    ghost use Rattle.std.specs.Cmp.Lexicographic.{pointwise, nat_list_eq_equiv};

    ghost eq = { pointwise nat_eq };

    ghost laws = { partial_equiv_from_equiv nat_list_eq_equiv };

    fn eq(&self, other: &ShortList) -> bool {
        self.numbers.as_slice() == other.numbers.as_slice()
    }
}

impl Eq for ShortList {
    ghost use Rattle.std.specs.Cmp.Lexicographic.{nat_list_eq_equiv};

    ghost laws = { nat_list_eq_equiv };
}
