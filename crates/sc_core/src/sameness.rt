ghost use Rattle.std.specs.Prelude.{◌≡◌, ◌↔◌, IsTrue};
ghost use Rattle.std.specs.Option.{option_copied};

use sc_base::{Bytes, PlainName, Queue, Sequence, Shared};
use sc_types::ShortList;

/// What can be seen to be the same.
pub(crate) trait Same {
    /// Whether both are the same.
    fn same(&self, other: &Self) -> bool
        ensures { IsTrue result ↔ (self.now ≡ other.now) };
}

/// Whether two lists have the same items.
pub(crate) fn all_same<T: Same>(a: &[T], b: &[T]) -> bool
    ensures { IsTrue result ↔ (a.now ≡ b.now) }
{
    if a.len() != b.len() {
        return false;
    }
    for i in 0..a.len() {
        if !a[i].same(&b[i]) {
            return false;
        }
    }
    true
}

fn both_same<T: Same>(a: Option<&T>, b: Option<&T>) -> bool
    ensures { IsTrue result ↔ (option_copied a.entry ≡ option_copied b.entry) }
{
    match (a, b) {
        (Some(x), Some(y)) => x.same(y),
        (None, None) => true,
        _ => false,
    }
}

impl<T: Same> Same for Sequence<T> {
    fn same(&self, other: &Self) -> bool {
        all_same(self.slice(), other.slice())
    }
}

impl Same for ShortList {
    fn same(&self, other: &Self) -> bool {
        all_same(self.slice(), other.slice())
    }
}

impl<T: Same> Same for Queue<T> {
    #[tactic(auto, using(crate::proofs::SamenessLemmas::take_more_got))]
    fn same(&self, other: &Self) -> bool {
        if self.len() != other.len() {
            return false;
        }
        for i in 0..self.len() {
            if !both_same(self.get(i), other.get(i)) {
                return false;
            }
        }
        true
    }
}

impl<T: Same> Same for Option<T> {
    fn same(&self, other: &Self) -> bool {
        match (self, other) {
            (Some(x), Some(y)) => x.same(y),
            (None, None) => true,
            _ => false,
        }
    }
}

impl<A: Same, B: Same> Same for (A, B) {
    fn same(&self, other: &Self) -> bool {
        self.0.same(&other.0) && self.1.same(&other.1)
    }
}

impl<T: Same> Same for Shared<T> {
    fn same(&self, other: &Self) -> bool {
        self.get().same(other.get())
    }
}

impl Same for u32 {
    fn same(&self, other: &Self) -> bool {
        *self == *other
    }
}

impl Same for Bytes {
    fn same(&self, other: &Self) -> bool {
        *self == *other
    }
}

impl Same for PlainName {
    fn same(&self, other: &Self) -> bool {
        *self == *other
    }
}
