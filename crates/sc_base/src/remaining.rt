ghost use Rattle.std.specs.Prelude.{◌≡◌, [], ◌∷◌, MatchOption};

use crate::sequence::Sequence;
use std::marker::Model;

/// The items of a list that are still to be taken, the first of them first. Memory is given back as they are taken:
/// there is never room for more than twice as many as are left.
#[derive(Debug, Drop)]
pub struct Remaining<T> {
    /// The one to be taken next stands last.
    items: Vec<T>,
}

impl<T> Model for Remaining<T> {
    ghost use Rattle.std.specs.Prelude.{List, reverse};
    ghost use Rattle.std.specs.Coded.{coded_list};

    ghost Value = { List T };

    ghost coded = { coded_list T.code };

    ghost view = { λ r. reverse r.items.items };
}

impl<T: Drop> Remaining<T> {
    /// All items of the list. Nothing is copied.
    pub fn new(items: Sequence<T>) -> Remaining<T>
        ensures { result ≡ items }
    {
        let mut items = items.into_vec();
        items.reverse();
        Remaining { items }
    }

    /// Takes the first item out.
    pub fn take_first(&mut self) -> Option<T>
        ensures { MatchOption result ((self.old ≡ []) × (self.new ≡ [])) (λ first. self.old ≡ first ∷ self.new) }
    {
        let first = self.items.pop();
        if self.items.len() <= self.items.capacity() / 2 {
            self.items.shrink_to_fit();
        }
        first
    }
}
