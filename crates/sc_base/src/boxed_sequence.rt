ghost use Rattle.std.specs.Prelude.{◌≡◌, [], IfOk};

use crate::memory::NoMemory;
use crate::plain::Plain;
use crate::sequence::Sequence;
use std::alloc::{AllocError, Global};
use std::marker::Model;

/// A list that is mostly empty and never changes, which contracts see as the list of its items. It takes less room than
/// a [`Sequence`], and memory of its own only where it has items.
#[derive(Debug, Drop)]
pub struct BoxedSequence<T> {
    items: Option<Box<Sequence<T>>>,
}

impl<T> Model for BoxedSequence<T> {
    ghost use Rattle.std.specs.Prelude.{List, [], unwrap_or};
    ghost use Rattle.std.specs.Option.{option_map};
    ghost use Rattle.std.specs.Coded.{coded_list};

    ghost Value = { List T };

    ghost coded = { coded_list T.code };

    ghost view = { λ s. unwrap_or (option_map (λ b. b.value) s.items) [] };
}

impl<T> BoxedSequence<T> {
    /// No items.
    pub fn empty() -> BoxedSequence<T>
        ensures { result ≡ [] }
    {
        BoxedSequence { items: None }
    }

    pub fn slice(&self) -> &[T]
        ensures { result.now ≡ self.now }
    {
        match &self.items {
            Some(items) => items.slice(),
            None => &[],
        }
    }
}

impl<T: Drop> BoxedSequence<T> {
    pub fn new(alloc: Global, items: Sequence<T>) -> Result<BoxedSequence<T>, NoMemory>
        ensures { IfOk result (λ s. s ≡ items) }
    {
        if items.is_empty() {
            return Ok(BoxedSequence::empty());
        }
        Ok(BoxedSequence {
            items: Some(Box::new(alloc, items)?),
        })
    }
}

impl<T: Clone> Clone for BoxedSequence<T> {
    ghost is_clone = { λ s t. ((x y : T) → T.is_clone x y → y ≡ x) → t ≡ s };

    fn clone(&self) -> Result<Self, AllocError> {
        match &self.items {
            Some(items) => Ok(BoxedSequence {
                items: Some(Box::new(items.allocator(), (**items).clone()?)?),
            }),
            None => Ok(BoxedSequence { items: None }),
        }
    }
}

impl<T: Plain> Plain for BoxedSequence<T> {
    ghost clone_equals = { λ s t h. h T.clone_equals };
}

impl<T: PartialEq> PartialEq for BoxedSequence<T> {
    ghost use Rattle.std.specs.Cmp.Lexicographic.{pointwise, lists_per};

    ghost eq = { pointwise T.eq };

    ghost laws = { lists_per T.laws };

    fn eq(&self, other: &BoxedSequence<T>) -> bool {
        self.slice() == other.slice()
    }
}

impl<T: Eq> Eq for BoxedSequence<T> {
    ghost use Rattle.std.specs.Cmp.Lexicographic.{lists_equiv};

    ghost laws = { lists_equiv T.Eq.laws };
}
