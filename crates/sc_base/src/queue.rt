ghost use Rattle.std.specs.Prelude.{◌≡◌, ◌<◌, [], ◌∷◌, ◌++◌, length, drop, slice_get, IsTrue, ◌↔◌, IfOk, OnOk, OnErr, OnSome, MatchOption};
ghost use Rattle.std.specs.Option.{option_copied};

use crate::memory::NoMemory;
use crate::plain::Plain;
use std::alloc::{AllocError, Global};
use std::collections::VecDeque;
use std::marker::Model;

/// A queue, which contracts see as the list of its items, the front first. Both ends are reached in constant time.
#[derive(Debug, Drop)]
pub struct Queue<T> {
    items: VecDeque<T>,
}

impl<T> Model for Queue<T> {
    ghost use Rattle.std.specs.Prelude.{List};
    ghost use Rattle.std.specs.Coded.{coded_list};

    ghost Value = { List T };

    ghost coded = { coded_list T.code };

    ghost view = { λ q. q.items.items };
}

impl<T> Queue<T> {
    pub fn new(alloc: Global) -> Queue<T>
        ensures { result ≡ [] }
    {
        Queue {
            items: VecDeque::new(alloc),
        }
    }

    /// An empty queue whose first items, so many of them, take no further memory.
    pub fn with_room(alloc: Global, count: usize) -> Result<Queue<T>, NoMemory>
        ensures { IfOk result (λ q. q ≡ []) }
    {
        Ok(Queue {
            items: VecDeque::with_capacity(alloc, count)?,
        })
    }

    pub fn len(&self) -> usize
        ensures { result ≡ length self.now }
    {
        self.items.len()
    }

    pub fn is_empty(&self) -> bool
        ensures { IsTrue result ↔ (self.now ≡ []) }
    {
        self.items.is_empty()
    }

    /// The item at a place, counted from the front at 0; `None` where the queue has no item there.
    pub fn get(&self, place: usize) -> Option<&T>
        ensures value { option_copied result ≡ slice_get self.now place }
        ensures within { OnSome result (place < length self.now) }
    {
        self.items.get(place)
    }
}

impl<T> Queue<T> {
    /// The front, where there is one.
    pub fn front(&self) -> Option<&T>
        ensures { MatchOption result (self.now ≡ []) (λ front. self.now ≡ front.now ∷ drop 1 self.now) }
    {
        self.items.front()
    }
}

impl<T: Drop> Queue<T> {
    /// Puts an item at the back. Out of memory, the queue stays as it was.
    pub fn push(&mut self, item: T) -> Result<(), NoMemory>
        ensures ok { OnOk result (self.new ≡ self.old ++ item ∷ []) }
        ensures err { OnErr result (self.new ≡ self.old) }
    {
        self.items.push_back(item)?;
        Ok(())
    }

    /// Takes the front out.
    pub fn pop_front(&mut self) -> Option<T>
        ensures { MatchOption result ((self.old ≡ []) × (self.new ≡ [])) (λ first. self.old ≡ first ∷ self.new) }
    {
        self.items.pop_front()
    }
}

impl<T: Clone> Clone for Queue<T> {
    ghost is_clone = { λ s t. ((x y : T) → T.is_clone x y → y ≡ x) → t ≡ s };

    fn clone(&self) -> Result<Self, AllocError> {
        // Most queues are empty at most times.
        if self.items.is_empty() {
            return Ok(Queue::new(*self.items.allocator()));
        }
        Ok(Queue {
            items: self.items.clone()?,
        })
    }
}

impl<T: Plain> Plain for Queue<T> {
    ghost clone_equals = { λ s t h. h T.clone_equals };
}

impl<T: PartialEq> PartialEq for Queue<T> {
    ghost use Rattle.std.specs.Cmp.Lexicographic.{pointwise, lists_per};

    ghost eq = { pointwise T.eq };

    ghost laws = { lists_per T.laws };

    fn eq(&self, other: &Queue<T>) -> bool {
        self.items == other.items
    }
}

impl<T: Eq> Eq for Queue<T> {
    ghost use Rattle.std.specs.Cmp.Lexicographic.{lists_equiv};

    ghost laws = { lists_equiv T.Eq.laws };
}
