ghost use Rattle.std.specs.Prelude.{◌≡◌, ◌-◌, ◌<◌, ◌≤◌, [], ◌∷◌, ◌++◌, length, drop, slice_get, IsTrue, ◌↔◌, OnOk, OnErr, OnSome, MatchOption};
ghost use Rattle.std.specs.Iterator.Runs.{YieldsRefsInOrder};
ghost use Rattle.std.specs.Option.{option_copied};
ghost use Rattle.std.specs.VecDeque.Iter.{deque_iter_rest, deque_iter_steps};

use sc_base::NoMemory;
use std::alloc::Global;
use std::collections::{VecDeque, vec_deque};
use std::marker::Model;

/// A queue with room, which contracts see as the list of its items, the front first.
#[derive(Debug, Drop)]
pub struct RoomyQueue<T> {
    items: VecDeque<T>,
}

impl<T> Model for RoomyQueue<T> {
    ghost use Rattle.std.specs.Prelude.{◌-◌};
    ghost use Rattle.std.specs.VecDeque.{deque_len, deque_capacity};
    ghost use Rattle.sc_rooms.specs.Rooms.{RoomyOf};

    ghost Value = { RoomyOf T };

    ghost view = { λ q. record { items = q.items.items; spare = deque_capacity q.items - deque_len q.items } };
}

impl<T> RoomyQueue<T> {
    /// No items.
    pub fn new(alloc: Global) -> RoomyQueue<T>
        ensures { result.items ≡ [] }
    {
        RoomyQueue {
            items: VecDeque::new(alloc),
        }
    }

    pub fn len(&self) -> usize
        ensures { result ≡ length self.now.items }
    {
        self.items.len()
    }

    pub fn is_empty(&self) -> bool
        ensures { IsTrue result ↔ (self.now.items ≡ []) }
    {
        self.items.is_empty()
    }

    /// The item at a place, counted from the front at 0; `None` where the queue has no item there.
    pub fn get(&self, place: usize) -> Option<&T>
        ensures value { option_copied result ≡ slice_get self.now.items place }
        ensures within { OnSome result (place < length self.now.items) }
    {
        self.items.get(place)
    }

    /// The front, where there is one.
    pub fn front(&self) -> Option<&T>
        ensures { MatchOption result (self.now.items ≡ [])
            (λ front. self.now.items ≡ front.now ∷ drop 1 self.now.items) }
    {
        self.items.front()
    }

    /// The items one after another, the front first.
    pub fn iter(&self) -> vec_deque::Iter<'_, T>
        ensures items { deque_iter_rest result ≡ self.now.items }
        ensures runs { YieldsRefsInOrder (deque_iter_steps {X = T}) deque_iter_rest }
    {
        self.items.iter()
    }
}

impl<T: Drop> RoomyQueue<T> {
    /// Makes room for at least so many more items. Out of memory, the items stay as they were.
    pub fn reserve(&mut self, count: usize) -> Result<(), NoMemory>
        ensures items { self.new.items ≡ self.old.items }
        ensures spare { self.old.spare ≤ self.new.spare }
        ensures ok { OnOk result (count ≤ self.new.spare) }
    {
        self.items.reserve(count)?;
        Ok(())
    }

    /// Puts an item at the back.
    pub fn push(&mut self, item: T)
        requires { 0 < self.old.spare }
        ensures { self.new ≡ record { items = self.old.items ++ item ∷ []; spare = self.old.spare - 1 } }
    {
        self.items.push_back_reserved(item);
    }

    /// Takes the front out.
    pub fn pop_front(&mut self) -> Option<T>
        ensures items { MatchOption result ((self.old.items ≡ []) × (self.new.items ≡ []))
            (λ first. self.old.items ≡ first ∷ self.new.items) }
        ensures spare { self.old.spare ≤ self.new.spare }
    {
        self.items.pop_front()
    }

    /// Takes all items out.
    pub fn clear(&mut self)
        ensures items { self.new.items ≡ [] }
        ensures spare { self.old.spare ≤ self.new.spare }
    {
        self.items.clear();
    }
}
