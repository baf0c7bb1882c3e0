ghost use Rattle.std.specs.Prelude.{◌≡◌, ◌-◌, ◌<◌, ◌≤◌, None, Some, [], ◌∷◌, ◌++◌, length, slice_get, slice_set, IsOk, OnOk, IfSome};
ghost use Rattle.std.specs.Option.{option_copied};
ghost use Rattle.std.specs.Borrow.{Lends, sem};
ghost use Rattle.sc_rooms.specs.Rooms.{place_of, AreDistinct};
ghost use Rattle.sc_rooms.specs.contracts.named.Named.{the_row};

use crate::name_index::NameIndex;
use sc_base::{NoMemory, Word};
use std::alloc::Global;
use std::marker::Model;

/// Items with distinct names and room for more, which contracts see as the list of the names and that of the items,
/// in the order in which they were added. A name is found at a cost that does not grow with their number.
#[derive(Drop)]
pub struct Named<T> {
    names: Vec<Word>,
    items: Vec<T>,
    index: NameIndex,
}

impl<T> Model for Named<T> {
    ghost use Rattle.std.specs.Prelude.{◌≡◌, length, vec_capacity};
    ghost use Rattle.sc_rooms.specs.Rooms.{NamedOf};
    ghost use Rattle.sc_rooms.specs.Chains.{IsIndex, HasRoom};

    ghost Value = { NamedOf T };

    ghost view = { λ n. record { names = n.names.items; items = n.items.items; spare = n.index.spare } };

    ghost invariant = { λ n. IsIndex n.names.items n.index × (length n.items.items ≡ length n.names.items)
        × HasRoom n.index.spare (length n.names.items) (vec_capacity n.names) (vec_capacity n.items) };
}

fn name_at(names: &[Word], place: usize) -> Option<&Word>
    ensures { option_copied result ≡ slice_get names.now place }
{
    names.get(place)
}

impl<T> Named<T> {
    /// No items, and room for none.
    pub fn new(alloc: Global) -> Named<T>
        ensures { result ≡ record { names = []; items = []; spare = 0 } }
    {
        Named {
            names: Vec::new(alloc),
            items: Vec::new(alloc),
            index: NameIndex::new(alloc),
        }
    }

    pub fn len(&self) -> usize
        ensures names { result ≡ length self.now.names }
        ensures items { result ≡ length self.now.items }
        ensures distinct { AreDistinct self.now.names }
    {
        self.names.len()
    }

    /// The place of a name, counted from 0 in the order in which the names were added.
    pub fn place_of(&self, name: &Word) -> Option<usize>
        ensures value { result ≡ place_of name.now self.now.names }
        ensures within { IfSome result (λ place. place < length self.now.items) }
    {
        self.index.place_of(self.names.as_slice(), name.bytes())
    }

    /// The item at a place.
    pub fn get(&self, place: usize) -> Option<&T>
        ensures { option_copied result ≡ slice_get self.now.items place }
    {
        self.items.get(place)
    }

    /// The name at a place.
    pub fn name(&self, place: usize) -> Option<&Word>
        ensures value { option_copied result ≡ slice_get self.now.names place }
        ensures found { IfSome result (λ name. place_of name.now self.now.names ≡ Some place) }
    {
        name_at(self.names.as_slice(), place)
    }

    /// The item at a place, to be changed there.
    pub fn item_mut(&mut self, place: usize) -> &mut T
        requires { place < length self.old.items }
        ensures* writes_back { sem 𝓛 (Lends (the_row T.row) T.row self.entry result
            (λ w. record self.old { items = slice_set self.old.items place w })) }
        ensures value { slice_get self.old.items place ≡ Some result.now }
    {
        &mut self.items[place]
    }
}

impl<T: Drop> Named<T> {
    /// Makes room for at least so many more items. Out of memory, nothing is changed.
    pub fn reserve(&mut self, count: usize) -> Result<(), NoMemory>
        ensures names { self.new.names ≡ self.old.names }
        ensures items { self.new.items ≡ self.old.items }
        ensures spare { self.old.spare ≤ self.new.spare }
        ensures ok { OnOk result (count ≤ self.new.spare) }
        ensures enough { count ≤ self.old.spare → IsOk result × (self.new ≡ self.old) }
    {
        if count <= self.index.spare() {
            return Ok(());
        }
        self.names.reserve(count)?;
        self.items.reserve(count)?;
        self.index.reserve(count)
    }

    /// Adds an item under a name that is new.
    pub fn add(&mut self, name: Word, item: T)
        requires room { 0 < self.old.spare }
        requires new { place_of name self.old.names ≡ None }
        ensures names { self.new.names ≡ self.old.names ++ name ∷ [] }
        ensures items { self.new.items ≡ self.old.items ++ item ∷ [] }
        ensures spare { self.new.spare ≡ self.old.spare - 1 }
    {
        self.index.add(self.names.as_slice(), name.bytes());
        self.names.push_reserved(name);
        self.items.push_reserved(item);
    }
}
