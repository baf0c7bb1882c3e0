ghost use Rattle.std.specs.Prelude.{◌≡◌, ◌+◌, ◌-◌, ◌<◌, ◌≤◌, Some, [], length, insert, remove, slice_get, IsOk, OnOk, OnErr, max};
ghost use Rattle.std.specs.Prelude.{vec_capacity};
ghost use Rattle.sc_ranks.specs.Ranks.{place_of, IsRising};

use crate::entry::Entry;
use crate::node::{Link, Node, entry_at, fresh, place_of, size};
use crate::tree::{inserted, removed};
use sc_base::NoMemory;
use std::alloc::Global;
use std::marker::Model;

/// A list of ranked keys with room for more.
#[derive(Drop)]
pub struct Ranks {
    alloc: Global,
    root: Option<Box<Node>>,
    // Nodes for entries to come. There is room for the nodes of the entries too, once they are taken out.
    nodes: Vec<Box<Node>>,
}

impl Model for Ranks {
    ghost use Rattle.std.specs.Prelude.{◌+◌, ◌≤◌, length, vec_capacity};
    ghost use Rattle.sc_ranks.specs.Ranks.{RanksOf};
    ghost use Rattle.sc_ranks.specs.Nodes.{linked};

    ghost Value = { RanksOf };

    ghost view = { λ r. record { entries = linked r.root; spare = length r.nodes.items } };

    ghost invariant = { λ r. length (linked r.root) + length r.nodes.items ≤ vec_capacity r.nodes };
}

// Makes nodes until there are so many.
fn fill(alloc: Global, nodes: &mut Vec<Box<Node>>, count: usize) -> Result<(), NoMemory>
    requires { count ≤ vec_capacity nodes.old }
    ensures more { length nodes.old.items ≤ length nodes.new.items }
    ensures most { length nodes.new.items ≤ max (length nodes.old.items) count }
    ensures ok { OnOk result (count ≤ length nodes.new.items) }
    ensures capacity { vec_capacity nodes.new ≡ vec_capacity nodes.old }
{
    while nodes.len() < count {
        let node = fresh(alloc)?;
        nodes.push_reserved(node);
    }
    Ok(())
}

impl Ranks {
    /// No entries, and room for none.
    pub fn new(alloc: Global) -> Ranks
        ensures { result ≡ record { entries = []; spare = 0 } }
    {
        Ranks {
            alloc,
            root: None,
            nodes: Vec::new(alloc),
        }
    }

    pub fn len(&self) -> usize
        ensures { result ≡ length self.now.entries }
    {
        size(&self.root)
    }

    /// Makes room for at least so many more entries. Out of memory, the entries stay as they were.
    pub fn reserve(&mut self, count: usize) -> Result<(), NoMemory>
        ensures entries { self.new.entries ≡ self.old.entries }
        ensures spare { self.old.spare ≤ self.new.spare }
        ensures ok { OnOk result (count ≤ self.new.spare) }
        ensures enough { count ≤ self.old.spare → IsOk result × (self.new ≡ self.old) }
    {
        if count <= self.nodes.len() {
            return Ok(());
        }
        let Some(room) = size(&self.root).checked_add(count - self.nodes.len()) else {
            return Err(NoMemory);
        };
        self.nodes.reserve(room)?;
        fill(self.alloc, &mut self.nodes, count)
    }

    /// The entry at a place, counted from 0.
    pub fn get(&self, place: usize) -> Option<Entry>
        ensures { result ≡ slice_get self.now.entries place }
    {
        entry_at(&self.root, place)
    }

    /// The place of the first entry that does not rank before this rank, or the end.
    pub fn place_of(&self, first: u64, number: u64) -> usize
        requires { IsRising self.now.entries }
        ensures { result ≡ place_of first number self.now.entries }
    {
        place_of(&self.root, first, number)
    }

    /// Puts an entry in at a place.
    pub fn insert(&mut self, place: usize, entry: Entry)
        requires room { 0 < self.old.spare }
        requires place { place ≤ length self.old.entries }
        ensures entries { self.new.entries ≡ insert self.old.entries place entry }
        ensures spare { self.new.spare ≡ self.old.spare - 1 }
    {
        let Some(node) = self.nodes.pop() else {
            unreachable!();
        };
        let root = self.root.take();
        self.root = Some(inserted(root, place, entry, node));
    }

    /// Takes the entry at a place out.
    pub fn remove(&mut self, place: usize) -> Entry
        requires { place < length self.old.entries }
        ensures entry { slice_get self.old.entries place ≡ Some result }
        ensures entries { self.new.entries ≡ remove self.old.entries place }
        ensures spare { self.new.spare ≡ self.old.spare + 1 }
    {
        let Some(root) = self.root.take() else {
            unreachable!();
        };
        let taken = removed(root, place);
        self.root = taken.rest;
        self.nodes.push_reserved(taken.node);
        taken.entry
    }
}
