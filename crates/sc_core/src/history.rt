ghost use Rattle.std.specs.Prelude.{◌≡◌, ◌+◌, ◌<◌, ◌≤◌, ◌↔◌, [], ◌∷◌, ◌++◌, slice_get, length, IsTrue, OnOk};
ghost use Rattle.std.specs.Option.{option_map};
ghost use Rattle.sc_machine.specs.Accepted.{accepted_steps, is_accepted_step};
ghost use Rattle.sc_core.specs.Showing.{shown_entry};

use crate::kept::{Shown, Store};
use sc_base::NoMemory;
use sc_types::{Command, Entry, Reply};
use std::alloc::Global;
use std::marker::Model;

/// What happened in a run, one entry for each command that was answered. Room for an entry is made before it is
/// added, so that a command which was acknowledged is never left out for want of memory.
#[derive(Drop)]
pub struct History {
    store: Store,
    /// How many of them are accepted steps.
    steps: u64,
}

impl Model for History {
    ghost use Rattle.sc_core.specs.Closing.{HistoryOf};
    ghost use Rattle.sc_types.specs.contracts.history.Entry as entry_type;
    ghost use Rattle.std.specs.Coded.{codes};

    ghost Value = { HistoryOf };

    ghost coded = { Prim.hlevel (codes, entry_type.the_row.coded) };

    ghost use Rattle.sc_core.specs.Keeping.{IsKept, entries_of, spare_of};

    ghost view = { λ h. record { entries = entries_of h.store; spare = spare_of h.store } };

    ghost invariant = { λ h. IsKept h.store h.steps };
}

/// Whether an entry is a step that was accepted.
fn is_accepted_step(entry: &Entry) -> bool
    ensures { result ≡ is_accepted_step entry.now.command entry.now.reply }
{
    match &entry.command {
        Command::Step { .. } => matches!(&entry.reply, Reply::Stepped(_)),
        _ => false,
    }
}

impl History {
    /// No entries, and room for none.
    pub fn new(alloc: Global) -> History
        ensures { result ≡ record { entries = []; spare = 0 } }
    {
        History {
            store: Store::new(alloc),
            steps: 0,
        }
    }

    /// Makes room for one more entry at least. Out of memory, the entries stay as they were.
    pub fn reserve(&mut self) -> Result<(), NoMemory>
        ensures entries { self.new.entries ≡ self.old.entries }
        ensures spare { self.old.spare ≤ self.new.spare }
        ensures ok { OnOk result (1 ≤ self.new.spare) }
    {
        self.store.reserve()
    }

    /// Adds an entry behind the others.
    pub fn push(&mut self, entry: Entry)
        requires { 0 < self.old.spare }
        ensures entries { self.new.entries ≡ self.old.entries ++ entry ∷ [] }
        ensures spare { self.old.spare ≤ self.new.spare + 1 }
    {
        if is_accepted_step(&entry) {
            self.steps += 1;
        }
        self.store.push(entry);
    }

    /// How many entries are steps that were accepted.
    pub fn steps(&self) -> u64
        ensures { result ≡ accepted_steps self.now.entries }
    {
        self.steps
    }

    pub fn len(&self) -> usize
        ensures { result ≡ length self.now.entries }
    {
        self.store.len()
    }

    pub fn is_empty(&self) -> bool
        ensures { IsTrue result ↔ (self.now.entries ≡ []) }
    {
        self.store.len() == 0
    }

    /// The entry at a place, counted from 0; `None` where there is none.
    pub fn get(&self, place: usize) -> Option<Shown<'_>>
        ensures { option_map shown_entry result ≡ slice_get self.now.entries place }
    {
        self.store.get(place)
    }
}
