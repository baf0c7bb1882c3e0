ghost use Rattle.std.specs.Prelude.{◌≡◌, ◌+◌, ◌<◌, ◌≤◌, ◌++◌, [], ◌∷◌, List, IfErr, IfOk, IsTrue, OnOk, length, slice_get, vec_capacity};
ghost use Rattle.std.specs.Option.{option_map};
ghost use Rattle.sc_core.specs.Keeping.{AreWithin, IsShort, IsWithin, entries_of, entry_of, spare_of};
ghost use Rattle.sc_core.specs.Showing.{shown_entry};
ghost use Rattle.sc_types.specs.declared.history.Entry.{Entry as EntryOf};

use sc_base::{NoMemory, Word};
use sc_types::{Command, CueName, Entry, Reply, Who};
use std::alloc::Global;

/// An entry as a history keeps it. Of a long run nearly all are posts without data and steps that neither log nor send,
/// and so kept they take half the memory of an entry.
#[derive(Debug, Drop)]
pub(crate) enum Kept {
    /// A post without data, whose event got this number.
    Posted {
        who: Who,
        session: Word,
        event: Word,
        number: u128,
    },
    /// A step that neither logged nor sent.
    Stepped {
        who: Who,
        session: Word,
        cue: CueName,
    },
    /// Any other, by its place among those that are kept whole.
    Whole(usize),
}

/// An entry of a history as it is looked at.
#[derive(Clone, Copy)]
pub enum Shown<'h> {
    /// A post without data, whose event got this number.
    Posted {
        who: Who,
        session: &'h Word,
        event: &'h Word,
        number: u128,
    },
    /// A step that neither logged nor sent.
    Stepped {
        who: Who,
        session: &'h Word,
        cue: CueName,
    },
    /// Any other.
    Whole(&'h Entry),
}

/// The entries of a history, in order.
#[derive(Drop)]
pub(crate) struct Store {
    kept: Vec<Kept>,
    whole: Vec<Entry>,
}

fn is_short(entry: &Entry) -> bool
    ensures { IsTrue result → IsShort entry.now }
{
    if !entry.logs.slice().is_empty() || !entry.sent.is_empty() {
        return false;
    }
    match (&entry.command, &entry.reply) {
        (Command::Post { pairs, .. }, Reply::Posted(_)) => pairs.is_empty(),
        (Command::Step { .. }, Reply::Stepped(_)) => true,
        _ => false,
    }
}

/// An entry in its short form, or the entry where it has none.
fn short(entry: Entry) -> Result<Kept, Entry>
    ensures short { IfOk result (λ k. (whole : List EntryOf) → (entry_of whole k ≡ entry) × IsWithin 0 k) }
    ensures whole { IfErr result (λ e. e ≡ entry) }
{
    if !is_short(&entry) {
        return Err(entry);
    }
    let Entry {
        reply,
        who,
        command,
        ..
    } = entry;
    match (command, reply) {
        (Command::Post { session, event, .. }, Reply::Posted(number)) => Ok(Kept::Posted {
            who,
            session,
            event,
            number,
        }),
        (Command::Step { session }, Reply::Stepped(cue)) => Ok(Kept::Stepped { who, session, cue }),
        _ => unreachable!(),
    }
}

/// Adds an item, for which there is room.
fn put<T: Drop>(list: &mut Vec<T>, item: T)
    requires room { length list.old.items < vec_capacity list.old }
    ensures items { list.new.items ≡ list.old.items ++ item ∷ [] }
    ensures capacity { vec_capacity list.old ≤ vec_capacity list.new }
{
    match list.push(item) {
        Ok(()) => {}
        Err(_) => unreachable!(),
    }
}

impl Store {
    pub(crate) fn new(alloc: Global) -> Store
        ensures entries { entries_of result ≡ [] }
        ensures spare { spare_of result ≡ 0 }
        ensures within { AreWithin result }
    {
        Store {
            kept: Vec::new(alloc),
            whole: Vec::new(alloc),
        }
    }

    pub(crate) fn len(&self) -> usize
        ensures { result ≡ length (entries_of self.now) }
    {
        self.kept.len()
    }

    /// Makes room for one more entry at least.
    pub(crate) fn reserve(&mut self) -> Result<(), NoMemory>
        ensures entries { entries_of self.new ≡ entries_of self.old }
        ensures within { AreWithin self.old → AreWithin self.new }
        ensures spare { spare_of self.old ≤ spare_of self.new }
        ensures ok { OnOk result (1 ≤ spare_of self.new) }
    {
        self.kept.reserve(1)?;
        self.whole.reserve(1)?;
        Ok(())
    }

    /// Adds an entry behind the others.
    pub(crate) fn push(&mut self, entry: Entry)
        requires within { AreWithin self.old }
        requires room { 0 < spare_of self.old }
        ensures entries { entries_of self.new ≡ entries_of self.old ++ entry ∷ [] }
        ensures within { AreWithin self.new }
        ensures spare { spare_of self.old ≤ spare_of self.new + 1 }
    {
        match short(entry) {
            Ok(kept) => put(&mut self.kept, kept),
            Err(entry) => {
                let place = self.whole.len();
                put(&mut self.whole, entry);
                put(&mut self.kept, Kept::Whole(place));
            }
        }
    }

    /// The entry at a place, counted from 0; `None` where there is none.
    pub(crate) fn get(&self, place: usize) -> Option<Shown<'_>>
        requires within { AreWithin self.now }
        ensures { option_map shown_entry result ≡ slice_get (entries_of self.now) place }
    {
        match self.kept.get(place)? {
            Kept::Posted {
                who,
                session,
                event,
                number,
            } => Some(Shown::Posted {
                who: *who,
                session,
                event,
                number: *number,
            }),
            Kept::Stepped { who, session, cue } => Some(Shown::Stepped {
                who: *who,
                session,
                cue: *cue,
            }),
            Kept::Whole(place) => match self.whole.get(*place) {
                Some(entry) => Some(Shown::Whole(entry)),
                None => unreachable!(),
            },
        }
    }
}
