ghost use Rattle.std.specs.Prelude.{◌≡◌, ◌-◌, ◌<◌, ◌≤◌, [], ◌∷◌, ◌++◌, length, OnOk};
ghost use Rattle.sc_book.specs.Keeping.{IsSameLog, HasRoom};

use crate::doubt::Doubt;
use sc_base::{Bytes, NoMemory};
use sc_core::History;
use sc_rooms::RoomyQueue;
use sc_types::Entry;
use std::alloc::Global;

/// What happened since the opening: the entries, the disk's moment at the end of each, and the commands that a fault
/// left in doubt.
#[derive(Drop)]
pub(crate) struct Log {
    pub(crate) history: History,
    pub(crate) moments: RoomyQueue<u64>,
    pub(crate) doubts: RoomyQueue<Doubt>,
    /// The body of the last command that was accepted, or nothing where memory was out for one since. The next one is
    /// made in its memory.
    pub(crate) body: Bytes,
}

impl Log {
    pub(crate) fn new(alloc: Global) -> Log
        ensures history { result.history.entries ≡ [] }
        ensures moments { result.moments.items ≡ [] }
        ensures doubts { result.doubts.items ≡ [] }
    {
        Log {
            history: History::new(alloc),
            moments: RoomyQueue::new(alloc),
            doubts: RoomyQueue::new(alloc),
            body: Bytes::new(alloc),
        }
    }

    /// Makes room for an entry or a doubt.
    pub(crate) fn reserve(&mut self) -> Result<(), NoMemory>
        ensures same { IsSameLog self.old self.new }
        ensures room { OnOk result (HasRoom self.new) }
    {
        self.history.reserve()?;
        self.moments.reserve(1)?;
        self.doubts.reserve(1)
    }

    /// Adds an entry that ended at this moment of the disk.
    #[inline(always)]
    pub(crate) fn enter(&mut self, entry: Entry, moment: u64)
        requires { HasRoom self.old }
        ensures history { self.new.history.entries ≡ self.old.history.entries ++ entry ∷ [] }
        ensures moments { self.new.moments.items ≡ self.old.moments.items ++ moment ∷ [] }
        ensures doubts { self.new.doubts.items ≡ self.old.doubts.items }
    {
        self.history.push(entry);
        self.moments.push(moment);
    }

    /// Keeps a command that was left in doubt.
    pub(crate) fn doubt(&mut self, doubt: Doubt)
        requires { HasRoom self.old }
        ensures history { self.new.history.entries ≡ self.old.history.entries }
        ensures moments { self.new.moments.items ≡ self.old.moments.items }
        ensures doubts { self.new.doubts.items ≡ self.old.doubts.items ++ doubt ∷ [] }
    {
        self.doubts.push(doubt);
    }
}
