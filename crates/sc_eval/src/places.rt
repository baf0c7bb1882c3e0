ghost use Rattle.std.specs.Prelude.{◌≡◌, ◌+◌, ◌<◌, ◌≤◌, ◌∷◌, [], ◌++◌, ℕ, List, None, OnOk, OnErr, length, vec_len, vec_capacity};
ghost use Rattle.sc_eval.specs.Places.{place_of, IsPut};

use sc_base::NoMemory;
use std::alloc::Global;
use std::collections::BTreeMap;

/// The place of the first row of each name in a list of rows.
#[derive(Drop)]
pub(crate) struct Places {
    alloc: Global,
    places: BTreeMap<Vec<u8>, usize>,
}

impl Places {
    pub(crate) fn new(alloc: Global) -> Places
        ensures { (name : List ℕ) → place_of result name ≡ None }
    {
        Places {
            alloc,
            places: BTreeMap::new(alloc),
        }
    }

    /// Where the memory of the names comes from.
    pub(crate) fn allocator(&self) -> Global {
        self.alloc
    }

    pub(crate) fn find(&self, name: &[u8]) -> Option<usize>
        ensures { result ≡ place_of self.now name.now }
    {
        self.places.get(name).copied()
    }

    /// Gives a name a place; a name that has one keeps it. Out of memory, nothing is changed.
    pub(crate) fn put(&mut self, name: &[u8], place: usize) -> Result<(), NoMemory>
        ensures ok { OnOk result (IsPut self.old name.now place self.new) }
        ensures err { OnErr result ((other : List ℕ) → place_of self.new other ≡ place_of self.old other) }
    {
        if self.places.contains_key(name) {
            return Ok(());
        }
        let name = Vec::from_slice(self.alloc, name)?;
        self.places.insert(name, place)?;
        Ok(())
    }
}

/// Puts an item at the end, for which there is room.
pub(crate) fn push_reserved<T: Drop>(items: &mut Vec<T>, item: T)
    requires { vec_len items.old < vec_capacity items.old }
    ensures { items.new.items ≡ items.old.items ++ item ∷ [] }
{
    match items.push(item) {
        Ok(()) => {}
        Err(_) => unreachable!(),
    }
}
