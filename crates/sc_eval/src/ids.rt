ghost use Rattle.std.specs.Prelude.{◌≡◌, [], ◌∷◌, ◌++◌, find, option_map, OnOk, OnErr};
ghost use Rattle.sc_law.specs.Evaluation.{is_pair_named};

use crate::places::{Places, push_reserved};
use sc_base::{NoMemory, Plain, SharedBytes};
use std::alloc::Global;
use std::marker::Model;

/// The ids that `In` knows, each with the number of its state. Of two rows with one id the first counts.
#[derive(Drop)]
pub struct Ids {
    rows: Vec<(SharedBytes, u32)>,
    places: Places,
}

impl Model for Ids {
    ghost use Rattle.std.specs.Prelude.{List, ℕ};
    ghost use Rattle.sc_eval.specs.Places.{IsIndex};

    ghost Value = { List (List ℕ × ℕ) };

    ghost view = { λ i. i.rows.items };

    ghost invariant = { λ i. IsIndex i.places i.rows.items };
}

impl Ids {
    pub fn new(alloc: Global) -> Ids
        ensures { result ≡ [] }
    {
        Ids {
            rows: Vec::new(alloc),
            places: Places::new(alloc),
        }
    }

    /// Adds a state. Out of memory, the ids stay as they were.
    pub fn add(&mut self, id: SharedBytes, state: u32) -> Result<(), NoMemory>
        ensures ok { OnOk result (self.new ≡ self.old ++ (id, state) ∷ []) }
        ensures err { OnErr result (self.new ≡ self.old) }
    {
        self.rows.reserve(1)?;
        self.places.put(id.slice(), self.rows.len())?;
        push_reserved(&mut self.rows, (id, state));
        Ok(())
    }

    /// The state of an id.
    pub fn state(&self, id: &[u8]) -> Option<u32>
        ensures { result ≡ option_map (λ row. row.1) (find (is_pair_named id.now) self.now) }
    {
        let place = self.places.find(id)?;
        Some(self.rows[place].1)
    }
}
