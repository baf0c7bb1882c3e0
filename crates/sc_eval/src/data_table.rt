ghost use Rattle.std.specs.Prelude.{◌≡◌, [], ◌∷◌, ◌++◌, None, false, find, map, option_and_then, IfOk, OnOk, OnErr};
ghost use Rattle.std.specs.List.{IsDistinct, list_any};
ghost use Rattle.std.specs.Option.{option_copied};
ghost use Rattle.std.specs.Str.{bytes_eq};
ghost use Rattle.sc_law.specs.Evaluation.{is_pair_named};
ghost use Rattle.sc_law.specs.Data.{put_pair};
ghost use Rattle.sc_eval.specs.Places.{first_place, names_of};

use crate::index::{FEW_ROWS, note_place, place_in, places_of};
use crate::places::{Places, push_reserved};
use sc_base::{NoMemory, PlainName, Sequence};
use sc_types::{Value, Values};
use std::alloc::Global;
use std::marker::Model;

/// The data of a session in order of declaration, no name twice; `None` is a datum that is unset.
#[derive(Drop)]
pub struct DataTable {
    rows: Vec<(PlainName, Option<Value>)>,
    /// The places of the rows, where there are more than a few.
    places: Places,
}

impl Model for DataTable {
    ghost use Rattle.std.specs.Prelude.{List, Option, ℕ};
    ghost use Rattle.sc_types.specs.declared.value.Value.{Value as OneValue};
    ghost use Rattle.sc_types.specs.contracts.value.Value as value_type;
    ghost use Rattle.std.specs.Coded.{codes};

    ghost Value = { List (List ℕ × Option OneValue) };

    ghost coded = { Prim.hlevel (codes, value_type.the_row.coded) };

    ghost use Rattle.std.specs.List.{IsDistinct};
    ghost use Rattle.std.specs.Str.{bytes_eq};
    ghost use Rattle.sc_eval.specs.Places.{IsIndexed, names_of};

    ghost view = { λ d. d.rows.items };

    ghost invariant = { λ d. IsIndexed d.places d.rows.items × IsDistinct bytes_eq (names_of d.rows.items) };
}

impl DataTable {
    pub fn new(alloc: Global) -> DataTable
        ensures { result ≡ [] }
    {
        DataTable {
            rows: Vec::new(alloc),
            places: Places::new(alloc),
        }
    }

    /// The table of these values. No value is copied.
    pub fn from_values(alloc: Global, values: Values) -> Result<DataTable, NoMemory>
        requires { IsDistinct bytes_eq (names_of values) }
        ensures { IfOk result (λ d. d ≡ values) }
    {
        let rows = values.into_vec();
        let places = places_of(alloc, rows.as_slice())?;
        Ok(DataTable { rows, places })
    }

    /// The values in order of declaration. None is copied.
    pub fn into_values(self) -> Values
        ensures value { result ≡ self }
        ensures distinct { IsDistinct bytes_eq (names_of self) }
    {
        Sequence::from_vec(self.rows)
    }

    /// The data in order of declaration.
    pub fn rows(&self) -> &[(PlainName, Option<Value>)]
        ensures { result.now ≡ self.now }
    {
        self.rows.as_slice()
    }

    /// The place of the row of a name.
    fn find(&self, name: &[u8]) -> Option<usize>
        ensures { result ≡ first_place name.now self.now }
    {
        if self.rows.len() <= FEW_ROWS {
            place_in(self.rows.as_slice(), name)
        } else {
            self.places.find(name)
        }
    }

    /// The value of a datum, where it is declared and set.
    pub fn get(&self, name: &[u8]) -> Option<&Value>
        ensures { option_copied result
            ≡ option_and_then (λ pair. pair.1) (find (is_pair_named name.now) self.now) }
    {
        let place = self.find(name)?;
        self.rows[place].1.as_ref()
    }

    pub fn is_declared(&self, name: &[u8]) -> bool
        ensures { result ≡ list_any (is_pair_named name.now) self.now }
    {
        self.find(name).is_some()
    }

    /// Sets or unsets the datum of a name, where it is declared.
    pub fn put(&mut self, name: &[u8], value: Option<Value>)
        ensures { self.new ≡ map (put_pair name.now value) self.old }
    {
        let Some(place) = self.find(name) else {
            return;
        };
        put_value(&mut self.rows[place], value);
    }

    /// Declares a name that is not declared yet; the datum is unset. Out of memory, the table stays as it was.
    pub fn declare(&mut self, name: PlainName) -> Result<(), NoMemory>
        requires { list_any (is_pair_named name) self.old ≡ false }
        ensures ok { OnOk result (self.new ≡ self.old ++ (name, None) ∷ []) }
        ensures err { OnErr result (self.new ≡ self.old) }
    {
        self.rows.reserve(1)?;
        note_place(&mut self.places, self.rows.as_slice(), name.bytes())?;
        push_reserved(&mut self.rows, (name, None));
        Ok(())
    }
}

fn put_value(row: &mut (PlainName, Option<Value>), value: Option<Value>)
    ensures { row.new ≡ (row.old.0, value) }
{
    row.1 = value;
}
