ghost use Rattle.std.specs.Prelude.{◌≡◌, ◌++◌, ◌∷◌, [], List, Option, ℕ, IfOk, OnOk, OnErr, position};
ghost use Rattle.std.specs.Str.{bytes_eq};
ghost use Rattle.sc_types.specs.declared.value.Value.{Value as OneValue};
ghost use Rattle.sc_eval.specs.Places.{IsIndex, IsIndexed};

use crate::places::Places;
use sc_base::{NoMemory, PlainName};
use sc_types::Value;
use std::alloc::Global;

/// So many rows are looked through one after another, and only more have an index. It is made anew for each turn, which
/// few rows are not worth.
pub const FEW_ROWS: usize = 16;

/// The place of the first row of a name.
pub(crate) fn place_in(rows: &[(PlainName, Option<Value>)], name: &[u8]) -> Option<usize>
    ensures { result ≡ position (λ row. bytes_eq row.0 name.now) rows.now }
{
    rows.iter().position(|row| row.0.bytes() == name)
}

/// The index of rows, where there are more than a few.
pub(crate) fn places_of(
    alloc: Global,
    rows: &[(PlainName, Option<Value>)],
) -> Result<Places, NoMemory>
    ensures { IfOk result (λ places. IsIndexed places rows.now) }
{
    if rows.len() <= FEW_ROWS {
        return Ok(Places::new(alloc));
    }
    index_of(alloc, rows)
}

fn index_of(alloc: Global, rows: &[(PlainName, Option<Value>)]) -> Result<Places, NoMemory>
    ensures { IfOk result (λ places. IsIndex places rows.now) }
{
    let mut places = Places::new(alloc);
    for place in 0..rows.len() {
        places.put(rows[place].0.bytes(), place)?;
    }
    Ok(places)
}

/// Notes the place of a row of this name that comes behind the others. Where they are no longer few, the index is made.
pub(crate) fn note_place(
    places: &mut Places,
    rows: &[(PlainName, Option<Value>)],
    name: &[u8],
) -> Result<(), NoMemory>
    requires { IsIndexed places.old rows.now }
    ensures ok { OnOk result ((value : Option OneValue)
        → IsIndexed places.new (rows.now ++ (name.now, value) ∷ [])) }
    ensures err { OnErr result (IsIndexed places.new rows.now) }
{
    if rows.len() < FEW_ROWS {
        return Ok(());
    }
    if rows.len() == FEW_ROWS {
        *places = index_of(places.allocator(), rows)?;
        return put_behind(places, rows, name);
    }
    put_behind(places, rows, name)
}

/// Gives the name of a row to come its place behind the others.
fn put_behind(
    places: &mut Places,
    rows: &[(PlainName, Option<Value>)],
    name: &[u8],
) -> Result<(), NoMemory>
    requires { IsIndex places.old rows.now }
    ensures ok { OnOk result ((value : Option OneValue) → IsIndex places.new (rows.now ++ (name.now, value) ∷ [])) }
    ensures err { OnErr result (IsIndex places.new rows.now) }
{
    places.put(name, rows.len())?;
    Ok(())
}
