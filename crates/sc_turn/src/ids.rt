ghost use Rattle.std.specs.List.{cons_option};
ghost use Rattle.std.specs.Prelude.{◌≡◌, ◌++◌, ◌<◌, [], IfOk, OnOk, codes, decimal};
ghost use Rattle.sc_law.specs.Runs.{id_row, ids, state_id};
ghost use Rattle.sc_law.specs.Tree.{state_count};

use sc_base::{NoMemory, SharedBytes, TextWriter};
use sc_eval::Ids;
use sc_tables::Tables;
use sc_types::Attribute;
use std::alloc::Global;

/// The id of a state: its own, else `#` and its number.
pub(crate) fn state_id(alloc: Global, t: &Tables, s: u32) -> Result<SharedBytes, NoMemory>
    requires { s < state_count t.now }
    ensures { IfOk result (λ id. id ≡ state_id t.now s) }
{
    match t.element(s).text(Attribute::Id) {
        Some(id) => SharedBytes::from_slice(alloc, id),
        None => made_id(alloc, s),
    }
}

fn made_id(alloc: Global, s: u32) -> Result<SharedBytes, NoMemory>
    ensures { IfOk result (λ id. id ≡ codes "#" ++ decimal s) }
{
    let mut text = TextWriter::new(alloc);
    text.text("#")?;
    text.number(u128::from(s))?;
    SharedBytes::from_slice(alloc, text.slice())
}

/// The ids that `In` knows. A history has none.
pub(crate) fn chart_ids(alloc: Global, t: &Tables) -> Result<Ids, NoMemory>
    ensures { IfOk result (λ rows. rows ≡ ids t.now) }
{
    let mut rows = Ids::new(alloc);
    for s in 0..t.count() {
        add_id(alloc, &mut rows, t, s)?;
    }
    Ok(rows)
}

/// Adds the id of a state, and none of a history.
fn add_id(alloc: Global, rows: &mut Ids, t: &Tables, s: u32) -> Result<(), NoMemory>
    requires { s < state_count t.now }
    ensures { OnOk result (rows.new ≡ rows.old ++ cons_option (id_row t.now s) []) }
{
    if t.is_history(s) {
        return Ok(());
    }
    rows.add(state_id(alloc, t, s)?, s)
}
