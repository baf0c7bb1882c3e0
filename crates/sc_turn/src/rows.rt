ghost use Rattle.std.specs.Prelude.{◌≡◌, IfOk, IsTrue};
ghost use Rattle.sc_law.specs.Fitting.{are_states};
ghost use Rattle.sc_law.specs.Tree.{state_count};

use sc_base::NoMemory;
use sc_bits::Row;
use sc_tables::Tables;
use std::alloc::Global;

/// The row of an ascending list of states.
#[inline(always)]
pub(crate) fn row_of(alloc: Global, t: &Tables, states: &[u32]) -> Result<Row, NoMemory>
    requires { IsTrue (are_states t.now states.now) }
    ensures { IfOk result (λ r. r ≡ record { width = state_count t.now; members = states.now }) }
{
    let mut row = Row::new(alloc, t.count())?;
    for s in states {
        row.add(*s);
    }
    Ok(row)
}
