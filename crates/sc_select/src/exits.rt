ghost use Rattle.std.specs.Prelude.{◌≡◌, ◌<◌, All, length};
ghost use Rattle.sc_law.specs.Sets.{exit_set};
ghost use Rattle.sc_law.specs.Transitions.{transition_paths};
ghost use Rattle.sc_law.specs.Tree.{state_count};
ghost use Rattle.sc_sets.specs.Conditions.{KeepsStates};

use sc_bits::Row;
use sc_sets::{Histories, exit_row};
use sc_tables::Tables;

/// Writes into a row which active states some transitions exit. `own` is left with those of one of them. SCXML Appendix
/// D, computeExitSet.
pub fn exit_union(t: &Tables, trs: &[u32], h: &Histories, conf: &Row, own: &mut Row, all: &mut Row)
    requires trs { All (λ tr. tr < length (transition_paths t.now)) trs.now }
    requires kept { KeepsStates t.now h.now }
    requires width { conf.now.width ≡ state_count t.now }
    requires own { own.old.width ≡ state_count t.now }
    requires all { all.old.width ≡ state_count t.now }
    ensures own_width { own.new.width ≡ state_count t.now }
    ensures width { all.new.width ≡ state_count t.now }
    ensures members { all.new.members ≡ exit_set t.now h.now trs.now conf.now.members }
{
    all.clear();
    // A row holds its numbers in ascending order.
    let _first = conf.next(0);
    for tr in trs {
        exit_row(t, *tr, h, conf, own);
        all.join(own);
    }
}
