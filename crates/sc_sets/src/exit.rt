ghost use Rattle.std.specs.Prelude.{◌≡◌, ◌<◌, ◌≤◌, filter, length, [], ◌∷◌};
ghost use Rattle.sc_law.specs.Sets.{exit_set};
ghost use Rattle.sc_law.specs.Transitions.{transition_paths};
ghost use Rattle.sc_law.specs.Tree.{is_below, state_count};
ghost use Rattle.sc_sets.specs.Conditions.{KeepsStates};

use crate::domains::domain;
use sc_bits::Row;
use sc_tables::Tables;
use sc_types::Histories;

/// Writes into a row which active states a transition exits. SCXML Appendix D, computeExitSet.
#[tactic(auto, unfolding(sc_law::specs::Sets::exit_set))]
pub fn exit_row(t: &Tables, tr: u32, h: &Histories, conf: &Row, into: &mut Row)
    requires tr { tr < length (transition_paths t.now) }
    requires kept { KeepsStates t.now h.now }
    requires width { conf.now.width ≡ state_count t.now }
    requires into { into.old.width ≡ state_count t.now }
    ensures width { into.new.width ≡ into.old.width }
    ensures members { into.new.members ≡ exit_set t.now h.now (tr ∷ []) conf.now.members }
{
    match domain(t, tr, h) {
        None => into.clear(),
        Some(domain) => keep_below(t, domain, conf, into),
    }
}

/// The active states that are below a state or the root.
fn keep_below(t: &Tables, above: u32, conf: &Row, into: &mut Row)
    requires above { above ≤ state_count t.now }
    requires width { conf.now.width ≡ state_count t.now }
    requires into { into.old.width ≡ state_count t.now }
    ensures width { into.new.width ≡ into.old.width }
    ensures members { into.new.members ≡ filter (λ s. is_below t.now s above) conf.now.members }
{
    into.copy_from(conf);
    // A row holds numbers below its width.
    let _first = conf.next(0);
    let _chart = t.chart();
    if above < t.count() {
        into.meet(t.below(above));
    }
}
