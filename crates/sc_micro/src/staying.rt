ghost use Rattle.std.specs.Prelude.{◌≡◌, ◌<◌, ◌&&◌, All, length, nat_le, true};
ghost use Rattle.sc_law.specs.Transitions.{transition_paths};
ghost use Rattle.sc_law.specs.Tree.{state_count};
ghost use Rattle.sc_micro.specs.Staying.{are_in_order, are_targetless, is_history_number};

use sc_sets::Histories;
use sc_tables::Tables;

/// Whether transitions have no targets, so that they exit and enter nothing.
pub(crate) fn are_targetless(t: &Tables, trs: &[u32]) -> bool
    requires { All (λ tr. tr < length (transition_paths t.now)) trs.now }
    ensures { result ≡ are_targetless t.now trs.now }
{
    trs.iter().all(|tr| t.targets(*tr).is_empty())
}

/// Whether what histories recorded is as an exit leaves it, in the order of the histories.
pub(crate) fn are_in_order(t: &Tables, h: &Histories) -> bool
    ensures { result ≡ are_in_order t.now 0 h.now }
{
    // The number of the root is past every state's.
    let _root = t.count();
    let mut from = 0;
    for kept in h.slice() {
        if !may_follow(t, from, kept.0) {
            return false;
        }
        from = kept.0 + 1;
    }
    true
}

/// Whether a number is that of a history, and is at least `from`.
fn may_follow(t: &Tables, from: u32, s: u32) -> bool
    ensures value { result ≡ (nat_le from s && is_history_number t.now s) }
    ensures within { result ≡ true → s < state_count t.now }
{
    from <= s && is_history_number(t, s)
}

fn is_history_number(t: &Tables, s: u32) -> bool
    ensures value { result ≡ is_history_number t.now s }
    ensures within { result ≡ true → s < state_count t.now }
{
    s < t.count() && t.is_history(s)
}
