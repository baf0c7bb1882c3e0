ghost use Rattle.std.specs.Prelude.{◌≡◌, ◌<◌, ◌≤◌, ◌==◌, ℕ, All, IfSome, List, find, length, option_map, slice_index};
ghost use Rattle.std.specs.Option.{option_copied};
ghost use Rattle.sc_law.specs.Tree.{state_count};
ghost use Rattle.sc_law.specs.Sets.{effective_targets, is_above_all, some_states, stands_for, value_of_history};
ghost use Rattle.sc_sets.specs.Conditions.{KeepsStates};
ghost use Rattle.sc_sets.specs.Targets.{is_empty};

use sc_base::Sequence;
use sc_tables::Tables;
use sc_types::Histories;

/// What a history recorded; an empty record is no value.
pub(crate) fn value_of<'a>(t: &Tables, h: &'a Histories, s: u32) -> Option<&'a [u32]>
    requires kept { KeepsStates t.now h.now }
    ensures value { option_map (λ v. v.now) result ≡ value_of_history h.now s }
    ensures within { IfSome result (λ v. All (λ s. s < state_count t.now) v.now) }
{
    some_states(kept_of(h, s)?.1.slice())
}

/// These states, where there are some.
fn some_states(ss: &[u32]) -> Option<&[u32]>
    ensures { option_map (λ v. v.now) result ≡ some_states ss.now }
{
    match ss {
        [] => None,
        _ => Some(ss),
    }
}

/// A history with what it recorded.
pub(crate) fn kept_of(h: &Histories, s: u32) -> Option<&(u32, Sequence<u32>)>
    ensures { option_copied result ≡ find (λ (kept : ℕ × List ℕ). kept.0 == s) h.now }
{
    h.slice().iter().find(|kept| kept.0 == s)
}

/// The states that a target stands for: a history's record or its defaults, or else the target itself.
pub(crate) fn stands_for<'a>(
    t: &'a Tables,
    h: &'a Histories,
    targets: &'a [u32],
    place: usize,
) -> &'a [u32]
    requires kept { KeepsStates t.now h.now }
    requires targets { All (λ s. s < state_count t.now) targets.now }
    requires place { place < length targets.now }
    ensures value { result.now ≡ stands_for t.now h.now (slice_index targets.now place) }
    ensures within { All (λ s. s < state_count t.now) result.now }
{
    let target = targets[place];
    if !t.is_history(target) {
        return &targets[place..place + 1];
    }
    match value_of(t, h, target) {
        Some(states) => states,
        None => t.defaults(target),
    }
}

/// Whether a state, or the root, is above all of these.
fn is_above_each(t: &Tables, ss: &[u32], above: u32) -> bool
    requires within { All (λ s. s < state_count t.now) ss.now }
    requires above { above ≤ state_count t.now }
    ensures { result ≡ is_above_all t.now ss.now above }
{
    ss.iter().all(|s| t.is_below(*s, above))
}

/// Whether a state, or the root, is above all that these targets stand for.
pub(crate) fn is_above_all(t: &Tables, h: &Histories, targets: &[u32], above: u32) -> bool
    requires kept { KeepsStates t.now h.now }
    requires targets { All (λ s. s < state_count t.now) targets.now }
    requires above { above ≤ state_count t.now }
    ensures { result ≡ is_above_all t.now (effective_targets t.now h.now targets.now) above }
{
    for place in 0..targets.len() {
        if !is_above_each(t, stands_for(t, h, targets, place), above) {
            return false;
        }
    }
    true
}

/// Whether these targets stand for no state.
pub(crate) fn is_none(t: &Tables, h: &Histories, targets: &[u32]) -> bool
    requires kept { KeepsStates t.now h.now }
    requires targets { All (λ s. s < state_count t.now) targets.now }
    ensures { result ≡ is_empty (effective_targets t.now h.now targets.now) }
{
    for place in 0..targets.len() {
        if !stands_for(t, h, targets, place).is_empty() {
            return false;
        }
    }
    true
}
