ghost use Rattle.std.specs.Prelude.{◌≡◌, ◌<◌, ◌≤◌, [], ◌∷◌, All, IfSome, length};
ghost use Rattle.std.specs.Option.{option_map_or};
ghost use Rattle.sc_law.specs.Kinds.{is_compound};
ghost use Rattle.sc_law.specs.Sets.{domain, effective_targets, is_own_domain, nearest_above};
ghost use Rattle.sc_law.specs.Transitions.{is_internal, source, transition_paths};
ghost use Rattle.sc_law.specs.Tree.{ancestors, state_count};
ghost use Rattle.sc_sets.specs.Conditions.{KeepsStates};

use crate::targets::{is_above_all, is_none};
use sc_tables::Tables;
use sc_types::{Attribute, Histories};

/// The domain of a transition: what it exits is below it. The root has the number after those of the states. `None` of
/// a transition without targets. SCXML Appendix D, getTransitionDomain.
#[tactic(auto, unfolding(sc_law::specs::Sets::domain))]
pub fn domain(t: &Tables, tr: u32, h: &Histories) -> Option<u32>
    requires tr { tr < length (transition_paths t.now) }
    requires kept { KeepsStates t.now h.now }
    ensures value { result ≡ domain t.now h.now tr }
    ensures within { IfSome result (λ d. d ≤ state_count t.now) }
{
    let targets = t.targets(tr);
    if is_none(t, h, targets) {
        return None;
    }
    let source = t.source(tr);
    if is_own_domain(t, tr, h, source, targets) {
        return Some(source);
    }
    Some(nearest_above(t, h, source, targets))
}

/// Whether the source is the domain: of an internal transition of a compound state to what is below it.
fn is_own_domain(t: &Tables, tr: u32, h: &Histories, own: u32, targets: &[u32]) -> bool
    requires tr { tr < length (transition_paths t.now) }
    requires kept { KeepsStates t.now h.now }
    requires source { own ≡ source t.now tr }
    requires own { own ≤ state_count t.now }
    requires targets { All (λ s. s < state_count t.now) targets.now }
    ensures { result ≡ is_own_domain t.now tr (effective_targets t.now h.now targets.now) }
{
    // The kind is asked first, since it is at hand, and the type is read from the element.
    is_compound_state(t, own) && is_internal(t, tr) && is_above_all(t, h, targets, own)
}

/// Whether a number is that of a compound state; the root is none.
fn is_compound_state(t: &Tables, s: u32) -> bool
    ensures { result ≡ is_compound t.now s }
{
    if s < t.count() {
        t.is_compound(s)
    } else {
        let _chart = t.chart();
        false
    }
}

fn is_internal(t: &Tables, tr: u32) -> bool
    requires { tr < length (transition_paths t.now) }
    ensures { result ≡ is_internal t.now tr }
{
    t.transition(tr).is_text(Attribute::Type, b"internal")
}

/// The nearest compound state above a state and above all that its targets stand for, else the root.
fn nearest_above(t: &Tables, h: &Histories, s: u32, targets: &[u32]) -> u32
    requires kept { KeepsStates t.now h.now }
    requires targets { All (λ s. s < state_count t.now) targets.now }
    ensures value { result ≡ nearest_above t.now s (effective_targets t.now h.now targets.now) }
    ensures within { result ≤ state_count t.now }
{
    let mut next = parent(t, s);
    while let Some(above) = next {
        if t.is_compound(above) && is_above_all(t, h, targets, above) {
            return above;
        }
        next = t.parent(above);
    }
    t.count()
}

/// The parent of a state; none of the root.
pub(crate) fn parent(t: &Tables, s: u32) -> Option<u32>
    ensures value { ancestors t.now s ≡ option_map_or (λ p. p ∷ ancestors t.now p) result [] }
    ensures within { IfSome result (λ p. p < state_count t.now) }
{
    if s < t.count() { t.parent(s) } else { None }
}
