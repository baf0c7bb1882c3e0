ghost use Rattle.std.specs.Prelude.{◌≡◌, ◌<◌, ◌++◌, ◌∷◌, [], All, IfOk, OnOk, filter, if◌then◌else◌, length, not};
ghost use Rattle.std.specs.List.{list_any};
ghost use Rattle.sc_law.specs.Selection.{conflicts, gives_way};
ghost use Rattle.sc_law.specs.Sets.{exit_set};
ghost use Rattle.sc_law.specs.Transitions.{source, transition_paths};
ghost use Rattle.sc_law.specs.Tree.{is_below, state_count};
ghost use Rattle.sc_sets.specs.Conditions.{KeepsStates};

use sc_base::NoMemory;
use sc_bits::Row;
use sc_sets::{Histories, exit_row};
use sc_tables::Tables;
use sc_types::ShortList;
use std::alloc::Global;

/// Whether the source of a transition is below that of another.
fn is_inside(t: &Tables, tr: u32, other: u32) -> bool
    requires tr { tr < length (transition_paths t.now) }
    requires other { other < length (transition_paths t.now) }
    ensures { result ≡ is_below t.now (source t.now tr) (source t.now other) }
{
    let source = t.source(tr);
    source < t.count() && t.is_below(source, t.source(other))
}

/// Whether two transitions exit a state in common; `own` holds what the first of them exits.
fn is_conflict(
    t: &Tables,
    h: &Histories,
    conf: &Row,
    tr: u32,
    other: u32,
    own: &Row,
    into: &mut Row,
) -> bool
    requires kept { KeepsStates t.now h.now }
    requires width { conf.now.width ≡ state_count t.now }
    requires other { other < length (transition_paths t.now) }
    requires own_width { own.now.width ≡ state_count t.now }
    requires own { own.now.members ≡ exit_set t.now h.now (tr ∷ []) conf.now.members }
    requires into { into.old.width ≡ state_count t.now }
    ensures value { result ≡ conflicts t.now h.now conf.now.members tr other }
    ensures width { into.new.width ≡ state_count t.now }
{
    exit_row(t, other, h, conf, into);
    own.meets(into)
}

fn gives_way(
    t: &Tables,
    h: &Histories,
    conf: &Row,
    tr: u32,
    other: u32,
    own: &Row,
    into: &mut Row,
) -> bool
    requires kept { KeepsStates t.now h.now }
    requires width { conf.now.width ≡ state_count t.now }
    requires tr { tr < length (transition_paths t.now) }
    requires other { other < length (transition_paths t.now) }
    requires own_width { own.now.width ≡ state_count t.now }
    requires own { own.now.members ≡ exit_set t.now h.now (tr ∷ []) conf.now.members }
    requires into { into.old.width ≡ state_count t.now }
    ensures value { result ≡ gives_way t.now h.now conf.now.members tr other }
    ensures width { into.new.width ≡ state_count t.now }
{
    is_conflict(t, h, conf, tr, other, own, into) && !is_inside(t, tr, other)
}

/// Whether a transition gives way to one of those that are kept.
pub(crate) fn gives_way_to_one(
    t: &Tables,
    h: &Histories,
    conf: &Row,
    tr: u32,
    kept: &[u32],
    own: &Row,
    into: &mut Row,
) -> bool
    requires histories { KeepsStates t.now h.now }
    requires width { conf.now.width ≡ state_count t.now }
    requires tr { tr < length (transition_paths t.now) }
    requires kept { All (λ u. u < length (transition_paths t.now)) kept.now }
    requires own_width { own.now.width ≡ state_count t.now }
    requires own { own.now.members ≡ exit_set t.now h.now (tr ∷ []) conf.now.members }
    requires into { into.old.width ≡ state_count t.now }
    ensures value { result ≡ list_any (gives_way t.now h.now conf.now.members tr) kept.now }
    ensures width { into.new.width ≡ state_count t.now }
{
    for other in kept {
        if gives_way(t, h, conf, tr, *other, own, into) {
            return true;
        }
    }
    false
}

/// Those of the kept transitions that don't conflict with another.
pub(crate) fn without_conflicts(
    alloc: Global,
    t: &Tables,
    h: &Histories,
    conf: &Row,
    tr: u32,
    kept: &[u32],
    own: &Row,
    into: &mut Row,
) -> Result<ShortList, NoMemory>
    requires histories { KeepsStates t.now h.now }
    requires width { conf.now.width ≡ state_count t.now }
    requires kept { All (λ u. u < length (transition_paths t.now)) kept.now }
    requires own_width { own.now.width ≡ state_count t.now }
    requires own { own.now.members ≡ exit_set t.now h.now (tr ∷ []) conf.now.members }
    requires into { into.old.width ≡ state_count t.now }
    ensures value { IfOk result (λ rest. rest ≡ filter
        (λ u. not (conflicts t.now h.now conf.now.members tr u)) kept.now) }
    ensures width { into.new.width ≡ state_count t.now }
{
    let mut rest = ShortList::new(alloc);
    for other in kept {
        let conflict = is_conflict(t, h, conf, tr, *other, own, into);
        push_unless(&mut rest, conflict, *other)?;
    }
    Ok(rest)
}

fn push_unless(rest: &mut ShortList, conflict: bool, tr: u32) -> Result<(), NoMemory>
    ensures { OnOk result (rest.new ≡ rest.old ++ (if conflict then [] else tr ∷ [])) }
{
    if conflict { Ok(()) } else { rest.push(tr) }
}
