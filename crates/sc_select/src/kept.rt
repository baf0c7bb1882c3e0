ghost use Rattle.std.specs.Prelude.{◌≡◌, ◌<◌, ◌∷◌, [], All, IfOk, OnOk, length};
ghost use Rattle.sc_law.specs.Selection.{keep, kept_of};
ghost use Rattle.sc_law.specs.Sets.{exit_set};
ghost use Rattle.sc_law.specs.Transitions.{transition_paths};
ghost use Rattle.sc_law.specs.Tree.{state_count};
ghost use Rattle.sc_sets.specs.Conditions.{KeepsStates};
ghost use Rattle.sc_select.specs.Exits.{AreExits};

use crate::conflicts::{gives_way_to_one, without_conflicts};
use crate::exits::exit_union;
use sc_base::NoMemory;
use sc_bits::Row;
use sc_sets::{Histories, exit_row};
use sc_tables::Tables;
use sc_types::ShortList;
use std::alloc::Global;

/// Rows in which exits are compared.
#[derive(Debug, Drop)]
pub(crate) struct Exits {
    /// What the transition exits that is looked at.
    own: Row,
    /// What another exits.
    other: Row,
    /// What all exit that are kept.
    all: Row,
}

impl Exits {
    fn new(alloc: Global, t: &Tables, h: &Histories, conf: &Row) -> Result<Exits, NoMemory>
        ensures { IfOk result (AreExits t.now h.now conf.now.members []) }
    {
        Ok(Exits {
            own: Row::new(alloc, t.count())?,
            other: Row::new(alloc, t.count())?,
            all: Row::new(alloc, t.count())?,
        })
    }
}

/// The transitions that are kept of those that were chosen. SCXML Appendix D, removeConflictingTransitions.
pub(crate) fn kept(
    alloc: Global,
    t: &Tables,
    h: &Histories,
    conf: &Row,
    chosen: ShortList,
) -> Result<ShortList, NoMemory>
    requires kept { KeepsStates t.now h.now }
    requires width { conf.now.width ≡ state_count t.now }
    requires chosen { All (λ tr. tr < length (transition_paths t.now)) chosen }
    ensures value { IfOk result (λ trs. trs ≡ kept_of t.now h.now conf.now.members chosen) }
    ensures within { IfOk result (λ trs. All (λ tr. tr < length (transition_paths t.now)) trs) }
{
    // A transition alone has nothing to conflict with.
    if chosen.len() < 2 {
        return Ok(chosen);
    }
    kept_of(alloc, t, h, conf, chosen.slice())
}

fn kept_of(
    alloc: Global,
    t: &Tables,
    h: &Histories,
    conf: &Row,
    chosen: &[u32],
) -> Result<ShortList, NoMemory>
    requires kept { KeepsStates t.now h.now }
    requires width { conf.now.width ≡ state_count t.now }
    requires chosen { All (λ tr. tr < length (transition_paths t.now)) chosen.now }
    ensures value { IfOk result (λ trs. trs ≡ kept_of t.now h.now conf.now.members chosen.now) }
    ensures within { IfOk result (λ trs. All (λ tr. tr < length (transition_paths t.now)) trs) }
{
    let mut exits = Exits::new(alloc, t, h, conf)?;
    let mut kept = ShortList::new(alloc);
    for tr in chosen {
        keep(alloc, t, h, conf, *tr, &mut kept, &mut exits)?;
    }
    Ok(kept)
}

/// Keeps one transition more, unless it gives way to one that is kept.
fn keep(
    alloc: Global,
    t: &Tables,
    h: &Histories,
    conf: &Row,
    tr: u32,
    kept: &mut ShortList,
    exits: &mut Exits,
) -> Result<(), NoMemory>
    requires histories { KeepsStates t.now h.now }
    requires width { conf.now.width ≡ state_count t.now }
    requires tr { tr < length (transition_paths t.now) }
    requires kept { All (λ u. u < length (transition_paths t.now)) kept.old }
    requires exits { AreExits t.now h.now conf.now.members kept.old exits.old }
    ensures value { OnOk result (kept.new ≡ keep t.now h.now conf.now.members tr kept.old) }
    ensures within { OnOk result (All (λ u. u < length (transition_paths t.now)) kept.new) }
    ensures exits { OnOk result (AreExits t.now h.now conf.now.members kept.new exits.new) }
{
    exit_row(t, tr, h, conf, &mut exits.own);
    if exits.own.meets(&exits.all) {
        return replace(alloc, t, h, conf, tr, kept, exits);
    }
    // A row holds its numbers in ascending order.
    let _first = conf.next(0);
    exits.all.join(&exits.own);
    kept.push(tr)
}

/// The same of one that conflicts with some; it takes the place of these.
fn replace(
    alloc: Global,
    t: &Tables,
    h: &Histories,
    conf: &Row,
    tr: u32,
    kept: &mut ShortList,
    exits: &mut Exits,
) -> Result<(), NoMemory>
    requires histories { KeepsStates t.now h.now }
    requires width { conf.now.width ≡ state_count t.now }
    requires tr { tr < length (transition_paths t.now) }
    requires kept { All (λ u. u < length (transition_paths t.now)) kept.old }
    requires exits { AreExits t.now h.now conf.now.members kept.old exits.old }
    requires own { exits.old.own.members ≡ exit_set t.now h.now (tr ∷ []) conf.now.members }
    ensures value { OnOk result (kept.new ≡ keep t.now h.now conf.now.members tr kept.old) }
    ensures within { OnOk result (All (λ u. u < length (transition_paths t.now)) kept.new) }
    ensures exits { OnOk result (AreExits t.now h.now conf.now.members kept.new exits.new) }
{
    if gives_way_to_one(t, h, conf, tr, kept.slice(), &exits.own, &mut exits.other) {
        return Ok(());
    }
    let mut rest = without_conflicts(
        alloc,
        t,
        h,
        conf,
        tr,
        kept.slice(),
        &exits.own,
        &mut exits.other,
    )?;
    rest.push(tr)?;
    exit_union(t, rest.slice(), h, conf, &mut exits.own, &mut exits.all);
    *kept = rest;
    Ok(())
}
