ghost use Rattle.std.specs.Prelude.{◌≡◌, ◌<◌, ℕ, All, IfOk, List, OnOk, length, map};
ghost use Rattle.sc_law.specs.Entry.{entry, entry_of, first_entry, no_entry};
ghost use Rattle.sc_law.specs.Transitions.{transition_paths};
ghost use Rattle.sc_law.specs.Tree.{state_count};
ghost use Rattle.sc_sets.specs.Conditions.{KeepsStates};
ghost use Rattle.sc_sets.specs.Union.{AreKept, alone, recorded_by, united};
ghost use Rattle.sc_sets.specs.Triples.{Becomes, HasWidth, triple_of};

use crate::domains::domain;
use crate::enter::enter_targets;
use sc_base::{NoMemory, Sequence};
use sc_bits::Row;
use sc_tables::Tables;
use sc_types::Histories;
use std::alloc::Global;

/// What a microstep enters.
#[derive(Debug, Drop)]
pub struct Entry3 {
    /// The states to enter.
    pub states: Row,
    /// Those of them that are entered by their defaults.
    pub defaults: Row,
    /// The histories whose default content is to run, in the order in which they were met.
    pub noted: Sequence<u32>,
}

impl Entry3 {
    /// Nothing is entered.
    fn new(alloc: Global, width: u32) -> Result<Entry3, NoMemory>
        ensures { IfOk result (λ e. HasWidth width e × (triple_of e ≡ no_entry)) }
    {
        Ok(Entry3 {
            states: Row::new(alloc, width)?,
            defaults: Row::new(alloc, width)?,
            noted: Sequence::new(alloc),
        })
    }
}

/// What transitions enter: the domains go by the histories before the exit, all else by those after it. SCXML Appendix
/// D, computeEntrySet.
#[tactic(auto, unfolding(sc_law::specs::Entry::entry))]
pub fn entry_rows(
    alloc: Global,
    t: &Tables,
    trs: &[u32],
    before: &Histories,
    h: &Histories,
) -> Result<Entry3, NoMemory>
    requires trs { All (λ tr. tr < length (transition_paths t.now)) trs.now }
    requires before { KeepsStates t.now before.now }
    requires kept { KeepsStates t.now h.now }
    ensures value { IfOk result (λ e. HasWidth (state_count t.now) e
        × (triple_of e ≡ entry t.now before.now h.now trs.now)) }
    ensures union { (configuration : List ℕ) → AreKept t.now before.now configuration trs.now
        → h.now ≡ recorded_by t.now before.now trs.now configuration
        → IfOk result (λ e. e.states.members ≡ united (map (alone t.now before.now h.now) trs.now)) }
{
    let mut e = Entry3::new(alloc, t.count())?;
    for tr in trs {
        add_entry(t, before, h, *tr, &mut e)?;
    }
    Ok(e)
}

/// Adds what a transition enters.
fn add_entry(
    t: &Tables,
    before: &Histories,
    h: &Histories,
    tr: u32,
    e: &mut Entry3,
) -> Result<(), NoMemory>
    requires tr { tr < length (transition_paths t.now) }
    requires before { KeepsStates t.now before.now }
    requires kept { KeepsStates t.now h.now }
    requires width { HasWidth (state_count t.now) e.old }
    ensures { OnOk result (Becomes (state_count t.now) (entry_of t.now before.now h.now tr) e.old e.new) }
{
    match domain(t, tr, before) {
        Some(domain) => enter_targets(t, h, t.targets(tr), domain, e),
        None => Ok(()),
    }
}

/// What the document's own entry enters, with the root as the domain.
#[tactic(auto, unfolding(sc_law::specs::Entry::first_entry))]
pub fn first_rows(alloc: Global, t: &Tables) -> Result<Entry3, NoMemory>
    ensures { IfOk result (λ e. HasWidth (state_count t.now) e × (triple_of e ≡ first_entry t.now)) }
{
    let mut e = Entry3::new(alloc, t.count())?;
    let none = Sequence::new(alloc);
    enter_targets(t, &none, t.defaults(t.count()), t.count(), &mut e)?;
    Ok(e)
}
