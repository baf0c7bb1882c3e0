ghost use Rattle.std.specs.Prelude.{◌≡◌, ◌<◌, ◌≤◌, All, ℕ, OnOk};
ghost use Rattle.sc_base.specs.Folds.{each};
ghost use Rattle.sc_law.specs.Entry.{by_default, enter_targets, noted, reach, recall, region, regions, through, up, bound_of};
ghost use Rattle.sc_law.specs.Sets.{value_of_history};
ghost use Rattle.sc_law.specs.Tree.{state_count};
ghost use Rattle.sc_sets.specs.Conditions.{KeepsStates};
ghost use Rattle.sc_sets.specs.Entering.{enters, Fits, Made};
ghost use Rattle.sc_sets.specs.Steps.{passed};
ghost use Rattle.sc_sets.specs.Triples.{Becomes, HasWidth};

use crate::domains::parent;
use crate::entering::Entering;
use crate::entry::Entry3;
use crate::targets::{stands_for, value_of};
use sc_base::NoMemory;
use sc_tables::Tables;
use sc_types::{Histories, StateKind};

/// Adds what targets enter below a domain: first downward for each target, and then upward for each state that they
/// stand for.
pub(crate) fn enter_targets(
    t: &Tables,
    h: &Histories,
    targets: &[u32],
    domain: u32,
    e: &mut Entry3,
) -> Result<(), NoMemory>
    requires kept { KeepsStates t.now h.now }
    requires targets { All (λ s. s < state_count t.now) targets.now }
    requires domain { domain ≤ state_count t.now }
    requires width { HasWidth (state_count t.now) e.old }
    ensures { OnOk result (Becomes (state_count t.now) (enter_targets t.now h.now targets.now domain) e.old e.new) }
{
    let entering = Entering::new(t, h, domain);
    entering.down_each(t.count(), targets, e)?;
    for place in 0..targets.len() {
        let states = stands_for(t, h, targets, place);
        entering.up_each(t.count(), domain, states, e)?;
    }
    Ok(())
}

impl<'a> Entering<'a> {
    /// Adds a state and what is entered with it below it; of a history, what it stands for. So many levels at most.
    #[cycle(enter)]
    fn down(&self, levels: u32, s: u32, e: &mut Entry3) -> Result<(), NoMemory>
        requires s { s < state_count self.now.tables.now }
        requires width { Fits self.now e.old }
        ensures { OnOk result (Made self.now (enters self.now levels s) e.old e.new) }
    {
        if levels == 0 {
            return Ok(());
        }
        let levels = levels - 1;
        match self.tables.kind(s) {
            StateKind::Shallow | StateKind::Deep => self.recall(levels, s, e),
            StateKind::Compound => {
                e.states.add(s);
                self.by_default(levels, s, e)
            }
            StateKind::Parallel => {
                e.states.add(s);
                self.regions(levels, s, e)
            }
            StateKind::Atomic | StateKind::Final => {
                e.states.add(s);
                Ok(())
            }
        }
    }

    /// Adds what a history recorded, or its defaults, and notes it then.
    #[cycle(enter)]
    fn recall(&self, levels: u32, s: u32, e: &mut Entry3) -> Result<(), NoMemory>
        requires s { s < state_count self.now.tables.now }
        requires width { Fits self.now e.old }
        ensures { OnOk result (Made self.now
            (recall self.now.tables.now self.now.bound (enters self.now levels) s
            (value_of_history self.now.histories.now s)) e.old e.new) }
    {
        let limit = self.bound_of(s);
        match value_of(self.tables, self.histories, s) {
            Some(states) => self.reach(levels, limit, states, e),
            None => {
                note(s, e)?;
                self.reach(levels, limit, self.tables.defaults(s), e)
            }
        }
    }

    /// What the states of a history are entered below: the domain where that is below the history's parent, else the
    /// parent.
    fn bound_of(&self, s: u32) -> u32
        requires s { s < state_count self.now.tables.now }
        ensures value { result ≡ bound_of self.now.tables.now self.now.bound s }
        ensures within { result ≤ state_count self.now.tables.now }
    {
        let above = match parent(self.tables, s) {
            Some(parent) => parent,
            None => self.tables.count(),
        };
        if self.bound < self.tables.count() && self.tables.is_below(self.bound, above) {
            self.bound
        } else {
            above
        }
    }

    /// Adds the default targets of a compound state.
    #[cycle(enter)]
    fn by_default(&self, levels: u32, s: u32, e: &mut Entry3) -> Result<(), NoMemory>
        requires s { s < state_count self.now.tables.now }
        requires width { Fits self.now e.old }
        ensures { OnOk result (Made self.now (by_default self.now.tables.now (enters self.now levels) s) e.old e.new) }
    {
        e.defaults.add(s);
        self.reach(levels, s, self.tables.defaults(s), e)
    }

    /// Adds all of these states, and only then what stands between each of them and the limit.
    #[cycle(enter)]
    fn reach(&self, levels: u32, limit: u32, ss: &[u32], e: &mut Entry3) -> Result<(), NoMemory>
        requires limit { limit ≤ state_count self.now.tables.now }
        requires ss { All (λ s. s < state_count self.now.tables.now) ss.now }
        requires width { Fits self.now e.old }
        ensures { OnOk result (Made self.now
            (reach self.now.tables.now (enters self.now levels) limit ss.now) e.old e.new) }
    {
        self.down_each(levels, ss, e)?;
        self.up_each(levels, limit, ss, e)
    }

    #[cycle(enter)]
    fn down_each(&self, levels: u32, ss: &[u32], e: &mut Entry3) -> Result<(), NoMemory>
        requires ss { All (λ s. s < state_count self.now.tables.now) ss.now }
        requires width { Fits self.now e.old }
        ensures { OnOk result (Made self.now (each (enters self.now levels) ss.now) e.old e.new) }
    {
        for s in ss {
            self.down(levels, *s, e)?;
        }
        Ok(())
    }

    #[cycle(enter)]
    fn up_each(&self, levels: u32, limit: u32, ss: &[u32], e: &mut Entry3) -> Result<(), NoMemory>
        requires limit { limit ≤ state_count self.now.tables.now }
        requires ss { All (λ s. s < state_count self.now.tables.now) ss.now }
        requires width { Fits self.now e.old }
        ensures { OnOk result (Made self.now
            (each (up self.now.tables.now (enters self.now levels) limit) ss.now) e.old e.new) }
    {
        for s in ss {
            self.up(levels, limit, *s, e)?;
        }
        Ok(())
    }

    /// Adds the ancestors of a state below the limit, from the nearest, each with its other regions.
    #[cycle(enter)]
    fn up(&self, levels: u32, limit: u32, s: u32, e: &mut Entry3) -> Result<(), NoMemory>
        requires limit { limit ≤ state_count self.now.tables.now }
        requires s { s < state_count self.now.tables.now }
        requires width { Fits self.now e.old }
        ensures { OnOk result (Made self.now (up self.now.tables.now (enters self.now levels) limit s) e.old e.new) }
    {
        let mut next = parent(self.tables, s);
        while let Some(above) = next {
            self.pass(levels, limit, above, e)?;
            next = self.tables.parent(above);
        }
        Ok(())
    }

    /// Adds an ancestor where it is below the limit.
    #[cycle(enter)]
    fn pass(&self, levels: u32, limit: u32, s: u32, e: &mut Entry3) -> Result<(), NoMemory>
        requires limit { limit ≤ state_count self.now.tables.now }
        requires s { s < state_count self.now.tables.now }
        requires width { Fits self.now e.old }
        ensures { OnOk result (Made self.now
            (passed self.now.tables.now (enters self.now levels) limit s) e.old e.new) }
    {
        if self.tables.is_below(s, limit) {
            self.through(levels, s, e)
        } else {
            Ok(())
        }
    }

    /// Adds an ancestor; of a parallel, its other regions too.
    #[cycle(enter)]
    fn through(&self, levels: u32, s: u32, e: &mut Entry3) -> Result<(), NoMemory>
        requires s { s < state_count self.now.tables.now }
        requires width { Fits self.now e.old }
        ensures { OnOk result (Made self.now (through self.now.tables.now (enters self.now levels) s) e.old e.new) }
    {
        e.states.add(s);
        if self.tables.is_parallel(s) {
            self.regions(levels, s, e)
        } else {
            Ok(())
        }
    }

    /// Adds the child states of a parallel, but for those below which something is entered already.
    #[cycle(enter)]
    fn regions(&self, levels: u32, s: u32, e: &mut Entry3) -> Result<(), NoMemory>
        requires s { s < state_count self.now.tables.now }
        requires width { Fits self.now e.old }
        ensures { OnOk result (Made self.now (regions self.now.tables.now (enters self.now levels) s) e.old e.new) }
    {
        let children = self.tables.children(s);
        let mut from = 0;
        while let Some(child) = children.next(from) {
            self.region(levels, child, e)?;
            from = child + 1;
        }
        Ok(())
    }

    #[cycle(enter)]
    fn region(&self, levels: u32, s: u32, e: &mut Entry3) -> Result<(), NoMemory>
        requires s { s < state_count self.now.tables.now }
        requires width { Fits self.now e.old }
        ensures { OnOk result (Made self.now (region self.now.tables.now (enters self.now levels) s) e.old e.new) }
    {
        if e.states.meets(self.tables.below(s)) {
            return Ok(());
        }
        self.down(levels, s, e)
    }
}

/// A history whose default content is to run.
fn note(s: u32, e: &mut Entry3) -> Result<(), NoMemory>
    ensures { OnOk result ((width : ℕ) → HasWidth width e.old → Becomes width (noted s) e.old e.new) }
{
    if e.noted.slice().contains(&s) {
        return Ok(());
    }
    e.noted.push(s)
}
