ghost use Rattle.std.specs.Prelude.{◌≡◌, ◌<◌, ◌≤◌, None, ℕ, List, IfErr, IfOk, OnOk};
ghost use Rattle.sc_law.specs.Tree.{state_paths, state_named};
ghost use Rattle.sc_law.specs.Configurations.{named};
ghost use Rattle.sc_tables.specs.Ids.{number_of, IsPut, IsAdded};

use sc_base::{Bytes, NoMemory, Sequence};
use sc_law::{Path, element};
use sc_types::{Attribute, Chart, Node};
use std::alloc::Global;
use std::collections::BTreeMap;
use std::marker::Model;

/// The number of the first state or history of each id.
#[derive(Drop)]
pub(crate) struct Numbers {
    by_id: BTreeMap<Vec<u8>, u32>,
}

impl Numbers {
    fn new(alloc: Global) -> Numbers
        ensures { (id : List ℕ) → number_of result id ≡ None }
    {
        Numbers {
            by_id: BTreeMap::new(alloc),
        }
    }

    fn find(&self, id: &[u8]) -> Option<u32>
        ensures { result ≡ number_of self.now id.now }
    {
        self.by_id.get(id).copied()
    }

    /// Adds a state. An id that is there already keeps its number.
    fn add(&mut self, alloc: Global, node: &Node, number: u32) -> Result<(), NoMemory>
        ensures { OnOk result (IsAdded self.old node.now number self.new) }
    {
        match node.text(Attribute::Id) {
            Some(id) => self.put(alloc, id, number),
            None => Ok(()),
        }
    }

    fn put(&mut self, alloc: Global, id: &[u8], number: u32) -> Result<(), NoMemory>
        ensures { OnOk result (IsPut self.old id.now number self.new) }
    {
        if self.by_id.contains_key(id) {
            return Ok(());
        }
        self.by_id.insert(Vec::from_slice(alloc, id)?, number)?;
        Ok(())
    }
}

/// A chart, and the numbers of its states and histories by their ids.
#[derive(Drop)]
pub(crate) struct StateIds<'c> {
    chart: &'c Chart,
    numbers: Numbers,
}

impl<'c> Model for StateIds<'c> {
    ghost use Rattle.sc_types.specs.declared.chart.Chart.{Chart};
    ghost use Rattle.sc_types.specs.contracts.chart.Chart as chart_type;
    ghost use Rattle.std.specs.Coded.{codes};
    ghost use Rattle.sc_tables.specs.Ids.{HasNumbers};

    ghost Value = { Chart };

    ghost coded = { Prim.hlevel (codes, chart_type.the_row.coded) };

    ghost view = { λ i. i.chart.now };

    ghost invariant = { λ i. HasNumbers i.numbers i.chart.now };
}

impl<'c> StateIds<'c> {
    /// The ids of a chart whose states and histories have these paths.
    pub(crate) fn new(
        alloc: Global,
        chart: &'c Chart,
        paths: &[Path],
    ) -> Result<StateIds<'c>, NoMemory>
        requires { paths.now ≡ state_paths chart.now }
        ensures { IfOk result (λ i. i ≡ chart.now) }
    {
        let mut numbers = Numbers::new(alloc);
        for (place, path) in paths.iter().enumerate() {
            numbers.add(alloc, element(chart, path.slice()), state_number(place)?)?;
        }
        Ok(StateIds { chart, numbers })
    }

    pub(crate) fn chart(&self) -> &Chart
        ensures { result.now ≡ self.now }
    {
        self.chart
    }

    /// The state or history of an id.
    fn find(&self, id: &[u8]) -> Option<u32>
        ensures { result ≡ state_named self.now id.now }
    {
        self.numbers.find(id)
    }

    /// The states and histories of these ids, in their order.
    pub(crate) fn named(&self, alloc: Global, ids: &[Bytes]) -> Result<Sequence<u32>, NoMemory>
        ensures { IfOk result (λ ss. ss ≡ named self.now ids.now) }
    {
        let mut states = Sequence::new(alloc);
        for id in ids {
            if let Some(state) = self.find(id.slice()) {
                states.push(state)?;
            }
        }
        Ok(states)
    }
}

/// The number of a state, which is its place in document order. A chart with 2^32 states is larger than any
/// memory.
pub(crate) fn state_number(place: usize) -> Result<u32, NoMemory>
    ensures value { IfOk result (λ n. n ≡ place) }
    ensures small { IfOk result (λ _. place < 4294967296) }
    ensures large { IfErr result (λ _. 4294967296 ≤ place) }
{
    match u32::try_from(place) {
        Ok(number) => Ok(number),
        Err(_) => Err(NoMemory),
    }
}
