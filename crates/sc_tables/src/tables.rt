ghost use Rattle.std.specs.Prelude.{◌≡◌, ◌<◌, ◌≤◌, [], ◌∷◌, All, None, Some, IfOk, IfSome, filter, length, unwrap_or};
ghost use Rattle.std.specs.List.{range_with_len};
ghost use Rattle.std.specs.Arc.{arc_value};
ghost use Rattle.std.specs.Option.{option_map_or};
ghost use Rattle.sc_law.specs.Tree.{ancestors, is_below, root, state_count, state_element};
ghost use Rattle.sc_law.specs.Kinds.{is_history, kind_of};
ghost use Rattle.sc_law.specs.Configurations.{children, defaults, parent_of};
ghost use Rattle.sc_law.specs.Legality.{legal_fault};
ghost use Rattle.sc_law.specs.Transitions.{source, targets, transition, transition_paths, transitions_of};
ghost use Rattle.sc_tables.specs.Built.{AreStates, AreTransitions};
ghost use Rattle.sc_tables.specs.Kept.{AreTables};
ghost use Rattle.sc_tables.specs.Rows.{below, row_of};

use crate::defaults::defaults;
use crate::ids::{StateIds, state_number};
use crate::kinds::histories;
use crate::states::States;
use crate::transitions::Transitions;
use sc_bits::Row;
use sc_law::{element, element_paths};
use sc_types::{Chart, NoMemory, Node, Sequence, StateKind};
use std::alloc::Global;
use std::marker::Model;
use std::sync::Arc;

/// A legal chart, and its tree as tables. States and histories have numbers in document order from 0, and the root has
/// the number after the last. The transitions of states and parallels have numbers of their own, in document order from
/// 0. The tables share the chart with whoever else holds it.
#[derive(Drop)]
pub struct Tables {
    chart: Arc<Chart>,
    count: u32,
    transition_count: u32,
    states: States,
    transitions: Transitions,
    /// The default targets of the states, and behind them those of the root.
    defaults: Sequence<Sequence<u32>>,
    histories: Sequence<u32>,
}

impl Model for Tables {
    ghost use Rattle.std.specs.Arc.{arc_value};
    ghost use Rattle.sc_types.specs.declared.chart.Chart.{Chart};
    ghost use Rattle.sc_types.specs.contracts.chart.Chart as chart_type;
    ghost use Rattle.std.specs.Coded.{codes};
    ghost use Rattle.sc_tables.specs.Kept.{AreTables};

    ghost Value = { Chart };

    ghost coded = { Prim.hlevel (codes, chart_type.the_row.coded) };

    ghost view = { λ t. arc_value t.chart };

    ghost invariant = { λ t. AreTables (arc_value t.chart) t.count t.transition_count t.states t.transitions t.defaults
        t.histories };
}

/// The tables of a legal chart.
pub fn build(alloc: Global, chart: &Arc<Chart>) -> Result<Tables, NoMemory>
    requires legal { legal_fault (arc_value chart.now) ≡ None }
    ensures { IfOk result (λ t. t ≡ arc_value chart.now) }
{
    let elements = element_paths(alloc, chart)?;
    let states = States::new(alloc, chart, elements.slice())?;
    let ids = StateIds::new(alloc, chart, states.paths.slice())?;
    let transitions = Transitions::new(alloc, &ids, elements.slice(), &states)?;
    let rest = remainder_of(alloc, chart, &ids, &states, &transitions)?;
    Ok(joined(rest, states, transitions))
}

/// What tables have beside those of the states and the transitions.
#[derive(Drop)]
struct Remainder {
    chart: Arc<Chart>,
    count: u32,
    transition_count: u32,
    defaults: Sequence<Sequence<u32>>,
    histories: Sequence<u32>,
}

/// Takes all the memory that is still needed, so that the tables can be joined without a fault.
fn remainder_of(
    alloc: Global,
    chart: &Arc<Chart>,
    ids: &StateIds<'_>,
    states: &States,
    transitions: &Transitions,
) -> Result<Remainder, NoMemory>
    requires legal { legal_fault (arc_value chart.now) ≡ None }
    requires ids { ids.now ≡ arc_value chart.now }
    requires states { AreStates ids.now states.now }
    requires transitions { AreTransitions ids.now transitions.now }
    ensures chart { IfOk result (λ b. arc_value b.chart ≡ arc_value chart.now) }
    ensures tables { IfOk result (λ b. AreTables (arc_value b.chart) b.count b.transition_count states.now
        transitions.now b.defaults b.histories) }
{
    let count = state_number(states.paths.len())?;
    let transition_count = state_number(transitions.paths.len())?;
    let defaults = defaults(alloc, ids, states, count)?;
    let histories = histories(alloc, states.kinds.slice(), count)?;
    Ok(Remainder {
        chart: Arc::try_clone(chart)?,
        count,
        transition_count,
        defaults,
        histories,
    })
}

fn joined(rest: Remainder, states: States, transitions: Transitions) -> Tables
    requires { AreTables (arc_value rest.chart) rest.count rest.transition_count states transitions rest.defaults
        rest.histories }
    ensures { result ≡ arc_value rest.chart }
{
    Tables {
        chart: rest.chart,
        count: rest.count,
        transition_count: rest.transition_count,
        states,
        transitions,
        defaults: rest.defaults,
        histories: rest.histories,
    }
}

impl Tables {
    pub fn chart(&self) -> &Arc<Chart>
        ensures value { arc_value result.now ≡ self.now }
        ensures legal { legal_fault self.now ≡ None }
    {
        &self.chart
    }

    /// How many states and histories there are; also the number of the root.
    pub fn count(&self) -> u32
        ensures { result ≡ state_count self.now }
    {
        self.count
    }

    /// The nearest state that a state stands in; none of a child of the root.
    pub fn parent(&self, s: u32) -> Option<u32>
        requires { s < state_count self.now }
        ensures value { unwrap_or result (root self.now) ≡ parent_of self.now s }
        ensures above { ancestors self.now s ≡ option_map_or (λ p. p ∷ ancestors self.now p) result [] }
        ensures within { IfSome result (λ p. p < s) }
    {
        self.states.parents.slice()[s as usize]
    }

    /// The states and histories below a state.
    pub fn below(&self, s: u32) -> &Row
        requires { s < state_count self.now }
        ensures { result.now ≡ row_of self.now (below self.now s) }
    {
        &self.states.below.slice()[s as usize]
    }

    /// Whether a state or history is below another, or below the root.
    pub fn is_below(&self, s: u32, above: u32) -> bool
        requires s { s < state_count self.now }
        requires above { above ≤ state_count self.now }
        ensures { result ≡ is_below self.now s above }
    {
        above == self.count || self.below(above).has(s)
    }

    /// The child states of a state, or of the root.
    pub fn children(&self, s: u32) -> &Row
        requires { s ≤ state_count self.now }
        ensures { result.now ≡ row_of self.now (children self.now s) }
    {
        &self.states.children.slice()[s as usize]
    }

    pub fn kind(&self, s: u32) -> StateKind
        requires { s < state_count self.now }
        ensures { Some result ≡ kind_of self.now s }
    {
        self.states.kinds.slice()[s as usize]
    }

    /// The element of a state, or of the root.
    pub fn element(&self, s: u32) -> &Node
        requires { s ≤ state_count self.now }
        ensures { result.now ≡ state_element self.now s }
    {
        element(&self.chart, self.states.path_of(s))
    }

    /// The numbers of a state's own transitions.
    pub fn transitions(&self, s: u32) -> &[u32]
        requires { s < state_count self.now }
        ensures { result.now ≡ transitions_of self.now s }
    {
        self.transitions.of_states.slice()[s as usize].slice()
    }

    /// How many transitions of states there are.
    pub fn transition_count(&self) -> u32
        ensures { result ≡ length (transition_paths self.now) }
    {
        self.transition_count
    }

    pub fn transition(&self, tr: u32) -> &Node
        requires { tr < length (transition_paths self.now) }
        ensures { result.now ≡ transition self.now tr }
    {
        element(
            &self.chart,
            self.transitions.paths.slice()[tr as usize].slice(),
        )
    }

    /// The state that a transition stands in.
    pub fn source(&self, tr: u32) -> u32
        requires { tr < length (transition_paths self.now) }
        ensures value { result ≡ source self.now tr }
        ensures within { result ≤ state_count self.now }
    {
        match self.transitions.sources.slice()[tr as usize] {
            Some(state) => state,
            None => self.count,
        }
    }

    /// The states and histories that a transition names, in its order.
    pub fn targets(&self, tr: u32) -> &[u32]
        requires { tr < length (transition_paths self.now) }
        ensures value { result.now ≡ targets self.now tr }
        ensures within { All (λ s. s < state_count self.now) result.now }
    {
        self.transitions.targets.slice()[tr as usize].slice()
    }

    /// The default targets of a compound state, of a history, or of the root; none of another state.
    pub fn defaults(&self, s: u32) -> &[u32]
        requires { s ≤ state_count self.now }
        ensures value { result.now ≡ defaults self.now s }
        ensures within { All (λ s. s < state_count self.now) result.now }
    {
        self.defaults.slice()[s as usize].slice()
    }

    /// The numbers of the histories, ascending.
    pub fn histories(&self) -> &[u32]
        ensures value { result.now ≡ filter (is_history self.now) (range_with_len 0 (state_count self.now)) }
        ensures within { All (λ s. s < state_count self.now) result.now }
    {
        self.histories.slice()
    }
}
