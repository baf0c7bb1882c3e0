ghost use Rattle.std.specs.Prelude.{◌≡◌, ◌<◌, ◌≤◌, ◌++◌, ◌∷◌, [], All, if◌then◌else◌, length, IfOk, OnOk, filter, map, slice_set, slice_index_or};
ghost use Rattle.sc_types.specs.Elements.{is_numbered};
ghost use Rattle.sc_types.specs.Attributes.{words_at};
ghost use Rattle.sc_types.specs.declared.attribute.Attribute.TheVariants as attribute;
ghost use Rattle.sc_types.specs.declared.chart.Tag.TheVariants as tag_name;
ghost use Rattle.sc_law.specs.Nodes.{elements, element, tag_of, is_tag, parent};
ghost use Rattle.sc_law.specs.Configurations.{named};
ghost use Rattle.sc_law.specs.Legality.{is_transition, is_state_or_parallel};
ghost use Rattle.sc_law.specs.Transitions.{transition_paths};
ghost use Rattle.sc_tables.specs.Built.{AddsSource, AreStates, AreTransitions, AreSources, HasOwn, IsAddedTo, IsPlacedIf, IsSource, IsWithin, StandsBehind};
ghost use Rattle.sc_tables.specs.Nearest.{HasParents};

use crate::ids::{StateIds, state_number};
use crate::nearest::nearest;
use crate::rows::parent;
use crate::states::States;
use sc_law::{Path, element};
use sc_types::{Attribute, Chart, NoMemory, Plain, Sequence, Tag};
use std::alloc::Global;

/// The transitions of states by their numbers.
#[derive(Debug, Drop)]
pub(crate) struct Transitions {
    pub(crate) paths: Sequence<Path>,
    /// The states that the transitions stand in.
    pub(crate) sources: Sequence<Option<u32>>,
    pub(crate) targets: Sequence<Sequence<u32>>,
    /// For each state the numbers of its transitions.
    pub(crate) of_states: Sequence<Sequence<u32>>,
}

impl Transitions {
    /// The transitions of a chart whose elements have these paths.
    pub(crate) fn new(
        alloc: Global,
        ids: &StateIds<'_>,
        all: &[Path],
        states: &States,
    ) -> Result<Transitions, NoMemory>
        requires all { all.now ≡ elements ids.now }
        requires states { AreStates ids.now states.now }
        ensures { IfOk result (AreTransitions ids.now) }
    {
        let paths = transition_paths(alloc, ids.chart(), all)?;
        let sources = sources(alloc, ids.chart(), all, states)?;
        let targets = targets(alloc, ids, paths.slice())?;
        let of_states = of_states(alloc, sources.slice(), states.paths.len())?;
        Ok(Transitions {
            paths,
            sources,
            targets,
            of_states,
        })
    }
}

fn transition_paths(alloc: Global, chart: &Chart, all: &[Path]) -> Result<Sequence<Path>, NoMemory>
    ensures { IfOk result (λ ps. ps ≡ filter (is_transition chart.now) all.now) }
{
    let mut paths = Sequence::new(alloc);
    for path in all {
        if is_transition(chart, path.slice()) {
            paths.push(path.copy()?)?;
        }
    }
    Ok(paths)
}

/// Whether this is a transition of a state or a parallel.
fn is_transition(chart: &Chart, path: &[usize]) -> bool
    ensures { result ≡ is_transition chart.now path.now }
{
    match element(chart, path).tag {
        Tag::Transition => {
            !path.is_empty() && is_state_or_parallel(element(chart, parent(path)).tag)
        }
        _ => false,
    }
}

fn is_state_or_parallel(tag: Tag) -> bool
    ensures { result ≡ is_state_or_parallel tag }
{
    matches!(tag, Tag::State | Tag::Parallel)
}

/// For each transition the state that it stands in.
fn sources(
    alloc: Global,
    chart: &Chart,
    all: &[Path],
    states: &States,
) -> Result<Sequence<Option<u32>>, NoMemory>
    requires all { all.now ≡ elements chart.now }
    requires states { AreStates chart.now states.now }
    ensures { IfOk result (AreSources states.now.paths (transition_paths chart.now)) }
{
    let mut sources = Sequence::new(alloc);
    let mut before = 0;
    for path in all {
        add_source(&mut sources, chart, states, before, path.slice())?;
        before += count_of(element(chart, path.slice()).tag);
    }
    Ok(sources)
}

/// Adds the source of an element that is a transition.
fn add_source(
    sources: &mut Sequence<Option<u32>>,
    chart: &Chart,
    states: &States,
    before: usize,
    path: &[usize],
) -> Result<(), NoMemory>
    requires states { AreStates chart.now states.now }
    requires within { before ≤ length states.now.parents }
    requires placed { IsPlacedIf (is_transition chart.now path.now) states.now.paths before path.now }
    ensures { OnOk result
        (AddsSource states.now.paths (is_transition chart.now path.now) path.now sources.old sources.new) }
{
    if is_transition(chart, path) {
        sources.push(source(states, before, path))?;
    }
    Ok(())
}

/// How many states or histories an element of this tag is.
fn count_of(tag: Tag) -> usize
    ensures value { result ≡ (if is_numbered tag then 1 else 0) }
    ensures most { result ≤ 1 }
{
    if tag.is_numbered() { 1 } else { 0 }
}

/// The state that a transition stands in, which is one of the first `before`.
fn source(states: &States, before: usize, path: &[usize]) -> Option<u32>
    requires parents { HasParents states.now.paths states.now.parents }
    requires within { before ≤ length states.now.parents }
    requires small { length states.now.paths < 4294967296 }
    requires placed { StandsBehind states.now.paths before path.now }
    ensures { IsSource states.now.paths path.now result }
{
    let above = nearest(states.paths.slice(), states.parents.slice(), before, path)?;
    if parent(path) == states.paths.slice()[above as usize].slice() {
        Some(above)
    } else {
        None
    }
}

/// For each transition the states and histories that it names.
fn targets(
    alloc: Global,
    ids: &StateIds<'_>,
    paths: &[Path],
) -> Result<Sequence<Sequence<u32>>, NoMemory>
    ensures { IfOk result (λ ts. ts
        ≡ map (λ path. named ids.now (words_at attribute.Target (element ids.now path))) paths.now) }
{
    let mut targets = Sequence::new(alloc);
    for path in paths {
        let node = element(ids.chart(), path.slice());
        targets.push(ids.named(alloc, node.words(Attribute::Target))?)?;
    }
    Ok(targets)
}

/// For each state the numbers of the transitions of which it is the source.
fn of_states(
    alloc: Global,
    sources: &[Option<u32>],
    count: usize,
) -> Result<Sequence<Sequence<u32>>, NoMemory>
    requires { All (IsWithin count) sources.now }
    ensures { IfOk result (HasOwn sources.now count) }
{
    let mut lists = empty_lists(alloc, count)?;
    for (number, source) in sources.iter().enumerate() {
        add_own(&mut lists, *source, state_number(number)?)?;
    }
    Ok(lists)
}

fn empty_lists(alloc: Global, count: usize) -> Result<Sequence<Sequence<u32>>, NoMemory>
    ensures { IfOk result (HasOwn [] count) }
{
    let mut lists = Sequence::new(alloc);
    for _ in 0..count {
        lists.push(Sequence::new(alloc))?;
    }
    Ok(lists)
}

/// Puts the number of a transition at the end of the list of its source.
fn add_own(
    lists: &mut Sequence<Sequence<u32>>,
    source: Option<u32>,
    number: u32,
) -> Result<(), NoMemory>
    requires { IsWithin (length lists.old) source }
    ensures { OnOk result (IsAddedTo lists.old source number lists.new) }
{
    match source {
        Some(state) => add_to(lists, state as usize, number),
        None => Ok(()),
    }
}

/// Puts a number at the end of the list at a place.
fn add_to(lists: &mut Sequence<Sequence<u32>>, place: usize, number: u32) -> Result<(), NoMemory>
    requires { place < length lists.old }
    ensures { OnOk result (lists.new ≡ slice_set lists.old place (slice_index_or lists.old place [] ++ number ∷ [])) }
{
    lists.item_mut(place).push(number)
}
