ghost use Rattle.std.specs.Prelude.{◌≡◌, ◌+◌, ◌≤◌, ℕ, IfOk, filter, find, map, option_map, []};
ghost use Rattle.std.specs.List.{list_any, range_with_len};
ghost use Rattle.std.specs.Option.{option_copied};
ghost use Rattle.std.specs.Prelude.{take, unwrap_or};
ghost use Rattle.sc_types.specs.declared.chart.Tag.TheVariants as tag_name;
ghost use Rattle.sc_law.specs.Nodes.{tag_of, is_tag, element};
ghost use Rattle.sc_law.specs.Tree.{state_count};
ghost use Rattle.sc_law.specs.Legality.{is_default, default_ids};
ghost use Rattle.sc_law.specs.Configurations.{children, defaults, defaults_at, has_initial, initial_ids, state_defaults, named};
ghost use Rattle.sc_tables.specs.Built.{AreStates};

use crate::ids::StateIds;
use crate::states::States;
use sc_bits::Row;
use sc_law::{default_ids, element, has_states};
use sc_types::{Attribute, Bytes, NoMemory, Node, Sequence, Tag};
use std::alloc::Global;

/// For each state its default targets, and behind them those of the root.
pub(crate) fn defaults(
    alloc: Global,
    ids: &StateIds<'_>,
    states: &States,
    count: u32,
) -> Result<Sequence<Sequence<u32>>, NoMemory>
    requires states { AreStates ids.now states.now }
    requires count { count ≡ state_count ids.now }
    ensures { IfOk result (λ ds. ds ≡ map (defaults ids.now) (range_with_len 0 (count + 1))) }
{
    let mut lists = Sequence::new(alloc);
    for state in 0..count {
        lists.push(defaults_of(alloc, ids, states, state)?)?;
    }
    lists.push(defaults_of(alloc, ids, states, count)?)?;
    Ok(lists)
}

/// The default targets of a state, or of the root.
fn defaults_of(
    alloc: Global,
    ids: &StateIds<'_>,
    states: &States,
    state: u32,
) -> Result<Sequence<u32>, NoMemory>
    requires states { AreStates ids.now states.now }
    requires within { state ≤ state_count ids.now }
    ensures { IfOk result (λ ds. ds ≡ defaults ids.now state) }
{
    let node = element(ids.chart(), states.path_of(state));
    let row = &states.children.slice()[state as usize];
    defaults_at(alloc, ids, node, row)
}

fn defaults_at(
    alloc: Global,
    ids: &StateIds<'_>,
    node: &Node,
    row: &Row,
) -> Result<Sequence<u32>, NoMemory>
    ensures { IfOk result (λ ds. (s : ℕ) → children ids.now s ≡ row.now.members
        → ds ≡ defaults_at ids.now s node.now (tag_of node.now)) }
{
    match node.tag {
        Tag::History => ids.named(alloc, ids_or_none(default_ids(node))),
        Tag::Scxml => state_defaults(alloc, ids, node, row),
        Tag::State if has_states(node) => state_defaults(alloc, ids, node, row),
        _ => Ok(Sequence::new(alloc)),
    }
}

/// The default of an element with child states: its `initial` attribute, else its `initial` child, else its first
/// child state.
fn state_defaults(
    alloc: Global,
    ids: &StateIds<'_>,
    node: &Node,
    row: &Row,
) -> Result<Sequence<u32>, NoMemory>
    ensures { IfOk result (λ ds. (s : ℕ) → children ids.now s ≡ row.now.members
        → ds ≡ state_defaults ids.now s node.now) }
{
    if node.has(Attribute::Initial) {
        return ids.named(alloc, node.words(Attribute::Initial));
    }
    match initial(node.kids.slice()) {
        Some(initial) => ids.named(alloc, ids_or_none(default_ids(initial))),
        None => first(alloc, row),
    }
}

/// The first member of a row.
fn first(alloc: Global, row: &Row) -> Result<Sequence<u32>, NoMemory>
    ensures { IfOk result (λ ss. ss ≡ take 1 row.now.members) }
{
    let mut states = Sequence::new(alloc);
    if let Some(state) = row.next(0) {
        states.push(state)?;
    }
    Ok(states)
}

/// The first `initial` among child elements.
fn initial(kids: &[Node]) -> Option<&Node>
    ensures { option_copied result ≡ find (λ kid. is_tag tag_name.Initial (tag_of kid)) kids.now }
{
    kids.iter().find(|kid| is_initial(kid.tag))
}

fn is_initial(tag: Tag) -> bool
    ensures { result ≡ is_tag tag_name.Initial tag }
{
    matches!(tag, Tag::Initial)
}

fn ids_or_none(ids: Option<&[Bytes]>) -> &[Bytes]
    ensures { result.now ≡ unwrap_or (option_map (λ ids. ids.now) ids.entry) [] }
{
    match ids {
        Some(ids) => ids,
        None => &[],
    }
}
