ghost use Rattle.std.specs.Prelude.{◌≡◌, ◌<◌, ◌++◌, ◌∷◌, [], IfOk, OnOk, Some, true, if◌then◌else◌, codes, filter, length};
ghost use Rattle.std.specs.List.{range_with_len};
ghost use Rattle.sc_types.specs.Attributes.{is_text_at};
ghost use Rattle.sc_types.specs.Elements.{is_numbered};
ghost use Rattle.sc_types.specs.declared.attribute.Attribute.TheVariants as attribute;
ghost use Rattle.sc_types.specs.declared.state_kind.StateKind.TheVariants as kind;
ghost use Rattle.sc_law.specs.Nodes.{tag_of};
ghost use Rattle.sc_law.specs.Tree.{has_states};
ghost use Rattle.sc_law.specs.Kinds.{kind_at, is_history_kind};
ghost use Rattle.sc_tables.specs.Blocks.{is_history_in};

use sc_law::has_states;
use sc_types::{Attribute, NoMemory, Node, Sequence, StateKind, Tag};
use std::alloc::Global;

/// What a state or a history is.
pub(crate) fn kind_of(node: &Node) -> StateKind
    requires { is_numbered (tag_of node.now) ≡ true }
    ensures { Some result ≡ kind_at node.now (tag_of node.now) }
{
    match node.tag {
        Tag::State => state_kind(node),
        Tag::Final => StateKind::Final,
        Tag::Parallel => StateKind::Parallel,
        _ => history_kind(node),
    }
}

fn state_kind(node: &Node) -> StateKind
    ensures { result ≡ (if has_states node.now then kind.Compound else kind.Atomic) }
{
    if has_states(node) {
        StateKind::Compound
    } else {
        StateKind::Atomic
    }
}

fn history_kind(node: &Node) -> StateKind
    ensures { result ≡ (if is_text_at attribute.Type (codes "deep") node.now then kind.Deep else kind.Shallow) }
{
    if node.is_text(Attribute::Type, b"deep") {
        StateKind::Deep
    } else {
        StateKind::Shallow
    }
}

pub(crate) fn is_history(kind: StateKind) -> bool
    ensures { result ≡ is_history_kind kind }
{
    matches!(kind, StateKind::Shallow | StateKind::Deep)
}

/// The numbers of the histories, by the kinds of all states and histories.
pub(crate) fn histories(
    alloc: Global,
    kinds: &[StateKind],
    count: u32,
) -> Result<Sequence<u32>, NoMemory>
    requires { count ≡ length kinds.now }
    ensures { IfOk result (λ hs. hs ≡ filter (is_history_in kinds.now) (range_with_len 0 count)) }
{
    let mut found = Sequence::new(alloc);
    for state in 0..count {
        push_if(&mut found, is_history_at(kinds, state), state)?;
    }
    Ok(found)
}

fn is_history_at(kinds: &[StateKind], state: u32) -> bool
    requires { state < length kinds.now }
    ensures { result ≡ is_history_in kinds.now state }
{
    is_history(kinds[state as usize])
}

fn push_if(states: &mut Sequence<u32>, test: bool, s: u32) -> Result<(), NoMemory>
    ensures { OnOk result (states.new ≡ states.old ++ (if test then s ∷ [] else [])) }
{
    if test { states.push(s) } else { Ok(()) }
}
