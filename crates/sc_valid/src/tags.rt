ghost use Rattle.std.specs.Prelude.{◌≡◌};
ghost use Rattle.std.specs.List.{list_any};
ghost use Rattle.sc_law.specs.Nodes.{tag_of, is_tag};
ghost use Rattle.sc_law.specs.Legality.{is_state_or_parallel, is_content, may_hold, is_single, has_kid};

use sc_types::{Node, Tag};

pub(crate) fn is_state_or_parallel(tag: Tag) -> bool
    ensures { result ≡ is_state_or_parallel tag }
{
    matches!(tag, Tag::State | Tag::Parallel)
}

pub(crate) fn is_content(tag: Tag) -> bool
    ensures { result ≡ is_content tag }
{
    matches!(
        tag,
        Tag::Raise | Tag::If | Tag::ForEach | Tag::Log | Tag::Assign | Tag::Send | Tag::Cancel
    )
}

/// Whether an element may stand in another.
pub(crate) fn may_hold(above: Tag, tag: Tag) -> bool
    ensures { result ≡ may_hold above tag }
{
    match above {
        Tag::Scxml => matches!(
            tag,
            Tag::DataModel | Tag::State | Tag::Parallel | Tag::Final
        ),
        Tag::State => matches!(
            tag,
            Tag::DataModel
                | Tag::OnEntry
                | Tag::OnExit
                | Tag::Transition
                | Tag::Initial
                | Tag::State
                | Tag::Parallel
                | Tag::Final
                | Tag::History
                | Tag::Invoke
        ),
        Tag::Parallel => matches!(
            tag,
            Tag::DataModel
                | Tag::OnEntry
                | Tag::OnExit
                | Tag::Transition
                | Tag::State
                | Tag::Parallel
                | Tag::History
                | Tag::Invoke
        ),
        Tag::Final => matches!(tag, Tag::OnEntry | Tag::OnExit | Tag::DoneData),
        Tag::History => matches!(tag, Tag::Transition),
        Tag::Initial => matches!(tag, Tag::Transition),
        Tag::Transition => is_content(tag),
        Tag::OnEntry => is_content(tag),
        Tag::OnExit => is_content(tag),
        Tag::ForEach => is_content(tag),
        Tag::Finalize => is_content(tag) && !matches!(tag, Tag::Raise | Tag::Send),
        Tag::DataModel => matches!(tag, Tag::DataItem),
        Tag::DoneData => matches!(tag, Tag::Content | Tag::Param),
        Tag::Send => matches!(tag, Tag::Content | Tag::Param),
        Tag::Invoke => matches!(tag, Tag::Param | Tag::Finalize),
        Tag::If => is_content(tag) || matches!(tag, Tag::ElseIf | Tag::Else),
        _ => false,
    }
}

/// Whether at most one of the element may stand in another.
pub(crate) fn is_single(above: Tag, tag: Tag) -> bool
    ensures { result ≡ is_single above tag }
{
    match above {
        Tag::Scxml => matches!(tag, Tag::DataModel),
        Tag::Parallel => matches!(tag, Tag::DataModel),
        Tag::State => matches!(tag, Tag::DataModel | Tag::Initial),
        Tag::Final => matches!(tag, Tag::DoneData),
        Tag::DoneData => matches!(tag, Tag::Content),
        Tag::Send => matches!(tag, Tag::Content),
        Tag::Invoke => matches!(tag, Tag::Finalize),
        _ => false,
    }
}

pub(crate) fn is_tag(tag: Tag, other: Tag) -> bool
    ensures { result ≡ is_tag tag other }
{
    tag == other
}

pub(crate) fn is_any(tag: Tag, kids: &[Node]) -> bool
    ensures { result ≡ list_any (λ kid. is_tag tag (tag_of kid)) kids.now }
{
    kids.iter().any(|kid| is_tag(tag, kid.tag))
}

pub(crate) fn has_kid(tag: Tag, node: &Node) -> bool
    ensures { result ≡ has_kid tag node.now }
{
    is_any(tag, node.kids.slice())
}
