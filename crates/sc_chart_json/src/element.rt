ghost use Rattle.std.specs.Prelude.{◌≡◌};
ghost use Rattle.sc_types.specs.Elements.{attributes, required, either};

use sc_types::{Attribute, Tag};

/// The attributes that an element may have, ascending by name.
pub(crate) fn attributes(tag: Tag) -> &'static [Attribute]
    ensures { result.now ≡ attributes tag }
{
    match tag {
        Tag::Scxml => &[
            Attribute::Binding,
            Attribute::DataModel,
            Attribute::Initial,
            Attribute::Limit,
            Attribute::Name,
            Attribute::Values,
            Attribute::Version,
            Attribute::Xmlns,
        ],
        Tag::State => &[Attribute::Id, Attribute::Initial],
        Tag::Parallel => &[Attribute::Id],
        Tag::Final => &[Attribute::Id],
        Tag::History => &[Attribute::Id, Attribute::Type],
        Tag::Transition => &[
            Attribute::Cond,
            Attribute::Event,
            Attribute::Target,
            Attribute::Type,
        ],
        Tag::DataItem => &[Attribute::Expr, Attribute::Id],
        Tag::Content => &[Attribute::Expr],
        Tag::Param => &[Attribute::Expr, Attribute::Location, Attribute::Name],
        Tag::Invoke => &[
            Attribute::AutoForward,
            Attribute::Id,
            Attribute::IdLocation,
            Attribute::NameList,
            Attribute::Src,
            Attribute::Type,
        ],
        Tag::Raise => &[Attribute::Event],
        Tag::If => &[Attribute::Cond],
        Tag::ElseIf => &[Attribute::Cond],
        Tag::ForEach => &[Attribute::Array, Attribute::Index, Attribute::Item],
        Tag::Log => &[Attribute::Expr, Attribute::Label],
        Tag::Assign => &[Attribute::Expr, Attribute::Location],
        Tag::Send => &[
            Attribute::Delay,
            Attribute::DelayExpr,
            Attribute::Event,
            Attribute::EventExpr,
            Attribute::Id,
            Attribute::IdLocation,
            Attribute::NameList,
            Attribute::Target,
            Attribute::Type,
        ],
        Tag::Cancel => &[Attribute::SendId, Attribute::SendIdExpr],
        _ => &[],
    }
}

/// The attributes that an element must have.
pub(crate) fn required(tag: Tag) -> &'static [Attribute]
    ensures { result.now ≡ required tag }
{
    match tag {
        Tag::DataItem => &[Attribute::Id],
        Tag::Content => &[Attribute::Expr],
        Tag::Param => &[Attribute::Name],
        Tag::Invoke => &[Attribute::Src],
        Tag::Raise => &[Attribute::Event],
        Tag::If => &[Attribute::Cond],
        Tag::ElseIf => &[Attribute::Cond],
        Tag::ForEach => &[Attribute::Array, Attribute::Item],
        Tag::Assign => &[Attribute::Expr, Attribute::Location],
        _ => &[],
    }
}

/// Two attributes of which an element has exactly one.
pub(crate) fn either(tag: Tag) -> Option<(Attribute, Attribute)>
    ensures { result ≡ either tag }
{
    match tag {
        Tag::Param => Some((Attribute::Expr, Attribute::Location)),
        Tag::Cancel => Some((Attribute::SendId, Attribute::SendIdExpr)),
        _ => None,
    }
}
