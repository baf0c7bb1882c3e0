ghost use Rattle.std.specs.Prelude.{◌≡◌};
ghost use Rattle.sc_types.specs.Elements.{attribute_text, form_of, event_form, id_form, name_form, target_form, type_form};

use crate::chart::Tag;

/// An attribute of an element of a chart.
#[derive(Clone, Copy, Debug, PartialEq, Eq)]
pub enum Attribute {
    Array,
    AutoForward,
    Binding,
    Cond,
    DataModel,
    Delay,
    DelayExpr,
    Event,
    EventExpr,
    Expr,
    Id,
    IdLocation,
    Index,
    Initial,
    Item,
    Label,
    Limit,
    Location,
    Name,
    NameList,
    SendId,
    SendIdExpr,
    Src,
    Target,
    Type,
    Values,
    Version,
    Xmlns,
}

/// What the text of an attribute may be. Lengths are in bytes.
#[derive(Clone, Copy, Debug, PartialEq, Eq)]
pub enum Form {
    /// A word of at most 128 bytes.
    Id,
    /// One or more ids.
    Ids,
    /// The name of a datum.
    PlainName,
    /// One or more names of data.
    PlainNames,
    /// A word of at most 256 bytes.
    EventName,
    /// One or more words.
    Descriptors,
    /// Any text of at most 512 bytes.
    SendTarget,
    /// Any text of at most 256 bytes.
    TypeName,
    /// `external` or `internal`.
    TransitionType,
    /// `shallow` or `deep`.
    HistoryType,
    /// `whole` or `null`.
    DataModel,
    /// `early` or `late`.
    Binding,
    /// `false` or `true`.
    Truth,
    /// A number of 32 bits in decimal digits, without a leading zero.
    Limit,
    /// The number of a profile of values.
    Profile,
    /// `1.0`.
    Version,
    /// The name space of SCXML.
    NameSpace,
    /// A word of at most 64 bytes.
    ChartName,
    /// What a text of the data model may be.
    Label,
    /// A delay.
    Delay,
    /// An expression.
    Code,
}

impl Attribute {
    /// The name of the attribute.
    pub fn text(self) -> &'static str
        ensures { result.now ≡ attribute_text self }
    {
        match self {
            Attribute::Array => "array",
            Attribute::AutoForward => "autoforward",
            Attribute::Binding => "binding",
            Attribute::Cond => "cond",
            Attribute::DataModel => "datamodel",
            Attribute::Delay => "delay",
            Attribute::DelayExpr => "delayexpr",
            Attribute::Event => "event",
            Attribute::EventExpr => "eventexpr",
            Attribute::Expr => "expr",
            Attribute::Id => "id",
            Attribute::IdLocation => "idlocation",
            Attribute::Index => "index",
            Attribute::Initial => "initial",
            Attribute::Item => "item",
            Attribute::Label => "label",
            Attribute::Limit => "limit",
            Attribute::Location => "location",
            Attribute::Name => "name",
            Attribute::NameList => "namelist",
            Attribute::SendId => "sendid",
            Attribute::SendIdExpr => "sendidexpr",
            Attribute::Src => "src",
            Attribute::Target => "target",
            Attribute::Type => "type",
            Attribute::Values => "values",
            Attribute::Version => "version",
            Attribute::Xmlns => "xmlns",
        }
    }

    /// The form of the attribute at an element of this tag.
    pub fn form(self, tag: Tag) -> Form
        ensures { result ≡ form_of tag self }
    {
        match self {
            Attribute::Array => Form::Code,
            Attribute::AutoForward => Form::Truth,
            Attribute::Binding => Form::Binding,
            Attribute::Cond => Form::Code,
            Attribute::DataModel => Form::DataModel,
            Attribute::Delay => Form::Delay,
            Attribute::DelayExpr => Form::Code,
            Attribute::Event => tag.event_form(),
            Attribute::EventExpr => Form::Code,
            Attribute::Expr => Form::Code,
            Attribute::Id => tag.id_form(),
            Attribute::IdLocation => Form::PlainName,
            Attribute::Index => Form::PlainName,
            Attribute::Initial => Form::Ids,
            Attribute::Item => Form::PlainName,
            Attribute::Label => Form::Label,
            Attribute::Limit => Form::Limit,
            Attribute::Location => Form::PlainName,
            Attribute::Name => tag.name_form(),
            Attribute::NameList => Form::PlainNames,
            Attribute::SendId => Form::Id,
            Attribute::SendIdExpr => Form::Code,
            Attribute::Src => Form::ChartName,
            Attribute::Target => tag.target_form(),
            Attribute::Type => tag.type_form(),
            Attribute::Values => Form::Profile,
            Attribute::Version => Form::Version,
            Attribute::Xmlns => Form::NameSpace,
        }
    }
}

impl Tag {
    fn event_form(self) -> Form
        ensures { result ≡ event_form self }
    {
        match self {
            Tag::Transition => Form::Descriptors,
            _ => Form::EventName,
        }
    }

    fn id_form(self) -> Form
        ensures { result ≡ id_form self }
    {
        match self {
            Tag::DataItem => Form::PlainName,
            _ => Form::Id,
        }
    }

    fn name_form(self) -> Form
        ensures { result ≡ name_form self }
    {
        match self {
            Tag::Param => Form::PlainName,
            _ => Form::Label,
        }
    }

    fn target_form(self) -> Form
        ensures { result ≡ target_form self }
    {
        match self {
            Tag::Transition => Form::Ids,
            _ => Form::SendTarget,
        }
    }

    fn type_form(self) -> Form
        ensures { result ≡ type_form self }
    {
        match self {
            Tag::Transition => Form::TransitionType,
            Tag::History => Form::HistoryType,
            _ => Form::TypeName,
        }
    }
}
