ghost use Rattle.std.specs.Prelude.{◌≡◌, ◌&&◌, ◌||◌, codes, [], true, false, is_none, IfOk, Err, None, Some, option_map, find};
ghost use Rattle.std.specs.List.{list_all, list_any, filter_map};
ghost use Rattle.std.specs.Str.{bytes_eq};
ghost use Rattle.std.specs.Option.{option_map_or};
ghost use Rattle.sc_chart_json.specs.Trees.{view, items_view};
ghost use Rattle.sc_types.specs.Elements.{attribute_text, is_code};
ghost use Rattle.sc_types.specs.ChartTexts.{text_at, kids_at, is_known, has_known_members, has_fit_kids, is_given, is_fit, has_one, has_fit_members, is_bad_code, bad_code, member_of, member_at, members_at};
ghost use Rattle.sc_expr.specs.Reading.{expr_of};

use crate::element::{attributes, either, required};
use crate::form::has_form;
use crate::pieces::pieces;
use crate::room::{own_members, with_room};
use crate::tree::{as_array, as_object, as_str, member};
use json::Value;
use sc_base::{Bytes, Failure, Sequence};
use sc_expr::{ExprFault, read_expr};
use sc_types::{Attribute, Form, Member, Profile, Tag};
use std::alloc::Global;

pub(crate) fn text_at<'a>(value: &Value<'a>, name: &str) -> Option<&'a [u8]>
    ensures { option_map (λ t. t.now) result ≡ text_at name.now (view value.now) }
{
    match member(value, name) {
        Some(found) => as_str(found).map(|text| text.as_bytes()),
        None => None,
    }
}

/// The child elements; none where there is no array of them.
pub(crate) fn kids_at<'v, 'a>(value: &'v Value<'a>) -> &'v [Value<'a>]
    ensures { items_view result.now ≡ kids_at (view value.now) }
{
    slice_or_empty(member(value, "kids").and_then(as_array))
}

fn slice_or_empty<T>(items: Option<&Vec<T>>) -> &[T]
    ensures { result.now ≡ option_map_or (λ v. v.now.items) items.entry [] }
{
    match items {
        Some(items) => items.as_slice(),
        None => &[],
    }
}

/// Whether each member is one that the element may have.
pub(crate) fn has_known_members(tag: Tag, value: &Value<'_>) -> bool
    ensures { result ≡ has_known_members tag (view value.now) }
{
    match as_object(value) {
        Some(members) => are_known(tag, members),
        None => true,
    }
}

fn are_known(tag: Tag, members: &[(&str, Value<'_>)]) -> bool
    ensures { result ≡ list_all (λ m. is_known tag m.0.now) members.now }
{
    members.iter().all(|m| is_known(tag, m.0.as_bytes()))
}

fn is_known(tag: Tag, name: &[u8]) -> bool
    ensures { result ≡ is_known tag name.now }
{
    is_of_each(name) || is_named(attributes(tag), name)
}

fn is_named(attributes: &[Attribute], name: &[u8]) -> bool
    ensures { result ≡ list_any (λ a. bytes_eq name.now (attribute_text a)) attributes.now }
{
    attributes.iter().any(|a| name == a.text().as_bytes())
}

/// Whether each element may have the member.
pub(crate) fn is_of_each(name: &[u8]) -> bool
    ensures { result ≡ bytes_eq name.now (codes "tag") || bytes_eq name.now (codes "kids") }
{
    matches!(name, b"tag" | b"kids")
}

/// Whether each member has its form, expressions aside, and none is missing.
pub(crate) fn has_fit_members(tag: Tag, value: &Value<'_>) -> bool
    ensures { result ≡ has_fit_members tag (view value.now) }
{
    has_fit_kids(value)
        && are_fit(attributes(tag), tag, value)
        && are_given(value, required(tag))
        && has_one(value, either(tag))
}

fn are_given(value: &Value<'_>, attributes: &[Attribute]) -> bool
    ensures { result ≡ list_all (is_given (view value.now)) attributes.now }
{
    attributes.iter().all(|a| is_given(value, *a))
}

fn has_fit_kids(value: &Value<'_>) -> bool
    ensures { result ≡ has_fit_kids (view value.now) }
{
    match member(value, "kids") {
        Some(kids) => as_array(kids).is_some(),
        None => true,
    }
}

fn is_given(value: &Value<'_>, attribute: Attribute) -> bool
    ensures { result ≡ is_given (view value.now) attribute }
{
    member(value, attribute.text()).is_some()
}

/// Whether exactly one of the two is given, where there are two.
fn has_one(value: &Value<'_>, two: Option<(Attribute, Attribute)>) -> bool
    ensures { result ≡ option_map_or (has_one (view value.now)) two true }
{
    match two {
        Some((a, b)) => is_given(value, a) != is_given(value, b),
        None => true,
    }
}

fn are_fit(attributes: &[Attribute], tag: Tag, value: &Value<'_>) -> bool
    ensures { result ≡ list_all (is_fit tag (view value.now)) attributes.now }
{
    attributes.iter().all(|a| is_fit(tag, value, *a))
}

fn is_fit(tag: Tag, value: &Value<'_>, attribute: Attribute) -> bool
    ensures { result ≡ is_fit tag (view value.now) attribute }
{
    let Some(given) = member(value, attribute.text()) else {
        return true;
    };
    match as_str(given) {
        Some(text) => has_form(attribute.form(tag), text.as_bytes()),
        None => false,
    }
}

/// The members that are kept, ascending by name.
pub(crate) fn read_members(
    alloc: Global,
    profile: Profile,
    tag: Tag,
    value: &Value<'_>,
) -> Result<Sequence<(Bytes, Member)>, Failure<Attribute>>
    ensures ok { IfOk result (λ ms. (bad_code (expr_of profile) tag (view value.now) ≡ None)
        × (ms ≡ members_at (expr_of profile) tag (view value.now))) }
    ensures bad { (a : Attribute) → result ≡ Err (Failure.Fault a)
        → bad_code (expr_of profile) tag (view value.now) ≡ Some a }
{
    read_all(alloc, profile, attributes(tag), tag, value)
}

fn read_all(
    alloc: Global,
    profile: Profile,
    attributes: &[Attribute],
    tag: Tag,
    value: &Value<'_>,
) -> Result<Sequence<(Bytes, Member)>, Failure<Attribute>>
    ensures ok { IfOk result (λ ms. (find (is_bad_code (expr_of profile) tag (view value.now)) attributes.now ≡ None)
        × (ms ≡ filter_map (member_at (expr_of profile) tag (view value.now)) attributes.now)) }
    ensures bad { (a : Attribute) → result ≡ Err (Failure.Fault a)
        → find (is_bad_code (expr_of profile) tag (view value.now)) attributes.now ≡ Some a }
{
    let room = own_members(value).min(attributes.len());
    let mut members = with_room(alloc, room)?;
    for attribute in attributes {
        if let Some(member) = read_member(alloc, profile, tag, value, *attribute)? {
            let name = Bytes::from_slice(alloc, attribute.text().as_bytes())?;
            members.push((name, member))?;
        }
    }
    Ok(members)
}

fn read_member(
    alloc: Global,
    profile: Profile,
    tag: Tag,
    value: &Value<'_>,
    attribute: Attribute,
) -> Result<Option<Member>, Failure<Attribute>>
    ensures ok { IfOk result (λ o. (is_bad_code (expr_of profile) tag (view value.now) attribute ≡ false)
        × (option_map (λ m. (attribute_text attribute, m)) o
        ≡ member_at (expr_of profile) tag (view value.now) attribute)) }
    ensures bad { (a : Attribute) → result ≡ Err (Failure.Fault a) → (a ≡ attribute)
        × (is_bad_code (expr_of profile) tag (view value.now) attribute ≡ true) }
{
    match text_at(value, attribute.text()) {
        Some(text) => read_text(alloc, profile, attribute, attribute.form(tag), text),
        None => Ok(None),
    }
}

/// The member of a text; `None` where it is not kept.
fn read_text(
    alloc: Global,
    profile: Profile,
    attribute: Attribute,
    form: Form,
    text: &[u8],
) -> Result<Option<Member>, Failure<Attribute>>
    ensures ok { IfOk result (λ o. (is_code form && is_none (expr_of profile text.now) ≡ false)
        × (o ≡ member_of (expr_of profile) form text.now)) }
    ensures bad { (a : Attribute) → result ≡ Err (Failure.Fault a) → (a ≡ attribute)
        × (is_code form && is_none (expr_of profile text.now) ≡ true) }
{
    match form {
        Form::Code => Ok(Some(read_code(alloc, profile, attribute, text)?)),
        Form::Ids | Form::Descriptors | Form::PlainNames => {
            Ok(Some(Member::Items(pieces(alloc, text)?)))
        }
        Form::Version | Form::NameSpace => Ok(None),
        _ => Ok(Some(Member::Plain(Bytes::from_slice(alloc, text)?))),
    }
}

fn read_code(
    alloc: Global,
    profile: Profile,
    attribute: Attribute,
    text: &[u8],
) -> Result<Member, Failure<Attribute>>
    ensures ok { IfOk result (λ m. member_of (expr_of profile) Form.Code text.now ≡ Some m) }
    ensures bad { (a : Attribute) → result ≡ Err (Failure.Fault a) → (a ≡ attribute) × (expr_of profile text.now ≡ None) }
{
    match read_expr(alloc, text, profile) {
        Ok(code) => Ok(Member::Code(code)),
        Err(fault) => Err(code_unread(attribute, fault)),
    }
}

/// Why the expression of an attribute is not read.
fn code_unread(attribute: Attribute, fault: ExprFault) -> Failure<Attribute>
    ensures outside { fault ≡ ExprFault.NotExpr → result ≡ Failure.Fault attribute }
    ensures memory { fault ≡ ExprFault.NoMemory → result ≡ Failure.NoMemory }
{
    match fault {
        ExprFault::NotExpr => Failure::Fault(attribute),
        ExprFault::NoMemory => Failure::NoMemory,
    }
}
