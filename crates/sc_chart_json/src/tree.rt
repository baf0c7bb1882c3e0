//! The tree of a text, which borrows from it, seen as the data that `serde_json` reads from the text.
ghost use Rattle.std.specs.Prelude.{◌≡◌, true, is_some, option_map, Some, None, IfOk, OnOk, Err};
ghost use Rattle.std.specs.Str.{IsUtf8};
ghost use Rattle.json.specs.Value.{value_view, items_view as json_items, members_view as json_members};
ghost use Rattle.serde_json.specs.Errors.{IsMemory};
ghost use Rattle.serde_json.specs.Data.{no_members};
ghost use Rattle.serde_json.specs.Find.{get, as_str, as_array, as_object};
ghost use Rattle.serde_json.specs.Read.{read};
ghost use Rattle.sc_chart_json.specs.Trees.{tree_of, view, items_view, put_members, has_number, have_number, members_have_number};

use json::{Error, Reader, Scratch, Value};
use serde_json::Category;
use std::alloc::Global;

/// How deep arrays and objects may nest, as in `serde_json`.
const MAX_DEPTH: usize = 127;

/// The tree of a text.
#[tactic(auto, using(crate::proofs::TreeLemmas::reads))]
pub(crate) fn read_tree<'a>(
    alloc: Global,
    text: &'a [u8],
    scratch: &'a mut Scratch,
) -> Result<Value<'a>, Error>
    ensures ok { IfOk result (λ v. IsUtf8 text.now × (read text.now ≡ Some (view v))) }
    ensures invalid { result ≡ Err Error.Invalid → IsUtf8 text.now → read text.now ≡ None }
{
    let Ok(text) = std::str::from_utf8(text) else {
        return Err(Error::Invalid);
    };
    let tree = parse(alloc, text, scratch)?;
    check_numbers(alloc, text, &tree)?;
    Ok(tree)
}

fn parse<'a>(alloc: Global, text: &'a str, scratch: &'a mut Scratch) -> Result<Value<'a>, Error>
    ensures ok { IfOk result (λ v. tree_of text.now ≡ Some (value_view v)) }
    ensures invalid { result ≡ Err Error.Invalid → tree_of text.now ≡ None }
{
    let mut reader = Reader::new(text, scratch)?;
    let tree = Value::read(alloc, &mut reader, MAX_DEPTH)?;
    if reader.next().is_some() {
        return Err(Error::Invalid);
    }
    Ok(tree)
}

/// Refuses a text with a number too large for a float, as `serde_json` does. No legal chart has a number, so a text
/// with one may be read twice.
#[tactic(auto, using(crate::proofs::TreeLemmas::reads))]
fn check_numbers(alloc: Global, text: &str, tree: &Value<'_>) -> Result<(), Error>
    ensures ok { tree_of text.now ≡ Some (value_view tree.now) → OnOk result (read text.now ≡ Some (view tree.now)) }
    ensures invalid { result ≡ Err Error.Invalid → read text.now ≡ None }
{
    if !has_number(tree) {
        return Ok(());
    }
    check_text(alloc, text)
}

/// Refuses what `serde_json` does not read.
fn check_text(alloc: Global, text: &str) -> Result<(), Error>
    ensures ok { OnOk result (is_some (read text.now) ≡ true) }
    ensures invalid { result ≡ Err Error.Invalid → read text.now ≡ None }
{
    match serde_json::Value::from_str(alloc, text) {
        Ok(_) => Ok(()),
        Err(error) => Err(refusal_of(&error)),
    }
}

fn refusal_of(error: &serde_json::Error) -> Error
    ensures { result ≡ Error.Invalid → ¬ IsMemory error.now }
{
    match error.classify() {
        Category::Memory => Error::OutOfMemory,
        _ => Error::Invalid,
    }
}

/// Whether a number stands anywhere in a tree.
#[cycle(numbers)]
fn has_number(value: &Value<'_>) -> bool
    ensures { result ≡ has_number (value_view value.now) }
{
    match value {
        Value::Number(_) => true,
        Value::Array(items) => have_number(items),
        Value::Object(members) => members_have_number(members),
        _ => false,
    }
}

#[cycle(numbers)]
fn have_number(items: &[Value<'_>]) -> bool
    ensures { result ≡ have_number (json_items items.now) }
{
    for item in items {
        if has_number(item) {
            return true;
        }
    }
    false
}

#[cycle(numbers)]
fn members_have_number(members: &[(&str, Value<'_>)]) -> bool
    ensures { result ≡ members_have_number (json_members members.now) }
{
    for member in members {
        if has_number(&member.1) {
            return true;
        }
    }
    false
}

/// The last member of a name.
#[tactic(auto, using(crate::proofs::TreeLemmas::looks))]
pub(crate) fn member<'v, 'a>(value: &'v Value<'a>, name: &str) -> Option<&'v Value<'a>>
    ensures { option_map (λ v. view v.now) result ≡ get name.now (view value.now) }
{
    value.get(name)
}

#[tactic(auto, using(crate::proofs::TreeLemmas::looks))]
pub(crate) fn as_str<'a>(value: &Value<'a>) -> Option<&'a str>
    ensures { option_map (λ s. s.now) result ≡ as_str (view value.now) }
{
    value.as_str()
}

#[tactic(auto, using(crate::proofs::TreeLemmas::looks))]
pub(crate) fn as_array<'v, 'a>(value: &'v Value<'a>) -> Option<&'v Vec<Value<'a>>>
    ensures { option_map (λ items. items_view items.now.items) result ≡ as_array (view value.now) }
{
    match value {
        Value::Array(items) => Some(items),
        _ => None,
    }
}

#[tactic(auto, using(crate::proofs::TreeLemmas::looks))]
pub(crate) fn as_object<'v, 'a>(value: &'v Value<'a>) -> Option<&'v [(&'a str, Value<'a>)]>
    ensures { option_map (λ ms. put_members ms.now no_members) result ≡ as_object (view value.now) }
{
    match value {
        Value::Object(members) => Some(members.as_slice()),
        _ => None,
    }
}
