// The values of a post's pairs: a byte for the kind, and what the value holds.
ghost use Rattle.std.specs.Prelude.{◌≡◌, ◌++◌, ◌<◌, ◌^◌, ℕ, List, length, flat_map, option_map, IsTrue, OnOk};
ghost use Rattle.std.specs.Borrow.{Bor};
ghost use Rattle.std.specs.List.{list_all};
ghost use Rattle.sc_codec.specs.Bodies.{value_field};
ghost use Rattle.sc_codec.specs.Reading.{Gives, many_from, truth_from, int_from, text_from, counted_from, item_of_kind, item_from, list_from, shape_from, value_from};
ghost use Rattle.sc_frame.specs.Fields.{number_field};
ghost use Rattle.sc_types.specs.Values.{fits_flat, is_flat_item};
ghost use Rattle.sc_types.specs.declared.value.Value.{Value};

use crate::fault::CodecFault;
use crate::field::{i64_from, text_from, u16_from};
use sc_base::{Bytes, NoMemory, Sequence};
use sc_frame::{put_bytes, put_i64, put_u16};
use sc_types::Value;
use std::alloc::Global;

#[cycle(put)]
#[tactic(auto, using(crate::proofs::ValueFields::fields))]
pub(crate) fn put_value(out: &mut Vec<u8>, value: &Value) -> Result<(), NoMemory>
    requires { IsTrue (fits_flat value.now) }
    ensures { OnOk result (out.new.items ≡ out.old.items ++ value_field value.now) }
{
    match value {
        Value::Bool(truth) => out.extend_from_slice(&[0, u8::from(*truth)])?,
        Value::Int(number) => {
            out.push(1)?;
            put_i64(out, *number)?;
        }
        Value::Text(text) => {
            out.push(2)?;
            put_bytes(out, text.slice())?;
        }
        Value::List(items) => {
            out.push(3)?;
            put_items(out, items.slice())?;
        }
    }
    Ok(())
}

// The count of the items of a list, and the items.
#[cycle(put)]
fn put_items(out: &mut Vec<u8>, items: &[Value]) -> Result<(), NoMemory>
    requires count { length items.now < 2 ^ 16 }
    requires items { IsTrue (list_all is_flat_item items.now) }
    ensures { OnOk result (out.new.items
        ≡ out.old.items ++ (number_field 2 (length items.now) ++ flat_map value_field items.now)) }
{
    put_u16(out, items.len() as u16)?;
    for item in items {
        put_value(out, item)?;
    }
    Ok(())
}

#[tactic(auto, unfolding(crate::specs::Reading::value_from))]
pub(crate) fn value_from(alloc: Global, bytes: &[u8]) -> Result<(Value, &[u8]), CodecFault>
    ensures { Gives (λ x. (x.0, x.1.now)) result (value_from bytes.now) }
{
    let (value, rest) = shape_from(alloc, bytes)?;
    if !value.fits_flat() {
        return Err(CodecFault::NotCommand);
    }
    Ok((value, rest))
}

// A value of any size.
#[tactic(auto, unfolding(crate::specs::Reading::shape_from))]
fn shape_from(alloc: Global, bytes: &[u8]) -> Result<(Value, &[u8]), CodecFault>
    ensures { Gives (λ x. (x.0, x.1.now)) result (shape_from bytes.now) }
{
    match bytes {
        [] => Err(CodecFault::NotCommand),
        [0, rest @ ..] => truth_from(rest).ok_or(CodecFault::NotCommand),
        [3, rest @ ..] => list_from(alloc, rest),
        [kind, rest @ ..] => item_of_kind(alloc, *kind, rest),
    }
}

#[tactic(auto, unfolding(crate::specs::Reading::truth_from))]
fn truth_from(bytes: &[u8]) -> Option<(Value, &[u8])>
    ensures { option_map (λ (x : Value × Bor (List ℕ)). (x.0, x.1.now)) result ≡ truth_from bytes.now }
{
    match bytes {
        [0, rest @ ..] => Some((Value::Bool(false), rest)),
        [1, rest @ ..] => Some((Value::Bool(true), rest)),
        _ => None,
    }
}

// An item of a list: an integer or a text.
#[tactic(auto, unfolding(crate::specs::Reading::item_from))]
fn item_from(alloc: Global, bytes: &[u8]) -> Result<(Value, &[u8]), CodecFault>
    ensures { Gives (λ x. (x.0, x.1.now)) result (item_from bytes.now) }
{
    match bytes {
        [] => Err(CodecFault::NotCommand),
        [kind, rest @ ..] => item_of_kind(alloc, *kind, rest),
    }
}

#[tactic(auto, unfolding(crate::specs::Reading::item_of_kind))]
fn item_of_kind(alloc: Global, kind: u8, rest: &[u8]) -> Result<(Value, &[u8]), CodecFault>
    ensures { Gives (λ x. (x.0, x.1.now)) result (item_of_kind kind rest.now) }
{
    match kind {
        1 => int_from(rest).ok_or(CodecFault::NotCommand),
        2 => text_value(alloc, rest),
        _ => Err(CodecFault::NotCommand),
    }
}

#[tactic(auto, unfolding(crate::specs::Reading::int_from))]
fn int_from(bytes: &[u8]) -> Option<(Value, &[u8])>
    ensures { option_map (λ (x : Value × Bor (List ℕ)). (x.0, x.1.now)) result ≡ int_from bytes.now }
{
    let (number, rest) = i64_from(bytes)?;
    Some((Value::Int(number), rest))
}

#[tactic(auto, unfolding(crate::specs::Reading::text_from))]
fn text_value(alloc: Global, bytes: &[u8]) -> Result<(Value, &[u8]), CodecFault>
    ensures { Gives (λ x. (x.0, x.1.now)) result (text_from bytes.now) }
{
    let Some((text, rest)) = text_from(bytes) else {
        return Err(CodecFault::NotCommand);
    };
    Ok((Value::Text(Bytes::from_slice(alloc, text)?), rest))
}

#[tactic(auto, unfolding(crate::specs::Reading::list_from))]
fn list_from(alloc: Global, bytes: &[u8]) -> Result<(Value, &[u8]), CodecFault>
    ensures { Gives (λ x. (x.0, x.1.now)) result (list_from bytes.now) }
{
    let (items, rest) = items_from(alloc, bytes)?;
    Ok((Value::List(items), rest))
}

fn items_from(alloc: Global, bytes: &[u8]) -> Result<(Sequence<Value>, &[u8]), CodecFault>
    ensures { Gives (λ x. (x.0, x.1.now)) result (counted_from item_from bytes.now) }
{
    match u16_from(bytes) {
        Some((count, rest)) => many_items(alloc, count, rest),
        None => Err(CodecFault::NotCommand),
    }
}

fn many_items(
    alloc: Global,
    count: u16,
    bytes: &[u8],
) -> Result<(Sequence<Value>, &[u8]), CodecFault>
    ensures { Gives (λ x. (x.0, x.1.now)) result (many_from item_from count bytes.now) }
{
    let mut items = Sequence::new(alloc);
    let mut rest = bytes;
    for _ in 0..count {
        let (item, behind) = item_from(alloc, rest)?;
        items.push(item)?;
        rest = behind;
    }
    Ok((items, rest))
}
