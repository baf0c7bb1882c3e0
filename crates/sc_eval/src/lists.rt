ghost use Rattle.std.specs.Prelude.{◌≡◌};
ghost use Rattle.sc_types.specs.declared.value.Value.{out-Value};
ghost use Rattle.sc_eval.specs.Faults.{Gives};
ghost use Rattle.std.specs.List.{list_all};
ghost use Rattle.sc_law.specs.Evaluation.{is_item_kind, item_at, listed, place_in, length_of, shallow, short_list};

use crate::names::copied;
use sc_base::Sequence;
use sc_types::{
    EvalFault, ITEM_LIMIT, LIST_DEPTH_LIMIT, Plain, Profile, VALUE_WEIGHT_LIMIT, Value,
};

/// Whether a list may have this item.
fn is_item(profile: Profile, value: &Value) -> bool
    ensures { result ≡ is_item_kind profile value.now }
{
    match value {
        Value::Bool(_) => false,
        Value::Int(_) => true,
        Value::Text(_) => true,
        Value::List(_) => match profile {
            Profile::Flat => false,
            Profile::Nested => true,
        },
    }
}

fn are_items(profile: Profile, values: &[Value]) -> bool
    ensures { result ≡ list_all (is_item_kind profile) values.now }
{
    values.iter().all(|v| is_item(profile, v))
}

/// The list of these items, where it is within the limits of lists.
pub(crate) fn short_list(items: Sequence<Value>) -> Result<Value, EvalFault>
    ensures { result ≡ short_list items }
{
    if items.len() > ITEM_LIMIT {
        return Err(EvalFault::TooLong);
    }
    let list = Value::List(items);
    if list.weight() > VALUE_WEIGHT_LIMIT {
        return Err(EvalFault::TooLong);
    }
    Ok(list)
}

/// A value of which no more lists stand in one another than may.
fn shallow(value: Value) -> Result<Value, EvalFault>
    ensures { result ≡ shallow value }
{
    if value.depth() > LIST_DEPTH_LIMIT {
        return Err(EvalFault::TooLong);
    }
    Ok(value)
}

/// The list that a literal makes of these items; their kinds are looked at before the limits.
pub(crate) fn listed(profile: Profile, items: Sequence<Value>) -> Result<Value, EvalFault>
    ensures { result ≡ listed profile items }
{
    if !are_items(profile, items.slice()) {
        return Err(EvalFault::WrongKind);
    }
    shallow(short_list(items)?)
}

/// The item at a place, counted from 0.
fn item_in(items: &[Value], place: i64) -> Result<Value, EvalFault>
    ensures { Gives result (place_in items.now place) }
{
    if place < 0 {
        return Err(EvalFault::BadIndex);
    }
    match items.get(place as usize) {
        Some(item) => copied(item.copy()),
        None => Err(EvalFault::BadIndex),
    }
}

pub(crate) fn item_at(list: Value, place: Value) -> Result<Value, EvalFault>
    ensures { Gives result (item_at list place) }
{
    match (list, place) {
        (Value::List(items), Value::Int(place)) => item_in(items.slice(), place),
        _ => Err(EvalFault::WrongKind),
    }
}

/// The bytes of a text, or the items of a list.
pub(crate) fn length(value: Value) -> Result<Value, EvalFault>
    ensures { result ≡ length_of (out-Value value) }
{
    match value {
        Value::Text(text) => Ok(Value::Int(text.len() as i64)),
        Value::List(items) => Ok(Value::Int(items.len() as i64)),
        _ => Err(EvalFault::WrongKind),
    }
}
