ghost use Rattle.std.specs.Prelude.{◌≡◌, ◌-◌, ◌^◌, min, sum_by, IfOk};
ghost use Rattle.std.specs.List.{list_all};
ghost use Rattle.sc_base.specs.Text.{is_int};
ghost use Rattle.sc_types.specs.Values.{depth, deepest_of, fits, fits_flat, has_fit_parts, is_fit_item, is_flat_item, is_truth, weight};

use crate::limits::{ITEM_LIMIT, LIST_DEPTH_LIMIT, VALUE_WEIGHT_LIMIT};
use sc_base::{
    Bytes, LONG_TEXT_LIMIT, NoMemory, Plain, PlainName, Sequence, is_text, is_text_within,
};
use std::alloc::AllocError;

/// A value of the data model.
#[derive(Drop, PartialEq, Eq)]
pub enum Value {
    Bool(bool),
    Int(i64),
    /// UTF-8 of at most 65,536 bytes, without U+007F and without characters below U+0020 other than line feed
    /// and tab.
    Text(Bytes),
    /// At most 256 values, each an integer, a text or a list.
    List(Sequence<Value>),
}

/// Named values. Of two pairs with one name the last counts.
pub type PairList = Sequence<(PlainName, Value)>;

impl Value {
    /// Whether the value is within the limits of values: texts of at most 65,536 bytes, lists of at most 256 integers,
    /// texts and lists, at most 8 lists in one another, and a weight of at most 2,097,152.
    pub fn fits(&self) -> bool
        ensures { result ≡ fits self.now }
    {
        has_fit_parts(self)
            && self.depth() <= LIST_DEPTH_LIMIT
            && self.weight() <= VALUE_WEIGHT_LIMIT
    }

    /// Whether the value is within the limits of flat values: texts of at most 4,096 bytes, and lists of at most 256
    /// integers and such texts.
    pub fn fits_flat(&self) -> bool
        ensures { result ≡ fits_flat self.now }
    {
        match self {
            Value::Bool(_) => true,
            Value::Int(number) => is_int(*number),
            Value::Text(text) => is_text(text.slice()),
            Value::List(items) => items.len() <= ITEM_LIMIT && are_flat_items(items.slice()),
        }
    }

    /// What the value weighs; the last number of 64 bits stands for all that are larger.
    pub fn weight(&self) -> u64
        ensures { result ≡ min (weight self.now) (2 ^ 64 - 1) }
    {
        weight_of(self)
    }

    /// How many lists stand in one another: 0 for what is no list. The last number of 32 bits stands for all that are
    /// larger.
    pub fn depth(&self) -> u32
        ensures { result ≡ min (depth self.now) (2 ^ 32 - 1) }
    {
        depth_of(self)
    }
}

/// True of each number of 64 bits.
fn is_int(_number: i64) -> bool
    ensures { result ≡ is_int _number }
{
    true
}

fn is_flat_item(value: &Value) -> bool
    ensures { result ≡ is_flat_item value.now }
{
    match value {
        Value::Int(number) => is_int(*number),
        Value::Text(text) => is_text(text.slice()),
        _ => false,
    }
}

fn are_flat_items(values: &[Value]) -> bool
    ensures { result ≡ list_all is_flat_item values.now }
{
    values.iter().all(|v| is_flat_item(v))
}

#[cycle(parts)]
#[tactic(auto, using(crate::proofs::ValueLemmas::fit_layers))]
fn has_fit_parts(value: &Value) -> bool
    ensures { result ≡ has_fit_parts value.now }
{
    match value {
        Value::Bool(_) => true,
        Value::Int(number) => is_int(*number),
        Value::Text(text) => is_text_within(text.slice(), LONG_TEXT_LIMIT),
        Value::List(items) => items.len() <= ITEM_LIMIT && are_fit_items(items.slice()),
    }
}

fn is_truth(value: &Value) -> bool
    ensures { result ≡ is_truth value.now }
{
    matches!(value, Value::Bool(_))
}

#[cycle(parts)]
fn is_fit_item(value: &Value) -> bool
    ensures { result ≡ is_fit_item value.now }
{
    !is_truth(value) && has_fit_parts(value)
}

#[cycle(parts)]
fn are_fit_items(values: &[Value]) -> bool
    ensures { result ≡ list_all is_fit_item values.now }
{
    for value in values {
        if !is_fit_item(value) {
            return false;
        }
    }
    true
}

#[cycle(weight)]
#[tactic(auto, using(crate::proofs::ValueLemmas::weight_layers))]
fn weight_of(value: &Value) -> u64
    ensures { result ≡ min (weight value.now) (2 ^ 64 - 1) }
{
    match value {
        Value::Bool(_) => 16,
        Value::Int(_) => 16,
        Value::Text(text) => (text.len() as u64).saturating_add(16),
        Value::List(items) => weights_of(items.slice()).saturating_add(16),
    }
}

#[cycle(weight)]
fn weights_of(items: &[Value]) -> u64
    ensures { result ≡ min (sum_by weight items.now) (2 ^ 64 - 1) }
{
    let mut total = 0u64;
    for item in items {
        total = total.saturating_add(weight_of(item));
    }
    total
}

#[cycle(depth)]
#[tactic(auto, using(crate::proofs::ValueLemmas::depth_layers))]
fn depth_of(value: &Value) -> u32
    ensures { result ≡ min (depth value.now) (2 ^ 32 - 1) }
{
    match value {
        Value::Bool(_) => 0,
        Value::Int(_) => 0,
        Value::Text(_) => 0,
        Value::List(items) => deepest(items.slice()).saturating_add(1),
    }
}

#[cycle(depth)]
fn deepest(items: &[Value]) -> u32
    ensures { result ≡ min (deepest_of items.now) (2 ^ 32 - 1) }
{
    let mut most = 0u32;
    for item in items {
        most = most.max(depth_of(item));
    }
    most
}

impl Clone for Value {
    ghost is_clone = { λ v copy. copy ≡ v };

    fn clone(&self) -> Result<Self, AllocError> {
        match copy_value(self) {
            Ok(value) => Ok(value),
            Err(NoMemory) => Err(AllocError),
        }
    }
}

impl Plain for Value {
    ghost clone_equals = { λ v copy e. e };
}

#[cycle(copy)]
fn copy_value(value: &Value) -> Result<Value, NoMemory>
    ensures { IfOk result (λ c. c ≡ value.now) }
{
    Ok(match value {
        Value::Bool(truth) => Value::Bool(*truth),
        Value::Int(number) => Value::Int(*number),
        Value::Text(text) => Value::Text(text.copy()?),
        Value::List(items) => Value::List(copy_values(items)?),
    })
}

#[cycle(copy)]
fn copy_values(items: &Sequence<Value>) -> Result<Sequence<Value>, NoMemory>
    ensures { IfOk result (λ c. c ≡ items.now) }
{
    let mut copy = Sequence::new(items.allocator());
    for item in items.slice() {
        copy.push(copy_value(item)?)?;
    }
    Ok(copy)
}
