ghost use Rattle.std.specs.Prelude.{◌≡◌, ◌++◌, IfOk, int_lt, neg_ℤ};
ghost use Rattle.std.specs.Fmt.{signed_decimal};
ghost use Rattle.sc_types.specs.Values.{truth_text};
ghost use Rattle.sc_types.specs.declared.value.Value.{out-Value};
ghost use Rattle.sc_law.specs.Evaluation.{as_text, compared, in_range, int_of, is_text_before, of_ints, of_kind, ordered, short_list, short_text, sum_of, truth_of, two};
ghost use Rattle.sc_eval.specs.Faults.{Gives};

use crate::arithmetic::{negative, of_integers, sum};
use crate::equality::same_value;
use crate::lists::short_list;
use crate::names::copied;
use sc_base::{Bytes, NoMemory, Sequence, TextWriter};
use sc_types::{EvalFault, ITEM_LIMIT, Op, Profile, Value};
use std::alloc::Global;

/// A truth value, or a fault of kind.
pub(crate) fn truth(value: Value) -> Result<bool, EvalFault>
    ensures { result ≡ of_kind Ok (truth_of value) }
{
    match value {
        Value::Bool(truth) => Ok(truth),
        _ => Err(EvalFault::WrongKind),
    }
}

pub(crate) fn minus(value: Value) -> Result<Value, EvalFault>
    ensures { result ≡ of_kind (λ n. in_range (neg_ℤ n)) (int_of value) }
{
    match value {
        Value::Int(number) => negative(number),
        _ => Err(EvalFault::WrongKind),
    }
}

fn are_ordered_integers(op: Op, a: i64, b: i64) -> bool
    ensures { result ≡ compared op int_lt a b }
{
    match op {
        Op::Le => a <= b,
        Op::Gt => a > b,
        Op::Ge => a >= b,
        _ => a < b,
    }
}

/// Texts are ordered by their bytes.
fn is_text_before(a: &[u8], b: &[u8]) -> bool
    ensures { result ≡ is_text_before a.now b.now }
{
    a.cmp(b).is_lt()
}

fn are_ordered_texts(op: Op, a: &[u8], b: &[u8]) -> bool
    ensures { result ≡ compared op is_text_before a.now b.now }
{
    match op {
        Op::Le => !is_text_before(b, a),
        Op::Gt => is_text_before(b, a),
        Op::Ge => !is_text_before(a, b),
        _ => is_text_before(a, b),
    }
}

fn ordered(op: Op, a: &Value, b: &Value) -> Result<Value, EvalFault>
    ensures { result ≡ ordered op (out-Value a.now) (out-Value b.now) }
{
    match (a, b) {
        (Value::Int(a), Value::Int(b)) => Ok(Value::Bool(are_ordered_integers(op, *a, *b))),
        (Value::Text(a), Value::Text(b)) => {
            Ok(Value::Bool(are_ordered_texts(op, a.slice(), b.slice())))
        }
        _ => Err(EvalFault::WrongKind),
    }
}

fn joined_texts(profile: Profile, mut a: Bytes, b: &[u8]) -> Result<Value, EvalFault>
    ensures { Gives result (short_text profile (a ++ b.now)) }
{
    if a.len() + b.len() > profile.text_limit() {
        return Err(EvalFault::TooLong);
    }
    copied(a.extend(b))?;
    Ok(Value::Text(a))
}

fn joined_lists(a: Sequence<Value>, b: Sequence<Value>) -> Result<Value, EvalFault>
    ensures { Gives result (short_list (a ++ b)) }
{
    if a.len() + b.len() > ITEM_LIMIT {
        return Err(EvalFault::TooLong);
    }
    let mut items = a.into_vec();
    let mut more = b.into_vec();
    match items.append(&mut more) {
        Ok(()) => short_list(Sequence::from_vec(items)),
        Err(_) => Err(EvalFault::NoMemory),
    }
}

fn sum_of(profile: Profile, a: Value, b: Value) -> Result<Value, EvalFault>
    ensures { Gives result (sum_of profile (out-Value a) (out-Value b)) }
{
    match (a, b) {
        (Value::Int(a), Value::Int(b)) => sum(a, b),
        (Value::Text(a), Value::Text(b)) => joined_texts(profile, a, b.slice()),
        (Value::List(a), Value::List(b)) => joined_lists(a, b),
        _ => Err(EvalFault::WrongKind),
    }
}

fn of_ints(op: Op, a: &Value, b: &Value) -> Result<Value, EvalFault>
    ensures { result ≡ of_ints op a.now b.now }
{
    match (a, b) {
        (Value::Int(a), Value::Int(b)) => of_integers(op, *a, *b),
        _ => Err(EvalFault::WrongKind),
    }
}

/// An operator on two values. `||` and `&&` do not come here.
pub(crate) fn two(profile: Profile, op: Op, a: Value, b: Value) -> Result<Value, EvalFault>
    ensures { Gives result (two profile op a b) }
{
    match op {
        Op::Eq => Ok(Value::Bool(same_value(&a, &b))),
        Op::Ne => Ok(Value::Bool(!same_value(&a, &b))),
        Op::Lt | Op::Le | Op::Gt | Op::Ge => ordered(op, &a, &b),
        Op::Add => sum_of(profile, a, b),
        _ => of_ints(op, &a, &b),
    }
}

fn truth_text(truth: bool) -> &'static [u8]
    ensures { result.now ≡ truth_text truth }
{
    if truth { b"true" } else { b"false" }
}

fn number_text(alloc: Global, number: i64) -> Result<Bytes, NoMemory>
    ensures { IfOk result (λ text. text ≡ signed_decimal number) }
{
    let mut out = TextWriter::new(alloc);
    out.signed(number)?;
    Ok(out.into_bytes())
}

/// A value as a text; a list has none.
pub(crate) fn as_text(alloc: Global, value: Value) -> Result<Value, EvalFault>
    ensures { Gives result (as_text (out-Value value)) }
{
    match value {
        Value::Bool(truth) => {
            Ok(Value::Text(copied(Bytes::from_slice(alloc, truth_text(truth)))?))
        }
        Value::Int(number) => Ok(Value::Text(copied(number_text(alloc, number))?)),
        Value::Text(text) => Ok(Value::Text(text)),
        Value::List(_) => Err(EvalFault::WrongKind),
    }
}
