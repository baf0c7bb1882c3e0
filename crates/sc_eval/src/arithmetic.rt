ghost use Rattle.std.specs.Prelude.{◌≡◌, ◌+ℤ◌, ◌-ℤ◌, ◌*ℤ◌, Err, Ok, int_div, int_rem, neg_ℤ, if◌then◌else◌};
ghost use Rattle.sc_types.specs.declared.eval_fault.EvalFault.TheVariants.{Overflow, ZeroDivisor};
ghost use Rattle.sc_types.specs.declared.value.Value.TheVariants.{Int};
ghost use Rattle.std.specs.Option.{option_map_or};
ghost use Rattle.sc_law.specs.Evaluation.{in_range, is_zero, result_of};

use sc_types::{EvalFault, Op, Value};

/// An integer of 64 bits, where the operation gave one.
fn in_range(number: Option<i64>) -> Result<Value, EvalFault>
    ensures { result ≡ option_map_or (λ n. Ok (Int n)) number (Err Overflow) }
{
    match number {
        Some(number) => Ok(Value::Int(number)),
        None => Err(EvalFault::Overflow),
    }
}

pub(crate) fn sum(a: i64, b: i64) -> Result<Value, EvalFault>
    ensures { result ≡ in_range (a +ℤ b) }
{
    in_range(a.checked_add(b))
}

pub(crate) fn negative(a: i64) -> Result<Value, EvalFault>
    ensures { result ≡ in_range (neg_ℤ a) }
{
    in_range(a.checked_neg())
}

fn difference(a: i64, b: i64) -> Result<Value, EvalFault>
    ensures { result ≡ in_range (a -ℤ b) }
{
    in_range(a.checked_sub(b))
}

fn product(a: i64, b: i64) -> Result<Value, EvalFault>
    ensures { result ≡ in_range (a *ℤ b) }
{
    in_range(a.checked_mul(b))
}

/// Cut toward zero.
fn quotient(a: i64, b: i64) -> Result<Value, EvalFault>
    ensures { result ≡ (if is_zero b then Err ZeroDivisor else in_range (int_div a b)) }
{
    if b == 0 {
        return Err(EvalFault::ZeroDivisor);
    }
    in_range(a.checked_div(b))
}

/// With the sign of the left side. The least number has the remainder 0 by -1, where the machine has none.
fn remainder(a: i64, b: i64) -> Result<Value, EvalFault>
    ensures { result ≡ (if is_zero b then Err ZeroDivisor else in_range (int_rem a b)) }
{
    if b == 0 {
        return Err(EvalFault::ZeroDivisor);
    }
    if b == -1 {
        return Ok(Value::Int(0));
    }
    Ok(Value::Int(a % b))
}

/// An operator that takes integers alone.
pub(crate) fn of_integers(op: Op, a: i64, b: i64) -> Result<Value, EvalFault>
    ensures { result ≡ result_of op a b }
{
    match op {
        Op::Sub => difference(a, b),
        Op::Mul => product(a, b),
        Op::Div => quotient(a, b),
        Op::Rem => remainder(a, b),
        _ => Err(EvalFault::WrongKind),
    }
}
