ghost use Rattle.std.specs.Prelude.{map};
ghost use Rattle.sc_law.specs.Evaluation.{all_of, item_at, on_both, two_of, value};
ghost use Rattle.sc_types.specs.declared.expr.Op.TheVariants.{Or, And};
ghost use Rattle.sc_eval.specs.Envs.{env_of, HasIds};
ghost use Rattle.sc_eval.specs.Faults.{Gives};

use crate::env::Env;
use crate::lists::{item_at, length, listed};
use crate::names::{copied, datum, field, is_active};
use crate::operators::{as_text, minus, truth, two};
use sc_base::Sequence;
use sc_types::{EvalFault, Expr, Op, Plain, Value};
use std::alloc::Global;

/// The value of an expression, or the first fault from left to right. It calls itself as deep as the expression goes,
/// which has at most 256 levels.
#[cycle(eval)]
#[tactic(auto, using(crate::proofs::Layers::value_layers))]
pub fn eval(alloc: Global, env: &Env, e: &Expr) -> Result<Value, EvalFault>
    requires { HasIds env.now }
    ensures { Gives result (value e.now (env_of env.now)) }
{
    match e {
        Expr::Bool(truth) => Ok(Value::Bool(*truth)),
        Expr::Int(number) => Ok(Value::Int(*number)),
        Expr::Text(text) => Ok(Value::Text(copied(text.copy())?)),
        Expr::List(items) => listed(env.profile, values(alloc, env, items)?),
        Expr::Datum(name) => datum(alloc, env, name.bytes()),
        Expr::Field(name) => field(alloc, env, name),
        Expr::Active(id) => Ok(Value::Bool(is_active(env, id.slice()))),
        Expr::Not(a) => Ok(Value::Bool(!truth(eval(alloc, env, a.get())?)?)),
        Expr::Neg(a) => minus(eval(alloc, env, a.get())?),
        Expr::Two(op, a, b) => two_of(alloc, env, *op, a.get(), b.get()),
        Expr::Item(a, b) => item(alloc, env, a.get(), b.get()),
        Expr::Len(a) => length(eval(alloc, env, a.get())?),
        Expr::AsText(a) => as_text(alloc, eval(alloc, env, a.get())?),
    }
}

/// The values of the items, up to the first fault.
#[cycle(eval)]
#[tactic(auto, using(crate::proofs::Layers::value_layers))]
fn values(alloc: Global, env: &Env, items: &Sequence<Expr>) -> Result<Sequence<Value>, EvalFault>
    requires { HasIds env.now }
    ensures { Gives result (all_of (env_of env.now) (map value items.now)) }
{
    let mut values = Sequence::new(alloc);
    for item in items.slice() {
        let value = eval(alloc, env, item)?;
        copied(values.push(value))?;
    }
    Ok(values)
}

#[cycle(eval)]
#[tactic(auto, using(crate::proofs::Layers::value_layers))]
fn two_of(alloc: Global, env: &Env, op: Op, a: &Expr, b: &Expr) -> Result<Value, EvalFault>
    requires { HasIds env.now }
    ensures { Gives result (two_of op (value a.now) (value b.now) (env_of env.now)) }
{
    match op {
        Op::Or => either(alloc, env, a, b),
        Op::And => each(alloc, env, a, b),
        _ => {
            let left = eval(alloc, env, a)?;
            let right = eval(alloc, env, b)?;
            two(env.profile, op, left, right)
        }
    }
}

/// The right side is evaluated where the left one does not hold.
#[cycle(eval)]
#[tactic(auto, using(crate::proofs::Layers::value_layers))]
fn either(alloc: Global, env: &Env, a: &Expr, b: &Expr) -> Result<Value, EvalFault>
    requires { HasIds env.now }
    ensures { Gives result (two_of Or (value a.now) (value b.now) (env_of env.now)) }
{
    if truth(eval(alloc, env, a)?)? {
        return Ok(Value::Bool(true));
    }
    Ok(Value::Bool(truth(eval(alloc, env, b)?)?))
}

/// The right side is evaluated where the left one holds.
#[cycle(eval)]
#[tactic(auto, using(crate::proofs::Layers::value_layers))]
fn each(alloc: Global, env: &Env, a: &Expr, b: &Expr) -> Result<Value, EvalFault>
    requires { HasIds env.now }
    ensures { Gives result (two_of And (value a.now) (value b.now) (env_of env.now)) }
{
    if !truth(eval(alloc, env, a)?)? {
        return Ok(Value::Bool(false));
    }
    Ok(Value::Bool(truth(eval(alloc, env, b)?)?))
}

#[cycle(eval)]
#[tactic(auto, using(crate::proofs::Layers::value_layers))]
fn item(alloc: Global, env: &Env, a: &Expr, b: &Expr) -> Result<Value, EvalFault>
    requires { HasIds env.now }
    ensures { Gives result (on_both item_at (value a.now (env_of env.now)) (value b.now (env_of env.now))) }
{
    let list = eval(alloc, env, a)?;
    let place = eval(alloc, env, b)?;
    item_at(list, place)
}
