ghost use Rattle.std.specs.Prelude.{◌≡◌, IfOk};
ghost use Rattle.sc_types.specs.Attributes.{members_of};
ghost use Rattle.sc_types.specs.declared.value.Value.{out-Value};
ghost use Rattle.sc_types.specs.declared.value.Value.TheOpen.{Value-F};
ghost use Rattle.sc_law.specs.Sending.{delay_in, send_delay};
ghost use Rattle.sc_eval.specs.Envs.{env_of, HasIds};

use crate::values::value_of;
use sc_base::NoMemory;
use sc_eval::Env;
use sc_expr::read_delay;
use sc_types::{Attribute, DELAY_LIMIT, Node, Value};
use std::alloc::Global;

/// A text that is a delay, or an integer of milliseconds within the limit.
fn delay_in(value: &Value) -> Option<u64>
    ensures { result ≡ delay_in (out-Value value.now) }
{
    match value {
        Value::Text(text) => read_delay(text.slice()),
        Value::Int(number) => milliseconds(*number),
        _ => None,
    }
}

fn milliseconds(number: i64) -> Option<u64>
    ensures { result ≡ delay_in (Value-F.Int number) }
{
    if number >= 0 && number as u64 <= DELAY_LIMIT {
        Some(number as u64)
    } else {
        None
    }
}

/// The delay of a send in milliseconds, which is 0 where it has none; nothing where what it gives is no delay.
/// SCXML 6.2.1.
pub(crate) fn send_delay(alloc: Global, env: &Env, node: &Node) -> Result<Option<u64>, NoMemory>
    requires { HasIds env.now }
    ensures { IfOk result (λ delay. delay ≡ send_delay (members_of node.now) (env_of env.now)) }
{
    if let Some(text) = node.text(Attribute::Delay) {
        return Ok(read_delay(text));
    }
    match node.expr(Attribute::DelayExpr) {
        Some(code) => match value_of(alloc, env, code)? {
            Some(value) => Ok(delay_in(&value)),
            None => Ok(None),
        },
        None => Ok(Some(0)),
    }
}
