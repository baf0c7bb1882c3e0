ghost use Rattle.std.specs.Prelude.{◌≡◌, ◌≢◌, [], Err, IfOk};
ghost use Rattle.std.specs.Result.{result_ok};
ghost use Rattle.sc_law.specs.Evaluation.{value};
ghost use Rattle.sc_types.specs.Attributes.{members_of};
ghost use Rattle.sc_law.specs.Content.{text_or_none, declared};
ghost use Rattle.sc_law.specs.Outcomes.{write};
ghost use Rattle.sc_eval.specs.Envs.{env_of, HasIds};
ghost use Rattle.sc_exec.specs.Runs.{running_of, KeepsRows, Does};
ghost use Rattle.sc_exec.specs.Values.{value_at, Finds};

use crate::running::Running;
use sc_base::{Failure, NoMemory, PlainName, SharedBytes};
use sc_eval::{Env, EvalFault, eval};
use sc_types::{Attribute, Expr, Node, Value};
use std::alloc::Global;

/// The fault of an element that is no send.
pub(crate) fn fault() -> Failure<SharedBytes>
    ensures { result ≡ Failure.Fault [] }
{
    Failure::Fault(SharedBytes::empty())
}

/// The text of an attribute, which is empty where the element has none.
pub(crate) fn text_or_none(node: &Node, attribute: Attribute) -> &[u8]
    ensures { result.now ≡ text_or_none attribute (members_of node.now) }
{
    match node.text(attribute) {
        Some(text) => text,
        None => &[],
    }
}

/// The value of an expression, where it has one.
pub(crate) fn value_of(alloc: Global, env: &Env, code: &Expr) -> Result<Option<Value>, NoMemory>
    requires { HasIds env.now }
    ensures { IfOk result (λ v. v ≡ result_ok (value code.now (env_of env.now))) }
{
    match eval(alloc, env, code) {
        Ok(value) => Ok(Some(value)),
        Err(EvalFault::NoMemory) => Err(NoMemory),
        Err(_) => Ok(None),
    }
}

/// The value of an attribute that the element needs.
#[tactic(auto, using(crate::proofs::Needs::needs_code_at))]
pub(crate) fn needed(
    alloc: Global,
    env: &Env,
    node: &Node,
    attribute: Attribute,
) -> Result<Value, Failure<SharedBytes>>
    requires { HasIds env.now }
    ensures { Finds result (value_at attribute (members_of node.now) (env_of env.now)) }
{
    let Some(code) = node.expr(attribute) else {
        return Err(fault());
    };
    match value_of(alloc, env, code)? {
        Some(value) => Ok(value),
        None => Err(fault()),
    }
}

/// Gives a datum a value. SCXML 5.4.
pub(crate) fn write(
    run: &mut Running,
    name: &[u8],
    value: Value,
) -> Result<(), Failure<SharedBytes>>
    ensures outcome { Does result run.new (write name.now value (running_of run.old)) }
    ensures kept { KeepsRows run.old run.new }
    ensures no_memory { result ≢ Err Failure.NoMemory }
{
    match run.env.set_named(name, value) {
        Ok(()) => Ok(()),
        Err(_) => Err(fault()),
    }
}

/// The name of a datum. A text that no datum can have as its name is answered as being out of memory; no chart that
/// was read has one.
pub(crate) fn datum_name(alloc: Global, text: &[u8]) -> Result<PlainName, NoMemory>
    ensures { IfOk result (λ n. n ≡ text.now) }
{
    match PlainName::of(alloc, text) {
        Ok(name) => Ok(name),
        Err(_) => Err(NoMemory),
    }
}

/// Declares a datum, unset, where there is none of that name.
pub(crate) fn declare(
    alloc: Global,
    run: &mut Running,
    text: &[u8],
) -> Result<(), Failure<SharedBytes>>
    ensures outcome { Does result run.new (declared text.now (running_of run.old)) }
    ensures kept { KeepsRows run.old run.new }
{
    let name = datum_name(alloc, text)?;
    match run.env.declare(&name) {
        Ok(()) => Ok(()),
        Err(EvalFault::NoMemory) => Err(Failure::NoMemory),
        Err(_) => Err(fault()),
    }
}
