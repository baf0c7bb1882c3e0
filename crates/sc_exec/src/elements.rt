ghost use Rattle.std.specs.Prelude.{Some};
ghost use Rattle.sc_types.specs.Attributes.{members_of};
ghost use Rattle.sc_law.specs.Content.{assign, cancel, cancel_send, log, put_log, raise};
ghost use Rattle.sc_eval.specs.Envs.{HasIds};
ghost use Rattle.sc_exec.specs.Runs.{running_of, KeepsRows, Does};

use crate::events::{enqueue, event_name};
use crate::running::Running;
use crate::values::{fault, needed, text_or_none, write};
use sc_base::{Bytes, Failure, SharedBytes};
use sc_types::{Attribute, Data, Effect, Event, Kind, LogLine, Node, Value};
use std::alloc::Global;

/// SCXML 4.2.
pub(crate) fn raise(
    alloc: Global,
    run: &mut Running,
    node: &Node,
) -> Result<(), Failure<SharedBytes>>
    ensures outcome { Does result run.new (raise (members_of node.now) (running_of run.old)) }
    ensures kept { KeepsRows run.old run.new }
{
    let event = Event {
        number: 0,
        name: event_name(alloc, text_or_none(node, Attribute::Event))?,
        kind: Kind::Internal,
        sendid: SharedBytes::empty(),
        origin: SharedBytes::empty(),
        origintype: SharedBytes::empty(),
        invokeid: SharedBytes::empty(),
        payload: Data::Absent,
    };
    enqueue(run, event)?;
    Ok(())
}

fn put_log(
    alloc: Global,
    run: &mut Running,
    node: &Node,
    value: Value,
) -> Result<(), Failure<SharedBytes>>
    ensures outcome { Does result run.new (put_log (members_of node.now) value (running_of run.old)) }
    ensures kept { KeepsRows run.old run.new }
{
    let label = Bytes::from_slice(alloc, text_or_none(node, Attribute::Label))?;
    run.logs.push(LogLine { label, value })?;
    Ok(())
}

/// SCXML 4.7.
#[tactic(auto, using(crate::proofs::Needs::needs_code_at))]
pub(crate) fn log(alloc: Global, run: &mut Running, node: &Node) -> Result<(), Failure<SharedBytes>>
    requires { HasIds run.old.env }
    ensures outcome { Does result run.new (log (members_of node.now) (running_of run.old)) }
    ensures kept { KeepsRows run.old run.new }
{
    if node.expr(Attribute::Expr).is_none() {
        return put_log(alloc, run, node, Value::Text(Bytes::new(alloc)));
    }
    let value = needed(alloc, &run.env, node, Attribute::Expr)?;
    put_log(alloc, run, node, value)
}

/// SCXML 5.4.
#[tactic(auto, using(crate::proofs::Needs::needs_code_at))]
pub(crate) fn assign(
    alloc: Global,
    run: &mut Running,
    node: &Node,
) -> Result<(), Failure<SharedBytes>>
    requires { HasIds run.old.env }
    ensures outcome { Does result run.new (assign (members_of node.now) (running_of run.old)) }
    ensures kept { KeepsRows run.old run.new }
{
    let value = needed(alloc, &run.env, node, Attribute::Expr)?;
    write(run, text_or_none(node, Attribute::Location), value)
}

fn cancel_send(run: &mut Running, sendid: SharedBytes) -> Result<(), Failure<SharedBytes>>
    ensures outcome { Does result run.new (cancel_send (Some sendid) (running_of run.old)) }
    ensures kept { KeepsRows run.old run.new }
{
    run.effects.push(Effect::CancelSend { sendid })?;
    Ok(())
}

/// SCXML 6.3.
#[tactic(auto, using(crate::proofs::Needs::needs_code_at))]
pub(crate) fn cancel(
    alloc: Global,
    run: &mut Running,
    node: &Node,
) -> Result<(), Failure<SharedBytes>>
    requires { HasIds run.old.env }
    ensures outcome { Does result run.new (cancel (members_of node.now) (running_of run.old)) }
    ensures kept { KeepsRows run.old run.new }
{
    if let Some(sendid) = node.text(Attribute::SendId) {
        return cancel_send(run, SharedBytes::from_slice(alloc, sendid)?);
    }
    match needed(alloc, &run.env, node, Attribute::SendIdExpr)? {
        Value::Text(sendid) => cancel_send(run, SharedBytes::from_slice(alloc, sendid.slice())?),
        _ => Err(fault()),
    }
}
