ghost use Rattle.std.specs.Prelude.{◌≡◌, IfOk, IfErr, option_and_then};
ghost use Rattle.std.specs.Option.{option_copied};
ghost use Rattle.sc_types.specs.declared.value.Value.TheVariants.{Text};
ghost use Rattle.sc_law.specs.Evaluation.{datum, kind_text, payload_of, payload_value, last_pair, field_value, or_unknown, is_active, is_pair_named};
ghost use Rattle.sc_eval.specs.Envs.{env_of, HasIds};
ghost use Rattle.sc_eval.specs.Faults.{Gives};

use crate::env::Env;
use sc_base::{Bytes, NoMemory, Plain, PlainName};
use sc_types::{Data, EvalFault, Event, EventField, Kind, Value};
use std::alloc::Global;

/// An answer that had to copy, as one of an evaluation.
pub(crate) fn copied<T: Drop>(copy: Result<T, NoMemory>) -> Result<T, EvalFault>
    ensures ok { IfOk result (λ x. copy ≡ Ok x) }
    ensures err { IfErr result (λ f. f ≡ EvalFault.NoMemory) }
{
    match copy {
        Ok(value) => Ok(value),
        Err(NoMemory) => Err(EvalFault::NoMemory),
    }
}

fn text(alloc: Global, bytes: &[u8]) -> Result<Value, EvalFault>
    ensures { Gives result (Ok (Text bytes.now)) }
{
    Ok(Value::Text(copied(Bytes::from_slice(alloc, bytes))?))
}

fn copy_found(found: Option<&Value>) -> Result<Value, EvalFault>
    ensures { Gives result (or_unknown (option_copied found.entry)) }
{
    match found {
        Some(value) => copied(value.copy()),
        None => Err(EvalFault::Unknown),
    }
}

/// The value of a datum, or of one of the platform's names, as an expression reads it. SCXML 5.10.
pub fn datum(alloc: Global, env: &Env, name: &[u8]) -> Result<Value, EvalFault>
    ensures { Gives result (datum name.now (env_of env.now)) }
{
    if name == "_sessionid".as_bytes() {
        return text(alloc, env.session.bytes());
    }
    if name == "_name".as_bytes() {
        return text(alloc, env.chart_name.slice());
    }
    copy_found(env.values.get(name))
}

fn kind_text(kind: Kind) -> &'static [u8]
    ensures { result.now ≡ kind_text kind }
{
    match kind {
        Kind::Platform => b"platform",
        Kind::Internal => b"internal",
        Kind::External => b"external",
    }
}

/// The value of the last pair of a name.
pub fn last_pair<'a>(pairs: &'a [(PlainName, Value)], name: &[u8]) -> Option<&'a Value>
    ensures { option_copied result ≡ last_pair name.now pairs.now }
{
    let pair = pairs.iter().rev().find(|pair| pair.0.bytes() == name)?;
    Some(&pair.1)
}

/// The one value of an event's data.
fn one_value(payload: &Data) -> Option<&Value>
    ensures { option_copied result ≡ payload_value payload.now }
{
    match payload {
        Data::One(value) => Some(value),
        _ => None,
    }
}

fn value_named<'a>(payload: &'a Data, name: &[u8]) -> Option<&'a Value>
    ensures { option_copied result ≡ payload_of name.now payload.now }
{
    match payload {
        Data::Pairs(pairs) => last_pair(pairs.slice(), name),
        _ => None,
    }
}

fn field_of(alloc: Global, event: &Event, field: &EventField) -> Result<Value, EvalFault>
    ensures { Gives result (or_unknown (field_value field.now event.now)) }
{
    match field {
        EventField::Name => text(alloc, event.name.bytes()),
        EventField::Kind => text(alloc, kind_text(event.kind)),
        EventField::SendId => text(alloc, event.sendid.slice()),
        EventField::Origin => text(alloc, event.origin.slice()),
        EventField::OriginType => text(alloc, event.origintype.slice()),
        EventField::InvokeId => text(alloc, event.invokeid.slice()),
        EventField::Payload => copy_found(one_value(&event.payload)),
        EventField::PayloadOf(name) => copy_found(value_named(&event.payload, name.bytes())),
    }
}

/// A field of the event that is being processed. SCXML 5.10.1.
pub(crate) fn field(alloc: Global, env: &Env, field: &EventField) -> Result<Value, EvalFault>
    ensures { Gives result (or_unknown (option_and_then (field_value field.now) env.now.bound)) }
{
    match &env.bound {
        Some(event) => field_of(alloc, event.get(), field),
        None => Err(EvalFault::Unknown),
    }
}

/// Whether the state of an id is active. SCXML 5.9.2.
pub(crate) fn is_active(env: &Env, id: &[u8]) -> bool
    requires { HasIds env.now }
    ensures { result ≡ is_active id.now (env_of env.now) }
{
    match env.ids.state(id) {
        Some(state) => env.configuration.has(state),
        None => false,
    }
}
