ghost use Rattle.std.specs.Prelude.{◌≡◌, ◌++◌, [], true, IfOk, codes};
ghost use Rattle.sc_base.specs.Text.{is_name};
ghost use Rattle.sc_machine.specs.Deliveries.{unborn_event};
ghost use Rattle.sc_machine.specs.Endings.{end_event, name_in, runaway_event};
ghost use Rattle.sc_core.specs.Ticking.{failure_of};
ghost use Rattle.sc_types.specs.declared.event.Kind.TheVariants.{External};

use sc_base::{Name, NoMemory, Plain, SharedBytes, TextWriter, Unfit};
use sc_types::{Data, Event, How, Kind};
use std::alloc::Global;

/// The name of an event that a text is; `None` where no event can have it.
#[tactic(auto, using(crate::proofs::EventNames::names))]
fn name_in(alloc: Global, text: &[u8]) -> Result<Option<Name>, NoMemory>
    ensures { IfOk result (λ name. name ≡ name_in text.now) }
{
    match Name::of(alloc, text) {
        Ok(name) => Ok(Some(name)),
        Err(Unfit::Form) => Ok(None),
        Err(Unfit::NoMemory) => Err(NoMemory),
    }
}

/// A text as the name that it is.
fn name_of(alloc: Global, text: &[u8]) -> Result<Name, NoMemory>
    requires name { is_name text.now ≡ true }
    ensures { IfOk result (λ name. name ≡ text.now) }
{
    match name_in(alloc, text)? {
        Some(name) => Ok(name),
        None => unreachable!(),
    }
}

fn error_name(alloc: Global) -> Result<Name, NoMemory>
    ensures { IfOk result (λ name. name ≡ codes "error.communication") }
{
    name_of(alloc, b"error.communication")
}

/// What a sender hears of an event that reaches nobody, by the id of the send.
pub(crate) fn communication_error(alloc: Global, sendid: &SharedBytes) -> Result<Event, NoMemory>
    ensures { IfOk result (λ e. e ≡ failure_of sendid.now) }
{
    Ok(Event {
        number: 0,
        name: error_name(alloc)?,
        kind: Kind::Platform,
        sendid: sendid.copy()?,
        origin: SharedBytes::empty(),
        origintype: SharedBytes::empty(),
        invokeid: SharedBytes::empty(),
        payload: Data::Absent,
    })
}

/// What a session hears of an invocation that starts nothing, by its id.
pub(crate) fn unborn_event(alloc: Global, invokeid: SharedBytes) -> Result<Event, NoMemory>
    ensures { IfOk result (λ e. e ≡ unborn_event invokeid) }
{
    Ok(Event {
        number: 0,
        name: error_name(alloc)?,
        kind: Kind::Platform,
        sendid: SharedBytes::empty(),
        origin: SharedBytes::empty(),
        origintype: SharedBytes::empty(),
        invokeid,
        payload: Data::Absent,
    })
}

/// `done.invoke.ID`, where an event can have that name, as it can for each id that a legal chart gives.
fn done_name(alloc: Global, invokeid: &SharedBytes) -> Result<Option<Name>, NoMemory>
    ensures { IfOk result (λ name. name ≡ name_in (codes "done.invoke." ++ invokeid.now)) }
{
    let mut text = TextWriter::new(alloc);
    text.text("done.invoke.")?;
    text.bytes(invokeid.slice())?;
    name_in(alloc, text.slice())
}

/// What an invoker hears of a session that ended by a final state, with the data of the end. SCXML 6.4.
pub(crate) fn done_invoke(
    alloc: Global,
    invokeid: &SharedBytes,
    payload: &Data,
) -> Result<Option<Event>, NoMemory>
    ensures { IfOk result (λ e. e ≡ end_event invokeid.now (How.Final payload.now)) }
{
    match done_name(alloc, invokeid)? {
        Some(name) => Ok(Some(done_event(name, invokeid, payload)?)),
        None => Ok(None),
    }
}

fn done_event(name: Name, invokeid: &SharedBytes, payload: &Data) -> Result<Event, NoMemory>
    ensures { IfOk result (λ e. e ≡ record {
      number = 0;
      name = name;
      kind = External;
      sendid = [];
      origin = [];
      origintype = [];
      invokeid = invokeid.now;
      payload = payload.now;
    }) }
{
    Ok(Event {
        number: 0,
        name,
        kind: Kind::External,
        sendid: SharedBytes::empty(),
        origin: SharedBytes::empty(),
        origintype: SharedBytes::empty(),
        invokeid: invokeid.copy()?,
        payload: payload.copy()?,
    })
}

fn runaway_name(alloc: Global) -> Result<Name, NoMemory>
    ensures { IfOk result (λ name. name ≡ codes "error.platform.runaway") }
{
    name_of(alloc, b"error.platform.runaway")
}

/// What an invoker hears of a session that ran away.
pub(crate) fn runaway_event(alloc: Global, invokeid: &SharedBytes) -> Result<Event, NoMemory>
    ensures { IfOk result (λ e. e ≡ runaway_event invokeid.now) }
{
    Ok(Event {
        number: 0,
        name: runaway_name(alloc)?,
        kind: Kind::Platform,
        sendid: SharedBytes::empty(),
        origin: SharedBytes::empty(),
        origintype: SharedBytes::empty(),
        invokeid: invokeid.copy()?,
        payload: Data::Absent,
    })
}
