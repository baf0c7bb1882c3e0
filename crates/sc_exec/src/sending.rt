ghost use Rattle.std.specs.Prelude.{◌≡◌, ◌++◌, ◌-◌, ◌<◌, ◌^◌, List, None, codes, decimal, true, ℕ, IfOk, OnOk};
ghost use Rattle.std.specs.Bool.{OnTrue, OnFalse};
ghost use Rattle.std.specs.Option.{option_copied, option_map_or};
ghost use Rattle.sc_types.specs.Attributes.{Members, members_of};
ghost use Rattle.sc_types.specs.declared.event.Data.{Data};
ghost use Rattle.sc_types.specs.declared.value.Value.TheVariants.{Text};
ghost use Rattle.sc_types.specs.declared.attribute.Attribute.TheVariants as attribute;
ghost use Rattle.sc_law.specs.Sending.{Inside, Outside, Receiver as ReceiverOf, children_of, event_name, is_send_type, post, post_made, processor, send, send_name, send_typed, send_with};
ghost use Rattle.sc_law.specs.Content.{text_or_none};
ghost use Rattle.sc_law.specs.Data.{set};
ghost use Rattle.sc_law.specs.Runs.{with_effect};
ghost use Rattle.sc_law.specs.Outcomes.{done};
ghost use Rattle.sc_eval.specs.Envs.{env_of, HasIds};
ghost use Rattle.sc_exec.specs.Runs.{running_of, KeepsRows, Does};
ghost use Rattle.sc_exec.specs.Receivers.{receiver_as};
ghost use Rattle.sc_exec.specs.Sends.{IsWritten, TellsId, posted_with, sent_as, sent_event, sent_to};

use crate::delay::send_delay;
use crate::event_data::payload;
use crate::events::{enqueue, event_name};
use crate::receiver::{Receiver, target_of};
use crate::running::Running;
use crate::values::{text_or_none, value_of};
use sc_base::{Bytes, Failure, Name, NoMemory, SharedBytes, TextWriter, Word, is_word};
use sc_eval::Env;
use sc_types::{Attribute, Data, EVENT_NAME_LIMIT, Effect, Event, Kind, Node, To, Value};
use std::alloc::Global;

const PROCESSOR: &str = "http://www.w3.org/TR/scxml/#SCXMLEventProcessor";

/// SCXML 6.2.4.
fn is_send_type(text: Option<&[u8]>) -> bool
    ensures { result ≡ option_map_or is_send_type (option_copied text.entry) true }
{
    match text {
        Some(text) => text == PROCESSOR.as_bytes() || text == "scxml".as_bytes(),
        None => true,
    }
}

/// A text that is a word of at most 256 bytes.
fn name_in(alloc: Global, value: &Value) -> Result<Option<Name>, NoMemory>
    ensures { IfOk result (λ name. name ≡ event_name value.now) }
{
    let Value::Text(text) = value else {
        return Ok(None);
    };
    if text.len() > EVENT_NAME_LIMIT || !is_word(text.slice()) {
        return Ok(None);
    }
    Ok(Some(event_name(alloc, text.slice())?))
}

/// The name of the event. SCXML 6.2.1.
fn send_name(alloc: Global, env: &Env, node: &Node) -> Result<Option<Name>, NoMemory>
    requires { HasIds env.now }
    ensures { IfOk result (λ name. name ≡ send_name (members_of node.now) (env_of env.now)) }
{
    if let Some(text) = node.text(Attribute::Event) {
        return Ok(Some(event_name(alloc, text)?));
    }
    let Some(code) = node.expr(Attribute::EventExpr) else {
        return Ok(None);
    };
    match value_of(alloc, env, code)? {
        Some(value) => name_in(alloc, &value),
        None => Ok(None),
    }
}

/// What the checks of a send gave.
#[derive(Drop)]
struct Posted {
    name: Name,
    receiver: Receiver,
    /// In milliseconds.
    delay: u64,
    payload: Data,
}

/// The `id` of a send, which is empty where it has none.
fn own_id(alloc: Global, node: &Node) -> Result<SharedBytes, NoMemory>
    ensures { IfOk result (λ id. id ≡ text_or_none attribute.Id (members_of node.now)) }
{
    SharedBytes::from_slice(alloc, text_or_none(node, Attribute::Id))
}

/// The fault of a send, which tells its `id`. SCXML 6.2.3.
fn send_fault(alloc: Global, node: &Node) -> Failure<SharedBytes>
    ensures { TellsId result (members_of node.now) }
{
    match own_id(alloc, node) {
        Ok(id) => Failure::Fault(id),
        Err(NoMemory) => Failure::NoMemory,
    }
}

/// The event's name, the target, and what else is sent, in this order; nothing where one fails.
fn checked(alloc: Global, run: &mut Running, node: &Node) -> Result<Option<Posted>, NoMemory>
    requires { HasIds run.old.env }
    ensures ok { IfOk result (λ found. send_typed (members_of node.now) (children_of node.now) (running_of run.old)
        ≡ sent_as (members_of node.now) (running_of run.new) found) }
    ensures kept { KeepsRows run.old run.new }
{
    let Some(name) = send_name(alloc, &run.env, node)? else {
        return Ok(None);
    };
    match target_of(alloc, node.text(Attribute::Target), run)? {
        Some(receiver) => checked_to(alloc, run, node, name, receiver),
        None => Ok(None),
    }
}

/// The delay, `namelist`, params and content, in this order, of an event of this name to this receiver.
fn checked_to(
    alloc: Global,
    run: &mut Running,
    node: &Node,
    name: Name,
    receiver: Receiver,
) -> Result<Option<Posted>, NoMemory>
    requires { HasIds run.old.env }
    ensures ok { IfOk result (λ found. sent_to (members_of node.now) (children_of node.now) name
        (receiver_as receiver) (running_of run.old) ≡ sent_as (members_of node.now) (running_of run.new) found) }
    ensures kept { KeepsRows run.old run.new }
{
    let Some(delay) = send_delay(alloc, &run.env, node)? else {
        return Ok(None);
    };
    let names = node.words(Attribute::NameList);
    match payload(alloc, run, names, node.kids.slice())? {
        Some(payload) => Ok(Some(Posted {
            name,
            receiver,
            delay,
            payload,
        })),
        None => Ok(None),
    }
}

/// `#_scxml_` and the session's name.
fn origin(alloc: Global, session: &Word) -> Result<SharedBytes, NoMemory>
    ensures { IfOk result (λ origin. origin ≡ codes "#_scxml_" ++ session.now) }
{
    let mut text = TextWriter::new(alloc);
    put_origin(&mut text, session)?;
    SharedBytes::from_slice(alloc, text.slice())
}

fn put_origin(text: &mut TextWriter, session: &Word) -> Result<(), NoMemory>
    ensures { OnOk result (text.new ≡ text.old ++ codes "#_scxml_" ++ session.now) }
{
    text.text("#_scxml_")?;
    text.bytes(session.bytes())
}

/// Puts the event into the internal queue at once.
fn post_inside(
    run: &mut Running,
    sendid: SharedBytes,
    name: Name,
    payload: Data,
) -> Result<(), NoMemory>
    ensures ok { (delay : ℕ) → OnOk result (post sendid name Inside delay payload (running_of run.old)
        ≡ done (running_of run.new)) }
    ensures kept { KeepsRows run.old run.new }
{
    let event = Event {
        number: 0,
        name,
        kind: Kind::Internal,
        sendid,
        origin: SharedBytes::empty(),
        origintype: SharedBytes::empty(),
        invokeid: SharedBytes::empty(),
        payload,
    };
    enqueue(run, event)
}

/// The event as its receiver gets it.
fn sent_event(
    alloc: Global,
    session: &Word,
    sendid: SharedBytes,
    name: Name,
    payload: Data,
) -> Result<Event, NoMemory>
    ensures { IfOk result (λ event. event ≡ sent_event session.now sendid name payload) }
{
    Ok(Event {
        number: 0,
        name,
        kind: Kind::External,
        sendid,
        origin: origin(alloc, session)?,
        origintype: origin_type(alloc)?,
        invokeid: SharedBytes::empty(),
        payload,
    })
}

fn origin_type(alloc: Global) -> Result<SharedBytes, NoMemory>
    ensures { IfOk result (λ text. text ≡ processor) }
{
    SharedBytes::from_slice(alloc, PROCESSOR.as_bytes())
}

/// Asks the host to deliver the event.
fn post_outside(
    alloc: Global,
    run: &mut Running,
    sendid: SharedBytes,
    name: Name,
    to: To,
    delay: u64,
    payload: Data,
) -> Result<(), NoMemory>
    ensures ok { OnOk result (post sendid name (Outside to) delay payload (running_of run.old)
        ≡ done (running_of run.new)) }
    ensures kept { KeepsRows run.old run.new }
{
    let event = sent_event(alloc, &run.env.session, sendid, name, payload)?;
    add_effect(run, Effect::Send { event, to, delay })
}

fn add_effect(run: &mut Running, effect: Effect) -> Result<(), NoMemory>
    ensures ok { OnOk result (running_of run.new ≡ with_effect effect (running_of run.old)) }
    ensures kept { KeepsRows run.old run.new }
{
    run.effects.push(effect)
}

fn post(
    alloc: Global,
    run: &mut Running,
    sendid: SharedBytes,
    posted: Posted,
) -> Result<(), NoMemory>
    ensures ok { OnOk result (post sendid posted.name (receiver_as posted.receiver) posted.delay posted.payload
        (running_of run.old) ≡ done (running_of run.new)) }
    ensures kept { KeepsRows run.old run.new }
{
    let Posted {
        name,
        receiver,
        delay,
        payload,
    } = posted;
    match receiver {
        Receiver::Inside => post_inside(run, sendid, name, payload),
        Receiver::Outside(to) => post_outside(alloc, run, sendid, name, to, delay, payload),
    }
}

/// `send.N`.
fn made_id(alloc: Global, number: u64) -> Result<SharedBytes, NoMemory>
    ensures { IfOk result (λ id. id ≡ codes "send." ++ decimal number) }
{
    let mut text = TextWriter::new(alloc);
    put_id(&mut text, number)?;
    SharedBytes::from_slice(alloc, text.slice())
}

fn put_id(text: &mut TextWriter, number: u64) -> Result<(), NoMemory>
    ensures { OnOk result (text.new ≡ text.old ++ codes "send." ++ decimal number) }
{
    text.text("send.")?;
    text.number(u128::from(number))
}

/// Writes the id that is made; only an id that was written is counted.
fn write_id(run: &mut Running, place: &[u8], id: Bytes) -> bool
    requires { run.old.sends < 2 ^ 64 - 1 }
    ensures written { OnTrue result (IsWritten place.now id (running_of run.old) (running_of run.new)) }
    ensures not_written { OnFalse result ((set place.now (Text id) (env_of run.old.env) ≡ None) × (run.new ≡ run.old)) }
    ensures kept { KeepsRows run.old run.new }
{
    match run.env.set_named(place, Value::Text(id)) {
        Ok(()) => {
            run.sends += 1;
            true
        }
        Err(_) => false,
    }
}

/// An id that is made, which `idlocation` gets; none at the last count, and where it cannot be written.
fn new_id(alloc: Global, run: &mut Running, place: &[u8]) -> Result<Option<SharedBytes>, NoMemory>
    ensures made { IfOk result (λ id. (m : Members) (name : List ℕ) (who : ReceiverOf) (delay : ℕ) (payload : Data)
        → post_made m place.now name who delay payload (running_of run.old)
        ≡ posted_with m name who delay payload (running_of run.new) id) }
    ensures kept { KeepsRows run.old run.new }
{
    if run.sends == u64::MAX {
        return Ok(None);
    }
    let id = made_id(alloc, run.sends + 1)?;
    if write_id(run, place, Bytes::from_slice(alloc, id.slice())?) {
        Ok(Some(id))
    } else {
        Ok(None)
    }
}

/// With an id that is made.
fn post_made(
    alloc: Global,
    run: &mut Running,
    node: &Node,
    place: &[u8],
    posted: Posted,
) -> Result<(), Failure<SharedBytes>>
    ensures outcome { Does result run.new (post_made (members_of node.now) place.now posted.name
        (receiver_as posted.receiver) posted.delay posted.payload (running_of run.old)) }
    ensures kept { KeepsRows run.old run.new }
{
    match new_id(alloc, run, place)? {
        Some(id) => Ok(post(alloc, run, id, posted)?),
        None => Err(send_fault(alloc, node)),
    }
}

fn send_with(
    alloc: Global,
    run: &mut Running,
    node: &Node,
    posted: Posted,
) -> Result<(), Failure<SharedBytes>>
    ensures outcome { Does result run.new (send_with (members_of node.now) posted.name
        (receiver_as posted.receiver) posted.delay posted.payload (running_of run.old)) }
    ensures kept { KeepsRows run.old run.new }
{
    if let Some(place) = node.text(Attribute::IdLocation) {
        return post_made(alloc, run, node, place, posted);
    }
    post(alloc, run, own_id(alloc, node)?, posted)?;
    Ok(())
}

/// SCXML 6.2.
#[tactic(auto, unfolding(sc_law::specs::Sending::send))]
pub(crate) fn send(
    alloc: Global,
    run: &mut Running,
    node: &Node,
) -> Result<(), Failure<SharedBytes>>
    requires { HasIds run.old.env }
    ensures outcome { Does result run.new (send (members_of node.now) (children_of node.now) (running_of run.old)) }
    ensures kept { KeepsRows run.old run.new }
{
    if !is_send_type(node.text(Attribute::Type)) {
        return Err(send_fault(alloc, node));
    }
    match checked(alloc, run, node)? {
        Some(posted) => send_with(alloc, run, node, posted),
        None => Err(send_fault(alloc, node)),
    }
}
