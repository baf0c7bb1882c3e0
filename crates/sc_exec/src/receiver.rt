ghost use Rattle.std.specs.Prelude.{◌≡◌, ◌≤◌, IfOk, Some, drop, length, if◌then◌else◌, option_map};
ghost use Rattle.std.specs.Option.{option_copied, option_map_or};
ghost use Rattle.sc_law.specs.Sending.{begins_with, child_named, is_earlier, receiver, receiver_of};
ghost use Rattle.sc_exec.specs.Runs.{running_of};
ghost use Rattle.sc_exec.specs.Receivers.{receiver_as, first_of_id};

use crate::running::Running;
use sc_base::{NoMemory, Plain, Word, is_word};
use sc_types::{Invoked, To};
use std::alloc::Global;

/// Who receives an event: the session's own internal queue, or one whom the host knows.
#[derive(Drop)]
pub(crate) enum Receiver {
    Inside,
    Outside(To),
}

fn is_earlier(a: &Invoked, b: &Invoked) -> bool
    ensures { result ≡ is_earlier a.now b.now }
{
    a.state < b.state || a.state == b.state && a.place < b.place
}

/// Of the invokes with an id the one whose state and place come first.
fn first_of_id<'a>(invokes: &'a [Invoked], id: &[u8]) -> Option<&'a Invoked>
    ensures { option_copied result ≡ first_of_id id.now invokes.now }
{
    let mut first: Option<&Invoked> = None;
    let mut left = invokes.len();
    while left > 0 {
        left -= 1;
        let invoke = &invokes[left];
        if invoke.invokeid.slice() == id {
            first = earlier_of(first, invoke);
        }
    }
    first
}

fn earlier_of<'a>(first: Option<&'a Invoked>, invoke: &'a Invoked) -> Option<&'a Invoked>
    ensures { option_copied result
        ≡ Some (option_map_or (λ j. if is_earlier j invoke.now then j else invoke.now)
        (option_copied first.entry) invoke.now) }
{
    match first {
        Some(other) if is_earlier(other, invoke) => Some(other),
        _ => Some(invoke),
    }
}

fn child_named(invokes: &[Invoked], id: &[u8]) -> Result<To, NoMemory>
    ensures { IfOk result (λ to. to ≡ child_named id.now invokes.now) }
{
    match first_of_id(invokes, id) {
        Some(invoke) => Ok(To::Child(invoke.child.copy()?)),
        None => Ok(To::Nowhere),
    }
}

fn begins_with(text: &[u8], first: &str) -> bool
    ensures { result ≡ begins_with first.now text.now }
{
    text.starts_with(first.as_bytes())
}

fn rest(text: &[u8], at: usize) -> &[u8]
    requires { at ≤ length text.now }
    ensures { result.now ≡ drop at text.now }
{
    &text[at..]
}

fn session_named(alloc: Global, name: &[u8]) -> Result<To, NoMemory>
    ensures { IfOk result (λ to. to ≡ To.Session name.now) }
{
    match Word::of(alloc, name) {
        Ok(name) => Ok(To::Session(name)),
        Err(_) => Err(NoMemory),
    }
}

/// The first of the forms of targets that fits.
fn receiver_of(alloc: Global, text: &[u8], run: &Running) -> Result<Option<Receiver>, NoMemory>
    ensures { IfOk result (λ found. option_map receiver_as found ≡ receiver_of text.now (running_of run.now)) }
{
    if text == "#_internal".as_bytes() {
        return Ok(Some(Receiver::Inside));
    }
    if text == "#_parent".as_bytes() {
        return Ok(Some(Receiver::Outside(To::Parent)));
    }
    if begins_with(text, "#_scxml_") && is_word(rest(text, 8)) {
        return Ok(Some(Receiver::Outside(session_named(alloc, rest(text, 8))?)));
    }
    if begins_with(text, "#_") && text.len() > 2 {
        let child = child_named(run.invokes.slice(), rest(text, 2))?;
        return Ok(Some(Receiver::Outside(child)));
    }
    Ok(None)
}

/// Whom the target of a send names, where it has one of the forms; without a target the session itself. SCXML C.1.
pub(crate) fn target_of(
    alloc: Global,
    target: Option<&[u8]>,
    run: &Running,
) -> Result<Option<Receiver>, NoMemory>
    ensures { IfOk result (λ found. option_map receiver_as found
        ≡ receiver (option_copied target.entry) (running_of run.now)) }
{
    match target {
        Some(text) => receiver_of(alloc, text, run),
        None => Ok(Some(Receiver::Outside(To::Own))),
    }
}
