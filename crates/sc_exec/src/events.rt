ghost use Rattle.std.specs.Prelude.{◌≡◌, OnOk, IfOk};
ghost use Rattle.sc_types.specs.declared.event.Data.TheVariants.{Absent};
ghost use Rattle.sc_types.specs.declared.event.Event.{Event};
ghost use Rattle.sc_law.specs.Runs.{failed, enqueue, platform_event};
ghost use Rattle.sc_eval.specs.Envs.{HasIds};
ghost use Rattle.sc_exec.specs.Runs.{running_of, KeepsRows};

use crate::running::Running;
use sc_base::{Name, NoMemory, SharedBytes};
use sc_types::{Data, Event, Kind};
use std::alloc::Global;

/// The name of an event. A text that no event can have as its name is answered as being out of memory; no chart that
/// was read has one.
pub(crate) fn event_name(alloc: Global, text: &[u8]) -> Result<Name, NoMemory>
    ensures { IfOk result (λ n. n ≡ text.now) }
{
    match Name::of(alloc, text) {
        Ok(name) => Ok(name),
        Err(_) => Err(NoMemory),
    }
}

/// Puts an event at the back of the internal queue.
pub(crate) fn enqueue(run: &mut Running, event: Event) -> Result<(), NoMemory>
    ensures ok { OnOk result (running_of run.new ≡ enqueue event (running_of run.old)) }
    ensures kept { KeepsRows run.old run.new }
{
    run.internal.push(event)
}

/// Puts `error.execution` at the back of the internal queue, with the id of a send that failed. SCXML 3.12.2.
pub fn enqueue_failure(
    alloc: Global,
    run: &mut Running,
    sendid: SharedBytes,
) -> Result<(), NoMemory>
    ensures ok { OnOk result (running_of run.new ≡ failed sendid (running_of run.old)) }
    ensures kept { KeepsRows run.old run.new }
{
    let event = Event {
        number: 0,
        name: event_name(alloc, "error.execution".as_bytes())?,
        kind: Kind::Platform,
        sendid,
        origin: SharedBytes::empty(),
        origintype: SharedBytes::empty(),
        invokeid: SharedBytes::empty(),
        payload: Data::Absent,
    };
    enqueue(run, event)
}
