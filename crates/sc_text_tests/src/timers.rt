ghost use Rattle.std.specs.Prelude.{◌≡◌, IfOk};

use sc_base::{Name, SharedBytes, Word};
use sc_timers::{Timed, Timers};
use sc_types::{Data, Event, Kind, To};
use std::alloc::Global;
use std::test::Fail;

fn event(alloc: Global, sendid: &[u8]) -> Result<Event, Fail> {
    Ok(Event {
        number: 0,
        name: Name::of(alloc, b"e")?,
        kind: Kind::External,
        sendid: SharedBytes::from_slice(alloc, sendid)?,
        origin: SharedBytes::empty(),
        origintype: SharedBytes::empty(),
        invokeid: SharedBytes::empty(),
        payload: Data::Absent,
    })
}

fn send(alloc: Global, number: u64, due: u64) -> Result<Timed, Fail>
    ensures { IfOk result (λ t. t.number ≡ number) }
{
    Ok(Timed {
        session: Word::of(alloc, b"s")?,
        number,
        due,
        event: event(alloc, b"i")?,
        to: To::Own,
    })
}

fn three(alloc: Global) -> Result<Timers, Fail> {
    let mut timers = Timers::new(alloc);
    timers.reserve(3)?;
    timers.add(send(alloc, 1, 9)?);
    timers.add(send(alloc, 2, 5)?);
    timers.add(send(alloc, 3, 5)?);
    Ok(timers)
}

/// The number of the send that is taken out as due.
fn taken(timers: &mut Timers, clock: u64) -> Option<u64> {
    timers.take_due(clock).map(|send| send.number)
}

#[test]
fn sends_come_by_due_time_and_then_by_number(rt: HostRuntime) -> Result<(), Fail> {
    let mut timers = three(rt.alloc())?;
    let last = timers.get(2).map(|send| send.number);
    let found = [
        taken(&mut timers, 4),
        taken(&mut timers, 9),
        taken(&mut timers, 9),
        taken(&mut timers, 9),
        taken(&mut timers, 9),
    ];
    assert_eq!(rt; last, Some(1));
    assert_eq!(rt; found, [None, Some(2), Some(3), Some(1), None]);
    Ok(())
}

#[test]
fn sends_are_cancelled_by_id_and_discarded_by_session(rt: HostRuntime) -> Result<(), Fail> {
    let mut timers = three(rt.alloc())?;
    let found = [
        timers.count(b"s", b"i"),
        timers.count(b"s", b"other"),
        timers.cancel_all(b"s", b"other"),
        timers.discard(b"other"),
        timers.cancel_all(b"s", b"i"),
    ];
    assert_eq!(rt; found, [3, 0, 0, 0, 3]);
    assert_eq!(rt; three(rt.alloc())?.discard(b"s"), 3);
    Ok(())
}
