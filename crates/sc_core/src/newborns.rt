ghost use Rattle.std.specs.Prelude.{◌≡◌, ◌≤◌, true, IfOk, length};
ghost use Rattle.std.specs.List.{AllByRecursion};
ghost use Rattle.sc_core.specs.Installing.{CanApplyAll, IsRoomy, new_rooms};
ghost use Rattle.sc_core.specs.Newborns.{AreAlike, HasNewRoom, IsAlike, IsRoomier, has_past, is_past};
ghost use Rattle.sc_types.specs.declared.host.HostImage.{HostImage};

use crate::change::Change;
use crate::session::Session;
use sc_base::{Boxed, NoMemory, Queue};
use std::alloc::Global;

/// Whether a change puts an event into the external queue of a session that stands at a place or behind it.
fn is_past<P>(change: &Change<P>, first: usize) -> bool
    ensures { result ≡ is_past first change.now }
{
    match change {
        Change::Queue { place, .. } => first <= *place,
        _ => false,
    }
}

/// Whether one of the changes does.
fn has_past<P>(changes: &Queue<Change<P>>, first: usize) -> bool
    ensures { result ≡ has_past first changes.now }
{
    // A length fits a usize, so the number cannot run out.
    let _end = changes.len();
    let mut number = 0;
    while let Some(change) = changes.get(number) {
        if is_past(change, first) {
            return true;
        }
        number += 1;
    }
    false
}

/// A session with room for so many more events.
fn with_more_room(mut session: Session, count: usize) -> Result<Session, NoMemory>
    ensures same { IfOk result (IsRoomier session) }
    ensures room { IfOk result (λ s. count ≤ s.queued.spare) }
{
    session.queued.reserve(count)?;
    Ok(session)
}

/// The same, where it may get some.
fn with_room(
    alloc: Global,
    session: Boxed<Session>,
    gets: bool,
    count: usize,
) -> Result<Boxed<Session>, NoMemory>
    ensures same { IfOk result (IsRoomier session) }
    ensures room { IfOk result (λ s. gets ≡ true → count ≤ s.queued.spare) }
{
    if gets {
        return Boxed::new(alloc, with_more_room(session.into_inner(), count)?);
    }
    Ok(session)
}

/// The same changes, where each session that is born has room for so many events, if any of those sessions may get
/// some. The first is born at a place.
pub(crate) fn with_rooms<P: Drop>(
    alloc: Global,
    mut changes: Queue<Change<P>>,
    first: usize,
    count: usize,
) -> Result<Queue<Change<P>>, NoMemory>
    ensures alike { IfOk result (AreAlike changes) }
    ensures roomy { IfOk result (λ roomy. (g : HostImage) → length g.sessions ≡ first → CanApplyAll g changes
        → AllByRecursion (IsRoomy first count (new_rooms roomy)) roomy) }
{
    let gets = has_past(&changes, first);
    let mut roomy = Queue::new(alloc);
    while let Some(change) = changes.pop_front() {
        roomy.push(with_room_in(alloc, change, gets, count)?)?;
    }
    Ok(roomy)
}

/// The same change, with room for so many events in the session that it starts.
fn with_room_in<P: Drop>(
    alloc: Global,
    change: Change<P>,
    gets: bool,
    count: usize,
) -> Result<Change<P>, NoMemory>
    ensures alike { IfOk result (IsAlike change) }
    ensures room { IfOk result (λ c. gets ≡ true → HasNewRoom count c) }
{
    match change {
        Change::Bear {
            invoker,
            name,
            session,
        } => Ok(Change::Bear {
            invoker,
            name,
            session: with_room(alloc, session, gets, count)?,
        }),
        Change::Start { name, session } => Ok(Change::Start {
            name,
            session: with_room(alloc, session, gets, count)?,
        }),
        change => Ok(change),
    }
}
