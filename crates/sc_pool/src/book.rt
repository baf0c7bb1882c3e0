ghost use Rattle.std.specs.Prelude.{◌≡◌, ◌<◌, Ok, IfErr, MatchResult, OnOk, Some, false, find, length, nat_le, true};
ghost use Rattle.sc_core.specs.Bodies.{cued};
ghost use Rattle.sc_pool.specs.Books.{seen_of};
ghost use Rattle.sc_pool.specs.Sharing.{Adds, Fails, FailsToStep, GoesOn, IsSame, Steps};

use sc_base::{NoMemory, Plain};
use sc_book::{Book, CallFault, Ticket};
use sc_core::HostState;
use sc_dev::Disk;
use sc_law::{Engine, Turned};
use sc_types::{Command, Who};
use std::alloc::Global;

/// Whether the session at a place is ready.
fn is_ready_at<E: Engine>(host: &HostState<E>, place: usize) -> bool
    ensures { result ≡ true → Some place ≡ find (λ p. nat_le place p) (cued 0 host.now.image.sessions) }
{
    match host.ready(place) {
        Some(first) => first == place,
        None => false,
    }
}

/// Answers a command of a caller, and adds its entry to the history.
pub(crate) fn answer<E: Engine, D: Disk>(
    book: &mut Book<'_, E, D>,
    alloc: Global,
    who: Who,
    command: Command,
) -> Result<(), CallFault>
    ensures ok { OnOk result (Adds who command (seen_of D.law book.old) (seen_of D.law book.new)) }
    ensures err { IfErr result (λ fault. Fails who command fault (seen_of D.law book.old) (seen_of D.law book.new)) }
    ensures goes_on { GoesOn (seen_of D.law book.old) (seen_of D.law book.new) }
{
    book.call(alloc, who, command)?;
    Ok(())
}

/// Lets the ready session that was started first step; `false` where none is ready.
pub(crate) fn step_first<E: Engine, D: Disk>(
    book: &mut Book<'_, E, D>,
    alloc: Global,
) -> Result<bool, CallFault>
    ensures steps { MatchResult result (λ made. Steps made (seen_of D.law book.old) (seen_of D.law book.new))
        (λ fault. FailsToStep fault (seen_of D.law book.old)
        (seen_of D.law book.new)) }
    ensures none { result ≡ Ok false → (seen_of D.law book.new).ready ≡ false }
    ensures goes_on { GoesOn (seen_of D.law book.old) (seen_of D.law book.new) }
{
    let Some(session) = book.host().ready_session() else {
        return Ok(false);
    };
    let session = session.copy()?;
    book.call(alloc, Who::Worker, Command::Step { session })?;
    Ok(true)
}

/// Claims the ready session that was started first among those that are not claimed, where the steps that were accepted
/// and the claims that are open are fewer than the budget.
pub(crate) fn claim<E: Engine, D: Disk>(
    book: &mut Book<'_, E, D>,
    alloc: Global,
    budget: u64,
) -> Result<Option<Ticket<E>>, NoMemory>
    ensures same { IsSame (seen_of D.law book.old) (seen_of D.law book.new) }
    ensures goes_on { GoesOn (seen_of D.law book.old) (seen_of D.law book.new) }
{
    book.claim(alloc, budget)
}

/// Commits the step of a claimed session, where it is ready still; `false` where it is not. The claim ends in any case.
pub(crate) fn commit<E: Engine, D: Disk>(
    book: &mut Book<'_, E, D>,
    alloc: Global,
    ticket: Ticket<E>,
    turned: Turned,
) -> Result<bool, CallFault>
    ensures steps { MatchResult result (λ made. Steps made (seen_of D.law book.old) (seen_of D.law book.new))
        (λ fault. FailsToStep fault (seen_of D.law book.old)
        (seen_of D.law book.new)) }
    ensures goes_on { GoesOn (seen_of D.law book.old) (seen_of D.law book.new) }
{
    // What came between may have left the session without a cue, or with another.
    if !is_ready_at(book.host(), ticket.place()) {
        book.abandon(ticket);
        return Ok(false);
    }
    book.commit(alloc, ticket, turned)?;
    Ok(true)
}

/// Gives a claim back.
pub(crate) fn give_back<E: Engine, D: Disk>(book: &mut Book<'_, E, D>, ticket: Ticket<E>)
    ensures same { IsSame (seen_of D.law book.old) (seen_of D.law book.new) }
    ensures goes_on { GoesOn (seen_of D.law book.old) (seen_of D.law book.new) }
{
    book.abandon(ticket);
}
