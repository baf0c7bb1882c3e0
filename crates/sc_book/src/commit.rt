ghost use Rattle.std.specs.Prelude.{◌≡◌, ◌≢◌, ◌<◌, ◌≤◌, Err, IfOk, OnOk, OnErr, IfErr, List, length};
ghost use Rattle.sc_book.specs.Books.{IsBook};
ghost use Rattle.sc_book.specs.Claims.{step_at, without_claim};
ghost use Rattle.sc_book.specs.Receipts.{Acknowledges, Doubts, Grows, HasNoRoom, IsDuring, IsUnanswered, most_body};
ghost use Rattle.sc_codec.specs.Bodies.{body_of};
ghost use Rattle.sc_dev.specs.Causes.{Rose};
ghost use Rattle.sc_journal.specs.Stops.{LeavesOnly};
ghost use Rattle.sc_types.specs.declared.command.Command.{Command as CommandOf};
ghost use Rattle.sc_types.specs.declared.history.Who.TheVariants.{Worker};

use crate::book::Book;
use crate::fault::CallFault;
use crate::receipt::Receipt;
use crate::ticket::Ticket;
use sc_base::{NoMemory, Plain};
use sc_core::HostState;
use sc_dev::Disk;
use sc_law::{Engine, Turned};
use sc_types::{Command, Who};
use std::alloc::Global;

/// The step of the session at a place.
fn step_at<E: Engine>(host: &HostState<E>, place: usize) -> Result<Command, NoMemory>
    requires within { place < length host.now.image.sessions }
    ensures { IfOk result (λ c. c ≡ step_at host.now.image place) }
{
    Ok(Command::Step {
        session: host.state(place).session.copy()?,
    })
}

impl<'e, E: Engine, D: Disk> Book<'e, E, D> {
    /// Answers the step of a session that was claimed, as `call` does, and ends its claim. What a worker computed is
    /// used where it is the session's turn still; where something came between, as a cancel, the turn is computed anew.
    pub fn commit(
        &mut self,
        alloc: Global,
        ticket: Ticket<E>,
        turned: Turned,
    ) -> Result<Receipt, CallFault>
        requires within { ticket.place < length self.old.host.sessions }
        ensures ok { IfOk result (Acknowledges Worker (step_at self.old.host ticket.place) self.old self.new) }
        ensures err { OnErr result (IsUnanswered self.old self.new) }
        ensures doubts { IfErr result (Doubts Worker (step_at self.old.host ticket.place) self.old self.new) }
        ensures claims { self.new.claims ≡ without_claim ticket.place self.old.claims }
        ensures opened { self.new.opened ≡ self.old.opened }
        ensures start { self.new.start ≡ self.old.start }

        // exactly where the host would accept the step and the journal has no room for it
        ensures full { result ≡ Err CallFault.Full → HasNoRoom (step_at self.old.host ticket.place) self.old }
        ensures no_room { HasNoRoom (step_at self.old.host ticket.place) self.old → IfOk result (λ _. ⊥) }
        ensures fits { result ≡ Err CallFault.Full → length (body_of (step_at self.old.host ticket.place)) ≤ most_body }
        ensures grows { Grows self.old self.new }

        // only where the disk's faults rose in this call
        ensures disk { result ≡ Err CallFault.Disk
            → Rose (D.law.faults self.old.journal.disk) (D.law.faults self.new.journal.disk) }
        ensures later { D.law.faults self.old.journal.disk ≤ D.law.faults self.new.journal.disk }
        ensures fine { result ≢ Err CallFault.Disk
            → D.law.faults self.new.journal.disk ≡ D.law.faults self.old.journal.disk }
        ensures same { D.law.identity self.new.journal.disk ≡ D.law.identity self.old.journal.disk }

        // the book goes on, and what a stop leaves
        ensures kept { (past : List CommandOf) → IsBook D.law past self.old → IsBook D.law past self.new }
        ensures any_moment { D.law.tells → (past : List CommandOf) → IsBook D.law past self.old
            → LeavesOnly D.law self.old.journal.disk self.new.journal.disk
            (IsDuring past self.old (step_at self.old.host ticket.place)) }
    {
        let place = ticket.into_place();
        self.end_claim(place);
        self.settle()?;
        let step = step_at(&self.host, place)?;
        self.answer(alloc, Who::Worker, step, Some(turned))
    }
}
