ghost use Rattle.std.specs.Prelude.{◌≡◌, ◌+◌, ◌≤◌, ◌<◌, ◌^◌, ◌↔◌, not, IfOk, IfSome, OnErr, List, find, length, nat_le, Some};
ghost use Rattle.sc_base.specs.Ascending.{contains};
ghost use Rattle.sc_book.specs.Books.{IsBook};
ghost use Rattle.sc_book.specs.Claims.{Claims, steps_begun, unclaimed, without_claim};
ghost use Rattle.sc_machine.specs.Accepted.{accepted_steps};
ghost use Rattle.sc_core.specs.Bodies.{cued};
ghost use Rattle.sc_machine.specs.Waiting.{StaysReady};
ghost use Rattle.sc_types.specs.declared.command.Command.{Command};
ghost use Rattle.sc_types.specs.declared.host.HostImage.{HostImage};

use crate::book::Book;
use crate::ticket::Ticket;
use sc_base::NoMemory;
use sc_core::HostState;
use sc_dev::Disk;
use sc_law::Engine;
use sc_rooms::Places;
use std::alloc::Global;

/// The first place of a session that has a cue and is not claimed.
fn first_unclaimed<E: Engine>(host: &HostState<E>, claims: &Places) -> Option<usize>
    ensures { result ≡ find (λ place. not (contains claims.now.places place)) (cued 0 host.now.image.sessions) }
{
    // The places are below the count, so the next one is a usize too.
    let _count = host.count();
    let mut from = 0;
    while let Some(place) = host.ready(from) {
        if !claims.has(place) {
            return Some(place);
        }
        from = place + 1;
    }
    None
}

impl<'e, E: Engine, D: Disk> Book<'e, E, D> {
    /// Takes the ready session that was started first, of those that no worker has taken, and keeps the others from it
    /// until its ticket is spent. No more than `budget` steps are accepted or under way at a time, those included that
    /// were accepted since the opening.
    pub fn claim(&mut self, alloc: Global, budget: u64) -> Result<Option<Ticket<E>>, NoMemory>
        ensures ok { IfOk result (Claims budget self.old self.new) }
        ensures err { OnErr result (self.new ≡ self.old) }
        ensures same { self.new ≡ record self.old { claims = self.new.claims } }
        ensures kept { (past : List Command) → IsBook D.law past self.old → IsBook D.law past self.new }

        // whatever a host becomes, the session stays ready until a step of it is accepted
        ensures stays { IfOk result (λ ticket. IfSome ticket (λ t. (g : HostImage) → StaysReady g t.place)) }
    {
        if self.begun() >= budget {
            return Ok(None);
        }
        match first_unclaimed(&self.host, &self.claims) {
            Some(place) => self.take(alloc, place, budget),
            None => Ok(None),
        }
    }

    /// How many steps were accepted since the opening.
    pub fn steps(&self) -> u64
        ensures { result ≡ accepted_steps self.now.history }
    {
        self.log.history.steps()
    }

    /// How many steps were accepted or are under way, or the greatest number where they are more.
    fn begun(&self) -> u64
        ensures { (budget : _) → budget < 2 ^ 64 → (budget ≤ result) ↔ (budget ≤ steps_begun self.now) }
    {
        self.steps().saturating_add(self.claims.len() as u64)
    }

    /// Takes the session at a place, which is ready and not claimed.
    fn take(
        &mut self,
        alloc: Global,
        place: usize,
        budget: u64,
    ) -> Result<Option<Ticket<E>>, NoMemory>
        requires first { unclaimed self.old ≡ Some place }
        requires within { steps_begun self.old < budget }
        ensures ok { IfOk result (Claims budget self.old self.new) }
        ensures err { OnErr result (self.new ≡ self.old) }
        ensures same { self.new ≡ record self.old { claims = self.new.claims } }
        ensures kept { (past : List Command) → IsBook D.law past self.old → IsBook D.law past self.new }
        ensures stays { IfOk result (λ ticket. IfSome ticket (λ t. (g : HostImage) → StaysReady g t.place)) }
    {
        self.claims.reserve(1)?;
        let input = self.host.turn_input(alloc, place)?;
        match input {
            Some(input) => {
                self.claims.insert(place);
                Ok(Some(Ticket::new(place, input)))
            }
            None => unreachable!(),
        }
    }

    /// Gives a session back without a step.
    pub fn abandon(&mut self, ticket: Ticket<E>)
        ensures claims { self.new.claims ≡ without_claim ticket.place self.old.claims }
        ensures same { self.new ≡ record self.old { claims = self.new.claims } }
        ensures kept { (past : List Command) → IsBook D.law past self.old → IsBook D.law past self.new }
    {
        self.end_claim(ticket.into_place());
    }

    /// Ends the claim of a place, where there is one.
    pub(crate) fn end_claim(&mut self, place: usize)
        ensures claims { self.new.claims ≡ without_claim place self.old.claims }
        ensures same { self.new ≡ record self.old { claims = self.new.claims } }
        ensures kept { (past : List Command) → IsBook D.law past self.old → IsBook D.law past self.new }
    {
        self.claims.remove(place);
    }
}
