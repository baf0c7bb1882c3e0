ghost use Rattle.std.specs.Prelude.{◌≡◌, ◌≤◌, ◌<◌, None, Some, false, true, length, slice_get};
ghost use Rattle.sc_pool.specs.Books.{seen_of};
ghost use Rattle.sc_pool.specs.Clients.{AllMade, IsMade, KeepsMade, Rounds};
ghost use Rattle.sc_pool.specs.Keeping.{Begins, IsSpent, IsWorst, Keeps, StartsAt, StepsOnce};
ghost use Rattle.sc_pool.specs.Plans.{HaveNoStep};
ghost use Rattle.sc_machine.specs.Accepted.{accepted_steps};

use crate::book::{answer, claim, commit, give_back, step_first};
use crate::client::{Client, Taken, mark, take};
use sc_base::NoMemory;
use sc_book::{Book, CallFault, Ticket};
use sc_dev::Disk;
use sc_law::{Engine, Turned};
use sc_types::{Sequence, Who};
use std::alloc::Global;
use std::marker::{Brand, Model, PhantomData};

/// What a pool is to make, and what it began with. Each run picks it.
pub trait Plan {
    ghost use Rattle.sc_pool.specs.Plans.{Planned};

    ghost plan: { Planned };
}

impl Plan for Brand {
    ghost use Rattle.std.specs.Prelude.{[], false};
    ghost use Rattle.sc_pool.specs.Plans.{nothing_planned};

    ghost plan = { nothing_planned };
}

/// What became of a job's turn at the lock.
#[derive(Clone, Copy, Debug, PartialEq, Eq)]
pub(crate) enum Round {
    /// A command or a step was made.
    Made,
    /// There was nothing to make.
    Nothing,
    /// A fault was met.
    Failed,
}

/// What a worker finds when it looks for a session to step.
pub(crate) enum Look<T> {
    Claimed(T),
    Nothing,
    Failed,
}

/// The book behind the lock, with what each client has still to make.
#[derive(Drop)]
pub(crate) struct Locked<'e, E: Engine, D: Disk, J: Plan> {
    book: Book<'e, E, D>,
    clients: Sequence<Client>,
    budget: u64,
    worst: Option<CallFault>,
    plan: PhantomData<J>,
}

impl<'e, E: Engine, D: Disk, J: Plan> Model for Locked<'e, E, D, J> {
    ghost use Rattle.std.specs.Prelude.{◌≡◌};
    ghost use Rattle.std.specs.Coded.{codes};
    ghost use Rattle.sc_pool.specs.Books.{seen_of};
    ghost use Rattle.sc_pool.specs.Keeping.{Keeps, Progress, progress_of};
    ghost use Rattle.sc_types.specs.contracts.command.Command as command_type;
    ghost use Rattle.sc_types.specs.contracts.history.Entry as entry_type;

    ghost Value = { Progress };

    ghost coded = { Prim.hlevel (codes, command_type.the_row.coded, entry_type.the_row.coded) };

    ghost view = { λ s. progress_of
        (seen_of D.law s.book) s.clients s.worst };

    ghost invariant = { λ s. Keeps J.plan
        (seen_of D.law s.book) s.clients s.worst
        × (s.budget ≡ J.plan.budget) };
}

/// The worse of two faults: want of memory comes before a fault of the disk, and that before a full journal.
fn worse(noted: Option<CallFault>, fault: CallFault) -> CallFault
    ensures { IsWorst noted fault result }
{
    match (noted, fault) {
        (Some(CallFault::NoMemory), _) | (_, CallFault::NoMemory) => CallFault::NoMemory,
        (Some(CallFault::Disk), _) | (_, CallFault::Disk) => CallFault::Disk,
        _ => CallFault::Full,
    }
}

impl<'e, E: Engine, D: Disk, J: Plan> Locked<'e, E, D, J> {
    /// Nothing is made yet.
    pub(crate) fn new(
        book: Book<'e, E, D>,
        clients: Sequence<Client>,
        budget: u64,
    ) -> Locked<'e, E, D, J>
        requires no_step { HaveNoStep J.plan.scripts }
        requires start { StartsAt J.plan.start (seen_of D.law book) }
        requires clients { Begins J.plan clients }
        requires budget { budget ≡ J.plan.budget }
        requires within { accepted_steps (seen_of D.law book).entries ≤ budget }
    {
        Locked {
            book,
            clients,
            budget,
            worst: None,
            plan: PhantomData,
        }
    }

    /// Makes the next command of the client at a place.
    pub(crate) fn next(&mut self, alloc: Global, place: usize) -> Round
        ensures { Rounds place self.old.clients self.new.clients result }
    {
        match take(&mut self.clients, place) {
            Taken::Next(number, command) => {
                match answer(&mut self.book, alloc, Who::Client(number), command) {
                    Ok(()) => Round::Made,
                    Err(fault) => {
                        mark(&mut self.clients, place);
                        self.worst = Some(worse(self.worst, fault));
                        Round::Failed
                    }
                }
            }
            Taken::Over => Round::Nothing,
            Taken::Failed => Round::Failed,
        }
    }

    /// Claims a session to step.
    pub(crate) fn claim(&mut self, alloc: Global) -> Look<Ticket<E>> {
        match claim(&mut self.book, alloc, self.budget) {
            Ok(Some(ticket)) => Look::Claimed(ticket),
            Ok(None) => Look::Nothing,
            Err(NoMemory) => {
                self.worst = Some(CallFault::NoMemory);
                Look::Failed
            }
        }
    }

    /// Commits the step of a claimed session, or gives the claim back where there is no turn, or no step is left.
    pub(crate) fn commit(
        &mut self,
        alloc: Global,
        ticket: Ticket<E>,
        turned: Result<Turned, NoMemory>,
    ) -> Round {
        match turned {
            Ok(turned) => self.commit_turned(alloc, ticket, turned),
            Err(NoMemory) => {
                give_back(&mut self.book, ticket);
                self.worst = Some(CallFault::NoMemory);
                Round::Failed
            }
        }
    }

    fn commit_turned(&mut self, alloc: Global, ticket: Ticket<E>, turned: Turned) -> Round {
        if self.budget <= self.book.steps() {
            give_back(&mut self.book, ticket);
            return Round::Nothing;
        }
        match commit(&mut self.book, alloc, ticket, turned) {
            Ok(true) => Round::Made,
            Ok(false) => Round::Nothing,
            Err(fault) => {
                self.worst = Some(worse(self.worst, fault));
                Round::Failed
            }
        }
    }

    /// Makes what is left of the list of the client at a place, unless a fault is met.
    fn finish_client(&mut self, alloc: Global, place: usize)
        ensures made { IsMade (slice_get self.new.clients place) }
        ensures others { KeepsMade self.old.clients self.new.clients }
    {
        while let Round::Made = self.next(alloc, place) {}
    }

    /// Makes what is left of the lists of all clients, but for those that met a fault.
    pub(crate) fn finish_clients(&mut self, alloc: Global)
        ensures { AllMade self.new.clients }
    {
        for place in 0..self.clients.len() {
            self.finish_client(alloc, place);
        }
    }

    /// Lets the ready session that was started first step, where a step is left.
    fn step_once(&mut self, alloc: Global) -> Round
        ensures clients { self.new.clients ≡ self.old.clients }
        ensures steps { StepsOnce J.plan.budget self.old self.new result }
    {
        if self.book.steps() >= self.budget {
            return Round::Nothing;
        }
        match step_first(&mut self.book, alloc) {
            Ok(true) => Round::Made,
            Ok(false) => Round::Nothing,
            Err(fault) => {
                self.worst = Some(worse(self.worst, fault));
                Round::Failed
            }
        }
    }

    /// Lets ready sessions step while a step is left, where no fault was met.
    pub(crate) fn finish_steps(&mut self, alloc: Global)
        ensures clients { self.new.clients ≡ self.old.clients }
        ensures spent { self.new.worst ≡ None → IsSpent J.plan.budget self.new }
    {
        if self.worst.is_some() {
            return;
        }
        while let Round::Made = self.step_once(alloc) {}
    }

    /// The book, and the worst fault that was met.
    pub(crate) fn into_parts(self) -> (Book<'e, E, D>, Option<CallFault>)
        ensures keeps { Keeps J.plan (seen_of D.law result.0) self.entry.clients self.entry.worst }
        ensures worst { result.1 ≡ self.entry.worst }
        ensures entries { (seen_of D.law result.0).entries ≡ self.entry.entries }
        ensures ready { (seen_of D.law result.0).ready ≡ self.entry.ready }
    {
        let Locked { book, worst, .. } = self;
        (book, worst)
    }
}
