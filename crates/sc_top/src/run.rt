ghost use Rattle.std.specs.Prelude.{◌≡◌, ◌≢◌, ◌++◌, [], List, OnOk, IfErr};
ghost use Rattle.sc_script.specs.Steps.{HasNoStep};
ghost use Rattle.sc_top.specs.Run.{Made, in_turn, of_client, of_clients};
ghost use Rattle.sc_top.specs.Running.{HasEnded};

use sc_base::Plain;
use sc_book::{Book, CallFault};
use sc_core::Closed;
use sc_dev::{Disk, Gate};
use sc_law::Engine;
use sc_pool::run_jobs;
use sc_script::Script;
use sc_types::{Command, NoMemory, Remaining, Sequence, Who};
use std::alloc::Global;
use std::sync::Wait;
use std::thread::Threads;

/// Who steps the sessions of a run, and how often at most.
#[derive(Clone, Copy, Debug, PartialEq, Eq)]
pub(crate) struct Steps {
    /// How many workers there are beside the clients. Where there is none, one thread does all.
    pub(crate) workers: u32,
    /// How many steps may be accepted.
    pub(crate) budget: u64,
}

/// A run under way: the book, and how many steps are left.
#[derive(Drop)]
pub struct Run<'e, E: Engine, D: Disk> {
    book: Book<'e, E, D>,
    left: u64,
}

impl<'e, E: Engine, D: Disk> Run<'e, E, D> {
    ghost use Rattle.sc_top.specs.Running.{Goes, GoesOn, HasStepped, IsUnmade, Makes, Stops, run_of};

    /// Makes a command.
    #[inline(always)]
    fn make(&mut self, alloc: Global, who: Who, command: Command) -> Result<(), CallFault>
        ensures ok { OnOk result (Makes D.law (run_of self.old.book self.old.left)
            (run_of self.new.book self.new.left) who command) }
        ensures err { IfErr result (λ fault. IsUnmade D.law fault
            (run_of self.old.book self.old.left) (run_of self.new.book self.new.left) command) }
        ensures goes_on { GoesOn D.law self.old.book self.new.book }
    {
        self.book.call(alloc, who, command)?;
        Ok(())
    }

    /// Lets the ready session that was started first step, until none is ready or no step is left.
    fn step_all(&mut self, alloc: Global) -> Result<(), CallFault>
        ensures goes { OnOk result ((cs : List Made)
            → Goes D.law (run_of self.old.book self.old.left) (run_of self.new.book self.new.left) cs cs) }
        ensures stepped { OnOk result (HasStepped (run_of self.new.book self.new.left)) }
        ensures stops { IfErr result (λ fault. (cs : List Made) → Stops D.law fault
            (run_of self.old.book self.old.left) (run_of self.new.book self.new.left) cs) }
        ensures goes_on { GoesOn D.law self.old.book self.new.book }
    {
        while self.left > 0 {
            let Some(session) = self.book.host().ready_session() else {
                return Ok(());
            };
            let session = session.copy()?;
            self.left -= 1;
            self.make(alloc, Who::Worker, Command::Step { session })?;
        }
        Ok(())
    }

    /// Makes the commands of a client one after another, with the steps that are ready behind each.
    fn make_all(
        &mut self,
        alloc: Global,
        client: u32,
        commands: Sequence<Command>,
    ) -> Result<(), CallFault>
        requires stepped { HasStepped (run_of self.old.book self.old.left) }
        ensures goes { OnOk result ((cs : List Made)
            → Goes D.law (run_of self.old.book self.old.left) (run_of self.new.book self.new.left)
            (of_client client commands ++ cs) cs) }
        ensures stepped { OnOk result (HasStepped (run_of self.new.book self.new.left)) }
        ensures stops { IfErr result (λ fault. (cs : List Made) → Stops D.law fault
            (run_of self.old.book self.old.left) (run_of self.new.book self.new.left)
            (of_client client commands ++ cs)) }
        ensures goes_on { GoesOn D.law self.old.book self.new.book }
    {
        let mut left = Remaining::new(commands);
        while let Some(command) = left.take_first() {
            self.make(alloc, Who::Client(client), command)?;
            self.step_all(alloc)?;
        }
        Ok(())
    }

    /// Makes the commands of one client after another, which are numbered from 1.
    fn make_clients(
        &mut self,
        alloc: Global,
        clients: Sequence<Sequence<Command>>,
    ) -> Result<(), CallFault>
        requires stepped { HasStepped (run_of self.old.book self.old.left) }
        ensures goes { OnOk result ((cs : List Made)
            → Goes D.law (run_of self.old.book self.old.left) (run_of self.new.book self.new.left)
            (of_clients 1 clients ++ cs) cs) }
        ensures stepped { OnOk result (HasStepped (run_of self.new.book self.new.left)) }
        ensures stops { IfErr result (λ fault. (cs : List Made) → Stops D.law fault
            (run_of self.old.book self.old.left) (run_of self.new.book self.new.left) (of_clients 1 clients ++ cs)) }
        ensures goes_on { GoesOn D.law self.old.book self.new.book }
    {
        let mut client = 0u32;
        for commands in clients.into_vec() {
            client = client.checked_add(1).ok_or(NoMemory)?;
            self.make_all(alloc, client, commands)?;
        }
        Ok(())
    }

    /// Makes the commands of a script: those of the set-up, and then those of one client after another.
    fn make_script(&mut self, alloc: Global, script: Script) -> Result<(), CallFault>
        ensures goes { OnOk result (Goes D.law (run_of self.old.book self.old.left) (run_of self.new.book self.new.left)
            (in_turn script) []) }
        ensures stepped { OnOk result (HasStepped (run_of self.new.book self.new.left)) }
        ensures stops { IfErr result (λ fault. Stops D.law fault
            (run_of self.old.book self.old.left) (run_of self.new.book self.new.left) (in_turn script)) }
        ensures goes_on { GoesOn D.law self.old.book self.new.book }
    {
        self.step_all(alloc)?;
        self.make_all(alloc, 0, script.setup)?;
        self.make_clients(alloc, script.clients)
    }
}

/// A run that has ended: what it leaves, and its fault where there was one.
#[derive(Drop)]
pub(crate) struct Ended<E: Engine, D: Disk> {
    pub(crate) closed: Closed<E, D>,
    pub(crate) fault: Option<CallFault>,
}

/// Runs a script on one thread, with at most so many steps, to its end or to the first fault.
fn run_alone<'e, E: Engine, D: Disk>(
    alloc: Global,
    book: Book<'e, E, D>,
    script: Script,
    budget: u64,
) -> Ended<E, D>
    ensures { HasEnded D.law book.entry script 0 budget
        result.closed.host.image result.closed.opened result.closed.history.entries result.closed.disk result.fault }
{
    let mut run = Run { book, left: budget };
    let fault = run.make_script(alloc, script).err();
    Ended {
        closed: run.book.finish(),
        fault,
    }
}

/// Runs a script with workers, in threads, to its end.
fn run_in_threads<'e, R: Threads + Wait + Sync, E: Engine, D: Disk, G: Gate>(
    rt: &R,
    alloc: Global,
    book: Book<'e, E, D>,
    script: Script,
    steps: Steps,
    gate: &G,
) -> Ended<E, D>
    requires no_step { HasNoStep script }
    requires opened { book.history ≡ [] }
    requires some { steps.workers ≢ 0 }
    ensures { HasEnded D.law book.entry script
        steps.workers steps.budget result.closed.host.image result.closed.opened result.closed.history.entries
        result.closed.disk result.fault }
{
    let engine = book.engine();
    let (book, fault) = run_jobs(
        rt,
        alloc,
        book,
        engine,
        script,
        steps.workers,
        steps.budget,
        gate,
    );
    Ended {
        closed: book.finish(),
        fault,
    }
}

/// Runs a script on a book that was just opened.
pub(crate) fn run_script<'e, R: Threads + Wait + Sync, E: Engine, D: Disk, G: Gate>(
    rt: &R,
    alloc: Global,
    book: Book<'e, E, D>,
    script: Script,
    steps: Steps,
    gate: &G,
) -> Ended<E, D>
    requires no_step { HasNoStep script }
    requires opened { book.history ≡ [] }
    ensures { HasEnded D.law book.entry script
        steps.workers steps.budget result.closed.host.image result.closed.opened result.closed.history.entries
        result.closed.disk result.fault }
{
    if steps.workers == 0 {
        run_alone(alloc, book, script, steps.budget)
    } else {
        run_in_threads(rt, alloc, book, script, steps, gate)
    }
}
