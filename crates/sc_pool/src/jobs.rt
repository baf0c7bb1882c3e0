ghost use Rattle.std.specs.Prelude.{◌≡◌, ◌-◌, ◌≤◌, ◌<◌, ◌^◌, false, List, Some, IfOk, length};
ghost use Rattle.sc_pool.specs.Books.{seen_of};
ghost use Rattle.sc_pool.specs.Keeping.{StartsAt, clients_from};
ghost use Rattle.sc_pool.specs.Plans.{Finished, HaveNoStep, planned};
ghost use Rattle.sc_pool.specs.Pools.{Ran};
ghost use Rattle.sc_script.specs.Steps.{HasNoStep};
ghost use Rattle.sc_machine.specs.Accepted.{accepted_steps};
ghost use Rattle.sc_types.specs.declared.command.Command.{Command};

use crate::client::Client;
use crate::locked::{Locked, Look, Plan, Round};
use crate::set_up::set_up;
use sc_base::NoMemory;
use sc_book::{Book, CallFault};
use sc_dev::{Disk, Gate};
use sc_law::Engine;
use sc_script::Script;
use sc_types::{Command, Remaining, Sequence};
use std::alloc::Global;
use std::marker::Brand;
use std::sync::{Mutex, Wait};
use std::thread;
use std::thread::Threads;

/// How often in a row a worker looks for a session to step and finds none, before it ends.
const IDLE_LOOKS: u32 = 1_000;

/// More clients than any script has.
const MOST_CLIENTS: usize = 0xffff_ffff;

/// What a thread does.
#[derive(Clone, Copy, Debug, PartialEq, Eq)]
enum Job {
    /// Makes the commands of the client at a place.
    Client(usize),
    Worker,
}

/// A job for each client, and one for each worker.
fn jobs_of(alloc: Global, clients: usize, workers: u32) -> Result<Vec<Job>, NoMemory> {
    let mut jobs = Vec::new(alloc);
    for place in 0..clients {
        jobs.push(Job::Client(place))?;
    }
    for _worker in 0..workers {
        jobs.push(Job::Worker)?;
    }
    Ok(jobs)
}

/// A client that has all of this list still to make.
fn client_of(number: u32, commands: Sequence<Command>) -> Client
    ensures { result ≡ record { number = number; left = commands; failed = false } }
{
    Client {
        number,
        left: Remaining::new(commands),
        failed: false,
    }
}

/// The clients of these lists, numbered from 1 on.
fn clients_of(
    alloc: Global,
    scripts: Sequence<Sequence<Command>>,
) -> Result<Sequence<Client>, NoMemory>
    requires few { length scripts < 2 ^ 32 - 1 }
    ensures { IfOk result (λ clients. clients ≡ clients_from 1 scripts) }
{
    let mut clients = Sequence::new(alloc);
    for commands in scripts.into_vec() {
        let number = clients.len() as u32 + 1;
        clients.push(client_of(number, commands))?;
    }
    Ok(clients)
}

/// Makes the commands of a client one after another, to the end of its list or to a fault.
fn run_client<E: Engine, D: Disk, J: Plan, R: Wait>(
    rt: &R,
    alloc: Global,
    locked: &Mutex<Locked<'_, E, D, J>>,
    place: usize,
) {
    for _ in rt.forever() {
        match locked.lock(rt).next(alloc, place) {
            Round::Made => {}
            Round::Nothing | Round::Failed => return,
        }
    }
}

/// One look of a worker: it claims a session, computes its turn outside the lock, and commits it.
fn step_one<E: Engine, D: Disk, J: Plan, R: Wait, G: Gate>(
    rt: &R,
    alloc: Global,
    engine: &E,
    gate: &G,
    locked: &Mutex<Locked<'_, E, D, J>>,
) -> Round {
    let look = locked.lock(rt).claim(alloc);
    match look {
        Look::Claimed(ticket) => {
            gate.inside(ticket.place() as u64);
            let turned = ticket.work(alloc, engine);
            locked.lock(rt).commit(alloc, ticket, turned)
        }
        Look::Nothing => Round::Nothing,
        Look::Failed => Round::Failed,
    }
}

/// Steps sessions until it finds none to step for a while, or meets a fault.
fn run_worker<E: Engine, D: Disk, J: Plan, R: Wait, G: Gate>(
    rt: &R,
    alloc: Global,
    engine: &E,
    gate: &G,
    locked: &Mutex<Locked<'_, E, D, J>>,
) {
    let mut idle = 0u32;
    for _ in rt.forever() {
        match step_one(rt, alloc, engine, gate, locked) {
            Round::Made => idle = 0,
            Round::Nothing if idle < IDLE_LOOKS => idle += 1,
            Round::Nothing | Round::Failed => return,
        }
    }
}

/// What the job at a place does.
fn run_job<E: Engine, D: Disk, J: Plan, R: Wait, G: Gate>(
    rt: &R,
    alloc: Global,
    engine: &E,
    gate: &G,
    locked: &Mutex<Locked<'_, E, D, J>>,
    job: Job,
) {
    match job {
        Job::Client(place) => run_client(rt, alloc, locked, place),
        Job::Worker => run_worker(rt, alloc, engine, gate, locked),
    }
}

/// Runs the jobs, and then makes what is left of them.
fn run_locked<'e, E: Engine, D: Disk, J: Plan + Send + Sync, R: Threads + Wait + Sync, G: Gate>(
    rt: &R,
    alloc: Global,
    engine: &E,
    gate: &G,
    mut jobs: Vec<Job>,
    locked: Locked<'e, E, D, J>,
) -> (Book<'e, E, D>, Option<CallFault>)
    ensures { Finished J.plan (seen_of D.law result.0) result.1 }
{
    let threads = jobs.len().max(1);
    let shared = Mutex::new(locked);
    let lock = &shared;
    thread::for_each_mut(
        rt,
        jobs.as_mut_slice(),
        threads,
        &|_, job: &mut Job| { run_job(rt, alloc, engine, gate, lock, *job) },
    );
    let mut locked = shared.into_inner();
    locked.finish_clients(alloc);
    locked.finish_steps(alloc);
    locked.into_parts()
}

/// The same, under a plan that the caller picks.
fn run_planned<'e, E: Engine, D: Disk, J: Plan + Send + Sync, R: Threads + Wait + Sync, G: Gate>(
    rt: &R,
    alloc: Global,
    book: Book<'e, E, D>,
    engine: &E,
    scripts: Sequence<Sequence<Command>>,
    workers: u32,
    budget: u64,
    gate: &G,
) -> (Book<'e, E, D>, Option<CallFault>)
    requires few { length scripts < 2 ^ 32 - 1 }
    requires no_step { HaveNoStep scripts }
    requires scripts { scripts ≡ J.plan.scripts }
    requires start { StartsAt J.plan.start (seen_of D.law book) }
    requires budget { budget ≡ J.plan.budget }
    requires within { accepted_steps (seen_of D.law book).entries ≤ budget }
    ensures { Finished J.plan (seen_of D.law result.0) result.1 }
{
    let Ok(jobs) = jobs_of(alloc, scripts.len(), workers) else {
        return (book, Some(CallFault::NoMemory));
    };
    match clients_of(alloc, scripts) {
        Ok(clients) => {
            let locked: Locked<'e, E, D, J> = Locked::new(book, clients, budget);
            run_locked(rt, alloc, engine, gate, jobs, locked)
        }
        Err(NoMemory) => (book, Some(CallFault::NoMemory)),
    }
}

/// Makes the commands of all clients, each in the order of its list, and lets workers step what is ready, with a thread
/// for each client and each worker. Answers the book, and the worst fault that a job met.
fn run<'e, E: Engine, D: Disk, R: Threads + Wait + Sync, G: Gate>(
    rt: &R,
    alloc: Global,
    book: Book<'e, E, D>,
    engine: &E,
    scripts: Sequence<Sequence<Command>>,
    workers: u32,
    budget: u64,
    gate: &G,
) -> (Book<'e, E, D>, Option<CallFault>)
    requires few { length scripts < 2 ^ 32 - 1 }
    requires no_step { HaveNoStep scripts }
    requires within { accepted_steps (seen_of D.law book).entries ≤ budget }
    ensures { Finished (planned scripts budget (seen_of D.law book.entry)) (seen_of D.law result.0) result.1 }
{
    run_planned::<E, D, Brand, R, G>(rt, alloc, book, engine, scripts, workers, budget, gate)
}

/// Makes the commands of a script on a book that all threads share. Those of the set-up come first, without steps, as
/// client 0; a fault there ends it all. Then each client makes its commands in the order of its list, and workers step
/// what is ready, with a thread for each client and each worker.
///
/// Answers the book, and the worst fault that a job met: want of memory before a fault of the disk, and that before a
/// full journal. A job that meets a fault ends, and the others go on.
pub fn run_jobs<'e, E: Engine, D: Disk, R: Threads + Wait + Sync, G: Gate>(
    rt: &R,
    alloc: Global,
    book: Book<'e, E, D>,
    engine: &E,
    script: Script,
    workers: u32,
    budget: u64,
    gate: &G,
) -> (Book<'e, E, D>, Option<CallFault>)
    requires no_step { HasNoStep script }
    requires within { accepted_steps (seen_of D.law book).entries ≤ budget }
    ensures { Ran script budget (seen_of D.law book.entry) (seen_of D.law result.0) result.1 }
{
    let mut book = book;
    let Script { setup, clients } = script;
    // Their numbers are of 32 bits.
    if clients.len() >= MOST_CLIENTS {
        return (book, Some(CallFault::NoMemory));
    }
    match set_up(alloc, &mut book, setup) {
        Ok(()) => run(rt, alloc, book, engine, clients, workers, budget, gate),
        Err(fault) => (book, Some(fault)),
    }
}
