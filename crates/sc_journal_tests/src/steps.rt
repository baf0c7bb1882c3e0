//! Steps on a disk in memory and a journal on it, and what comes of them.

use sc_base::{NoMemory, Sequence};
use sc_dev::{Disk, MemDisk, Part};
use sc_journal::{AppendFault, Bodies, CreateFault, Journal, JournalFault, Opened, create};
use std::alloc::Global;

/// What is asked for.
#[derive(Clone, Copy)]
pub enum Step<'a> {
    Create,
    Open,
    Append(&'a [u8]),
    Settle,
    Close,
    /// Goes on with what a stop leaves whose pending ranges hold these bytes.
    Stop(&'a [u8]),
    Write(Part, u64, &'a [u8]),
    Sync(Part),
    /// Whether the part has these bytes.
    Has(Part, &'a [u8]),
    Moment,
}

/// What came of it.
#[derive(Clone, Copy, Debug, PartialEq, Eq)]
pub enum Outcome {
    Done,
    Failed,
    Exists,
    Full,
    Damaged(u64),
    InDoubt,
    /// The number of the first body, the number of bodies, and of their bytes.
    Opened(u64, usize, usize),
    Yes,
    No,
    Number(u64),
    NoMemory,
    /// No such step is possible here.
    Nothing,
}

/// A disk, alone or with a journal.
#[derive(Drop)]
pub enum State {
    Disk(MemDisk),
    Journal(Journal<MemDisk>),
    Gone,
}

/// A new disk with so many bytes of room in each part, and as many for writes, and with room for so many calls, some of
/// which fail.
pub fn disk(alloc: Global, room: u64, calls: u64, failing: &[u64]) -> State {
    match MemDisk::new(alloc, room.min(1 << 20), calls, room, failing) {
        Ok(disk) => State::Disk(disk),
        Err(_) => State::Gone,
    }
}

impl State {
    /// The first of these steps that comes to something else than what stands beside it: its place, and what it came
    /// to.
    pub fn first_other(
        self,
        alloc: Global,
        steps: &[(Step<'_>, Outcome)],
    ) -> Option<(usize, Outcome)> {
        let mut state = self;
        let mut first = None;
        for (place, (step, wanted)) in steps.iter().enumerate() {
            let (next, outcome) = state.step(alloc, step);
            state = next;
            if first.is_none() && outcome != *wanted {
                first = Some((place, outcome));
            }
        }
        first
    }

    fn step(self, alloc: Global, step: &Step<'_>) -> (State, Outcome) {
        match self {
            State::Disk(disk) => on_disk(alloc, disk, step),
            State::Journal(journal) => on_journal(journal, step),
            State::Gone => (State::Gone, Outcome::Nothing),
        }
    }
}

fn on_disk(alloc: Global, disk: MemDisk, step: &Step<'_>) -> (State, Outcome) {
    match step {
        Step::Open => open(alloc, disk),
        Step::Stop(fill) => stop(disk, fill),
        _ => called(disk, step),
    }
}

fn called(disk: MemDisk, step: &Step<'_>) -> (State, Outcome) {
    let mut disk = disk;
    let outcome = match step {
        Step::Create => made(&mut disk),
        Step::Write(part, at, piece) => written(&mut disk, *part, *at, piece),
        Step::Sync(part) => synced(&mut disk, *part),
        Step::Has(part, bytes) => has(&disk, *part, bytes),
        Step::Moment => Outcome::Number(disk.moment()),
        _ => Outcome::Nothing,
    };
    (State::Disk(disk), outcome)
}

fn made(disk: &mut MemDisk) -> Outcome {
    match create(disk) {
        Ok(()) => Outcome::Done,
        Err(CreateFault::Failed) => Outcome::Failed,
        Err(CreateFault::Exists) => Outcome::Exists,
    }
}

fn written(disk: &mut MemDisk, part: Part, at: u64, piece: &[u8]) -> Outcome {
    if piece.is_empty() || piece.len() > 1 << 20 || at > 1 << 20 {
        return Outcome::Nothing;
    }
    match disk.write_at(part, at, piece) {
        Ok(()) => Outcome::Done,
        Err(_) => Outcome::Failed,
    }
}

fn synced(disk: &mut MemDisk, part: Part) -> Outcome {
    match disk.sync(part) {
        Ok(()) => Outcome::Done,
        Err(_) => Outcome::Failed,
    }
}

fn has(disk: &MemDisk, part: Part, bytes: &[u8]) -> Outcome {
    if disk.bytes(part) == bytes {
        Outcome::Yes
    } else {
        Outcome::No
    }
}

fn open(alloc: Global, disk: MemDisk) -> (State, Outcome) {
    match Journal::open(alloc, disk) {
        Ok(opened) => {
            let Opened {
                journal,
                first,
                bodies,
            } = opened;
            let count = bodies.len() as usize;
            let outcome = Outcome::Opened(first, count, size_of(bodies));
            (State::Journal(journal), outcome)
        }
        Err(refused) => {
            let outcome = fault(refused.fault);
            (State::Disk(refused.disk), outcome)
        }
    }
}

fn fault(fault: JournalFault) -> Outcome {
    match fault {
        JournalFault::Disk => Outcome::Failed,
        JournalFault::Damaged(place) => Outcome::Damaged(place),
        JournalFault::NoMemory => Outcome::NoMemory,
    }
}

fn size_of(bodies: Bodies) -> usize {
    let mut bodies = bodies;
    let mut size = 0usize;
    while let Some(body) = bodies.front() {
        size = size.saturating_add(body.len());
        bodies.pop_front();
    }
    size
}

fn stop(disk: MemDisk, fill: &[u8]) -> (State, Outcome) {
    if fill.is_empty() {
        return (State::Disk(disk), Outcome::Nothing);
    }
    match disk.crash(fill, 100) {
        Ok(left) => (State::Disk(left), Outcome::Done),
        Err(_) => (State::Gone, Outcome::NoMemory),
    }
}

fn on_journal(journal: Journal<MemDisk>, step: &Step<'_>) -> (State, Outcome) {
    let mut journal = journal;
    let outcome = match step {
        Step::Append(body) => added(&mut journal, body),
        Step::Settle => settled(&mut journal),
        Step::Moment => Outcome::Number(journal.moment()),
        Step::Close => return (State::Disk(journal.into_disk()), Outcome::Done),
        _ => Outcome::Nothing,
    };
    (State::Journal(journal), outcome)
}

fn added(journal: &mut Journal<MemDisk>, body: &[u8]) -> Outcome {
    if journal.in_doubt() {
        return Outcome::InDoubt;
    }
    if body.is_empty() || body.len() > 2_097_152 {
        return Outcome::Nothing;
    }
    match journal.append(body) {
        Ok(()) => Outcome::Done,
        Err(AppendFault::Failed) => Outcome::Failed,
        Err(AppendFault::Full) => Outcome::Full,
    }
}

fn settled(journal: &mut Journal<MemDisk>) -> Outcome {
    match journal.settle() {
        Ok(()) => Outcome::Done,
        Err(_) => Outcome::Failed,
    }
}
