//! Calls of the program over devices in memory.

use sc_dev::{Gate, MemDisk, MemSink, MemSource, OpenGate, Sink, Source};
use sc_top::top;
use sc_types::NoMemory;
use std::alloc::Global;
use std::process::Abort;
use std::sync::Wait;
use std::test::Fail;
use std::thread::Threads;

/// The command line of a run on one thread.
pub const RUN: &str = "run --workers 0";

/// The most bytes of a journal.
const ROOM: u64 = 200_000;

/// Streams in memory: the most bytes that a read or a write takes, at least 1; the numbers of the calls that fail,
/// counted from 1; and the room for what is written.
#[derive(Clone, Copy)]
pub struct Streams<'a> {
    pub most_read: usize,
    pub failing_reads: &'a [u64],
    pub most_written: usize,
    pub failing_writes: &'a [u64],
    pub room: usize,
}

/// Streams that never fail.
pub const AMPLE: Streams<'static> = Streams {
    most_read: 1000,
    failing_reads: &[],
    most_written: 1000,
    failing_writes: &[],
    room: 200_000,
};

/// A call of the program: its command line and its input.
#[derive(Clone, Copy)]
pub struct Call<'a> {
    pub line: &'a str,
    pub input: &'a [u8],
}

/// The call that makes a journal.
const INIT: Call<'static> = Call {
    line: "init",
    input: b"",
};

/// The call that tells what the journal holds.
pub const SHOW: Call<'static> = Call {
    line: "show",
    input: b"",
};

/// What a call of the program came to: its status, and what it wrote.
#[derive(Drop)]
pub struct Outcome {
    pub status: u8,
    sink: MemSink,
}

impl Outcome {
    pub fn written(&self) -> &[u8] {
        self.sink.bytes()
    }

    /// How many lines that it wrote begin so.
    pub fn lines_with(&self, front: &[u8]) -> usize {
        let mut count = 0usize;
        for line in self.written().split(|byte| *byte == b'\n') {
            if line.starts_with(front) {
                count = count.saturating_add(1);
            }
        }
        count
    }
}

/// A disk whose calls of these numbers fail, counted from 1, and on which nothing was made yet.
pub fn empty(alloc: Global, failing: &[u64]) -> Result<MemDisk, NoMemory> {
    MemDisk::new(alloc, ROOM, 10_000, 4 * ROOM, failing)
}

/// A disk with a journal that was just created, which took the first 5 calls.
pub fn created<R: Threads + Wait + Sync>(
    rt: &R,
    alloc: Global,
    failing: &[u64],
) -> Result<MemDisk, NoMemory> {
    let mut disk = empty(alloc, failing)?;
    call_on(rt, alloc, &INIT, &mut disk)?;
    Ok(disk)
}

/// Calls the program over streams that never fail.
pub fn call_on<R: Threads + Wait + Sync>(
    rt: &R,
    alloc: Global,
    call: &Call<'_>,
    disk: &mut MemDisk,
) -> Result<Outcome, NoMemory> {
    call_through(rt, alloc, call, &AMPLE, disk, &OpenGate)
}

/// The same over streams of any kind, with a gate that its workers pass.
pub fn call_through<R: Threads + Wait + Sync, G: Gate>(
    rt: &R,
    alloc: Global,
    call: &Call<'_>,
    streams: &Streams<'_>,
    disk: &mut MemDisk,
    gate: &G,
) -> Result<Outcome, NoMemory> {
    let most_read = streams.most_read.max(1);
    let most_written = streams.most_written.max(1);
    let mut source = MemSource::new(alloc, call.input, most_read, streams.failing_reads)?;
    let mut sink = MemSink::new(alloc, streams.room, most_written, streams.failing_writes)?;
    let status = call_with(rt, alloc, call.line, &mut source, &mut sink, disk, gate)?;
    Ok(Outcome { status, sink })
}

/// Calls the program with the words of a command line over these devices, and gives its status.
pub fn call_with<R: Threads + Wait + Sync, S: Source, K: Sink, G: Gate>(
    rt: &R,
    alloc: Global,
    line: &str,
    source: &mut S,
    sink: &mut K,
    disk: &mut MemDisk,
    gate: &G,
) -> Result<u8, NoMemory> {
    let mut words = Vec::new(alloc);
    for word in line.split_whitespace() {
        words.push(word.to_string(alloc)?)?;
    }
    Ok(top(rt, alloc, words.as_slice(), source, sink, disk, gate))
}

/// A call over streams, the status that it ends with, and what it writes.
#[derive(Clone, Copy)]
pub struct Case<'a> {
    pub line: &'a str,
    pub input: &'a str,
    pub streams: Streams<'a>,
    pub status: u8,
    pub written: &'a str,
}

/// Makes calls one after another on a disk.
pub fn check<R: Abort + Threads + Wait + Sync>(
    rt: &R,
    alloc: Global,
    disk: MemDisk,
    cases: &[Case<'_>],
) -> Result<(), Fail> {
    let mut disk = disk;
    for case in cases {
        check_case(rt, alloc, &mut disk, case)?;
    }
    Ok(())
}

fn check_case<R: Abort + Threads + Wait + Sync>(
    rt: &R,
    alloc: Global,
    disk: &mut MemDisk,
    case: &Case<'_>,
) -> Result<(), Fail> {
    let call = Call {
        line: case.line,
        input: case.input.as_bytes(),
    };
    let outcome = call_through(rt, alloc, &call, &case.streams, disk, &OpenGate)?;
    let found = (outcome.status, outcome.written());
    let wanted = (case.status, case.written.as_bytes());
    assert_eq!(rt; found, wanted, "{} of {}", case.line, case.input);
    Ok(())
}
