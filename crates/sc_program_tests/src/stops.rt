ghost use Rattle.std.specs.Prelude.{◌<◌, length};

// What a run leaves where a call of the disk fails, and where the machine stops then.
use crate::program::{Call, RUN, SHOW, call_on, created};
use crate::rows::{CUT_CHILD, ONE_LOG, ORDER, Row, SENDS};
use sc_dev::MemDisk;
use sc_types::NoMemory;
use std::alloc::Global;
use std::sync::Wait;
use std::test::Fail;
use std::thread::Threads;

/// An entry behind its open gate, and the closed gate behind it. A stop may leave it of bytes that were not synced.
const ENTRY: [u8; 15] = [1, 0, 0, 0, 9, 4, 0, 0, 0, 0, 0, 0, 0, 5, 0];

/// The first call of a run, behind those of `init`.
const FIRST_CALL: u64 = 6;

/// How many calls open a journal.
const OPENING_CALLS: u64 = 2;

/// What a run told: its status, and how many commands it acknowledged.
#[derive(Clone, Copy)]
struct Ran {
    status: u8,
    acknowledged: usize,
}

fn run_on<R: Threads + Wait + Sync>(
    rt: &R,
    alloc: Global,
    row: &Row,
    disk: &mut MemDisk,
) -> Result<Ran, NoMemory> {
    let call = Call {
        line: RUN,
        input: row.script.as_bytes(),
    };
    let outcome = call_on(rt, alloc, &call, disk)?;
    Ok(Ran {
        status: outcome.status,
        acknowledged: outcome.lines_with(b"= "),
    })
}

/// Whether `show` tells on a disk what was acknowledged, or that and one command more.
fn is_told<R: Threads + Wait + Sync>(
    rt: &R,
    alloc: Global,
    row: &Row,
    acknowledged: usize,
    disk: &mut MemDisk,
) -> Result<bool, NoMemory> {
    let outcome = call_on(rt, alloc, &SHOW, disk)?;
    let mut may_be_shown = row.shows.iter().skip(acknowledged).take(2);
    Ok(outcome.status == 0 && may_be_shown.any(|show| show.as_bytes() == outcome.written()))
}

/// Whether it tells so where the machine stopped and these bytes are there.
fn is_told_after_stop<R: Threads + Wait + Sync>(
    rt: &R,
    alloc: Global,
    row: &Row,
    acknowledged: usize,
    disk: &MemDisk,
    fill: &[u8],
) -> Result<bool, NoMemory>
    requires { 0 < length fill.now }
{
    let mut left = disk.crash(fill, 1000)?;
    is_told(rt, alloc, row, acknowledged, &mut left)
}

/// Whether every command that was acknowledged is told of a run whose disk fails, as the disk is then, and as each stop
/// leaves it.
fn is_kept<R: Threads + Wait + Sync>(
    rt: &R,
    alloc: Global,
    row: &Row,
    disk: &mut MemDisk,
) -> Result<bool, NoMemory> {
    let ran = run_on(rt, alloc, row, disk)?;
    Ok(
        ran.status == 6
            && is_told_after_stop(rt, alloc, row, ran.acknowledged, disk, &[0])?
            && is_told_after_stop(rt, alloc, row, ran.acknowledged, disk, &[1])?
            && is_told_after_stop(rt, alloc, row, ran.acknowledged, disk, &ENTRY)?
            && is_told(rt, alloc, row, ran.acknowledged, disk)?,
    )
}

/// So where the call of this number fails.
fn keeps_all<R: Threads + Wait + Sync>(
    rt: &R,
    alloc: Global,
    row: &Row,
    failing: u64,
) -> Result<bool, NoMemory> {
    let mut disk = created(rt, alloc, &[failing])?;
    is_kept(rt, alloc, row, &mut disk)
}

/// The status of a run where the call of this number fails.
fn status_of<R: Threads + Wait + Sync>(
    rt: &R,
    alloc: Global,
    row: &Row,
    failing: u64,
) -> Result<u8, NoMemory> {
    let mut disk = created(rt, alloc, &[failing])?;
    Ok(run_on(rt, alloc, row, &mut disk)?.status)
}

/// At each call of a run of so many commands, which take 4 calls each. A run ends well where a later call fails.
#[test]
fn a_stop_leaves_what_was_acknowledged(rt: HostRuntime) -> Result<(), Fail> {
    for (name, row, commands) in [
        ("one log", ONE_LOG, 3u32),
        ("sends", SENDS, 7),
        ("a cut child", CUT_CHILD, 7),
        ("an order", ORDER, 16),
    ] {
        let end = FIRST_CALL + OPENING_CALLS + 4 * u64::from(commands);
        for failing in FIRST_CALL..end {
            let is_kept = keeps_all(&rt, rt.alloc(), &row, failing)?;
            assert!(rt; is_kept, "{name}, call {failing}");
        }
        assert_eq!(rt; status_of(&rt, rt.alloc(), &row, end)?, 0, "{name}");
    }
    Ok(())
}
