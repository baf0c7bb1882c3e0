// Runs whose clients and workers are threads. Their histories differ from run to run, and what they leave does not.
use crate::program::{AMPLE, Call, SHOW, call_on, call_through, created};
use sc_base::TextWriter;
use sc_dev::{HoldGate, MemDisk};
use sc_types::NoMemory;
use std::alloc::Global;
use std::sync::Wait;
use std::test::Fail;
use std::thread::Threads;

/// A chart that counts the event `inc`, and a session of it.
const COUNTER: &str = concat!(
    r#"chart n {"tag":"scxml","kids":[{"tag":"datamodel","kids":[{"tag":"data","id":"n","expr":"0"}]},{"tag":"state","id":"a","kids":[{"tag":"transition","event":"inc","kids":[{"tag":"assign","location":"n","expr":"n + 1"}]}]}]}"#,
    "\nstart s n\n",
);

const TWO_CLIENTS: &str = "client\npost s inc\npost s inc\nclient\npost s inc\npost s inc\n";

/// What a run told: its status, how many lines it has of answers, of posts and of steps, and whether its end was as
/// wanted.
#[derive(Clone, Copy, Debug, PartialEq, Eq)]
struct Ran {
    status: u8,
    answers: usize,
    posts: usize,
    steps: usize,
    ends: bool,
}

/// The counter, and these commands.
fn counting(alloc: Global, commands: &str) -> Result<TextWriter, NoMemory> {
    let mut text = TextWriter::new(alloc);
    text.text(COUNTER)?;
    text.text(commands)?;
    Ok(text)
}

/// What a run of these commands told on a disk.
fn run_on<R: Threads + Wait + Sync>(
    rt: &R,
    alloc: Global,
    line: &str,
    commands: &str,
    end: &str,
    disk: &mut MemDisk,
) -> Result<Ran, NoMemory> {
    let script = counting(alloc, commands)?;
    let call = Call {
        line,
        input: script.slice(),
    };
    let outcome = call_on(rt, alloc, &call, disk)?;
    Ok(Ran {
        status: outcome.status,
        answers: outcome.lines_with(b"= "),
        posts: outcome.lines_with(b"= posted "),
        steps: outcome.lines_with(b"= stepped "),
        ends: outcome.written().ends_with(end.as_bytes()),
    })
}

fn run<R: Threads + Wait + Sync>(
    rt: &R,
    alloc: Global,
    line: &str,
    commands: &str,
    end: &str,
) -> Result<Ran, NoMemory> {
    let mut disk = created(rt, alloc, &[])?;
    run_on(rt, alloc, line, commands, end, &mut disk)
}

/// What a run has to tell that makes all of a set-up of 2 commands, 4 posts and 5 steps.
const WHOLE: Ran = Ran {
    status: 0,
    answers: 11,
    posts: 4,
    steps: 5,
    ends: true,
};

/// What it has to tell after 2 steps.
const TWO_STEPS: Ran = Ran {
    status: 8,
    answers: 8,
    posts: 4,
    steps: 2,
    ends: true,
};

/// Two workers are the default, and a budget bounds the steps of all.
#[test]
fn clients_and_workers_make_all_of_a_script(rt: HostRuntime) -> Result<(), Fail> {
    let quiet = "\n. n=4\n# 0\nclock 0 timers 0\nend quiet\n";
    let budget = "\n. n=1\n# 3\nclock 0 timers 0\nend budget\n";
    for (line, wanted, end) in [
        ("run", WHOLE, quiet),
        ("run --workers 3", WHOLE, quiet),
        ("run --workers 4 --budget 2", TWO_STEPS, budget),
    ] {
        let ran = run(&rt, rt.alloc(), line, TWO_CLIENTS, end)?;
        assert_eq!(rt; ran, wanted, "{line}");
    }
    Ok(())
}

/// Whether two workers met between the claims and the commits of two sessions.
fn workers_meet<R: Threads + Wait + Sync>(
    rt: &R,
    alloc: Global,
    disk: &mut MemDisk,
) -> Result<bool, NoMemory> {
    let script = counting(alloc, "start t n\n")?;
    let call = Call {
        line: "run --workers 2",
        input: script.slice(),
    };
    let gate = HoldGate::new();
    let outcome = call_through(rt, alloc, &call, &AMPLE, disk, &gate)?;
    Ok(outcome.status == 0 && gate.met())
}

#[test]
fn two_turns_are_made_at_once(rt: HostRuntime) -> Result<(), Fail> {
    let mut disk = created(&rt, rt.alloc(), &[])?;
    let meet = workers_meet(&rt, rt.alloc(), &mut disk)?;
    assert!(rt; meet);
    Ok(())
}

/// The first call of a run behind those of `init`, and one past the last of a run of 2 commands of the set-up, 4 posts
/// and 5 steps, which the opening precedes.
const CALLS: std::ops::Range<u64> = 6..6 + 2 + 4 * (2 + 4 + 5);

/// The first call behind the opening and the set-up.
const CLIENTS_CALL: u64 = 6 + 2 + 4 * 2;

#[test]
fn a_fault_of_the_disk_loses_nothing_that_was_acknowledged(rt: HostRuntime) -> Result<(), Fail> {
    for failing in CALLS {
        let loses_nothing = loses_nothing(&rt, rt.alloc(), failing)?;
        assert!(rt; loses_nothing, "call {failing}");
    }
    Ok(())
}

fn loses_nothing<R: Threads + Wait + Sync>(
    rt: &R,
    alloc: Global,
    failing: u64,
) -> Result<bool, NoMemory> {
    let mut disk = created(rt, alloc, &[failing])?;
    is_kept(rt, alloc, failing, &mut disk)
}

/// Whether a run whose disk fails at one call tells so, goes on, and keeps what it acknowledged, or that and one
/// command more.
fn is_kept<R: Threads + Wait + Sync>(
    rt: &R,
    alloc: Global,
    failing: u64,
    disk: &mut MemDisk,
) -> Result<bool, NoMemory> {
    let ran = run_on(
        rt,
        alloc,
        "run --workers 2",
        TWO_CLIENTS,
        "end disk\n",
        disk,
    )?;
    // One client at most met the fault, and the other one went on.
    let goes_on = failing < CLIENTS_CALL || ran.posts >= 2;
    Ok(ran.status == 6 && goes_on && is_shown(rt, alloc, ran.answers, disk)?)
}

/// Whether `show` tells of so many commands, or of one more.
fn is_shown<R: Threads + Wait + Sync>(
    rt: &R,
    alloc: Global,
    commands: usize,
    disk: &mut MemDisk,
) -> Result<bool, NoMemory> {
    let shown = call_on(rt, alloc, &SHOW, disk)?;
    let count = count_in(shown.written());
    Ok(
        shown.status == 0
            && count.is_some_and(|count| count == commands || count == commands.saturating_add(1)),
    )
}

/// How many commands a journal has of which this is shown.
fn count_in(shown: &[u8]) -> Option<usize> {
    let text = str::from_utf8(shown).ok()?;
    let line = text.lines().next()?;
    line.strip_prefix("open ")?.parse::<usize>().ok()
}
