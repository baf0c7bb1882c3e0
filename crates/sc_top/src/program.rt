ghost use Rattle.std.specs.Prelude.{◌≡◌, ◌≢◌, ℕ, false, map, string_bytes, IfOk, OnErr, List, Some};
ghost use Rattle.std.specs.Io.KnownBytes.{Appends, Keeps};
ghost use Rattle.sc_dev.specs.Causes.{Rose};
ghost use Rattle.sc_dev.specs.Transfer.{AppendsPart, ConsumesUpTo};
ghost use Rattle.sc_report.specs.Summary.{summary};
ghost use Rattle.sc_script.specs.Generated.{generated};
ghost use Rattle.sc_script.specs.Scripts.{script_of};
ghost use Rattle.sc_words.specs.Asked.{asked};
ghost use Rattle.sc_words.specs.declared.asked.TheConstants.{RUN_BUDGET};
ghost use Rattle.sc_top.specs.Devices.{most_read, uses_journal};
ghost use Rattle.sc_top.specs.Journals.{disk_known};
ghost use Rattle.sc_top.specs.Promise.{Checks, Leaves, LeavesScript, LeftBy, Output, Runs, Says, SaysOfScript, known};
ghost use Rattle.sc_top.specs.Sayings.{status_of, text_of};
ghost use Rattle.sc_top.specs.Statuses.{code};

use crate::check::check_text;
use crate::journal;
use crate::lines::script_fault_line;
use crate::run::Steps;
use crate::saying::{Form, Saying};
use crate::status::Status;
use sc_base::{Failure, NoMemory};
use sc_dev::{Disk, Gate, Sink, Source, read_up_to};
use sc_script::{generate, read_script};
use sc_types::{CHART_TEXT_LIMIT, SCRIPT_TEXT_LIMIT};
use sc_words::{Asked, RUN_BUDGET, read_words};
use std::alloc::Global;
use std::sync::Wait;
use std::thread::Threads;

/// Runs the program with the words after its name, and answers its exit status.
///
/// `init` makes a journal on the disk, and the sink takes `created`. With the word `run` the source has a script, which
/// is run on the host that the journal holds, and the sink takes the report: with `--workers 0` on one thread, and else
/// the set-up first, and then each client and each of so many workers, two without the option, in a thread of its own.
/// `--budget N` bounds the steps; without it they are 1,000,000. `gen NUMBER SIZE` runs on one thread the script that
/// is drawn from the number, and the sink takes the summary. `show` tells that host. With the word `check` the source
/// has a chart, and the sink takes `ok` and the number of its states, or, with the status 3, `chart` and its first
/// fault.
///
/// On one thread a run ends at its first fault of the disk, with the status 6, and where the journal has no room for
/// its next command, with 10. With workers a thread ends so, and the others go on; the status is that of the worst
/// fault, of the disk before a full journal. After 8 the steps were used up. After all three the sink has taken the
/// report, which ends so. Else the sink takes the line that names the status: 1 `words`, 2 `script` with the first
/// faulty line and its cause, 4 `read`, 6 `disk`, 9 `damaged` and the place or `entry` and the number, 11 `exists`.
/// After 5, the sink failed and has taken the first part of what was to be written; after 7 the program was out of
/// memory, and nothing was written, but a run may have been journaled in part.
///
/// Each worker passes the gate between the claim of a session and its commit. No clause says that a thread runs, or
/// that the call returns: it waits for locks.
pub fn top<R: Threads + Wait + Sync, S: Source, K: Sink, D: Disk, G: Gate>(
    rt: &R,
    alloc: Global,
    words: &[String],
    source: &mut S,
    sink: &mut K,
    disk: &mut D,
    gate: &G,
) -> u8
    ensures said { result ≢ code Status.WriteFault → result ≢ code Status.OutOfMemory
        → (status : Status) × (text : List ℕ)
        × (result ≡ code status) × Says (asked (map string_bytes words.now))
        (known (S.left source.old) (Rose (S.faults source.old) (S.faults source.new))
        (disk_known D.law disk.old disk.new)) status text
        × Appends (K.taken sink.old) (K.taken sink.new) text }
    ensures cut { result ≡ code Status.WriteFault → (text : List ℕ)
        × Output (asked (map string_bytes words.now))
        (known (S.left source.old) (Rose (S.faults source.old) (S.faults source.new))
        (disk_known D.law disk.old disk.new)) text
        × AppendsPart (K.taken sink.old) (K.taken sink.new) text }
    ensures write { result ≡ code Status.WriteFault → Rose (K.faults sink.old) (K.faults sink.new) }
    ensures none { result ≡ code Status.OutOfMemory → Keeps (K.taken sink.old) (K.taken sink.new) }
    ensures left { result ≡ code Status.OutOfMemory → Leaves (asked (map string_bytes words.now))
        (known (S.left source.old) (Rose (S.faults source.old) (S.faults source.new))
        (disk_known D.law disk.old disk.new)) }
    ensures few { ConsumesUpTo (most_read (asked (map string_bytes words.now))) (S.left source.old)
        (S.left source.new) }
    ensures untouched { uses_journal (asked (map string_bytes words.now)) ≡ false → disk.new ≡ disk.old }
{
    match answer(rt, alloc, words, source, disk, gate) {
        Ok(saying) => say(sink, &saying),
        Err(NoMemory) => Status::OutOfMemory.code(),
    }
}

/// What there is to say of what the words ask for.
fn answer<R: Threads + Wait + Sync, S: Source, D: Disk, G: Gate>(
    rt: &R,
    alloc: Global,
    words: &[String],
    source: &mut S,
    disk: &mut D,
    gate: &G,
) -> Result<Saying, NoMemory>
    ensures says { IfOk result (λ s. Says (asked (map string_bytes words.now))
        (known (S.left source.old) (Rose (S.faults source.old) (S.faults source.new))
        (disk_known D.law disk.old disk.new)) (status_of s) (text_of s)) }
    ensures left { OnErr result (Leaves (asked (map string_bytes words.now))
        (known (S.left source.old) (Rose (S.faults source.old) (S.faults source.new))
        (disk_known D.law disk.old disk.new))) }
    ensures few { ConsumesUpTo (most_read (asked (map string_bytes words.now))) (S.left source.old)
        (S.left source.new) }
    ensures untouched { uses_journal (asked (map string_bytes words.now)) ≡ false → disk.new ≡ disk.old }
{
    match read_words(alloc, words) {
        Ok(asked) => saying_of(rt, alloc, asked, source, disk, gate),
        Err(NoMemory) => Err(NoMemory),
    }
}

/// What there is to say of what is asked.
fn saying_of<R: Threads + Wait + Sync, S: Source, D: Disk, G: Gate>(
    rt: &R,
    alloc: Global,
    asked: Option<Asked>,
    source: &mut S,
    disk: &mut D,
    gate: &G,
) -> Result<Saying, NoMemory>
    ensures says { IfOk result (λ s. Says asked
        (known (S.left source.old) (Rose (S.faults source.old) (S.faults source.new))
        (disk_known D.law disk.old disk.new)) (status_of s) (text_of s)) }
    ensures left { OnErr result (Leaves asked
        (known (S.left source.old) (Rose (S.faults source.old) (S.faults source.new))
        (disk_known D.law disk.old disk.new))) }
    ensures few { ConsumesUpTo (most_read asked) (S.left source.old) (S.left source.new) }
    ensures untouched { uses_journal asked ≡ false → disk.new ≡ disk.old }
{
    match asked {
        Some(Asked::Init) => Ok(journal::init(disk)),
        Some(Asked::Run { workers, budget }) => {
            run(rt, alloc, Steps { workers, budget }, source, disk, gate)
        }
        Some(Asked::Show) => journal::show(alloc, disk),
        Some(Asked::Check) => check(alloc, source),
        Some(Asked::Gen { number, size }) => draw(rt, alloc, number, size, disk, gate),
        None => Ok(Saying::OtherWords),
    }
}

/// What there is to say of a run.
fn run<R: Threads + Wait + Sync, S: Source, D: Disk, G: Gate>(
    rt: &R,
    alloc: Global,
    steps: Steps,
    source: &mut S,
    disk: &mut D,
    gate: &G,
) -> Result<Saying, NoMemory>
    ensures says { IfOk result (λ s. Says (Some (Asked.Run steps.workers steps.budget))
        (known (S.left source.old) (Rose (S.faults source.old) (S.faults source.new))
        (disk_known D.law disk.old disk.new)) (status_of s) (text_of s)) }
    ensures left { OnErr result (Leaves (Some (Asked.Run steps.workers steps.budget))
        (known (S.left source.old) (Rose (S.faults source.old) (S.faults source.new))
        (disk_known D.law disk.old disk.new))) }
    ensures few { ConsumesUpTo (most_read (Some (Asked.Run steps.workers steps.budget))) (S.left source.old)
        (S.left source.new) }
{
    match read_up_to(alloc, source, SCRIPT_TEXT_LIMIT) {
        Ok(text) => run_text(rt, alloc, steps, text.as_slice(), disk, gate),
        Err(Failure::Fault(_)) => Ok(Saying::ReadFault),
        Err(Failure::NoMemory) => Err(NoMemory),
    }
}

/// What there is to say of a text that should spell a script.
fn run_text<R: Threads + Wait + Sync, D: Disk, G: Gate>(
    rt: &R,
    alloc: Global,
    steps: Steps,
    text: &[u8],
    disk: &mut D,
    gate: &G,
) -> Result<Saying, NoMemory>
    ensures ok { IfOk result (λ s. SaysOfScript (disk_known D.law disk.old disk.new)
        steps.workers steps.budget (script_of text.now) (status_of s) (text_of s)) }
    ensures err { OnErr result (LeavesScript (disk_known D.law disk.old disk.new)
        steps.workers steps.budget (script_of text.now)) }
{
    match read_script(alloc, text) {
        Ok(script) => journal::run(rt, alloc, steps, script, Form::Report, disk, gate),
        Err(Failure::Fault(fault)) => Ok(Saying::BadScript(script_fault_line(alloc, &fault)?)),
        Err(Failure::NoMemory) => Err(NoMemory),
    }
}

/// What there is to say of a script that is drawn from a number.
fn draw<R: Threads + Wait + Sync, D: Disk, G: Gate>(
    rt: &R,
    alloc: Global,
    number: u64,
    size: u32,
    disk: &mut D,
    gate: &G,
) -> Result<Saying, NoMemory>
    ensures ok { IfOk result (λ s. Runs (disk_known D.law disk.old disk.new)
        (λ opened. summary number size) (generated number size) 0 RUN_BUDGET (status_of s) (text_of s)) }
    ensures err { OnErr result (LeftBy (disk_known D.law disk.old disk.new) (generated number size) 0 RUN_BUDGET) }
{
    let form = Form::Summary { number, size };
    let steps = Steps {
        workers: 0,
        budget: RUN_BUDGET,
    };
    match generate(alloc, number, size) {
        Ok(script) => journal::run(rt, alloc, steps, script, form, disk, gate),
        Err(NoMemory) => Err(NoMemory),
    }
}

/// Reads the text of a chart, and what there is to say of it.
fn check<S: Source>(alloc: Global, source: &mut S) -> Result<Saying, NoMemory>
    ensures says { IfOk result (λ s. Checks (S.left source.old) (Rose (S.faults source.old) (S.faults source.new))
        (status_of s) (text_of s)) }
    ensures few { ConsumesUpTo (most_read (Some Asked.Check)) (S.left source.old) (S.left source.new) }
{
    match read_up_to(alloc, source, CHART_TEXT_LIMIT) {
        Ok(text) => check_text(alloc, text.as_slice()),
        Err(Failure::Fault(_)) => Ok(Saying::ReadFault),
        Err(Failure::NoMemory) => Err(NoMemory),
    }
}

/// Writes what there is to say, and answers the number of its status, or that of a sink that failed.
fn say<K: Sink>(sink: &mut K, saying: &Saying) -> u8
    ensures status { result ≢ code Status.WriteFault → result ≡ code (status_of saying.now) }
    ensures written { result ≢ code Status.WriteFault
        → Appends (K.taken sink.old) (K.taken sink.new) (text_of saying.now) }
    ensures cut { result ≡ code Status.WriteFault
        → AppendsPart (K.taken sink.old) (K.taken sink.new) (text_of saying.now) }
    ensures fault { result ≡ code Status.WriteFault → Rose (K.faults sink.old) (K.faults sink.new) }
{
    match saying.write(sink) {
        Ok(()) => saying.status().code(),
        Err(_) => Status::WriteFault.code(),
    }
}
