ghost use Rattle.std.specs.Prelude.{◌≡◌, IfOk, OnErr};
ghost use Rattle.std.specs.Result.{result_ok};
ghost use Rattle.sc_script.specs.Steps.{HasNoStep};
ghost use Rattle.sc_top.specs.Journals.{Creates, IsUnwritten, disk_known};
ghost use Rattle.sc_top.specs.Promise.{LeftBy, Runs, Shows};
ghost use Rattle.sc_top.specs.Sayings.{IsTold, SaysFault, account, end_by, status_of, text_of};

use crate::lines::counted_line;
use crate::run::{Ended, Steps, run_script};
use crate::saying::{Form, Saying};
use sc_base::NoMemory;
use sc_book::{Book, CallFault, OpenFault};
use sc_core::{Closed, History, HostState};
use sc_dev::{Disk, Gate};
use sc_journal::{CreateFault, create};
use sc_law::Engine;
use sc_report::End;
use sc_script::Script;
use sc_turn::Compiled;
use std::alloc::Global;
use std::mem;
use std::sync::Wait;
use std::thread::Threads;

/// Makes a journal.
pub(crate) fn init<D: Disk>(disk: &mut D) -> Saying
    ensures { Creates (disk_known D.law disk.old disk.new) (status_of result) (text_of result) }
{
    match create(disk) {
        Ok(()) => Saying::Created,
        Err(CreateFault::Exists) => Saying::Exists,
        Err(CreateFault::Failed) => Saying::DiskFault,
    }
}

/// Opens a journal, and tells the host that it holds.
pub(crate) fn show<D: Disk>(alloc: Global, disk: &mut D) -> Result<Saying, NoMemory>
    ensures ok { IfOk result (λ s. Shows (disk_known D.law disk.old disk.new) (status_of s) (text_of s)) }
    ensures err { OnErr result (IsUnwritten (disk_known D.law disk.old disk.new)) }
{
    match Book::open(alloc, &Compiled, disk) {
        Ok(book) => {
            let mut closed = book.finish();
            let left = left_by(alloc, &mut closed);
            into_disk(closed);
            Ok(Saying::Run(Form::Report, End::Shown, left))
        }
        Err(failed) => {
            let fault = failed.fault;
            failed.into_disk();
            not_opened(alloc, fault)
        }
    }
}

/// Opens a journal, and runs a script on its host.
pub(crate) fn run<R: Threads + Wait + Sync, D: Disk, G: Gate>(
    rt: &R,
    alloc: Global,
    steps: Steps,
    script: Script,
    form: Form,
    disk: &mut D,
    gate: &G,
) -> Result<Saying, NoMemory>
    requires steps { HasNoStep script }
    ensures ok { IfOk result (λ s. Runs (disk_known D.law disk.old disk.new)
        (account form) script steps.workers steps.budget (status_of s) (text_of s)) }
    ensures err { OnErr result (LeftBy (disk_known D.law disk.old disk.new) script steps.workers steps.budget) }
{
    match Book::open(alloc, &Compiled, disk) {
        Ok(book) => {
            let mut ended = run_script(rt, alloc, book, script, steps, gate);
            let said = tell(alloc, form, &mut ended);
            into_disk(ended.closed);
            said
        }
        Err(failed) => {
            let fault = failed.fault;
            failed.into_disk();
            not_opened(alloc, fault)
        }
    }
}

/// The disk. One that was lent is known to be back where it is taken by this call.
fn into_disk<E: Engine, D: Disk>(closed: Closed<E, D>) -> D
    ensures { result ≡ closed.disk }
{
    closed.disk
}

/// What a run or an opening left, without the disk. Nothing else is left of it.
fn left_by<E: Engine, D>(alloc: Global, closed: &mut Closed<E, D>) -> Closed<E, ()>
    ensures opened { result.opened ≡ closed.old.opened }
    ensures host { result.host.image ≡ closed.old.host.image }
    ensures history { result.history.entries ≡ closed.old.history.entries }
    ensures disk { closed.new.disk ≡ closed.old.disk }
{
    Closed {
        host: mem::replace(&mut closed.host, HostState::new(alloc)),
        opened: closed.opened,
        history: mem::replace(&mut closed.history, History::new(alloc)),
        disk: (),
    }
}

/// What there is to say of a run that has ended. Of what it left only the disk is still there then.
fn tell<D: Disk>(
    alloc: Global,
    form: Form,
    ended: &mut Ended<Compiled, D>,
) -> Result<Saying, NoMemory>
    ensures told { IfOk result (λ s. IsTold (account form) ended.old.fault ended.old.closed.opened
        ended.old.closed.host.image ended.old.closed.history.entries (status_of s) (text_of s)) }
    ensures disk { ended.new.closed.disk ≡ ended.old.closed.disk }
{
    let is_ready = ended.closed.host.ready_session().is_some();
    let end = end_of(ended.fault, is_ready)?;
    Ok(Saying::Run(form, end, left_by(alloc, &mut ended.closed)))
}

/// How a run ended.
fn end_of(fault: Option<CallFault>, is_ready: bool) -> Result<End, NoMemory>
    ensures { result_ok result ≡ end_by fault is_ready }
{
    match fault {
        None if is_ready => Ok(End::Budget),
        None => Ok(End::Quiet),
        Some(CallFault::Disk) => Ok(End::Disk),
        Some(CallFault::Full) => Ok(End::Full),
        Some(CallFault::NoMemory) => Err(NoMemory),
    }
}

/// What there is to say of a journal that was not opened.
fn not_opened(alloc: Global, fault: OpenFault) -> Result<Saying, NoMemory>
    ensures { IfOk result (λ s. SaysFault fault (status_of s) (text_of s)) }
{
    match fault {
        OpenFault::Disk => Ok(Saying::DiskFault),
        OpenFault::Damaged(place) => Ok(Saying::BadJournal(counted_line(
            alloc,
            b"damaged ",
            place,
        )?)),
        OpenFault::BadEntry(number) => Ok(Saying::BadJournal(counted_line(
            alloc, b"entry ", number,
        )?)),
        OpenFault::NoMemory => Err(NoMemory),
    }
}
