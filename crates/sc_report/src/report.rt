ghost use Rattle.std.specs.Prelude.{◌≡◌, ◌++◌, [], false, OnOk, OnErr, decimal, length, codes};
ghost use Rattle.std.specs.Io.KnownBytes.{Appends};
ghost use Rattle.sc_dev.specs.Causes.{HasCause};
ghost use Rattle.sc_dev.specs.Transfer.{AppendsPart};
ghost use Rattle.sc_report.specs.Outlets.{Writes};
ghost use Rattle.sc_report.specs.Entries.{fault_text};
ghost use Rattle.sc_report.specs.Lines.{line};
ghost use Rattle.sc_report.specs.Report.{end_word, report};

use crate::end::End;
use crate::entries::put_entries;
use crate::outlet::Outlet;
use crate::replies::put_fault;
use crate::sessions::put_sessions;
use sc_core::{Closed, HostState};
use sc_dev::{Failed, Sink};
use sc_law::Engine;
use sc_types::ChartFault;

/// Writes the report of a run in pieces of 16,384 bytes, the last of which may be shorter: how many commands were
/// journaled at the opening, what was done since, the host at the end, and the word for how the run ended. It takes no
/// memory.
pub fn write_report<E: Engine, D, K: Sink>(
    closed: &Closed<E, D>,
    end: End,
    sink: &mut K,
) -> Result<(), Failed>
    ensures whole { OnOk result (Appends (K.taken sink.old) (K.taken sink.new)
        (report closed.now.opened closed.now.host.image closed.now.history.entries end)) }
    ensures part { OnErr result (AppendsPart (K.taken sink.old) (K.taken sink.new)
        (report closed.now.opened closed.now.host.image closed.now.history.entries end)) }
    ensures cause { HasCause (K.faults sink.old) (K.faults sink.new) result }
{
    let mut out = Outlet::new(sink);
    finish_report(&mut out, closed, end)
}

/// Puts a report, and hands on all of it.
fn finish_report<E: Engine, D, K: Sink>(
    out: &mut Outlet<'_, K>,
    closed: &Closed<E, D>,
    end: End,
) -> Result<(), Failed>
    requires fresh { (out.old.piece ≡ []) × (out.old.has_failed ≡ false) }
    ensures same_reference { out.new.sink.ghost_name ≡ out.old.sink.ghost_name }
    ensures whole { OnOk result (Appends (K.taken out.old.sink.now) (K.taken out.new.sink.now)
        (report closed.now.opened closed.now.host.image closed.now.history.entries end)) }
    ensures part { OnErr result (AppendsPart (K.taken out.old.sink.now) (K.taken out.new.sink.now)
        (report closed.now.opened closed.now.host.image closed.now.history.entries end)) }
    ensures cause { HasCause (K.faults out.old.sink.now) (K.faults out.new.sink.now) result }
{
    put_report(out, closed, end);
    out.close()
}

/// Writes the line of a chart's first fault. It takes no memory.
pub fn write_fault<K: Sink>(fault: &ChartFault, sink: &mut K) -> Result<(), Failed>
    ensures whole { OnOk result (Appends (K.taken sink.old) (K.taken sink.new)
        (line (codes "chart " ++ fault_text fault.now))) }
    ensures part { OnErr result (AppendsPart (K.taken sink.old) (K.taken sink.new)
        (line (codes "chart " ++ fault_text fault.now))) }
    ensures cause { HasCause (K.faults sink.old) (K.faults sink.new) result }
{
    let mut out = Outlet::new(sink);
    finish_fault(&mut out, fault)
}

/// Puts the line of a fault, and hands on all of it.
fn finish_fault<K: Sink>(out: &mut Outlet<'_, K>, fault: &ChartFault) -> Result<(), Failed>
    requires fresh { (out.old.piece ≡ []) × (out.old.has_failed ≡ false) }
    ensures same_reference { out.new.sink.ghost_name ≡ out.old.sink.ghost_name }
    ensures whole { OnOk result (Appends (K.taken out.old.sink.now) (K.taken out.new.sink.now)
        (line (codes "chart " ++ fault_text fault.now))) }
    ensures part { OnErr result (AppendsPart (K.taken out.old.sink.now) (K.taken out.new.sink.now)
        (line (codes "chart " ++ fault_text fault.now))) }
    ensures cause { HasCause (K.faults out.old.sink.now) (K.faults out.new.sink.now) result }
{
    put_fault_line(out, fault);
    out.close()
}

fn put_fault_line<K: Sink>(out: &mut Outlet<'_, K>, fault: &ChartFault)
    ensures { Writes K.taken K.faults out.old out.new (line (codes "chart " ++ fault_text fault.now)) }
{
    out.bytes(b"chart ");
    put_fault(out, fault);
    out.end_line();
}

fn put_report<E: Engine, D, K: Sink>(out: &mut Outlet<'_, K>, closed: &Closed<E, D>, end: End)
    ensures { Writes K.taken K.faults out.old out.new
        (report closed.now.opened closed.now.host.image closed.now.history.entries end) }
{
    out.counted_line(b"open ", closed.opened);
    put_entries(out, &closed.history);
    out.counted_line(b"sessions ", closed.host.count());
    put_sessions(out, &closed.host);
    put_clock(out, &closed.host);
    put_end(out, end);
}

/// The line of how a run ended.
pub(crate) fn put_end<K: Sink>(out: &mut Outlet<'_, K>, end: End)
    ensures { Writes K.taken K.faults out.old out.new (line (codes "end " ++ end_word end)) }
{
    out.texts(&[b"end ", end.word()]);
    out.end_line();
}

fn put_clock<E: Engine, K: Sink>(out: &mut Outlet<'_, K>, host: &HostState<E>)
    ensures { Writes K.taken K.faults out.old out.new (line (codes "clock " ++ decimal host.now.image.clock
        ++ codes " timers " ++ decimal (length host.now.image.timers))) }
{
    out.counted(b"clock ", host.clock());
    out.bytes(b" timers ");
    out.number(host.timers());
    out.end_line();
}
