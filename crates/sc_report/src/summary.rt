ghost use Rattle.std.specs.Prelude.{◌≡◌, ◌++◌, [], false, OnOk, OnErr, codes, decimal, length};
ghost use Rattle.std.specs.Fmt.{signed_decimal};
ghost use Rattle.std.specs.Io.KnownBytes.{Appends};
ghost use Rattle.sc_machine.specs.Accepted.{accepted_steps};
ghost use Rattle.sc_dev.specs.Causes.{HasCause};
ghost use Rattle.sc_dev.specs.Transfer.{AppendsPart};
ghost use Rattle.sc_report.specs.Lines.{line};
ghost use Rattle.sc_report.specs.Outlets.{Writes};
ghost use Rattle.sc_report.specs.Summary.{summary, total};

use crate::end::End;
use crate::outlet::Outlet;
use crate::report::put_end;
use crate::totals::total;
use sc_core::{Closed, History, HostState};
use sc_dev::{Failed, Sink};
use sc_law::Engine;

/// Writes the summary of the run of a script that was drawn from a number and has so many drawn commands: the number of
/// entries, that of the steps that the host accepted, what the script's sessions counted, and the word for how the run
/// ended. It takes no memory.
pub fn write_summary<E: Engine, D, K: Sink>(
    closed: &Closed<E, D>,
    number: u64,
    size: u32,
    end: End,
    sink: &mut K,
) -> Result<(), Failed>
    ensures whole { OnOk result (Appends (K.taken sink.old) (K.taken sink.new)
        (summary number size closed.now.host.image closed.now.history.entries end)) }
    ensures part { OnErr result (AppendsPart (K.taken sink.old) (K.taken sink.new)
        (summary number size closed.now.host.image closed.now.history.entries end)) }
    ensures cause { HasCause (K.faults sink.old) (K.faults sink.new) result }
{
    let mut out = Outlet::new(sink);
    finish_summary(&mut out, closed, number, size, end)
}

/// Puts a summary, and hands on all of it.
fn finish_summary<E: Engine, D, K: Sink>(
    out: &mut Outlet<'_, K>,
    closed: &Closed<E, D>,
    number: u64,
    size: u32,
    end: End,
) -> Result<(), Failed>
    requires fresh { (out.old.piece ≡ []) × (out.old.has_failed ≡ false) }
    ensures same_reference { out.new.sink.ghost_name ≡ out.old.sink.ghost_name }
    ensures whole { OnOk result (Appends (K.taken out.old.sink.now) (K.taken out.new.sink.now)
        (summary number size closed.now.host.image closed.now.history.entries end)) }
    ensures part { OnErr result (AppendsPart (K.taken out.old.sink.now) (K.taken out.new.sink.now)
        (summary number size closed.now.host.image closed.now.history.entries end)) }
    ensures cause { HasCause (K.faults out.old.sink.now) (K.faults out.new.sink.now) result }
{
    put_summary(out, closed, number, size, end);
    out.close()
}

fn put_summary<E: Engine, D, K: Sink>(
    out: &mut Outlet<'_, K>,
    closed: &Closed<E, D>,
    number: u64,
    size: u32,
    end: End,
)
    ensures { Writes K.taken K.faults out.old out.new
        (summary number size closed.now.host.image closed.now.history.entries end) }
{
    put_drawn(out, number, size);
    put_counts(out, &closed.history, &closed.host);
    put_end(out, end);
}

fn put_drawn<K: Sink>(out: &mut Outlet<'_, K>, number: u64, size: u32)
    ensures { Writes K.taken K.faults out.old out.new
        (line (codes "gen " ++ decimal number ++ codes " " ++ decimal size)) }
{
    out.counted(b"gen ", number);
    out.bytes(b" ");
    out.number(size);
    out.end_line();
}

fn put_counts<E: Engine, K: Sink>(out: &mut Outlet<'_, K>, history: &History, host: &HostState<E>)
    ensures { Writes K.taken K.faults out.old out.new (line (codes "entries " ++ decimal (length history.now.entries)
        ++ codes " steps " ++ decimal (accepted_steps history.now.entries)
        ++ codes " sum " ++ signed_decimal (total host.now.image.sessions))) }
{
    out.counted(b"entries ", history.len());
    out.bytes(b" steps ");
    out.number(history.steps());
    out.bytes(b" sum ");
    put_total(out, total(host));
    out.end_line();
}

fn put_total<K: Sink>(out: &mut Outlet<'_, K>, total: i128)
    ensures { Writes K.taken K.faults out.old out.new (signed_decimal total) }
{
    out.number(total);
}
