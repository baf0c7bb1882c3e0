ghost use Rattle.std.specs.Prelude.{ℕ, ◌≡◌, ◌<◌, ◌++◌, Option, Some, codes, length, slice_get};
ghost use Rattle.std.specs.List.{flat_map};
ghost use Rattle.sc_types.specs.declared.host.SessionImage.{SessionImage};
ghost use Rattle.sc_report.specs.Lines.{line};
ghost use Rattle.sc_report.specs.Outlets.{Writes};
ghost use Rattle.sc_report.specs.Report.{state_line, state_text, datum_text, live_text, phase_text, session_text, setting_text};

use crate::outlet::Outlet;
use crate::replies::put_how;
use crate::values::put_value;
use sc_base::PlainName;
use sc_core::HostState;
use sc_dev::Sink;
use sc_law::Engine;
use sc_types::{Phase, SessionState, Value};

/// A state of this chart by its id, or by its number where it has none.
fn put_state<E: Engine, K: Sink>(out: &mut Outlet<'_, K>, plan: &E::Plan, state: u32)
    ensures { Writes K.taken K.faults out.old out.new (state_text (E.chart_of plan.now) state) }
{
    match E::id_of(plan, state) {
        Some(id) => out.texts(&[b" ", id]),
        None => out.counted(b" #", state),
    }
}

fn put_ids<E: Engine, K: Sink>(out: &mut Outlet<'_, K>, plan: &E::Plan, states: &[u32])
    ensures { Writes K.taken K.faults out.old out.new (flat_map (state_text (E.chart_of plan.now)) states.now) }
{
    for state in states {
        put_state::<E, K>(out, plan, *state);
    }
}

/// The value that a datum is set to, if it is.
fn put_setting<K: Sink>(out: &mut Outlet<'_, K>, value: &Option<Value>)
    ensures { Writes K.taken K.faults out.old out.new (setting_text value.now) }
{
    match value {
        Some(value) => {
            out.bytes(b"=");
            put_value(out, value);
        }
        None => {}
    }
}

fn put_datum<K: Sink>(out: &mut Outlet<'_, K>, datum: &(PlainName, Option<Value>))
    ensures { Writes K.taken K.faults out.old out.new (datum_text datum.now) }
{
    out.texts(&[b". ", datum.0.bytes()]);
    put_setting(out, &datum.1);
    out.end_line();
}

fn put_data<K: Sink>(out: &mut Outlet<'_, K>, values: &[(PlainName, Option<Value>)])
    ensures { Writes K.taken K.faults out.old out.new (flat_map datum_text values.now) }
{
    for datum in values {
        put_datum(out, datum);
    }
}

fn put_active<E: Engine, K: Sink>(out: &mut Outlet<'_, K>, plan: &E::Plan, state: &SessionState)
    ensures { Writes K.taken K.faults out.old out.new
        (line (codes "live in" ++ flat_map (state_text (E.chart_of plan.now)) state.now.configuration)) }
{
    out.bytes(b"live in");
    put_ids::<E, K>(out, plan, state.configuration.slice());
    out.end_line();
}

fn put_live<E: Engine, K: Sink>(
    out: &mut Outlet<'_, K>,
    plan: &E::Plan,
    state: &SessionState,
    queued: usize,
)
    ensures { Writes K.taken K.faults out.old out.new (live_text (E.chart_of plan.now) state.now queued) }
{
    put_active::<E, K>(out, plan, state);
    put_data(out, state.values.slice());
    out.counted_line(b"# ", queued);
}

fn put_phase<E: Engine, K: Sink>(
    out: &mut Outlet<'_, K>,
    plan: &E::Plan,
    state: &SessionState,
    queued: usize,
)
    ensures { Writes K.taken K.faults out.old out.new (phase_text (E.chart_of plan.now) state.now queued state.now.phase) }
{
    match &state.phase {
        Phase::Ended(how) => {
            put_how(out, how);
            out.end_line();
        }
        Phase::Fresh => put_live::<E, K>(out, plan, state, queued),
        Phase::Running => put_live::<E, K>(out, plan, state, queued),
    }
}

fn put_state_line<E: Engine, K: Sink>(
    out: &mut Outlet<'_, K>,
    plan: &E::Plan,
    state: &SessionState,
    queued: usize,
)
    ensures { Writes K.taken K.faults out.old out.new (state_line (E.chart_of plan.now) state.now queued) }
{
    out.texts(&[state.session.bytes(), b" ", state.chart.bytes(), b" "]);
    put_phase::<E, K>(out, plan, state, queued);
}

fn put_session<E: Engine, K: Sink>(out: &mut Outlet<'_, K>, host: &HostState<E>, place: usize)
    requires within { place < length host.now.image.sessions }
    ensures { (s : SessionImage) → slice_get host.now.image.sessions place ≡ Some s
        → Writes K.taken K.faults out.old out.new (session_text host.now.image s) }
{
    put_state_line::<E, K>(out, host.plan(place), host.state(place), host.queued(place));
}

/// The sessions, in the order in which they were started.
pub(crate) fn put_sessions<E: Engine, K: Sink>(out: &mut Outlet<'_, K>, host: &HostState<E>)
    ensures { Writes K.taken K.faults out.old out.new (flat_map (session_text host.now.image) host.now.image.sessions) }
{
    for place in 0..host.count() {
        put_session(out, host, place);
    }
}
