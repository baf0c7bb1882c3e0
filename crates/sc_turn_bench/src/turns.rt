ghost use Rattle.std.specs.Prelude.{◌≡◌, [], None, IfOk, IfSome, IsTrue};
ghost use Rattle.sc_law.specs.Fitting.{Fits, HasCue};
ghost use Rattle.sc_law.specs.Legality.{legal_fault};
ghost use Rattle.sc_law.specs.Runs.{fresh_state};
ghost use Rattle.sc_types.specs.declared.session.Phase.TheVariants as phase;
ghost use Rattle.sc_turn_bench.specs.Sessions.{Waits, WaitsFor};

use sc_base::{Boxed, Name, NoMemory, Plain, Queue, Sequence, Shared, SharedBytes, Word};
use sc_law::Engine;
use sc_turn::{Compiled, Plan};
use sc_types::{Cue, Data, Event, Kind, Phase, SessionState, ShortList};
use sc_valid::LegalChart;
use std::alloc::Global;
use std::sync::Arc;

/// An external event that carries nothing but its name.
fn event_cue(alloc: Global, name: &[u8]) -> Option<Cue>
    ensures { IfSome result WaitsFor }
{
    let name = Name::of(alloc, name).ok()?;
    let event = Event {
        number: 1,
        name,
        kind: Kind::External,
        sendid: SharedBytes::empty(),
        origin: SharedBytes::empty(),
        origintype: SharedBytes::empty(),
        invokeid: SharedBytes::empty(),
        payload: Data::Absent,
    };
    Some(Cue::External(Shared::new(alloc, event).ok()?))
}

fn fresh_state(alloc: Global, name: &Word) -> Result<SessionState, NoMemory>
    ensures { IfOk result (λ s. s ≡ fresh_state name.now name.now []) }
{
    Ok(SessionState {
        session: name.copy()?,
        chart: name.copy()?,
        phase: Phase::Fresh,
        configuration: ShortList::new(alloc),
        values: Sequence::new(alloc),
        entered: ShortList::new(alloc),
        histories: Sequence::new(alloc),
        internal: Queue::new(alloc),
        invokes: Sequence::new(alloc),
        bound: None,
        params: Sequence::new(alloc),
        sends: 0,
        born: 0,
    })
}

/// Whether a session waits for an external event.
fn waits(state: &SessionState) -> bool
    ensures { IsTrue result → (state.now.phase ≡ phase.Running) × (state.now.internal ≡ []) }
{
    match &state.phase {
        Phase::Running => state.internal.is_empty(),
        _ => false,
    }
}

/// The session, where it waits for an external event. It stays in the place that the turn gave it.
fn waiting(state: Boxed<SessionState>) -> Option<Boxed<SessionState>>
    ensures { IfSome result (λ s. (s ≡ state) × (s.phase ≡ phase.Running) × (s.internal ≡ [])) }
{
    if waits(state.get()) {
        Some(state)
    } else {
        None
    }
}

/// The session after a turn, where it waits for an external event then.
fn next(alloc: Global, plan: &Plan, before: &SessionState, cue: &Cue) -> Option<Boxed<SessionState>>
    requires legal { legal_fault plan.now ≡ None }
    requires fits { Fits plan.now before.now }
    requires cue { HasCue before.now cue.now }
    ensures { IfSome result (Waits plan.now) }
{
    match Compiled.give(alloc, plan, before, cue) {
        Ok(given) => waiting(given.into_parts().0),
        Err(NoMemory) => None,
    }
}

/// The session after its first turn.
fn started(alloc: Global, plan: &Plan) -> Option<Boxed<SessionState>>
    requires { legal_fault plan.now ≡ None }
    ensures { IfSome result (Waits plan.now) }
{
    let name = Word::of(alloc, b"s").ok()?;
    let fresh = fresh_state(alloc, &name).ok()?;
    next(alloc, plan, &fresh, &Cue::Fresh)
}

/// One turn; the session is another one then, or stays as it was.
fn take(alloc: Global, plan: &Plan, state: &mut Boxed<SessionState>, cue: &Cue) -> Option<()>
    requires legal { legal_fault plan.now ≡ None }
    requires waits { Waits plan.now state.old }
    requires cue { WaitsFor cue.now }
    ensures { Waits plan.now state.new }
{
    let after = next(alloc, plan, state.get(), cue)?;
    *state = after;
    Some(())
}

/// So many turns that begin with a cue.
fn take_all(
    alloc: Global,
    plan: &Plan,
    state: &mut Boxed<SessionState>,
    cue: &Cue,
    count: u32,
) -> Option<()>
    requires legal { legal_fault plan.now ≡ None }
    requires waits { Waits plan.now state.old }
    requires cue { WaitsFor cue.now }
{
    for _ in 0..count {
        take(alloc, plan, state, cue)?;
    }
    Some(())
}

/// So many turns with an event.
fn take_event(
    alloc: Global,
    plan: &Plan,
    state: &mut Boxed<SessionState>,
    event: &[u8],
    count: u32,
) -> Option<()>
    requires legal { legal_fault plan.now ≡ None }
    requires waits { Waits plan.now state.old }
{
    match event_cue(alloc, event) {
        Some(cue) => take_all(alloc, plan, state, &cue, count),
        None => None,
    }
}

/// A session after its first turn and so many turns with an event.
fn after(alloc: Global, plan: &Plan, event: &[u8], count: u32) -> Option<Boxed<SessionState>>
    requires { legal_fault plan.now ≡ None }
{
    let mut state = started(alloc, plan)?;
    match take_event(alloc, plan, &mut state, event, count) {
        Some(()) => Some(state),
        None => None,
    }
}

/// A session of a chart after so many turns with an event.
pub fn session_after(
    alloc: Global,
    chart: LegalChart,
    event: &[u8],
    count: u32,
) -> Option<Boxed<SessionState>> {
    let chart = Arc::new(alloc, chart.into_chart()).ok()?;
    let plan = Compiled.plan(alloc, &chart).ok()?;
    after(alloc, &plan, event, count)
}
