ghost use Rattle.std.specs.Prelude.{◌≡◌, IfOk, OnOk};
ghost use Rattle.std.specs.Option.{option_copied};
ghost use Rattle.std.specs.Arc.{arc_value};
ghost use Rattle.sc_law.specs.Fitting.{Fits};
ghost use Rattle.sc_law.specs.Turn.{after, turn, start, finish, settle};
ghost use Rattle.sc_turn.specs.States.{CanBegin, IsOver, begun, bound_by, state_of};
ghost use Rattle.sc_types.specs.declared.session.Phase.TheVariants as phase;
ghost use Rattle.sc_types.specs.declared.session.SessionState.{SessionState as Session};

use crate::beginning::begin;
use crate::ending::{close, exit_active, finish};
use crate::plan::Plan;
use crate::rounds::{settle, take_external};
use crate::run_state::RunState;
use sc_base::{Boxed, NoMemory, Plain, Shared};
use sc_exec::first_data;
use sc_law::{Engine, TurnResult, Turned};
use sc_micro::enter_first;
use sc_types::{Chart, Cue, Event, How, Phase, SessionState};
use std::alloc::Global;
use std::sync::Arc;

/// The engine that computes turns over the tables of the chart.
#[derive(Clone, Copy, Debug)]
pub struct Compiled;

impl Engine for Compiled {
    type Plan = Plan;

    ghost chart_of = { λ plan. plan };

    fn plan(&self, alloc: Global, chart: &Arc<Chart>) -> Result<Plan, NoMemory> {
        Plan::new(alloc, chart)
    }

    fn id_of(plan: &Plan, state: u32) -> Option<&[u8]> {
        plan.id_of(state)
    }

    fn give(
        &self,
        alloc: Global,
        plan: &Plan,
        before: &SessionState,
        cue: &Cue,
    ) -> Result<TurnResult, NoMemory> {
        given(alloc, plan, before, cue)
    }

    fn turn(
        &self,
        alloc: Global,
        plan: &Plan,
        before: &SessionState,
        cue: &Cue,
    ) -> Result<Turned, NoMemory> {
        let given = given(alloc, plan, before, cue)?;
        turned(alloc, plan, before, cue, given)
    }
}

/// What the turn gives.
fn given(
    alloc: Global,
    plan: &Plan,
    before: &SessionState,
    cue: &Cue,
) -> Result<TurnResult, NoMemory>
    requires { CanBegin plan.now before.now }
    ensures { IfOk result (λ r. r ≡ turn plan.now before.now cue.now) }
{
    let mut x = begin(alloc, plan, before, bound_by(before, cue))?;
    let phase = run(alloc, &mut x, plan, before, cue)?;
    close(alloc, plan.tables(), before, x, phase)
}

/// The event that `_event` names in the turn of a cue: the one that the cue brings, else the session's.
fn bound_by<'a>(before: &'a SessionState, cue: &'a Cue) -> Option<&'a Shared<Event>>
    ensures { option_copied result ≡ bound_by cue.now before.now.bound }
{
    match cue {
        Cue::External(event) => Some(event),
        _ => before.bound.as_ref(),
    }
}

/// The turn, with what it gave.
fn turned(
    alloc: Global,
    plan: &Plan,
    before: &SessionState,
    cue: &Cue,
    given: TurnResult,
) -> Result<Turned, NoMemory>
    requires turn { given ≡ turn plan.now before.now cue.now }
    requires fits { given.after.phase ≡ phase.Running → Fits plan.now given.after }
    ensures { IfOk result (λ t. t
        ≡ record { chart = plan.now; before = before.now; cue = cue.now; given = given }) }
{
    let (chart, before, cue) = copies(alloc, plan, before, cue)?;
    Ok(Turned::new(chart, before, cue, given))
}

/// What a turn was made of.
fn copies(
    alloc: Global,
    plan: &Plan,
    before: &SessionState,
    cue: &Cue,
) -> Result<(Arc<Chart>, Boxed<SessionState>, Cue), NoMemory>
    ensures chart { IfOk result (λ cs. arc_value cs.0 ≡ plan.now) }
    ensures before { IfOk result (λ cs. cs.1 ≡ before.now) }
    ensures cue { IfOk result (λ cs. cs.2 ≡ cue.now) }
{
    Ok((
        Arc::try_clone(plan.tables().chart())?,
        before.boxed(alloc)?,
        cue.copy()?,
    ))
}

/// Does what the cue asks for, and gives the phase after it.
#[tactic(auto, unfolding(sc_law::specs::Turn::turn))]
fn run(
    alloc: Global,
    x: &mut RunState,
    plan: &Plan,
    before: &SessionState,
    cue: &Cue,
) -> Result<Phase, NoMemory>
    requires over { IsOver plan.now x.old }
    requires begun { state_of x.old ≡ begun plan.now before.now (bound_by cue.now before.now.bound) }
    ensures value { IfOk result (λ phase. turn plan.now before.now cue.now ≡ after before.now phase (state_of x.new)) }
    ensures over { OnOk result (IsOver plan.now x.new) }
{
    match cue {
        Cue::Fresh => {
            start(alloc, x, plan, before)?;
            rounds(alloc, x, plan, plan.limit())
        }
        Cue::Resume => rounds(alloc, x, plan, plan.limit()),
        Cue::Cancel => {
            let _ = exit_active(alloc, x, plan.tables())?;
            Ok(Phase::Ended(How::Cancelled))
        }
        Cue::External(event) => {
            take_external(alloc, x, plan.tables(), event.get())?;
            rounds(alloc, x, plan, plan.limit().saturating_sub(1))
        }
    }
}

/// Initialises the data, and enters the document.
#[inline(never)]
fn start(
    alloc: Global,
    x: &mut RunState,
    plan: &Plan,
    before: &SessionState,
) -> Result<(), NoMemory>
    requires { IsOver plan.now x.old }
    ensures ok { OnOk result (start plan.now before.now (state_of x.old) ≡ state_of x.new) }
    ensures over { OnOk result (IsOver plan.now x.new) }
{
    let t = plan.tables();
    first_data(alloc, &mut x.running, t.chart(), before.params.slice())?;
    enter_first(alloc, &mut x.running, t)
}

/// The rounds of a turn, and the phase after them.
#[inline(always)]
fn rounds(alloc: Global, x: &mut RunState, plan: &Plan, limit: u64) -> Result<Phase, NoMemory>
    requires { IsOver plan.now x.old }
    ensures value { IfOk result (λ phase. (before : Session)
        → finish plan.now before (settle plan.now limit (state_of x.old)) ≡ after before phase (state_of x.new)) }
    ensures over { OnOk result (IsOver plan.now x.new) }
{
    let rested = settle(alloc, x, plan, limit)?;
    finish(alloc, x, plan.tables(), rested)
}
