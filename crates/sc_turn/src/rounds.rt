ghost use Rattle.std.specs.Prelude.{◌≡◌, ◌<◌, ◌≤◌, All, None, IfOk, OnOk, Some, length};
ghost use Rattle.sc_law.specs.Selection.{select};
ghost use Rattle.sc_law.specs.Transitions.{transition_paths};
ghost use Rattle.sc_law.specs.Turn.{look, next, settle, take_event, rested};
ghost use Rattle.sc_turn.specs.Rounds.{AreOf, external_bound, look_of, taken};
ghost use Rattle.sc_turn.specs.States.{IsOver, state_of};
ghost use Rattle.sc_law.specs.Invokes.{start_invokes};

use crate::finalizing::finalize;
use crate::invoking::start_invokes;
use crate::plan::Plan;
use crate::run_state::RunState;
use sc_base::{NoMemory, Plain, Shared};
use sc_micro::microstep;
use sc_select::{eventless, for_event};
use sc_tables::Tables;
use sc_types::{Event, ShortList};
use std::alloc::Global;

/// What a round takes.
#[derive(Drop)]
pub(crate) enum Round {
    /// There is no round: the run rests, or has stopped.
    Rest,
    /// Transitions without an event.
    Eventless(ShortList),
    /// The front of the internal queue.
    Internal,
}

/// The transitions that are taken without an event. Where the chart has none, no state is asked for them.
fn without_event(alloc: Global, x: &mut RunState, plan: &Plan) -> Result<ShortList, NoMemory>
    requires { IsOver plan.now x.old }
    ensures ok { IfOk result (λ trs. select plan.now None (state_of x.old)
        ≡ record { transitions = trs; run = state_of x.new }) }
    ensures numbers { IfOk result (λ trs. All (λ tr. tr < length (transition_paths plan.now)) trs) }
    ensures over { OnOk result (IsOver plan.now x.new) }
{
    if !plan.has_eventless() {
        return Ok(ShortList::new(alloc));
    }
    eventless(alloc, &mut x.running, plan.tables(), &x.histories)
}

/// What comes next, before the invokes are started: eventless transitions come before internal events.
fn look(alloc: Global, x: &mut RunState, plan: &Plan) -> Result<Round, NoMemory>
    requires { IsOver plan.now x.old }
    ensures ok { IfOk result (λ n. look plan.now (state_of x.old) ≡ look_of plan.now n (state_of x.new)) }
    ensures transitions { IfOk result (AreOf plan.now) }
    ensures over { OnOk result (IsOver plan.now x.new) }
{
    let transitions = without_event(alloc, x, plan)?;
    if !transitions.is_empty() {
        return Ok(Round::Eventless(transitions));
    }
    if x.running.internal.is_empty() {
        Ok(Round::Rest)
    } else {
        Ok(Round::Internal)
    }
}

/// What comes next. Where nothing does, the invokes are started, and what that put into the internal queue is looked
/// at.
#[tactic(auto, unfolding(sc_law::specs::Turn::next))]
fn next(alloc: Global, x: &mut RunState, plan: &Plan) -> Result<Round, NoMemory>
    requires { IsOver plan.now x.old }
    ensures ok { IfOk result (λ n. next plan.now (state_of x.old) ≡ look_of plan.now n (state_of x.new)) }
    ensures transitions { IfOk result (AreOf plan.now) }
    ensures over { OnOk result (IsOver plan.now x.new) }
{
    if x.running.stopped {
        return Ok(Round::Rest);
    }
    match look(alloc, x, plan)? {
        Round::Rest => rest(alloc, x, plan),
        found => Ok(found),
    }
}

fn rest(alloc: Global, x: &mut RunState, plan: &Plan) -> Result<Round, NoMemory>
    requires { IsOver plan.now x.old }
    ensures ok { IfOk result (λ n.
        rested plan.now (start_invokes plan.now (state_of x.old)) ≡ look_of plan.now n (state_of x.new)) }
    ensures transitions { IfOk result (AreOf plan.now) }
    ensures over { OnOk result (IsOver plan.now x.new) }
{
    start_invokes(alloc, x, plan.tables())?;
    if x.running.internal.is_empty() {
        return Ok(Round::Rest);
    }
    look(alloc, x, plan)
}

/// The microstep of what an event enables.
fn take_event(alloc: Global, x: &mut RunState, t: &Tables, event: Event) -> Result<(), NoMemory>
    requires { IsOver t.now x.old }
    ensures ok { OnOk result (take_event t.now event (state_of x.old) ≡ state_of x.new) }
    ensures over { OnOk result (IsOver t.now x.new) }
{
    let event = Shared::new(alloc, event)?;
    x.running.env.bound = Some(event.copy()?);
    let name = event.get().name.bytes();
    let transitions = for_event(alloc, &mut x.running, t, &x.histories, name)?;
    microstep(
        alloc,
        &mut x.running,
        t,
        &mut x.histories,
        transitions.slice(),
    )
}

/// Takes a round.
fn take(alloc: Global, x: &mut RunState, plan: &Plan, round: Round) -> Result<(), NoMemory>
    requires over { IsOver plan.now x.old }
    requires transitions { AreOf plan.now round }
    ensures ok { OnOk result (taken plan.now round (state_of x.old) ≡ state_of x.new) }
    ensures over { OnOk result (IsOver plan.now x.new) }
{
    match round {
        Round::Rest => Ok(()),
        Round::Eventless(transitions) => microstep(
            alloc,
            &mut x.running,
            plan.tables(),
            &mut x.histories,
            transitions.slice(),
        ),
        Round::Internal => match x.running.internal.pop_front() {
            Some(event) => take_event(alloc, x, plan.tables(), event),
            None => Ok(()),
        },
    }
}

/// Takes rounds until the run rests, within so many, and tells whether it does.
#[tactic(auto, unfolding(sc_law::specs::Turn::settle))]
pub(crate) fn settle(
    alloc: Global,
    x: &mut RunState,
    plan: &Plan,
    rounds: u64,
) -> Result<bool, NoMemory>
    requires { IsOver plan.now x.old }
    ensures ok { IfOk result (λ rested. settle plan.now rounds (state_of x.old) ≡ (rested, state_of x.new)) }
    ensures over { OnOk result (IsOver plan.now x.new) }
{
    let mut left = rounds;
    loop {
        let round = next(alloc, x, plan)?;
        if let Round::Rest = round {
            return Ok(true);
        }
        if left == 0 {
            return Ok(false);
        }
        take(alloc, x, plan, round)?;
        left -= 1;
    }
}

/// The round of an external event that `_event` names already, also where it enables nothing.
pub(crate) fn take_external(
    alloc: Global,
    x: &mut RunState,
    t: &Tables,
    event: &Event,
) -> Result<(), NoMemory>
    requires over { IsOver t.now x.old }
    requires bound { x.old.running.env.bound ≡ Some event.now }
    ensures ok { OnOk result (external_bound t.now event.now (state_of x.old) ≡ state_of x.new) }
    ensures over { OnOk result (IsOver t.now x.new) }
{
    finalize(alloc, &mut x.running, t, event)?;
    let transitions = for_event(alloc, &mut x.running, t, &x.histories, event.name.bytes())?;
    microstep(
        alloc,
        &mut x.running,
        t,
        &mut x.histories,
        transitions.slice(),
    )
}
