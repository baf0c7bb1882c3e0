ghost use Rattle.std.specs.Prelude.{◌≡◌, IfOk, OnOk};
ghost use Rattle.sc_types.specs.declared.session.SessionState.{SessionState as Session};
ghost use Rattle.sc_law.specs.Turn.{after, exit_all, finish};
ghost use Rattle.sc_law.specs.Runs.{with_running};
ghost use Rattle.sc_turn.specs.States.{IsOver, state_of};

use crate::run_state::RunState;
use sc_base::{Boxed, NoMemory, Plain, Sequence, Word};
use sc_eval::Env;
use sc_exec::Running;
use sc_law::TurnResult;
use sc_micro::{exit_all, members};
use sc_tables::Tables;
use sc_types::{Data, Effect, How, LogLine, PairList, Phase, SessionState, ShortList};
use std::alloc::Global;

/// Exits what is active, for a session that ends.
#[inline(never)]
pub(crate) fn exit_active(alloc: Global, x: &mut RunState, t: &Tables) -> Result<Data, NoMemory>
    requires { IsOver t.now x.old }
    ensures value { IfOk result (λ found. (gone : exit_all t.now (state_of x.old).running
        ≡ (found, (state_of x.new).running))
        × (state_of x.new ≡ with_running (exit_all t.now (state_of x.old).running).1 (state_of x.old))) }
    ensures over { OnOk result (IsOver t.now x.new) }
{
    exit_all(alloc, &mut x.running, t)
}

/// The phase after the rounds of a turn: a run that does not rest has run away, and one that has stopped ends with the
/// data of its final.
pub(crate) fn finish(
    alloc: Global,
    x: &mut RunState,
    t: &Tables,
    rested: bool,
) -> Result<Phase, NoMemory>
    requires { IsOver t.now x.old }
    ensures value { IfOk result (λ phase. (before : Session)
        → finish t.now before (rested, state_of x.old) ≡ after before phase (state_of x.new)) }
    ensures over { OnOk result (IsOver t.now x.new) }
{
    if !rested {
        return Ok(Phase::Ended(How::Runaway));
    }
    if x.running.stopped {
        return Ok(Phase::Ended(How::Final(exit_active(alloc, x, t)?)));
    }
    Ok(Phase::Running)
}

/// What a turn's end takes memory for: what the session keeps of itself, and the states of its sets.
#[derive(Drop)]
struct KeptParts {
    session: Word,
    chart: Word,
    params: PairList,
    configuration: ShortList,
    entered: ShortList,
}

#[inline(always)]
fn kept(
    alloc: Global,
    t: &Tables,
    before: &SessionState,
    x: &RunState,
) -> Result<KeptParts, NoMemory>
    requires { IsOver t.now x.now }
    ensures { IfOk result (λ k. k ≡ record {
      session = before.now.session;
      chart = before.now.chart;
      params = before.now.params;
      configuration = (state_of x.now).running.env.configuration;
      entered = (state_of x.now).running.entered;
    }) }
{
    let (configuration, entered) = sets(alloc, t, x)?;
    Ok(KeptParts {
        session: before.session.copy()?,
        chart: before.chart.copy()?,
        params: before.params.copy()?,
        configuration,
        entered,
    })
}

/// The states that are active, and those that were entered.
#[inline(always)]
fn sets(alloc: Global, t: &Tables, x: &RunState) -> Result<(ShortList, ShortList), NoMemory>
    requires { IsOver t.now x.now }
    ensures { IfOk result (λ sets. sets
        ≡ ((state_of x.now).running.env.configuration, (state_of x.now).running.entered)) }
{
    let configuration = members(alloc, t, &x.running.env.configuration)?;
    let entered = members(alloc, t, &x.running.entered)?;
    Ok((configuration, entered))
}

/// The session after a turn, of what it keeps and of what the run holds, which is moved, with the run's effects and
/// logs.
#[inline(always)]
fn moved(
    kept: KeptParts,
    x: RunState,
    phase: Phase,
) -> (SessionState, Sequence<Effect>, Sequence<LogLine>)
    ensures state { result.0 ≡ record {
      session = kept.session;
      chart = kept.chart;
      phase = phase;
      configuration = kept.configuration;
      values = (state_of x).running.env.values;
      entered = kept.entered;
      histories = (state_of x).histories;
      internal = (state_of x).running.internal;
      invokes = (state_of x).running.invokes;
      bound = (state_of x).running.env.bound;
      params = kept.params;
      sends = (state_of x).running.sends;
      born = (state_of x).running.born;
    } }
    ensures effects { result.1 ≡ (state_of x).running.effects }
    ensures logs { result.2 ≡ (state_of x).running.logs }
{
    let RunState { running, histories } = x;
    let Running {
        env,
        internal,
        invokes,
        sends,
        born,
        effects,
        logs,
        ..
    } = running;
    let Env { values, bound, .. } = env;
    let after = SessionState {
        session: kept.session,
        chart: kept.chart,
        phase,
        configuration: kept.configuration,
        values: values.into_values(),
        entered: kept.entered,
        histories,
        internal,
        invokes,
        bound,
        params: kept.params,
        sends,
        born,
    };
    (after, effects, logs)
}

/// The session after a turn, with its name, chart and params as before. What the run holds is moved.
pub(crate) fn close(
    alloc: Global,
    t: &Tables,
    before: &SessionState,
    x: RunState,
    phase: Phase,
) -> Result<TurnResult, NoMemory>
    requires { IsOver t.now x }
    ensures { IfOk result (λ r. r ≡ after before.now phase (state_of x)) }
{
    let kept = kept(alloc, t, before, &x)?;
    let (after, effects, logs) = moved(kept, x, phase);
    Ok(TurnResult::new(Boxed::new(alloc, after)?, effects, logs))
}
