ghost use Rattle.std.specs.Prelude.{◌≡◌, [], IfOk};
ghost use Rattle.std.specs.Arc.{arc_value};
ghost use Rattle.sc_law.specs.Turn.{begin_env};
ghost use Rattle.sc_law.specs.Tree.{state_count};
ghost use Rattle.sc_law.specs.Runs.{ids};
ghost use Rattle.std.specs.List.{IsDistinct};
ghost use Rattle.std.specs.Option.{option_copied};
ghost use Rattle.std.specs.Str.{bytes_eq};
ghost use Rattle.sc_eval.specs.Envs.{env_of};
ghost use Rattle.sc_eval.specs.Places.{names_of};
ghost use Rattle.sc_turn.specs.States.{CanBegin, IsOver, begun, chart_name, state_of};
ghost use Rattle.sc_exec.specs.Runs.{running_of};
ghost use Rattle.sc_select.specs.Runs.{IsRunOf};
ghost use Rattle.sc_tables.specs.Rows.{row_of};

use crate::plan::Plan;
use crate::rows::row_of;
use crate::run_state::RunState;
use sc_base::{NoMemory, Plain, Queue, Sequence, Shared, SharedBytes, Word};
use sc_bits::Row;
use sc_eval::{DataTable, Env};
use sc_exec::Running;
use sc_types::{Event, Invoked, SessionState};
use std::alloc::Global;
use std::sync::Arc;

/// The session as a turn begins with it, where `_event` names this event.
pub(crate) fn begin(
    alloc: Global,
    plan: &Plan,
    before: &SessionState,
    bound: Option<&Shared<Event>>,
) -> Result<RunState, NoMemory>
    requires { CanBegin plan.now before.now }
    ensures value { IfOk result (λ x. state_of x ≡ begun plan.now before.now (option_copied bound.entry)) }
    ensures over { IfOk result (IsOver plan.now) }
{
    let histories = before.histories.copy()?;
    let running = begin_running(alloc, plan, before, bound)?;
    Ok(RunState { running, histories })
}

/// In parts: an early exit then has few values to drop.
fn begin_running(
    alloc: Global,
    plan: &Plan,
    before: &SessionState,
    bound: Option<&Shared<Event>>,
) -> Result<Running, NoMemory>
    requires { CanBegin plan.now before.now }
    ensures value { IfOk result (λ r.
        running_of r ≡ (begun plan.now before.now (option_copied bound.entry)).running) }
    ensures over { IfOk result (IsRunOf plan.now) }
{
    let (internal, invokes) = waiting(before)?;
    let (entered, todo) = rows(alloc, plan, before)?;
    let env = begin_env(alloc, plan, before, bound)?;
    Ok(Running {
        env,
        entered,
        internal,
        invokes,
        sends: before.sends,
        born: before.born,
        todo,
        effects: Sequence::new(alloc),
        logs: Sequence::new(alloc),
        stopped: false,
    })
}

/// The internal queue, and the invocations that run.
fn waiting(before: &SessionState) -> Result<(Queue<Event>, Sequence<Invoked>), NoMemory>
    ensures { IfOk result (λ c. c ≡ (before.now.internal, before.now.invokes)) }
{
    Ok((before.internal.copy()?, before.invokes.copy()?))
}

/// The states that were entered, and those whose invokes are still to be started, which are none.
fn rows(alloc: Global, plan: &Plan, before: &SessionState) -> Result<(Row, Row), NoMemory>
    requires { CanBegin plan.now before.now }
    ensures entered { IfOk result (λ rs. rs.0 ≡ row_of plan.now before.now.entered) }
    ensures todo { IfOk result (λ rs. rs.1 ≡ row_of plan.now []) }
{
    let t = plan.tables();
    Ok((
        row_of(alloc, t, before.entered.slice())?,
        Row::new(alloc, t.count())?,
    ))
}

/// The session's name, and the chart's.
fn names(plan: &Plan, before: &SessionState) -> Result<(Word, SharedBytes), NoMemory>
    ensures { IfOk result (λ ns. ns ≡ (before.now.session, chart_name plan.now)) }
{
    Ok((before.session.copy()?, plan.name().copy()?))
}

fn table(alloc: Global, before: &SessionState) -> Result<DataTable, NoMemory>
    requires { IsDistinct bytes_eq (names_of before.now.values) }
    ensures { IfOk result (λ values. values ≡ before.now.values) }
{
    let values = before.values.copy()?;
    DataTable::from_values(alloc, values)
}

fn copied(event: Option<&Shared<Event>>) -> Result<Option<Shared<Event>>, NoMemory>
    ensures { IfOk result (λ e. e ≡ option_copied event.entry) }
{
    match event {
        Some(event) => Ok(Some(event.copy()?)),
        None => Ok(None),
    }
}

/// What expressions read at the beginning of a turn.
fn begin_env(
    alloc: Global,
    plan: &Plan,
    before: &SessionState,
    bound: Option<&Shared<Event>>,
) -> Result<Env, NoMemory>
    requires { CanBegin plan.now before.now }
    ensures value { IfOk result (λ e.
        env_of e ≡ begin_env plan.now (record before.now { bound = option_copied bound.entry })) }
    ensures width { IfOk result (λ e. e.configuration.width ≡ state_count plan.now) }
    ensures ids { IfOk result (λ e. arc_value e.ids ≡ ids plan.now) }
{
    let (session, chart_name) = names(plan, before)?;
    let configuration = row_of(alloc, plan.tables(), before.configuration.slice())?;
    let values = table(alloc, before)?;
    let ids = Arc::try_clone(plan.ids())?;
    let bound = copied(bound)?;
    Ok(Env {
        values,
        configuration,
        ids,
        bound,
        session,
        chart_name,
        profile: plan.profile(),
    })
}
