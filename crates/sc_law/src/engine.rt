ghost use Rattle.std.specs.Prelude.{◌≡◌, None, IfOk, option_and_then};
ghost use Rattle.std.specs.Option.{option_copied};
ghost use Rattle.std.specs.Arc.{arc_value};
ghost use Rattle.sc_types.specs.declared.chart.Chart.{Chart};
ghost use Rattle.sc_types.specs.declared.session.Phase.TheVariants as phase;
ghost use Rattle.sc_law.specs.Legality.{legal_fault};
ghost use Rattle.sc_law.specs.Fitting.{Fits, HasCue};
ghost use Rattle.sc_law.specs.Tree.{id_of as node_id, node_of};
ghost use Rattle.sc_law.specs.Turn.{turn};
ghost use Rattle.sc_law.specs.Turned.{IsTurnOf};

use crate::turn_result::TurnResult;
use crate::turned::Turned;
use sc_types::{Chart, Cue, NoMemory, SessionState};
use std::alloc::Global;
use std::sync::Arc;

/// What computes turns. A plan is made once for each chart, and serves all sessions and workers that run the chart.
pub trait Engine: Sync {
    /// What the engine keeps of a chart.
    type Plan: Send + Sync + Drop;

    /// The chart that a plan was made of.
    ghost chart_of: { Self.Plan → Chart };

    /// The plan of a legal chart.
    fn plan(&self, alloc: Global, chart: &Arc<Chart>) -> Result<Self::Plan, NoMemory>
        requires legal { legal_fault (arc_value chart.now) ≡ None }
        ensures { IfOk result (λ plan. chart_of plan ≡ arc_value chart.now) };

    /// The id that the chart of a plan gives a state; none where it gives none, and of a number that is no state's.
    fn id_of(plan: &Self::Plan, state: u32) -> Option<&[u8]>
        ensures { option_copied result ≡ option_and_then node_id (node_of (chart_of plan.now) state) };

    /// What the turn gives that a session's cue asks for, computed from these three alone. A session that goes on
    /// running fits the chart again, so that its configuration is a legal one.
    fn give(
        &self,
        alloc: Global,
        plan: &Self::Plan,
        before: &SessionState,
        cue: &Cue,
    ) -> Result<TurnResult, NoMemory>
        requires legal { legal_fault (chart_of plan.now) ≡ None }
        requires fits { Fits (chart_of plan.now) before.now }
        requires cue { HasCue before.now cue.now }
        ensures given { IfOk result (λ r. r ≡ turn (chart_of plan.now) before.now cue.now) }
        ensures fits { IfOk result (λ r. r.after.phase ≡ phase.Running → Fits (chart_of plan.now) r.after) };

    /// The same turn with a copy of what it was computed of, for whoever puts it in later.
    fn turn(
        &self,
        alloc: Global,
        plan: &Self::Plan,
        before: &SessionState,
        cue: &Cue,
    ) -> Result<Turned, NoMemory>
        requires legal { legal_fault (chart_of plan.now) ≡ None }
        requires fits { Fits (chart_of plan.now) before.now }
        requires cue { HasCue before.now cue.now }
        ensures turn { IfOk result (IsTurnOf (chart_of plan.now) before.now cue.now) }
        ensures fits { IfOk result (λ t.
            t.given.after.phase ≡ phase.Running → Fits (chart_of plan.now) t.given.after) };
}
