ghost use Rattle.std.specs.Prelude.{◌≡◌};
ghost use Rattle.std.specs.Arc.{arc_value};
ghost use Rattle.sc_types.specs.declared.session.Phase.TheVariants as phase;
ghost use Rattle.sc_law.specs.Fitting.{Fits};
ghost use Rattle.sc_law.specs.Turn.{turn};
ghost use Rattle.sc_law.specs.Turned.{IsTurn};

use crate::turn_result::TurnResult;
use sc_types::{Boxed, Chart, Cue, SessionState};
use std::marker::Model;
use std::sync::Arc;

/// A turn with what it gave, and what it was computed of: the chart, the session before it and its cue. That it gave
/// this, and that a session which goes on running fits its chart, is kept by the type, so whoever gets one need not know
/// which engine made it.
#[derive(Drop)]
pub struct Turned {
    chart: Arc<Chart>,
    before: Boxed<SessionState>,
    cue: Cue,
    given: TurnResult,
}

impl Model for Turned {
    ghost use Rattle.std.specs.Coded.{codes};
    ghost use Rattle.sc_types.specs.contracts.chart.Chart as chart_type;
    ghost use Rattle.sc_types.specs.contracts.session.Cue as cue_type;
    ghost use Rattle.sc_types.specs.contracts.session.SessionState as state_type;
    ghost use Rattle.sc_law.specs.contracts.turn_result.TurnResult as result_type;
    ghost use Rattle.sc_law.specs.Turned.{TurnedOf, IsTurn, turned};

    ghost Value = { TurnedOf };

    ghost coded = { Prim.hlevel (
      codes,
      chart_type.the_row.coded,
      state_type.the_row.coded,
      cue_type.the_row.coded,
      result_type.the_row.coded,
    ) };

    ghost view = { turned };

    ghost invariant = { λ t. IsTurn (turned t) };
}

impl Turned {
    /// A turn that an engine made: what it gave has to be the turn of the chart, the session before it and the cue, and
    /// a session that goes on running has to fit the chart.
    pub fn new(
        chart: Arc<Chart>,
        before: Boxed<SessionState>,
        cue: Cue,
        given: TurnResult,
    ) -> Turned
        requires turn { given ≡ turn (arc_value chart) before cue }
        requires fits { given.after.phase ≡ phase.Running → Fits (arc_value chart) given.after }
        ensures { result ≡ record { chart = arc_value chart; before = before; cue = cue; given = given } }
    {
        Turned {
            chart,
            before,
            cue,
            given,
        }
    }

    /// The chart that the session runs.
    pub fn chart(&self) -> &Arc<Chart>
        ensures value { arc_value result.now ≡ self.now.chart }
        ensures turn { IsTurn self.now }
    {
        &self.chart
    }

    pub fn before(&self) -> &SessionState
        ensures { result.now ≡ self.now.before }
    {
        self.before.get()
    }

    pub fn cue(&self) -> &Cue
        ensures { result.now ≡ self.now.cue }
    {
        &self.cue
    }

    pub fn given(&self) -> &TurnResult
        ensures { result.now ≡ self.now.given }
    {
        &self.given
    }

    /// What the turn gave, without a copy.
    pub fn into_given(self) -> TurnResult
        ensures value { result ≡ self.given }
        ensures turn { IsTurn self }
    {
        self.given
    }
}
