ghost use Rattle.std.specs.Prelude.{◌≡◌, ◌<◌, [], IfOk, Some, length, option_and_then, option_map, slice_get};
ghost use Rattle.std.specs.Arc.{arc_value};
ghost use Rattle.std.specs.Option.{option_copied};
ghost use Rattle.sc_law.specs.Fitting.{Fits};
ghost use Rattle.sc_law.specs.Turn.{turn};
ghost use Rattle.sc_core.specs.Bodies.{Agrees, image};
ghost use Rattle.sc_machine.specs.Cues.{cue_of};
ghost use Rattle.sc_core.specs.Holding.{IsHeld};
ghost use Rattle.sc_machine.specs.Hosts.{chart_named, chart_place};
ghost use Rattle.sc_core.specs.declared.session.Session.{Session};
ghost use Rattle.sc_types.specs.declared.host.SessionImage.{SessionImage};

use crate::body::{Body, InstalledChart};
use crate::session::Session;
use sc_base::{NoMemory, Word};
use sc_law::{Engine, TurnResult};
use sc_types::{Cue, Phase};
use std::alloc::Global;

impl<P: Drop> Body<P> {
    /// The installed chart of a name, with its plan.
    pub(crate) fn chart_named(&self, name: &Word) -> Option<&InstalledChart<P>>
        requires agrees { Agrees self.now }
        ensures { option_copied result
            ≡ option_and_then (slice_get self.now.charts.items) (chart_place (image self.now) name.now) }
    {
        let place = self.chart_place(name)?;
        self.charts.get(place)
    }

    /// The installed chart that a session runs.
    pub(crate) fn chart_of(&self, session: &Session) -> Option<&InstalledChart<P>>
        requires agrees { Agrees self.now }
        ensures { option_copied result
            ≡ option_and_then (slice_get self.now.charts.items) (chart_place (image self.now) session.now.state.chart) }
    {
        self.chart_named(&session.state().chart)
    }
}

/// The installed chart that the session at a place runs.
pub(crate) fn chart_at<E: Engine>(body: &Body<E::Plan>, place: usize) -> &InstalledChart<E::Plan>
    requires held { IsHeld E.chart_of body.now }
    requires within { place < length body.now.sessions.items }
    ensures chart { (s : SessionImage) → slice_get (image body.now).sessions place ≡ Some s
        → arc_value result.now.chart ≡ chart_named (image body.now) s.state.chart }
    ensures plan { (s : SessionImage) → slice_get (image body.now).sessions place ≡ Some s
        → E.chart_of (arc_value result.now.plan) ≡ chart_named (image body.now) s.state.chart }
{
    let Some(session) = body.sessions.get(place) else {
        unreachable!();
    };
    let Some(chart) = body.chart_of(session) else {
        unreachable!();
    };
    chart
}

/// What the turn gives of the session at a place, whose internal queue is in one part.
pub(crate) fn turn_of<E: Engine>(
    alloc: Global,
    e: &E,
    body: &Body<E::Plan>,
    place: usize,
    cue: &Cue,
) -> Result<TurnResult, NoMemory>
    requires held { IsHeld E.chart_of body.now }
    requires settled { option_map (λ (s : Session). s.failures.items) (slice_get body.now.sessions.items place)
        ≡ Some [] }
    requires cue { (s : SessionImage) → slice_get (image body.now).sessions place ≡ Some s → cue_of s ≡ Some cue.now }
    ensures turn { IfOk result (λ r. (s : SessionImage) → slice_get (image body.now).sessions place ≡ Some s
        → r ≡ turn (chart_named (image body.now) s.state.chart) s.state cue.now) }
    ensures fits { IfOk result (λ r. (s : SessionImage) → slice_get (image body.now).sessions place ≡ Some s
        → r.after.phase ≡ Phase.Running → Fits (chart_named (image body.now) s.state.chart) r.after) }
{
    let Some(session) = body.sessions.get(place) else {
        unreachable!();
    };
    let Some(chart) = body.chart_of(session) else {
        unreachable!();
    };
    e.give(alloc, &chart.plan, session.state(), cue)
}
