ghost use Rattle.std.specs.Prelude.{◌≡◌, ◌^◌, ◌≤◌, ◌<◌, [], IfOk, IsTrue, Some, length, option_map, slice_get};
ghost use Rattle.sc_law.specs.Fitting.{Fits};
ghost use Rattle.sc_law.specs.Turn.{turn};
ghost use Rattle.sc_law.specs.Turned.{IsTurnOf};
ghost use Rattle.sc_core.specs.Bodies.{image};
ghost use Rattle.sc_machine.specs.Commands.{answer};
ghost use Rattle.sc_machine.specs.Cues.{cue_of};
ghost use Rattle.sc_core.specs.Holding.{IsHeld};
ghost use Rattle.sc_machine.specs.Hosts.{chart_named};
ghost use Rattle.sc_core.specs.HostStates.{CanInstall};
ghost use Rattle.sc_core.specs.Preparing.{Prepares};
ghost use Rattle.sc_core.specs.declared.session.Session.{Session};
ghost use Rattle.sc_types.specs.declared.command.Command.TheVariants as command;
ghost use Rattle.sc_types.specs.declared.host.SessionImage.{SessionImage};

use crate::body::Body;
use crate::host_state::HostState;
use crate::plans::{chart_at, turn_of};
use crate::prepare::draft_step;
use crate::prepared::Prepared;
use crate::same_charts::same_chart;
use crate::sameness::Same;
use sc_base::{NoMemory, Word};
use sc_law::{Engine, TurnResult, Turned};
use sc_types::{Chart, Cue, Phase, SessionState};
use std::alloc::Global;

/// Whether a turn is that of this chart, of a session in this state and for this cue.
fn is_of(turned: &Turned, chart: &Chart, before: &SessionState, cue: &Cue) -> bool
    ensures { IsTrue result → IsTurnOf chart.now before.now cue.now turned.now }
{
    turned.cue().same(cue) && turned.before().same(before) && same_chart(turned.chart(), chart)
}

/// Whether a turn is the one that the session at a place takes, which has this cue and whose internal queue is in one
/// part.
#[inline(never)]
fn is_turn_of<E: Engine>(body: &Body<E::Plan>, place: usize, cue: &Cue, turned: &Turned) -> bool
    requires held { IsHeld E.chart_of body.now }
    requires within { place < length body.now.sessions.items }
    requires settled { option_map (λ (s : Session). s.failures.items) (slice_get body.now.sessions.items place)
        ≡ Some [] }
    ensures { IsTrue result → (s : SessionImage) → slice_get (image body.now).sessions place ≡ Some s
        → IsTurnOf (chart_named (image body.now) s.state.chart) s.state cue.now turned.now }
{
    match body.sessions.get(place) {
        Some(session) => is_of(
            turned,
            &chart_at::<E>(body, place).chart,
            session.state(),
            cue,
        ),
        None => false,
    }
}

/// What the turn gives of the session at a place, as `turn_of` computes it: what was handed in, where it is that turn.
pub(crate) fn turn_by<E: Engine>(
    alloc: Global,
    e: &E,
    body: &Body<E::Plan>,
    place: usize,
    cue: &Cue,
    handed: Option<Turned>,
) -> Result<TurnResult, NoMemory>
    requires held { IsHeld E.chart_of body.now }
    requires within { place < length body.now.sessions.items }
    requires settled { option_map (λ (s : Session). s.failures.items) (slice_get body.now.sessions.items place)
        ≡ Some [] }
    requires cue { (s : SessionImage) → slice_get (image body.now).sessions place ≡ Some s → cue_of s ≡ Some cue.now }
    ensures turn { IfOk result (λ r. (s : SessionImage) → slice_get (image body.now).sessions place ≡ Some s
        → r ≡ turn (chart_named (image body.now) s.state.chart) s.state cue.now) }
    ensures fits { IfOk result (λ r. (s : SessionImage) → slice_get (image body.now).sessions place ≡ Some s
        → r.after.phase ≡ Phase.Running → Fits (chart_named (image body.now) s.state.chart) r.after) }
{
    if let Some(turned) = handed {
        if is_turn_of::<E>(body, place, cue, &turned) {
            return Ok(turned.into_given());
        }
    }
    turn_of(alloc, e, body, place, cue)
}

impl<E: Engine> HostState<E> {
    /// Prepares the step of a session, as `prepare` does, where its turn was computed before: it is computed anew only
    /// where the session has another state or cue by now.
    pub fn prepare_turned(
        &mut self,
        e: &E,
        session: &Word,
        turned: Turned,
    ) -> Result<Prepared<E::Plan>, NoMemory>
        requires room { self.old.image.commands ≤ 2 ^ 48 }
        ensures image { self.new.image ≡ self.old.image }
        ensures answer { IfOk result
            (Prepares (answer self.old.image (command.Step session.now)) self.old.image) }
        ensures can { IfOk result (λ p. CanInstall E.chart_of self.new p.changes) }
    {
        let prepared = draft_step(self.alloc, e, &mut self.body, session, Some(turned))?;
        // A length fits a usize, so the numbers of events cannot run out in one command.
        let _count = prepared.sent.len();
        self.make_room(&prepared)?;
        Ok(prepared)
    }
}
