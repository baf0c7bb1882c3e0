ghost use Rattle.std.specs.Prelude.{◌≡◌, ◌<◌, [], IfOk, Some, length, option_map, slice_get};
ghost use Rattle.sc_core.specs.Bodies.{image};
ghost use Rattle.sc_machine.specs.Cues.{cue_of};
ghost use Rattle.sc_core.specs.Holding.{IsHeld};
ghost use Rattle.sc_core.specs.Inputs.{IsInput, IsInputAt};
ghost use Rattle.sc_core.specs.declared.session.Session.{Session};
ghost use Rattle.sc_types.specs.declared.host.SessionImage.{SessionImage};

use crate::body::Body;
use crate::cues::cue_of;
use crate::host_state::HostState;
use sc_base::{Boxed, NoMemory};
use sc_law::Engine;
use sc_types::{Cue, SessionState};
use std::alloc::Global;
use std::sync::Arc;

/// What an engine computes the turn of a session from, in copies: the plan of its chart, its state with all that waits
/// in its internal queue, and its cue.
#[derive(Drop)]
pub struct TurnInput<P> {
    pub plan: Arc<P>,
    pub before: Boxed<SessionState>,
    pub cue: Cue,
}

/// The input of the session at a place, which has this cue and whose internal queue is in one part.
fn input_of<E: Engine>(
    alloc: Global,
    body: &Body<E::Plan>,
    place: usize,
    cue: Cue,
) -> Result<TurnInput<E::Plan>, NoMemory>
    requires held { IsHeld E.chart_of body.now }
    requires settled { option_map (λ (s : Session). s.failures.items) (slice_get body.now.sessions.items place)
        ≡ Some [] }
    requires cue { (s : SessionImage) → slice_get (image body.now).sessions place ≡ Some s → cue_of s ≡ Some cue }
    ensures { IfOk result (λ i. (s : SessionImage) → slice_get (image body.now).sessions place ≡ Some s
        → IsInput E.chart_of (image body.now) s i) }
{
    let Some(session) = body.sessions.get(place) else {
        unreachable!();
    };
    let Some(chart) = body.chart_of(session) else {
        unreachable!();
    };
    let plan = chart.plan.clone()?;
    let before = session.state().boxed(alloc)?;
    Ok(TurnInput { plan, before, cue })
}

impl<E: Engine> HostState<E> {
    /// What the next turn of the session at a place is computed from, so that an engine may compute it elsewhere;
    /// `None` where it has no cue.
    pub fn turn_input(
        &mut self,
        alloc: Global,
        place: usize,
    ) -> Result<Option<TurnInput<E::Plan>>, NoMemory>
        requires within { place < length self.old.image.sessions }
        ensures image { self.new.image ≡ self.old.image }
        ensures input { IfOk result (IsInputAt E.chart_of self.old.image place) }
    {
        self.body.settle(place)?;
        let Some(cue) = self.cue(place)? else {
            return Ok(None);
        };
        let input = input_of::<E>(alloc, &self.body, place, cue)?;
        Ok(Some(input))
    }
}
