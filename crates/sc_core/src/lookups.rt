ghost use Rattle.std.specs.Prelude.{◌≡◌, ◌<◌, IfOk, Some, length, slice_get};
ghost use Rattle.std.specs.Arc.{arc_value};
ghost use Rattle.std.specs.Option.{option_copied};
ghost use Rattle.sc_machine.specs.Cues.{cue_of, ready};
ghost use Rattle.sc_machine.specs.Hosts.{chart_named};
ghost use Rattle.sc_types.specs.declared.host.SessionImage.{SessionImage};

use crate::cues::cue_of;
use crate::host_state::HostState;
use crate::plans::chart_at;
use sc_base::{NoMemory, Word};
use sc_law::Engine;
use sc_types::{Chart, Cue, SessionState};
use std::sync::Arc;

/// What is looked up takes no memory: a cue shares its event with the queue.
impl<E: Engine> HostState<E> {
    /// How many sessions were started. Their places are the numbers below it.
    pub fn count(&self) -> usize
        ensures { result ≡ length self.now.image.sessions }
    {
        self.body.sessions.len()
    }

    /// How many sends are pending.
    pub fn timers(&self) -> usize
        ensures { result ≡ length self.now.image.timers }
    {
        self.body.timers.len()
    }

    /// The state of the session at a place. What the host put behind its internal queue since its last turn is not in
    /// it.
    pub fn state(&self, place: usize) -> &SessionState
        requires within { place < length self.now.image.sessions }
        ensures { (s : SessionImage) → slice_get self.now.image.sessions place ≡ Some s
            → result.now ≡ record s.state { internal = result.now.internal } }
    {
        match self.body.sessions.get(place) {
            Some(session) => session.state(),
            None => unreachable!(),
        }
    }

    /// The chart that the session at a place runs.
    pub fn chart(&self, place: usize) -> &Chart
        requires within { place < length self.now.image.sessions }
        ensures { (s : SessionImage) → slice_get self.now.image.sessions place ≡ Some s
            → result.now ≡ chart_named self.now.image s.state.chart }
    {
        &chart_at::<E>(&self.body, place).chart
    }

    /// The plan of the chart that the session at a place runs.
    pub fn plan(&self, place: usize) -> &Arc<E::Plan>
        requires within { place < length self.now.image.sessions }
        ensures { (s : SessionImage) → slice_get self.now.image.sessions place ≡ Some s
            → E.chart_of (arc_value result.now) ≡ chart_named self.now.image s.state.chart }
    {
        &chart_at::<E>(&self.body, place).plan
    }

    /// How many events wait in the external queue of the session at a place.
    pub fn queued(&self, place: usize) -> usize
        requires within { place < length self.now.image.sessions }
        ensures { (s : SessionImage) → slice_get self.now.image.sessions place ≡ Some s → result ≡ length s.queued }
    {
        match self.body.sessions.get(place) {
            Some(session) => session.queued.len(),
            None => unreachable!(),
        }
    }

    /// What the next turn of the session at a place begins with; `None` where it has no cue.
    pub fn cue(&self, place: usize) -> Result<Option<Cue>, NoMemory>
        requires within { place < length self.now.image.sessions }
        ensures { IfOk result (λ cue. (s : SessionImage) → slice_get self.now.image.sessions place ≡ Some s
            → cue ≡ cue_of s) }
    {
        match self.body.sessions.get(place) {
            Some(session) => cue_of(session),
            None => unreachable!(),
        }
    }

    /// The name of the ready session that was started first.
    pub fn ready_session(&self) -> Option<&Word>
        ensures { option_copied result ≡ ready self.now.image }
    {
        match self.body.ready(0) {
            Some(place) => self.body.sessions.name(place),
            None => None,
        }
    }
}
