ghost use Rattle.std.specs.Prelude.{◌≡◌, ◌++◌};
ghost use Rattle.sc_machine.specs.Cues.{is_ready};
ghost use Rattle.sc_machine.specs.Hosts.{is_live, is_running};
ghost use Rattle.sc_core.specs.Bodies.{session_image};

use sc_base::{Boxed, Shared};
use sc_rooms::RoomyQueue;
use sc_types::{Event, InvokerImage, Phase, SessionState};

/// A session as the host's body holds it. What a post and a cancel look at stands together: among many sessions, each
/// line of memory that a command touches is cold.
#[derive(Drop)]
pub struct Session {
    pub(crate) invoker: Option<InvokerImage>,
    pub(crate) depth: u32,
    /// The places of the sessions that it invoked, in order of start.
    pub(crate) children: RoomyQueue<usize>,
    /// The back part of the internal queue: what the host adds to it, for which the room is made first.
    pub(crate) failures: RoomyQueue<Event>,
    /// The external queue.
    pub(crate) queued: RoomyQueue<Shared<Event>>,
    /// Whether the session is to be cancelled.
    pub(crate) flagged: bool,
    /// In a place of its own, so that a step puts the next one in without moving it.
    pub(crate) state: Boxed<SessionState>,
}

impl Session {
    /// The state, to be looked at.
    #[inline(always)]
    pub(crate) fn state(&self) -> &SessionState
        ensures { result.now ≡ self.now.state }
    {
        self.state.get()
    }
}

/// Whether a session has a cue.
pub(crate) fn is_ready(session: &Session) -> bool
    ensures { result ≡ is_ready (session_image session.now) }
{
    match &session.state().phase {
        Phase::Fresh => true,
        Phase::Running => is_waited_for(session),
        Phase::Ended(_) => false,
    }
}

pub(crate) fn is_live(phase: &Phase) -> bool
    ensures { result ≡ is_live phase.now }
{
    !matches!(phase, Phase::Ended(_))
}

pub(crate) fn is_running(phase: &Phase) -> bool
    ensures { result ≡ is_running phase.now }
{
    matches!(phase, Phase::Running)
}

/// Whether something waits for a session that runs.
#[tactic(auto, using(crate::proofs::BodyLemmas::waits_in))]
fn is_waited_for(session: &Session) -> bool
    ensures { session.now.state.phase ≡ Phase.Running → result ≡ is_ready (session_image session.now) }
{
    session.queued.len() > 0
        || session.flagged
        || session.failures.len() > 0
        || session.state().internal.len() > 0
}
