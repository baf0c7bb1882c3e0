ghost use Rattle.std.specs.Prelude.{◌≡◌, ◌++◌, IfOk};
ghost use Rattle.sc_core.specs.Bodies.{session_image};
ghost use Rattle.sc_machine.specs.Cues.{cue_of, name_of, outer_cue, queued_cue, waiting_cue};

use crate::session::Session;
use sc_base::{NoMemory, Plain, Shared};
use sc_rooms::RoomyQueue;
use sc_types::{Cue, CueName, Event, Phase};

/// What the next turn of a session begins with.
pub(crate) fn cue_of(session: &Session) -> Result<Option<Cue>, NoMemory>
    ensures { IfOk result (λ cue. cue ≡ cue_of (session_image session.now)) }
{
    match &session.state().phase {
        Phase::Fresh => Ok(Some(Cue::Fresh)),
        Phase::Running => waiting_cue(session),
        Phase::Ended(_) => Ok(None),
    }
}

fn waiting_cue(session: &Session) -> Result<Option<Cue>, NoMemory>
    ensures { IfOk result (λ cue. cue
        ≡ waiting_cue (session.now.state.internal ++ session.now.failures.items) session.now.flagged
        session.now.queued.items) }
{
    if session.state().internal.front().is_some() || session.failures.front().is_some() {
        return Ok(Some(Cue::Resume));
    }
    outer_cue(session.flagged, &session.queued)
}

fn outer_cue(flagged: bool, queued: &RoomyQueue<Shared<Event>>) -> Result<Option<Cue>, NoMemory>
    ensures { IfOk result (λ cue. cue ≡ outer_cue flagged queued.now.items) }
{
    if flagged {
        return Ok(Some(Cue::Cancel));
    }
    match queued.front() {
        Some(front) => Ok(Some(Cue::External(front.copy()?))),
        None => Ok(None),
    }
}

pub(crate) fn name_of(cue: &Cue) -> CueName
    ensures { result ≡ name_of cue.now }
{
    match cue {
        Cue::Fresh => CueName::Fresh,
        Cue::Resume => CueName::Resume,
        Cue::Cancel => CueName::Cancel,
        Cue::External(event) => CueName::External(event.get().number),
    }
}
