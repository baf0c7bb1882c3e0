ghost use Rattle.std.specs.Prelude.{◌≡◌, ◌≤◌, ◌<◌, [], None, Some, OnOk, length, option_map, slice_get};
ghost use Rattle.sc_core.specs.Bodies.{Agrees, Keeps, session_image};
ghost use Rattle.sc_core.specs.declared.session.Session.{Session};

use crate::body::Body;
use crate::session::Session;
use sc_base::{NoMemory, Plain};

/// Moves what the host put behind an internal queue into the queue itself, where a turn finds it. Out of memory, some
/// of it stays behind; the session is the same in any case.
fn settle(session: &mut Session) -> Result<(), NoMemory>
    ensures image { session_image session.new ≡ session_image session.old }
    ensures settled { OnOk result (session.new.failures.items ≡ []) }
    ensures queued { session.new.queued ≡ session.old.queued }
    ensures children { session.new.children ≡ session.old.children }
    ensures spare { session.old.failures.spare ≤ session.new.failures.spare }
{
    while let Some(event) = session.failures.front() {
        session.state.get_mut().internal.push(event.copy()?)?;
        let _ = session.failures.pop_front();
    }
    Ok(())
}

impl<P: Drop> Body<P> {
    /// Moves what the host put behind the internal queue of the session at a place into the queue itself.
    pub(crate) fn settle(&mut self, place: usize) -> Result<(), NoMemory>
        requires agrees { Agrees self.old }
        requires within { place < length self.old.sessions.items }
        ensures keeps { Keeps self.old self.new }
        ensures charts { self.new.charts.items ≡ self.old.charts.items }
        ensures settled { OnOk result
            (option_map (λ (s : Session). s.failures.items) (slice_get self.new.sessions.items place) ≡ Some []) }
    {
        settle(self.sessions.item_mut(place))
    }
}
