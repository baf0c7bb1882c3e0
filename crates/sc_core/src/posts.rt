ghost use Rattle.std.specs.Prelude.{◌≡◌, ◌+◌, ◌^◌, ◌<◌, Some, IfOk, IfSome, length, option_map, slice_get};
ghost use Rattle.sc_core.specs.Bodies.{Agrees, image, session_image};
ghost use Rattle.sc_machine.specs.Commands.{cancel, post, posted_event};
ghost use Rattle.sc_machine.specs.Hosts.{session_named};
ghost use Rattle.sc_core.specs.Preparing.{InstallNone, Prepares};
ghost use Rattle.sc_law.specs.Runs.{pairs_data};

use crate::additions::numbered;
use crate::body::Body;
use crate::change::Change;
use crate::prepared::{Prepared, ended};
use crate::session::Session;
use crate::weights::is_too_heavy;
use sc_base::{NoMemory, Plain, Shared, SharedBytes, Word};
use sc_types::{Data, EVENT_NAME_LIMIT, Event, Kind, PAIR_LIMIT, PairList, Phase, Refusal, Reply};
use std::alloc::Global;

impl<P: Drop> Body<P> {
    /// The session of a name, with its place.
    pub(crate) fn session_named(&self, name: &Word) -> Option<(usize, &Session)>
        requires agrees { Agrees self.now }
        ensures value { option_map (λ p. (p.0, session_image p.1.now)) result
            ≡ session_named (image self.now) name.now }
        ensures within { IfSome result (λ p. p.0 < length self.now.sessions.items) }
        ensures at { IfSome result (λ p. slice_get self.now.sessions.items p.0 ≡ Some p.1.now) }
    {
        let place = self.session_place(name)?;
        let session = self.sessions.get(place)?;
        Some((place, session))
    }

    /// Prepares that an event is queued for a session.
    pub(crate) fn draft_post(
        &self,
        alloc: Global,
        session: &Word,
        name: &Word,
        pairs: &PairList,
    ) -> Result<Prepared<P>, NoMemory>
        requires agrees { Agrees self.now }
        requires commands { self.now.commands + 1 < 2 ^ 64 }
        requires events { self.now.events + 1 < 2 ^ 128 }
        ensures answer { IfOk result
            (Prepares (post (image self.now) session.now name.now pairs.now) (image self.now)) }
        ensures none { IfOk result (λ p. InstallNone p.changes) }
    {
        if name.bytes().len() > EVENT_NAME_LIMIT {
            return Ok(Prepared::refused(alloc, Refusal::TooLong(3)));
        }
        if pairs.len() > PAIR_LIMIT {
            return Ok(Prepared::refused(alloc, Refusal::TooLong(4)));
        }
        if is_too_heavy(pairs) {
            return Ok(Prepared::refused(alloc, Refusal::TooLong(5)));
        }
        let Some((place, found)) = self.session_named(session) else {
            return Ok(Prepared::refused(alloc, Refusal::NoSession));
        };
        if let Phase::Ended(how) = &found.state().phase {
            return Ok(Prepared::refused(alloc, ended(alloc, how)?));
        }
        let number = self.events + 1;
        let event = Shared::new(alloc, numbered(number, posted_event(name, pairs)?))?;
        let change = Change::Queue { place, event };
        Ok(Prepared::accepted(alloc, Reply::Posted(number), change))
    }

    /// Prepares that a session is flagged, so that its next turn ends it.
    #[inline(never)]
    pub(crate) fn draft_cancel(
        &self,
        alloc: Global,
        session: &Word,
    ) -> Result<Prepared<P>, NoMemory>
        requires agrees { Agrees self.now }
        requires commands { self.now.commands + 1 < 2 ^ 64 }
        ensures answer { IfOk result
            (Prepares (cancel (image self.now) (session_named (image self.now) session.now)) (image self.now)) }
        ensures none { IfOk result (λ p. InstallNone p.changes) }
    {
        let Some((place, found)) = self.session_named(session) else {
            return Ok(Prepared::refused(alloc, Refusal::NoSession));
        };
        if let Phase::Ended(how) = &found.state().phase {
            return Ok(Prepared::refused(alloc, ended(alloc, how)?));
        }
        let change = Change::Flag { place };
        Ok(Prepared::accepted(alloc, Reply::Cancelled, change))
    }
}

fn pairs_data(pairs: &PairList) -> Result<Data, NoMemory>
    ensures { IfOk result (λ d. d ≡ pairs_data pairs.now) }
{
    if pairs.is_empty() {
        return Ok(Data::Absent);
    }
    Ok(Data::Pairs(pairs.copy()?))
}

fn posted_event(name: &Word, pairs: &PairList) -> Result<Event, NoMemory>
    ensures { IfOk result (λ e. e ≡ posted_event name.now pairs.now) }
{
    Ok(Event {
        number: 0,
        name: name.name()?,
        kind: Kind::External,
        sendid: SharedBytes::empty(),
        origin: SharedBytes::empty(),
        origintype: SharedBytes::empty(),
        invokeid: SharedBytes::empty(),
        payload: pairs_data(pairs)?,
    })
}
