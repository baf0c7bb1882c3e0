ghost use Rattle.std.specs.Prelude.{◌≡◌, ◌+◌, ◌^◌, ◌<◌, ◌≤◌, Some, false, length, not, slice_get};
ghost use Rattle.std.specs.Option.{option_map_or};
ghost use Rattle.sc_core.specs.Bodies.{Agrees, Makes, failure_room, image, marked, queue_room};
ghost use Rattle.sc_core.specs.Changes.{clear_at, flag, put_state, queue_at, take_front, tell};
ghost use Rattle.sc_machine.specs.Hosts.{is_live};
ghost use Rattle.sc_core.specs.declared.session.Session.{Session};

use crate::body::Body;
use crate::session::{is_live, is_ready};
use sc_base::{Boxed, Shared};
use sc_rooms::Places;
use sc_types::{Event, SessionState};

/// Notes whether the session at a place has a cue.
pub(crate) fn mark(ready: &mut Places, place: usize, is_ready: bool)
    requires room { 0 < ready.old.spare }
    ensures places { ready.new.places ≡ marked is_ready place ready.old.places }
    ensures room { ready.old.spare ≤ ready.new.spare + 1 }
{
    if is_ready {
        ready.insert(place);
    } else {
        ready.remove(place);
    }
}

/// The same where a place was marked already as it `was`: most changes leave a session ready that is ready.
fn mark_anew(ready: &mut Places, place: usize, was: bool, is_ready: bool)
    requires same { was ≡ is_ready → marked is_ready place ready.old.places ≡ ready.old.places }
    requires room { 0 < ready.old.spare }
    ensures places { ready.new.places ≡ marked is_ready place ready.old.places }
    ensures room { ready.old.spare ≤ ready.new.spare + 1 }
{
    if was != is_ready {
        mark(ready, place, is_ready);
    }
}

impl<P: Drop> Body<P> {
    /// Puts an event, which has the next number, into the external queue of the session at a place.
    pub(crate) fn queue(&mut self, place: usize, event: Shared<Event>)
        requires agrees { Agrees self.old }
        requires within { place < length self.old.sessions.items }
        requires number { event.number ≡ self.old.events + 1 }
        requires counted { self.old.events + 1 < 2 ^ 128 }
        requires ready { 0 < self.old.ready.spare }
        requires room { 0 < queue_room self.old place }
        ensures makes { Makes (queue_at (image self.old) place event) self.old self.new }
        ensures charts { self.new.charts.items ≡ self.old.charts.items }
    {
        self.events += 1;
        let session = self.sessions.item_mut(place);
        let before = session.queued.len();
        session.queued.push(event);
        // Behind other events it changes no cue.
        if before > 0 {
            return;
        }
        mark(&mut self.ready, place, is_ready(session));
    }

    /// Puts an event into the internal queue of the session at a place.
    pub(crate) fn tell(&mut self, place: usize, event: Event)
        requires agrees { Agrees self.old }
        requires within { place < length self.old.sessions.items }
        requires ready { 0 < self.old.ready.spare }
        requires room { 0 < failure_room self.old place }
        ensures makes { Makes (tell (image self.old) place event) self.old self.new }
        ensures charts { self.new.charts.items ≡ self.old.charts.items }
    {
        let session = self.sessions.item_mut(place);
        session.failures.push(event);
        mark(&mut self.ready, place, is_ready(session));
    }

    /// Replaces the state of the session at a place.
    #[inline(always)]
    pub(crate) fn put_state(&mut self, place: usize, state: Boxed<SessionState>)
        requires agrees { Agrees self.old }
        requires within { place < length self.old.sessions.items }
        requires name { slice_get self.old.sessions.names place ≡ Some state.session }
        requires ready { 0 < self.old.ready.spare }
        ensures makes { Makes (put_state (image self.old) place state) self.old self.new }
        ensures charts { self.new.charts.items ≡ self.old.charts.items }
    {
        let session = self.sessions.item_mut(place);
        let was = is_ready(session);
        session.failures.clear();
        session.state = state;
        mark_anew(&mut self.ready, place, was, is_ready(session));
    }

    /// Takes the front of the external queue of the session at a place.
    #[inline(always)]
    pub(crate) fn take_front(&mut self, place: usize)
        requires agrees { Agrees self.old }
        requires within { place < length self.old.sessions.items }
        requires ready { 0 < self.old.ready.spare }
        ensures makes { Makes (take_front (image self.old) place) self.old self.new }
        ensures charts { self.new.charts.items ≡ self.old.charts.items }
    {
        let session = self.sessions.item_mut(place);
        let was = is_ready(session);
        let _ = session.queued.pop_front();
        mark_anew(&mut self.ready, place, was, is_ready(session));
    }

    /// Lets the next turn of the session at a place end it.
    pub(crate) fn flag(&mut self, place: usize)
        requires agrees { Agrees self.old }
        requires within { place < length self.old.sessions.items }
        requires ready { 0 < self.old.ready.spare }
        ensures makes { Makes (flag (image self.old) place) self.old self.new }
        ensures charts { self.new.charts.items ≡ self.old.charts.items }
    {
        let session = self.sessions.item_mut(place);
        if session.flagged {
            return;
        }
        session.flagged = true;
        mark(&mut self.ready, place, is_ready(session));
    }

    /// Whether the session at a place has ended.
    fn has_ended(&self, place: usize) -> bool
        ensures { result
            ≡ option_map_or (λ (s : Session). not (is_live s.state.phase)) (slice_get self.now.sessions.items place)
            false }
    {
        match self.sessions.get(place) {
            Some(session) => !is_live(&session.state().phase),
            None => false,
        }
    }

    /// Clears the session at a place, where it has ended.
    pub(crate) fn end(&mut self, place: usize)
        requires agrees { Agrees self.old }
        requires within { place < length self.old.sessions.items }
        requires ready { 0 < self.old.ready.spare }
        ensures makes { Makes (clear_at (image self.old) place) self.old self.new }
        ensures charts { self.new.charts.items ≡ self.old.charts.items }
    {
        if !self.has_ended(place) {
            return;
        }
        let session = self.sessions.item_mut(place);
        session.queued.clear();
        let _ = self.timers.discard(session.state().session.bytes());
        mark(&mut self.ready, place, is_ready(session));
    }
}
