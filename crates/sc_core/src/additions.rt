ghost use Rattle.std.specs.Prelude.{◌≡◌, ◌+◌, ◌^◌, ◌<◌, ◌≤◌, All, List, [], ◌∷◌, ◌++◌, None, Some, MatchOption, drop, length, slice_get};
ghost use Rattle.sc_rooms.specs.Rooms.{place_of};
ghost use Rattle.sc_core.specs.Bodies.{Agrees, Makes, image};
ghost use Rattle.sc_core.specs.Changes.{IsFirstDue, lose, numbered, with_chart, with_invokeid, with_send_pending, with_started, without_sends};
ghost use Rattle.sc_types.specs.declared.host.TimerImage.{TimerImage};

use crate::body::{Body, InstalledChart};
use crate::changes::mark;
use crate::session::{Session, is_ready};
use sc_base::{SharedBytes, Word};
use sc_types::{Event, TimerImage};

impl<P: Drop> Body<P> {
    /// Counts a command.
    pub(crate) fn count(&mut self)
        requires agrees { Agrees self.old }
        requires number { self.old.commands + 1 < 2 ^ 64 }
        ensures makes { Makes (record (image self.old) { commands = self.old.commands + 1 }) self.old self.new }
        ensures charts { self.new.charts.items ≡ self.old.charts.items }
    {
        self.commands += 1;
    }

    /// Advances the clock.
    pub(crate) fn advance(&mut self, clock: u64)
        requires agrees { Agrees self.old }
        ensures makes { Makes (record (image self.old) { clock = clock }) self.old self.new }
        ensures charts { self.new.charts.items ≡ self.old.charts.items }
    {
        self.clock = clock;
    }

    /// Installs a chart under its name, which is new.
    pub(crate) fn install_chart(&mut self, name: Word, chart: InstalledChart<P>)
        requires agrees { Agrees self.old }
        requires name { chart.image.name ≡ name }
        requires new { place_of name self.old.charts.names ≡ None }
        requires room { 0 < self.old.charts.spare }
        ensures makes { Makes (with_chart (image self.old) chart.image) self.old self.new }
        ensures charts { self.new.charts.items ≡ self.old.charts.items ++ chart ∷ [] }
    {
        self.charts.add(name, chart);
    }

    /// Starts a session under its name, which is new.
    pub(crate) fn start(&mut self, name: Word, session: Session)
        requires agrees { Agrees self.old }
        requires name { session.state.session ≡ name }
        requires new { place_of name self.old.sessions.names ≡ None }
        requires invoker { session.invoker ≡ None }
        requires children { session.children.items ≡ [] }
        requires ready { 0 < self.old.ready.spare }
        requires room { 0 < self.old.sessions.spare }
        ensures makes { Makes (with_started (image self.old) session) self.old self.new }
        ensures newest { slice_get self.new.sessions.items (length self.old.sessions.items) ≡ Some session }
        ensures charts { self.new.charts.items ≡ self.old.charts.items }
    {
        mark(&mut self.ready, self.sessions.len(), is_ready(&session));
        self.sessions.add(name, session);
    }

    /// Adds a pending send, which is the newest.
    pub(crate) fn delay(&mut self, send: TimerImage)
        requires agrees { Agrees self.old }
        requires newest { All (λ (s : TimerImage). s.number < send.number) self.old.timers.sends }
        requires room { 0 < self.old.timers.spare }
        ensures makes { Makes (with_send_pending (image self.old) send) self.old self.new }
        ensures charts { self.new.charts.items ≡ self.old.charts.items }
    {
        self.delayed = send.number;
        self.timers.add(send);
    }

    /// Drops the pending sends of a session that have an id.
    pub(crate) fn undo(&mut self, session: &Word, id: &SharedBytes)
        requires agrees { Agrees self.old }
        ensures makes { Makes (without_sends (image self.old) session.now id.now) self.old self.new }
        ensures charts { self.new.charts.items ≡ self.old.charts.items }
    {
        let _ = self.timers.cancel_all(session.bytes(), id.slice());
    }

    /// Takes the first pending send out, which is due.
    fn take_first(&mut self) -> Option<TimerImage>
        requires due { IsFirstDue self.old.clock self.old.timers.sends }
        ensures body { self.new
            ≡ record self.old { timers = record self.old.timers { sends = drop 1 self.old.timers.sends } } }
        ensures send { MatchOption result (self.old.timers.sends ≡ [])
            (λ t. self.old.timers.sends ≡ t ∷ drop 1 self.old.timers.sends) }
    {
        self.timers.take_due(self.clock)
    }

    /// Drops the first pending send, which is due.
    pub(crate) fn lose(&mut self)
        requires agrees { Agrees self.old }
        requires due { IsFirstDue self.old.clock self.old.timers.sends }
        ensures makes { Makes (lose (image self.old)) self.old self.new }
        ensures charts { self.new.charts.items ≡ self.old.charts.items }
    {
        let _ = self.take_first();
    }
}

/// An event with the id of an invocation, where one is given.
pub(crate) fn with_invokeid(mut event: Event, invokeid: Option<SharedBytes>) -> Event
    ensures { result ≡ with_invokeid event invokeid }
{
    if let Some(id) = invokeid {
        event.invokeid = id;
    }
    event
}

/// An event under a number.
pub(crate) fn numbered(number: u128, mut event: Event) -> Event
    ensures { result ≡ numbered number event }
{
    event.number = number;
    event
}
