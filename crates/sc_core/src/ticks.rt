ghost use Rattle.std.specs.Prelude.{◌≡◌, ◌+◌, ◌^◌, ◌<◌, ◌≤◌, [], ◌∷◌, ◌++◌, None, Some, IfOk, MatchOption, OnOk, drop, filter, if◌then◌else◌, length, nat_lt, option_map, slice_get};
ghost use Rattle.sc_core.specs.Bodies.{Agrees, image};
ghost use Rattle.sc_machine.specs.Commands.{advance, tick};
ghost use Rattle.sc_machine.specs.Deliveries.{is_due};
ghost use Rattle.sc_core.specs.Preparing.{InstallNone, Prepares};
ghost use Rattle.sc_core.specs.Ticking.{Adds, fired, fired_at, fired_failed, fired_lost};
ghost use Rattle.sc_core.specs.declared.session.Session.{Session};
ghost use Rattle.sc_types.specs.declared.limits.TheConstants.{CLOCK_LIMIT};

use crate::additions::{numbered, with_invokeid};
use crate::aims::{Aim, invokeid_for};
use crate::body::Body;
use crate::change::Change;
use crate::change_list::ChangeList;
use crate::failures::communication_error;
use crate::prepared::Prepared;
use crate::session::is_running;
use sc_base::{Boxed, BoxedSequence, NoMemory, Plain, Queue, Sequence, Shared, SharedBytes, Word};
use sc_types::{CLOCK_LIMIT, Delivery, Event, InvokerImage, Phase, Refusal, Reply, TimerImage};
use std::alloc::Global;

/// What is drafted so far of an advance of the clock.
#[derive(Drop)]
pub(crate) struct TickDraft<P> {
    changes: Queue<Change<P>>,
    /// What became of each send that came due.
    sent: Sequence<Delivery>,
    /// The number of the last event.
    events: u128,
}

/// The clock after so many milliseconds, unless it would pass its last value.
fn later(clock: u64, ticks: u64) -> Option<u64>
    ensures { result ≡ (if nat_lt CLOCK_LIMIT (clock + ticks) then None else Some (clock + ticks)) }
{
    let now = clock.checked_add(ticks)?;
    if now > CLOCK_LIMIT {
        return None;
    }
    Some(now)
}

impl<P: Drop> TickDraft<P> {
    /// The clock advances.
    fn new(alloc: Global, clock: u64, events: u128) -> Result<TickDraft<P>, NoMemory>
        ensures changes { IfOk result (λ d. d.changes ≡ Change.Advance clock ∷ []) }
        ensures sent { IfOk result (λ d. d.sent ≡ []) }
        ensures events { IfOk result (λ d. d.events ≡ events) }
    {
        let mut changes = Queue::new(alloc);
        changes.push(Change::Advance { clock })?;
        Ok(TickDraft {
            changes,
            sent: Sequence::new(alloc),
            events,
        })
    }

    /// A send that comes due is given up.
    fn lose(&mut self) -> Result<(), NoMemory>
        ensures { OnOk result (Adds (fired_lost self.old.events Delivery.Dropped) self.old self.new) }
    {
        self.changes.push(Change::Lose)?;
        self.sent.push(Delivery::Dropped)
    }

    /// A send that comes due reaches nobody. Its sender, which stands at a place, hears of it while it runs.
    fn fail(
        &mut self,
        alloc: Global,
        place: usize,
        phase: &Phase,
        sendid: &SharedBytes,
    ) -> Result<(), NoMemory>
        ensures { OnOk result
            (Adds (fired_failed self.old.events place phase.now sendid.now) self.old self.new) }
    {
        self.changes.push(Change::Lose)?;
        if is_running(phase) {
            let event = Boxed::new(alloc, communication_error(alloc, sendid)?)?;
            self.changes.push(Change::Tell { place, event })?;
        }
        self.sent.push(Delivery::Unreachable)
    }

    /// A send that comes due reaches the session at a place, which has this name.
    fn reach(
        &mut self,
        alloc: Global,
        place: usize,
        name: &Word,
        invoker: &Option<InvokerImage>,
        event: &Event,
    ) -> Result<(), NoMemory>
        requires number { self.old.events + 1 < 2 ^ 128 }
        ensures { OnOk result (Adds (fired_at self.old.events place invoker.now event.now name.now) self.old self.new) }
    {
        let number = self.events + 1;
        let session = name.copy()?;
        let invokeid = invokeid_for(invoker, name)?;
        let event = numbered(number, with_invokeid(event.copy()?, invokeid));
        let event = Shared::new(alloc, event)?;
        self.changes.push(Change::Lose)?;
        self.changes.push(Change::Queue { place, event })?;
        self.sent.push(Delivery::Queued { number, session })?;
        self.events = number;
        Ok(())
    }

    /// The command is counted.
    fn finish(self, alloc: Global) -> Result<Prepared<P>, NoMemory>
        ensures changes { IfOk result (λ p. p.changes ≡ self.changes ++ Change.Count ∷ []) }
        ensures reply { IfOk result (λ p. p.reply ≡ Reply.Ticked (length self.sent)) }
        ensures logs { IfOk result (λ p. p.logs ≡ []) }
        ensures sent { IfOk result (λ p. p.sent ≡ self.sent) }
    {
        Ok(Prepared {
            changes: ChangeList::all(self.changes),
            reply: Reply::Ticked(self.sent.len() as u64),
            logs: BoxedSequence::empty(),
            sent: self.sent,
        })
    }
}

impl<P: Drop> Body<P> {
    /// The name of the session at a place.
    fn name_at(&self, place: usize) -> &Word
        requires within { place < length self.now.sessions.items }
        ensures { option_map (λ (s : Session). s.state.session) (slice_get self.now.sessions.items place)
            ≡ Some result.now }
    {
        match self.sessions.get(place) {
            Some(session) => &session.state().session,
            None => unreachable!(),
        }
    }

    /// The pending send at a place of the due order, where it is due by this moment.
    fn due_send(&self, place: usize, now: u64) -> Option<&TimerImage>
        ensures { MatchOption result (filter (is_due now) (drop place self.now.timers.sends) ≡ [])
            (λ t. (slice_get self.now.timers.sends place ≡ Some t.now) × (t.now.due ≤ now)) }
    {
        let Some(send) = self.timers.get(place) else {
            return None;
        };
        if send.due > now {
            return None;
        }
        Some(send)
    }

    /// Drafts what a send makes that comes due.
    fn draft_fire(
        &self,
        alloc: Global,
        draft: &mut TickDraft<P>,
        send: &TimerImage,
    ) -> Result<(), NoMemory>
        requires agrees { Agrees self.now }
        requires number { draft.old.events + 1 < 2 ^ 128 }
        ensures { OnOk result (Adds (fired (image self.now) draft.old.events send.now) draft.old draft.new) }
    {
        let Some((place, sender)) = self.session_named(&send.session) else {
            return draft.lose();
        };
        match self.aim(place, sender.state(), &sender.invoker, &send.to) {
            Aim::Reaches(to) => draft.reach(
                alloc,
                to,
                self.name_at(to),
                &sender.invoker,
                &send.event,
            ),
            Aim::Fails => draft.fail(alloc, place, &sender.state().phase, &send.event.sendid),
            Aim::Drops => draft.lose(),
        }
    }

    /// Prepares that the clock advances to a moment, and what comes due by then is sent.
    fn draft_advance(&self, alloc: Global, now: u64) -> Result<Prepared<P>, NoMemory>
        requires agrees { Agrees self.now }
        requires commands { self.now.commands + 1 < 2 ^ 64 }
        requires events { self.now.events + 2 ^ 64 < 2 ^ 128 }
        ensures prepares { IfOk result (Prepares (advance (image self.now) now) (image self.now)) }
        ensures plans { IfOk result (λ p. InstallNone p.changes) }
    {
        let mut draft = TickDraft::new(alloc, now, self.events)?;
        while let Some(send) = self.due_send(draft.sent.len(), now) {
            self.draft_fire(alloc, &mut draft, send)?;
        }
        draft.finish(alloc)
    }

    /// Prepares that the clock advances, and what comes due is sent.
    #[inline(never)]
    pub(crate) fn draft_tick(&self, alloc: Global, ticks: u64) -> Result<Prepared<P>, NoMemory>
        requires agrees { Agrees self.now }
        requires commands { self.now.commands + 1 < 2 ^ 64 }
        requires events { self.now.events + 2 ^ 64 < 2 ^ 128 }
        ensures prepares { IfOk result (Prepares (tick (image self.now) ticks) (image self.now)) }
        ensures plans { IfOk result (λ p. InstallNone p.changes) }
    {
        let Some(now) = later(self.clock, ticks) else {
            return Ok(Prepared::refused(alloc, Refusal::ClockFull));
        };
        self.draft_advance(alloc, now)
    }
}
