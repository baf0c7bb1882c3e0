ghost use Rattle.std.specs.Prelude.{ℕ, ◌≡◌, ◌++◌, [], ◌∷◌, ◌+◌, ◌-◌, ◌^◌, ◌<◌, ◌≤◌, ◌&&◌, nat_lt, Some, IfOk, IfSome, OnOk, count_by, length, option_map, slice_get};
ghost use Rattle.sc_core.specs.Bodies.{Agrees, image, session_image};
ghost use Rattle.sc_core.specs.Changes.{numbered};
ghost use Rattle.sc_core.specs.Counting.{count_after};
ghost use Rattle.sc_machine.specs.Deliveries.{delay_send, deliver, deliver_of, send_named, send_now, undo, unreachable};
ghost use Rattle.sc_core.specs.Drafts.{Drafts, IsDraft, IsSender, Notes, so_far, stepper};
ghost use Rattle.sc_machine.specs.Hosts.{is_live};
ghost use Rattle.sc_core.specs.declared.change.Change.TheVariants as change;
ghost use Rattle.sc_types.specs.Sends.{is_send};
ghost use Rattle.sc_types.specs.declared.event.Event.{Event};
ghost use Rattle.sc_types.specs.declared.host.HostImage.{HostImage};
ghost use Rattle.sc_types.specs.declared.host.SessionImage.{SessionImage};

use crate::additions::{numbered, with_invokeid};
use crate::aims::{invokeid_for, is_cut_from, receiver_name};
use crate::body::Body;
use crate::change::Change;
use crate::draft::Draft;
use crate::failures::communication_error;
use crate::invocations::Invocation;
use crate::session::{is_live, is_running};
use sc_base::{Boxed, NoMemory, Plain, Shared, SharedBytes, Word};
use sc_types::{Delivery, Effect, Event, InvokerImage, Phase, SessionState, TimerImage, To};
use std::alloc::Global;

/// Whether a session in this phase may delay a send, when so many were delayed before.
fn may_delay(phase: &Phase, delayed: u64) -> bool
    ensures { result ≡ (is_live phase.now && nat_lt delayed (2 ^ 64 - 1)) }
{
    is_live(phase) && delayed < u64::MAX
}

/// How many sends of a session have an id after a change, where so many had it before.
fn count_after<P>(
    change: &Change<P>,
    session: &Word,
    id: &SharedBytes,
    count: u64,
) -> Result<u64, NoMemory>
    ensures { IfOk result (λ n. n ≡ count_after session.now id.now change.now count) }
{
    match change {
        Change::Delay { send } => {
            let send = send.get();
            if send.session.bytes() == session.bytes() && send.event.sendid.slice() == id.slice() {
                return count.checked_add(1).ok_or(NoMemory);
            }
            Ok(count)
        }
        Change::Undo {
            session: of,
            id: undone,
        } => {
            if of.bytes() == session.bytes() && undone.slice() == id.slice() {
                return Ok(0);
            }
            Ok(count)
        }
        _ => Ok(count),
    }
}

impl<P: Drop> Body<P> {
    /// The invoker of the session at a place.
    pub(crate) fn invoker_at(&self, place: usize) -> &Option<InvokerImage>
        requires within { place < length self.now.sessions.items }
        ensures { option_map (λ (s : SessionImage). s.invoker) (slice_get (image self.now).sessions place)
            ≡ Some result.now }
    {
        match self.sessions.get(place) {
            Some(session) => &session.invoker,
            None => unreachable!(),
        }
    }

    /// Prepares that the sender hears of a failure, while it runs.
    fn draft_failure(
        &self,
        alloc: Global,
        draft: &mut Draft<P>,
        place: usize,
        after: &SessionState,
        sendid: &SharedBytes,
    ) -> Result<Delivery, NoMemory>
        ensures told { IfOk result (λ told. (g : HostImage) (t : SessionImage) (e : Event)
            → IsSender (image self.now) place after.now g draft.old t → e.sendid ≡ sendid.now
            → Drafts (stepper after.now.session place) g draft.old draft.new
            (unreachable (so_far g draft.old) place t e) told) }
        ensures number { OnOk result (draft.new.events ≤ draft.old.events + 1) }
    {
        if !is_running(&after.phase) {
            return Ok(Delivery::Unreachable);
        }
        let event = communication_error(alloc, sendid)?;
        draft.tell(alloc, place, event)?;
        Ok(Delivery::Unreachable)
    }

    /// Prepares that an event joins the external queue of the session at a place.
    pub(crate) fn draft_queue(
        &self,
        alloc: Global,
        draft: &mut Draft<P>,
        place: usize,
        session: Word,
        event: Event,
    ) -> Result<Delivery, NoMemory>
        requires number { draft.old.events + 1 < 2 ^ 128 }
        ensures made { IfOk result (λ told. (draft.new ≡ record draft.old {
          changes = draft.old.changes ++ change.Queue place (numbered (draft.old.events + 1) event) ∷ [];
          events = draft.old.events + 1;
        }) × (told ≡ Delivery.Queued (draft.old.events + 1) session)) }
    {
        let number = draft.events + 1;
        let event = Shared::new(alloc, numbered(number, event))?;
        draft.changes.push(Change::Queue { place, event })?;
        draft.events = number;
        Ok(Delivery::Queued { number, session })
    }

    /// Prepares that the session at a place sends an event to the session of a name.
    fn draft_named(
        &self,
        alloc: Global,
        draft: &mut Draft<P>,
        place: usize,
        after: &SessionState,
        name: &Word,
        event: Event,
    ) -> Result<Delivery, NoMemory>
        requires agrees { Agrees self.now }
        requires within { place < length self.now.sessions.items }
        requires there { option_map (λ (s : SessionImage). s.state.session) (slice_get (image self.now).sessions place)
            ≡ Some after.now.session }
        requires number { draft.old.events + 1 < 2 ^ 128 }
        ensures told { IfOk result (λ told. (g : HostImage) (t : SessionImage)
            → IsSender (image self.now) place after.now g draft.old t
            → Drafts (stepper after.now.session place) g draft.old draft.new
            (send_named (so_far g draft.old) place t event (Some name.now)) told) }
        ensures number { OnOk result (draft.new.events ≤ draft.old.events + 1) }
    {
        let invoker = self.invoker_at(place);
        if is_cut_from(invoker, name) {
            return Ok(Delivery::Dropped);
        }
        let Some(receiver) = self.live_place(&draft.births, place, after, name) else {
            return self.draft_failure(alloc, draft, place, after, &event.sendid);
        };
        let invokeid = invokeid_for(invoker, name)?;
        self.draft_queue(
            alloc,
            draft,
            receiver,
            name.copy()?,
            with_invokeid(event, invokeid),
        )
    }

    /// Prepares that the session at a place sends an event.
    fn draft_send(
        &self,
        alloc: Global,
        draft: &mut Draft<P>,
        place: usize,
        after: &SessionState,
        to: &To,
        event: Event,
    ) -> Result<Delivery, NoMemory>
        requires agrees { Agrees self.now }
        requires within { place < length self.now.sessions.items }
        requires there { option_map (λ (s : SessionImage). s.state.session) (slice_get (image self.now).sessions place)
            ≡ Some after.now.session }
        requires number { draft.old.events + 1 < 2 ^ 128 }
        ensures told { IfOk result (λ told. (g : HostImage) (t : SessionImage)
            → IsSender (image self.now) place after.now g draft.old t
            → Drafts (stepper after.now.session place) g draft.old draft.new
            (send_now (so_far g draft.old) place t to.now event) told) }
        ensures number { OnOk result (draft.new.events ≤ draft.old.events + 1) }
    {
        match receiver_name(&after.session, self.invoker_at(place), to) {
            Some(name) => self.draft_named(alloc, draft, place, after, name, event),
            None => self.draft_failure(alloc, draft, place, after, &event.sendid),
        }
    }

    /// Prepares that an event of the session at a place is pending until its delay is over.
    fn draft_delay(
        &self,
        alloc: Global,
        draft: &mut Draft<P>,
        place: usize,
        after: &SessionState,
        to: To,
        event: Event,
        delay: u64,
    ) -> Result<Delivery, NoMemory>
        ensures told { IfOk result (λ told. (g : HostImage) (t : SessionImage)
            → IsSender (image self.now) place after.now g draft.old t
            → Drafts (stepper after.now.session place) g draft.old draft.new
            (delay_send (so_far g draft.old) t to event delay) told) }
        ensures number { OnOk result (draft.new.events ≤ draft.old.events + 1) }
    {
        if !may_delay(&after.phase, draft.delayed) {
            return Ok(Delivery::Dropped);
        }
        let number = draft.delayed + 1;
        let due = self.clock.saturating_add(delay);
        let send = TimerImage {
            session: after.session.copy()?,
            number,
            due,
            event,
            to,
        };
        let send = Boxed::new(alloc, send)?;
        draft.changes.push(Change::Delay { send })?;
        draft.delayed = number;
        Ok(Delivery::Timed { number, due })
    }

    /// How many sends of a session have an id after the changes so far.
    fn pending(&self, draft: &Draft<P>, session: &Word, id: &SharedBytes) -> Result<u64, NoMemory>
        ensures { IfOk result (λ n. (g : HostImage) (place : ℕ) → g.timers ≡ self.now.timers.sends
            → IsDraft (stepper session.now place) g draft.now
            → n ≡ count_by (is_send session.now id.now) (so_far g draft.now).timers) }
    {
        let mut count = self.timers.count(session.bytes(), id.slice());
        let mut place = 0;
        // A length fits a usize, so the place cannot run out.
        let _end = draft.changes.len();
        while let Some(change) = draft.changes.get(place) {
            count = count_after(change, session, id, count)?;
            place += 1;
        }
        Ok(count)
    }

    /// Prepares that the pending sends go which the session at a place made under an id.
    fn draft_undo(
        &self,
        draft: &mut Draft<P>,
        place: usize,
        after: &SessionState,
        sendid: SharedBytes,
    ) -> Result<Delivery, NoMemory>
        ensures told { IfOk result (λ told. (g : HostImage) (t : SessionImage)
            → IsSender (image self.now) place after.now g draft.old t
            → Drafts (stepper after.now.session place) g draft.old draft.new
            (undo (so_far g draft.old) t sendid) told) }
        ensures number { OnOk result (draft.new.events ≤ draft.old.events + 1) }
    {
        if sendid.slice().is_empty() {
            return Ok(Delivery::Undone(0));
        }
        let count = self.pending(draft, &after.session, &sendid)?;
        draft.changes.push(Change::Undo {
            session: after.session.copy()?,
            id: sendid,
        })?;
        Ok(Delivery::Undone(count))
    }

    /// Prepares what one effect of a turn does.
    fn draft_delivery(
        &self,
        alloc: Global,
        draft: &mut Draft<P>,
        place: usize,
        after: &SessionState,
        effect: Effect,
    ) -> Result<Delivery, NoMemory>
        requires agrees { Agrees self.now }
        requires within { place < length self.now.sessions.items }
        requires there { option_map (λ (s : SessionImage). s.state.session) (slice_get (image self.now).sessions place)
            ≡ Some after.now.session }
        requires number { draft.old.events + 1 < 2 ^ 128 }
        ensures told { IfOk result (λ told. (g : HostImage) (t : SessionImage)
            → IsSender (image self.now) place after.now g draft.old t
            → Drafts (stepper after.now.session place) g draft.old draft.new
            (deliver_of (so_far g draft.old) place t effect) told) }
        ensures number { OnOk result (draft.new.events ≤ draft.old.events + 1) }
    {
        match effect {
            Effect::Send {
                event,
                to,
                delay: 0,
            } => self.draft_send(alloc, draft, place, after, &to, event),
            Effect::Send { event, to, delay } => {
                self.draft_delay(alloc, draft, place, after, to, event, delay)
            }
            Effect::CancelSend { sendid } => self.draft_undo(draft, place, after, sendid),
            Effect::Invoke {
                invokeid,
                child,
                chart,
                pairs,
            } => {
                let invocation = Invocation {
                    invokeid,
                    child,
                    chart,
                    pairs,
                };
                self.draft_invoke(alloc, draft, place, after, invocation)
            }
            Effect::CancelChild { child } => self.draft_cancel_child(draft, place, after, child),
            Effect::Forward { child, event } => {
                self.draft_forward(alloc, draft, place, after, child, event)
            }
        }
    }

    /// Prepares what one effect of a turn does, and notes what becomes of it.
    #[inline(never)]
    pub(crate) fn draft_effect(
        &self,
        alloc: Global,
        draft: &mut Draft<P>,
        place: usize,
        after: &SessionState,
        effect: Effect,
    ) -> Result<(), NoMemory>
        requires agrees { Agrees self.now }
        requires within { place < length self.now.sessions.items }
        requires there { option_map (λ (s : SessionImage). s.state.session) (slice_get (image self.now).sessions place)
            ≡ Some after.now.session }
        requires number { draft.old.events + 1 < 2 ^ 128 }
        ensures notes { OnOk result ((g : HostImage) (t : SessionImage)
            → IsSender (image self.now) place after.now g draft.old t
            → Notes (stepper after.now.session place) g draft.old draft.new
            (deliver (so_far g draft.old) place effect)) }
        ensures number { OnOk result (draft.new.events ≤ draft.old.events + 1) }
    {
        let what = self.draft_delivery(alloc, draft, place, after, effect)?;
        draft.sent.push(what)
    }
}
