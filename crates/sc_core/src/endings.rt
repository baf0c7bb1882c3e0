ghost use Rattle.std.specs.Prelude.{◌≡◌, ◌==◌, ◌+◌, ◌^◌, ◌<◌, ◌≤◌, ◌++◌, ◌∷◌, [], Some, IfOk, OnOk, length, option_and_then, option_map, slice_get};
ghost use Rattle.sc_core.specs.Births.{IsGrown};
ghost use Rattle.sc_core.specs.Bodies.{Agrees, image};
ghost use Rattle.sc_core.specs.Changes.{put_state};
ghost use Rattle.sc_core.specs.Drafts.{IsSender, so_far};
ghost use Rattle.sc_machine.specs.Endings.{end_event, tell_end, tell_invoker};
ghost use Rattle.sc_core.specs.Parting.{Adds, DraftsEnd, cut_changes, cut_told, cuts, is_cut, is_cut_in, is_left, left_if, new_left, old_left, put_left};
ghost use Rattle.sc_core.specs.declared.session.Session.{Session};
ghost use Rattle.sc_types.specs.declared.host.HostImage.{HostImage};
ghost use Rattle.sc_types.specs.declared.host.SessionImage.{SessionImage};

use crate::body::Body;
use crate::change::Change;
use crate::draft::{Draft, Placed};
use crate::failures::{done_invoke, runaway_event};
use crate::session::{Session, is_live};
use sc_base::{NoMemory, Plain, Queue, Sequence, SharedBytes};
use sc_rooms::RoomyQueue;
use sc_types::{Delivery, Event, How, InvokerImage, Phase, SessionState};
use std::alloc::Global;

/// Whether a session was cut off from its invoker by one of the changes.
fn is_cut_in<P>(changes: &Queue<Change<P>>, place: usize) -> bool
    ensures { result ≡ is_cut_in changes.now place }
{
    // A length fits a usize, so the number cannot run out.
    let _end = changes.len();
    let mut number = 0;
    while let Some(change) = changes.get(number) {
        if cuts(change, place) {
            return true;
        }
        number += 1;
    }
    false
}

fn cuts<P>(change: &Change<P>, session: usize) -> bool
    ensures { result ≡ cuts session change.now }
{
    match change {
        Change::CutOff { place } => *place == session,
        _ => false,
    }
}

fn is_cut(invoker: &Option<InvokerImage>) -> bool
    ensures { result ≡ is_cut invoker.now }
{
    match invoker {
        Some(invoker) => invoker.cut,
        None => false,
    }
}

/// What the invoker of a session hears of its end. SCXML 6.4.
fn end_event(alloc: Global, invokeid: &SharedBytes, how: &How) -> Result<Option<Event>, NoMemory>
    ensures { IfOk result (λ e. e ≡ end_event invokeid.now how.now) }
{
    match how {
        How::Final(payload) => done_invoke(alloc, invokeid, payload),
        How::Cancelled => Ok(None),
        How::Runaway => Ok(Some(runaway_event(alloc, invokeid)?)),
    }
}

/// Whether the child at a place lives once the session at another has ended, and the changes leave it bound.
fn is_left<P>(changes: &Queue<Change<P>>, place: usize, child: usize, session: &Session) -> bool
    ensures { result ≡ is_left changes.now place child session.now }
{
    child != place
        && is_live(&session.state().phase)
        && !is_cut(&session.invoker)
        && !is_cut_in(changes, child)
}

/// Adds a session that is born, where the changes leave it bound.
fn add_birth<P>(
    left: &mut Sequence<Placed>,
    changes: &Queue<Change<P>>,
    birth: &Placed,
) -> Result<(), NoMemory>
    ensures { OnOk result (left.new ≡ left.old ++ new_left changes.now (birth.now ∷ [])) }
{
    if is_cut_in(changes, birth.place) {
        return Ok(());
    }
    left.push(Placed {
        name: birth.name.copy()?,
        place: birth.place,
    })
}

/// Adds the sessions that are born and that the changes leave bound.
fn add_births<P>(
    left: &mut Sequence<Placed>,
    changes: &Queue<Change<P>>,
    births: &Sequence<Placed>,
) -> Result<(), NoMemory>
    ensures { OnOk result (left.new ≡ left.old ++ new_left changes.now births.now) }
{
    // A length fits a usize, so the number cannot run out.
    let _end = births.len();
    let mut number = 0;
    while let Some(birth) = births.get(number) {
        add_birth(left, changes, birth)?;
        number += 1;
    }
    Ok(())
}

/// Prepares that these children are cancelled.
fn draft_left<P: Drop>(draft: &mut Draft<P>, children: Sequence<Placed>) -> Result<(), NoMemory>
    ensures { OnOk result (draft.new ≡ record draft.old {
      changes = draft.old.changes ++ cut_changes children;
      sent = draft.old.sent ++ cut_told children;
    }) }
{
    for child in children.into_vec() {
        draft.changes.push(Change::CutOff { place: child.place })?;
        draft.sent.push(Delivery::Flagged(child.name))?;
    }
    Ok(())
}

impl<P: Drop> Body<P> {
    /// Adds the child at a place, where the end of the session at another leaves it behind.
    fn add_left(
        &self,
        left: &mut Sequence<Placed>,
        changes: &Queue<Change<P>>,
        place: usize,
        child: usize,
    ) -> Result<(), NoMemory>
        ensures { OnOk result (left.new
            ≡ left.old ++ put_left (option_and_then (left_if changes.now place child)
            (slice_get self.now.sessions.items child)) []) }
    {
        let Some(session) = self.sessions.get(child) else {
            return Ok(());
        };
        if !is_left(changes, place, child, session) {
            return Ok(());
        }
        left.push(Placed {
            name: session.state().session.copy()?,
            place: child,
        })
    }

    /// The children of the session at a place that the host has and that its end leaves behind, in order of start.
    fn old_children(
        &self,
        alloc: Global,
        changes: &Queue<Change<P>>,
        place: usize,
    ) -> Result<Sequence<Placed>, NoMemory>
        requires agrees { Agrees self.now }
        requires within { place < length self.now.sessions.items }
        ensures { IfOk result (λ left. (s : Session) → slice_get self.now.sessions.items place ≡ Some s
            → left ≡ old_left self.now.sessions.items changes.now place s.children.items) }
    {
        let children = self.children_at(place);
        // A length fits a usize, so the number cannot run out.
        let _end = children.len();
        let mut left = Sequence::new(alloc);
        let mut number = 0;
        while let Some(child) = children.get(number) {
            self.add_left(&mut left, changes, place, *child)?;
            number += 1;
        }
        Ok(left)
    }

    /// The places of the children of the session at a place.
    fn children_at(&self, place: usize) -> &RoomyQueue<usize>
        requires within { place < length self.now.sessions.items }
        ensures { option_map (λ (s : Session). s.children) (slice_get self.now.sessions.items place) ≡ Some result.now }
    {
        match self.sessions.get(place) {
            Some(session) => &session.children,
            None => unreachable!(),
        }
    }

    /// Prepares that the invoker hears of the end of the session at a place.
    fn draft_told(
        &self,
        alloc: Global,
        draft: &mut Draft<P>,
        place: usize,
        after: &SessionState,
        invoker: &InvokerImage,
        event: Event,
    ) -> Result<Delivery, NoMemory>
        requires agrees { Agrees self.now }
        requires there { option_map (λ (s : SessionImage). s.state.session) (slice_get (image self.now).sessions place)
            ≡ Some after.now.session }
        requires number { draft.old.events + 1 < 2 ^ 128 }
        ensures adds { IfOk result (λ told. (h : HostImage) → draft.old.events ≡ h.events
            → IsGrown (put_state (image self.now) place after.now) draft.old.births h
            → Adds h draft.old.changes draft.new.changes (tell_invoker h invoker.now event).host
            × (told ≡ (tell_invoker h invoker.now event).what)) }
        ensures sent { OnOk result (draft.new.sent ≡ draft.old.sent) }
    {
        if invoker.cut {
            return Ok(Delivery::Dropped);
        }
        match self.live_place(&draft.births, place, after, &invoker.session) {
            Some(found) => self.draft_queue(alloc, draft, found, invoker.session.copy()?, event),
            None => Ok(Delivery::Dropped),
        }
    }

    /// Prepares that the invoker of the session at a place hears how it ended.
    fn tell_invoker(
        &self,
        alloc: Global,
        draft: &mut Draft<P>,
        place: usize,
        after: &SessionState,
        how: &How,
    ) -> Result<(), NoMemory>
        requires agrees { Agrees self.now }
        requires within { place < length self.now.sessions.items }
        requires there { option_map (λ (s : SessionImage). s.state.session) (slice_get (image self.now).sessions place)
            ≡ Some after.now.session }
        requires number { draft.old.events + 1 < 2 ^ 128 }
        ensures { OnOk result ((h : HostImage) (s : SessionImage) → slice_get (image self.now).sessions place ≡ Some s
            → draft.old.events ≡ h.events → IsGrown (put_state (image self.now) place after.now) draft.old.births h
            → Adds h draft.old.changes draft.new.changes (tell_end h s.invoker how.now).host
            × (draft.new.sent ≡ draft.old.sent ++ (tell_end h s.invoker how.now).sent)) }
    {
        let Some(invoker) = self.invoker_at(place) else {
            return Ok(());
        };
        let Some(event) = end_event(alloc, &invoker.invokeid, how)? else {
            return Ok(());
        };
        let what = self.draft_told(alloc, draft, place, after, invoker, event)?;
        draft.sent.push(what)
    }

    /// Prepares what goes with the end of the session at a place: it is cleared, its children are cancelled, and its
    /// invoker is told.
    #[inline(never)]
    fn draft_over(
        &self,
        alloc: Global,
        draft: &mut Draft<P>,
        place: usize,
        after: &SessionState,
        how: &How,
    ) -> Result<(), NoMemory>
        requires agrees { Agrees self.now }
        requires within { place < length self.now.sessions.items }
        requires there { option_map (λ (s : SessionImage). s.state.session) (slice_get (image self.now).sessions place)
            ≡ Some after.now.session }
        requires number { draft.old.events + 1 < 2 ^ 128 }
        ensures { OnOk result ((g : HostImage) (t : SessionImage)
            → IsSender (image self.now) place after.now g draft.old t
            → after.now.phase ≡ Phase.Ended how.now → DraftsEnd (so_far g draft.old) place draft.old draft.new) }
    {
        let mut left = self.old_children(alloc, &draft.changes, place)?;
        add_births(&mut left, &draft.changes, &draft.births)?;
        draft.changes.push(Change::End { place })?;
        draft_left(draft, left)?;
        self.tell_invoker(alloc, draft, place, after, how)
    }

    /// Prepares what goes with the end of the session at a place, where its turn ended it.
    pub(crate) fn draft_end(
        &self,
        alloc: Global,
        draft: &mut Draft<P>,
        place: usize,
        after: &SessionState,
    ) -> Result<(), NoMemory>
        requires agrees { Agrees self.now }
        requires within { place < length self.now.sessions.items }
        requires there { option_map (λ (s : SessionImage). s.state.session) (slice_get (image self.now).sessions place)
            ≡ Some after.now.session }
        requires number { draft.old.events + 1 < 2 ^ 128 }
        ensures { OnOk result ((g : HostImage) (t : SessionImage)
            → IsSender (image self.now) place after.now g draft.old t
            → DraftsEnd (so_far g draft.old) place draft.old draft.new) }
    {
        match &after.phase {
            Phase::Ended(how) => self.draft_over(alloc, draft, place, after, how),
            Phase::Fresh => Ok(()),
            Phase::Running => Ok(()),
        }
    }
}
