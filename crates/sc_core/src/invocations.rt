ghost use Rattle.std.specs.Prelude.{ℕ, ◌≡◌, ◌+◌, ◌^◌, ◌<◌, ◌≤◌, [], None, Some, false, true, is_some, IfOk, OnOk, length, option_map, slice_get};
ghost use Rattle.sc_core.specs.Bodies.{Agrees, image, session_image};
ghost use Rattle.sc_machine.specs.Deliveries.{born, cancel_child, hand_to, invoke, live_child, may_bear, unborn, while_live};
ghost use Rattle.sc_core.specs.Drafts.{Drafts, IsSender, so_far, stepper};
ghost use Rattle.sc_core.specs.Births.{IsGrown};
ghost use Rattle.sc_core.specs.Changes.{put_state};
ghost use Rattle.sc_machine.specs.Hosts.{session_named, session_place};
ghost use Rattle.sc_law.specs.Runs.{fresh_state};
ghost use Rattle.sc_types.specs.declared.host.HostImage.{HostImage};
ghost use Rattle.sc_types.specs.declared.host.SessionImage.{SessionImage};
ghost use Rattle.sc_types.specs.declared.limits.TheConstants.{INVOKE_DEPTH_LIMIT};
ghost use Rattle.sc_types.specs.declared.session.SessionState.{SessionState};

use crate::aims::birth_place;
use crate::body::Body;
use crate::change::Change;
use crate::draft::{Draft, Placed};
use crate::failures::unborn_event;
use crate::session::{Session, is_running};
use crate::starts::fresh_state;
use sc_base::{Boxed, NoMemory, Plain, Sequence, SharedBytes, Word};
use sc_machine::CHILD_NAME_LIMIT;
use sc_rooms::RoomyQueue;
use sc_types::{Delivery, Event, INVOKE_DEPTH_LIMIT, InvokerImage, PairList, SessionState};
use std::alloc::Global;

/// A session to be started: the id of the invocation, the session's name, its chart's, and what it is started with.
/// SCXML 6.4.
#[derive(Drop)]
pub(crate) struct Invocation {
    pub(crate) invokeid: SharedBytes,
    pub(crate) child: Word,
    pub(crate) chart: Word,
    pub(crate) pairs: PairList,
}

/// The session that an invocation starts.
fn child_session(
    alloc: Global,
    invoker: &Word,
    depth: u32,
    invocation: Invocation,
) -> Result<Boxed<Session>, NoMemory>
    ensures image { IfOk result (λ s. session_image s ≡ record {
      state = fresh_state invocation.child invocation.chart invocation.pairs;
      queued = [];
      flagged = false;
      invoker = Some (record { session = invoker.now; invokeid = invocation.invokeid; cut = false });
      depth = depth;
    }) }
    ensures children { IfOk result (λ s. s.children.items ≡ []) }
{
    let Invocation {
        invokeid,
        child,
        chart,
        pairs,
    } = invocation;
    let link = link(invoker, invokeid)?;
    let state = fresh_state(alloc, &child, &chart, pairs)?;
    Boxed::new(alloc, invoked(alloc, state, link, depth))
}

fn link(invoker: &Word, invokeid: SharedBytes) -> Result<InvokerImage, NoMemory>
    ensures { IfOk result (λ i. i ≡ record { session = invoker.now; invokeid = invokeid; cut = false }) }
{
    Ok(InvokerImage {
        session: invoker.copy()?,
        invokeid,
        cut: false,
    })
}

/// A session in this state, with nothing in its queues and no child.
fn invoked(alloc: Global, state: Boxed<SessionState>, link: InvokerImage, depth: u32) -> Session
    ensures image { session_image result ≡ record {
      state = state;
      queued = [];
      flagged = false;
      invoker = Some link;
      depth = depth;
    } }
    ensures children { result.children.items ≡ [] }
{
    Session {
        state,
        failures: RoomyQueue::new(alloc),
        queued: RoomyQueue::new(alloc),
        flagged: false,
        invoker: Some(link),
        depth,
        children: RoomyQueue::new(alloc),
    }
}

impl<P: Drop> Body<P> {
    /// The depth of the session at a place.
    fn depth_at(&self, place: usize) -> u32
        requires within { place < length self.now.sessions.items }
        ensures { option_map (λ (s : SessionImage). s.depth) (slice_get (image self.now).sessions place) ≡ Some result }
    {
        match self.sessions.get(place) {
            Some(session) => session.depth,
            None => unreachable!(),
        }
    }

    /// Whether a session has this name, or one that is born.
    fn is_taken(&self, births: &Sequence<Placed>, name: &Word) -> bool
        requires agrees { Agrees self.now }
        ensures { (state : SessionState) (place : ℕ) (h : HostImage)
            → option_map (λ (s : SessionImage). s.state.session) (slice_get (image self.now).sessions place)
            ≡ Some state.session
            → IsGrown (put_state (image self.now) place state) births.now h
            → result ≡ is_some (session_place h name.now) }
    {
        self.session_place(name).is_some() || birth_place(births, name).is_some()
    }

    /// Whether a session at this depth may invoke another.
    fn may_bear(&self, births: &Sequence<Placed>, depth: u32, invocation: &Invocation) -> bool
        requires agrees { Agrees self.now }
        ensures may { (state : SessionState) (place : ℕ) (h : HostImage) (t : SessionImage)
            → option_map (λ (s : SessionImage). s.state.session) (slice_get (image self.now).sessions place)
            ≡ Some state.session
            → IsGrown (put_state (image self.now) place state) births.now h → h.charts ≡ (image self.now).charts
            → t.depth ≡ depth → result ≡ may_bear h t invocation.now.child invocation.now.chart }
        ensures deep { result ≡ true → depth < INVOKE_DEPTH_LIMIT }
    {
        self.has_chart(&invocation.chart)
            && depth < INVOKE_DEPTH_LIMIT
            && invocation.child.bytes().len() <= CHILD_NAME_LIMIT
            && !self.is_taken(births, &invocation.child)
    }

    /// The place of the next session that is born. Places past the last number are larger than any memory.
    fn next_place(&self, births: &Sequence<Placed>) -> Result<usize, NoMemory>
        ensures { IfOk result (λ n. n ≡ length self.now.sessions.items + length births.now) }
    {
        match self.sessions.len().checked_add(births.len()) {
            Some(place) => Ok(place),
            None => Err(NoMemory),
        }
    }

    /// Prepares that a session is born, whose name is new.
    fn draft_birth(
        &self,
        alloc: Global,
        draft: &mut Draft<P>,
        place: usize,
        after: &SessionState,
        depth: u32,
        invocation: Invocation,
    ) -> Result<Delivery, NoMemory>
        requires agrees { Agrees self.now }
        requires within { place < length self.now.sessions.items }
        requires there { option_map (λ (s : SessionImage). s.state.session) (slice_get (image self.now).sessions place)
            ≡ Some after.now.session }
        requires new { (g : HostImage) (t : SessionImage) → IsSender (image self.now) place after.now g draft.old t
            → session_place (so_far g draft.old) invocation.child ≡ None }
        requires depth { option_map (λ (s : SessionImage). s.depth + 1) (slice_get (image self.now).sessions place)
            ≡ Some depth }
        ensures told { IfOk result (λ told. (g : HostImage) (t : SessionImage)
            → IsSender (image self.now) place after.now g draft.old t
            → Drafts (stepper after.now.session place) g draft.old draft.new
            (born (so_far g draft.old) t invocation.invokeid invocation.child invocation.chart
            invocation.pairs) told) }
        ensures number { OnOk result (draft.new.events ≤ draft.old.events + 1) }
    {
        let child = invocation.child.copy()?;
        let at = self.next_place(&draft.births)?;
        let session = child_session(alloc, &after.session, depth, invocation)?;
        draft.changes.push(Change::Bear {
            invoker: place,
            name: child.copy()?,
            session,
        })?;
        draft.births.push(Placed {
            name: child.copy()?,
            place: at,
        })?;
        Ok(Delivery::Born(child))
    }

    /// Prepares that nothing is started, of which the session at a place hears while it runs.
    fn draft_unborn(
        &self,
        alloc: Global,
        draft: &mut Draft<P>,
        place: usize,
        after: &SessionState,
        invokeid: SharedBytes,
        child: Word,
    ) -> Result<Delivery, NoMemory>
        ensures told { IfOk result (λ told. (g : HostImage) (t : SessionImage)
            → IsSender (image self.now) place after.now g draft.old t
            → Drafts (stepper after.now.session place) g draft.old draft.new
            (unborn (so_far g draft.old) place t invokeid child) told) }
        ensures number { OnOk result (draft.new.events ≤ draft.old.events + 1) }
    {
        draft.changes.push(Change::DropInvoke { place, child })?;
        if !is_running(&after.phase) {
            return Ok(Delivery::Unborn);
        }
        let event = Boxed::new(alloc, unborn_event(alloc, invokeid)?)?;
        draft.changes.push(Change::Tell { place, event })?;
        Ok(Delivery::Unborn)
    }

    /// Prepares that the session at a place invokes another. SCXML 6.4.
    pub(crate) fn draft_invoke(
        &self,
        alloc: Global,
        draft: &mut Draft<P>,
        place: usize,
        after: &SessionState,
        invocation: Invocation,
    ) -> Result<Delivery, NoMemory>
        requires agrees { Agrees self.now }
        requires within { place < length self.now.sessions.items }
        requires there { option_map (λ (s : SessionImage). s.state.session) (slice_get (image self.now).sessions place)
            ≡ Some after.now.session }
        ensures told { IfOk result (λ told. (g : HostImage) (t : SessionImage)
            → IsSender (image self.now) place after.now g draft.old t
            → Drafts (stepper after.now.session place) g draft.old draft.new
            (invoke (so_far g draft.old) place t invocation.invokeid invocation.child invocation.chart
            invocation.pairs) told) }
        ensures number { OnOk result (draft.new.events ≤ draft.old.events + 1) }
    {
        let depth = self.depth_at(place);
        if !self.may_bear(&draft.births, depth, &invocation) {
            return self.draft_unborn(
                alloc,
                draft,
                place,
                after,
                invocation.invokeid,
                invocation.child,
            );
        }
        self.draft_birth(alloc, draft, place, after, depth + 1, invocation)
    }

    /// Prepares that a child is cancelled, while it lives. SCXML 6.4.3.
    pub(crate) fn draft_cancel_child(
        &self,
        draft: &mut Draft<P>,
        place: usize,
        after: &SessionState,
        child: Word,
    ) -> Result<Delivery, NoMemory>
        requires agrees { Agrees self.now }
        requires there { option_map (λ (s : SessionImage). s.state.session) (slice_get (image self.now).sessions place)
            ≡ Some after.now.session }
        ensures told { IfOk result (λ told. (g : HostImage) (t : SessionImage)
            → IsSender (image self.now) place after.now g draft.old t
            → Drafts (stepper after.now.session place) g draft.old draft.new
            (cancel_child (so_far g draft.old) child (live_child (so_far g draft.old) t child)) told) }
        ensures number { OnOk result (draft.new.events ≤ draft.old.events + 1) }
    {
        // A session is no child of its own.
        if child.bytes() == after.session.bytes() {
            return Ok(Delivery::Nothing);
        }
        let Some(found) = self.live_place(&draft.births, place, after, &child) else {
            return Ok(Delivery::Nothing);
        };
        draft.changes.push(Change::CutOff { place: found })?;
        Ok(Delivery::Flagged(child))
    }

    /// Prepares that an event joins the external queue of the session of a name, while that lives.
    pub(crate) fn draft_forward(
        &self,
        alloc: Global,
        draft: &mut Draft<P>,
        place: usize,
        after: &SessionState,
        child: Word,
        event: Event,
    ) -> Result<Delivery, NoMemory>
        requires agrees { Agrees self.now }
        requires there { option_map (λ (s : SessionImage). s.state.session) (slice_get (image self.now).sessions place)
            ≡ Some after.now.session }
        requires number { draft.old.events + 1 < 2 ^ 128 }
        ensures told { IfOk result (λ told. (g : HostImage) (t : SessionImage)
            → IsSender (image self.now) place after.now g draft.old t
            → Drafts (stepper after.now.session place) g draft.old draft.new
            (hand_to (so_far g draft.old) child event (while_live (session_named (so_far g draft.old) child))) told) }
        ensures number { OnOk result (draft.new.events ≤ draft.old.events + 1) }
    {
        match self.live_place(&draft.births, place, after, &child) {
            Some(found) => self.draft_queue(alloc, draft, found, child, event),
            None => Ok(Delivery::Dropped),
        }
    }
}
