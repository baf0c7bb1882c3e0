ghost use Rattle.std.specs.Prelude.{◌≡◌, ◌<◌, [], None, Some, true, length, not, filter, option_map, slice_get};
ghost use Rattle.std.specs.Str.{bytes_eq};
ghost use Rattle.sc_rooms.specs.Rooms.{place_of};
ghost use Rattle.sc_core.specs.Bodies.{Agrees, Makes, children_room, image};
ghost use Rattle.sc_core.specs.Changes.{cut_off_at, drop_invoke, with_started};
ghost use Rattle.sc_core.specs.Installing.{IsChildAt};
ghost use Rattle.sc_types.specs.declared.host.InvokerImage.{InvokerImage};
ghost use Rattle.sc_types.specs.declared.session.Invoked.{Invoked};

use crate::body::Body;
use crate::changes::mark;
use crate::session::{Session, is_ready};
use sc_base::{Sequence, Word};
use sc_types::{Invoked, InvokerImage, SessionState};

/// Cuts a session off from its invoker.
fn cut(invoker: &mut Option<InvokerImage>)
    ensures { invoker.new ≡ option_map (λ (i : InvokerImage). record i { cut = true }) invoker.old }
{
    if let Some(invoker) = invoker {
        invoker.cut = true;
    }
}

/// The invocations but that of a child.
fn without_child(invokes: Sequence<Invoked>, child: &Word) -> Sequence<Invoked>
    ensures { result ≡ filter (λ (i : Invoked). not (bytes_eq i.child child.now)) invokes }
{
    let mut left = invokes.into_vec();
    left.retain(|invoked| invoked.child.bytes() != child.bytes());
    Sequence::from_vec(left)
}

/// Takes the invocation of a child out of those that run in a state.
fn drop_child(state: &mut SessionState, child: &Word)
    ensures { state.new ≡ record state.old {
      invokes = filter (λ (i : Invoked). not (bytes_eq i.child child.now)) state.old.invokes;
    } }
{
    let none = Sequence::new(state.invokes.allocator());
    let invokes = std::mem::replace(&mut state.invokes, none);
    state.invokes = without_child(invokes, child);
}

impl<P: Drop> Body<P> {
    /// Starts a session under its name, which is new, as a child of the one at a place.
    pub(crate) fn bear(&mut self, invoker: usize, name: Word, session: Session)
        requires agrees { Agrees self.old }
        requires name { session.state.session ≡ name }
        requires new { place_of name self.old.sessions.names ≡ None }
        requires invoker { IsChildAt (image self.old) invoker session }
        requires children { session.children.items ≡ [] }
        requires within { invoker < length self.old.sessions.items }
        requires ready { 0 < self.old.ready.spare }
        requires room { 0 < self.old.sessions.spare }
        requires list { 0 < children_room self.old invoker }
        ensures makes { Makes (with_started (image self.old) session) self.old self.new }
        ensures newest { slice_get self.new.sessions.items (length self.old.sessions.items) ≡ Some session }
        ensures charts { self.new.charts.items ≡ self.old.charts.items }
    {
        let place = self.sessions.len();
        self.sessions.item_mut(invoker).children.push(place);
        mark(&mut self.ready, place, is_ready(&session));
        self.sessions.add(name, session);
    }

    /// Lets the next turn of the session at a place end it, and cuts it off from its invoker.
    pub(crate) fn cut_off(&mut self, place: usize)
        requires agrees { Agrees self.old }
        requires within { place < length self.old.sessions.items }
        requires ready { 0 < self.old.ready.spare }
        ensures makes { Makes (cut_off_at (image self.old) place) self.old self.new }
        ensures charts { self.new.charts.items ≡ self.old.charts.items }
    {
        let session = self.sessions.item_mut(place);
        session.flagged = true;
        cut(&mut session.invoker);
        mark(&mut self.ready, place, is_ready(session));
    }

    /// Takes the invocation of a child out of those that run.
    pub(crate) fn drop_invoke(&mut self, place: usize, child: &Word)
        requires agrees { Agrees self.old }
        requires within { place < length self.old.sessions.items }
        requires ready { 0 < self.old.ready.spare }
        ensures makes { Makes (drop_invoke (image self.old) place child.now) self.old self.new }
        ensures charts { self.new.charts.items ≡ self.old.charts.items }
    {
        let session = self.sessions.item_mut(place);
        drop_child(session.state.get_mut(), child);
        mark(&mut self.ready, place, is_ready(session));
    }
}
