ghost use Rattle.std.specs.Prelude.{◌≡◌, ◌≤◌, ◌++◌, IfSome, List, length};
ghost use Rattle.sc_core.specs.Bodies.{Agrees, Makes, image};
ghost use Rattle.sc_core.specs.ChangeLists.{counted_of, first_of, taken_of};
ghost use Rattle.sc_core.specs.Makings.{CanChange, CanMakeFirst, Installs};
ghost use Rattle.sc_core.specs.declared.body.Body.{Body as BodyOf};
ghost use Rattle.sc_core.specs.declared.change.Change.{Change as ChangeOf};
ghost use Rattle.sc_core.specs.declared.change.Change.TheVariants.{TakeFront};
ghost use Rattle.sc_core.specs.Installing.{CanApply, CanApplyAll, HasRoom, HaveRoom, IsNewest, apply, charts_after, charts_with, installed, queue_rooms};

use crate::body::{Body, InstalledChart};
use crate::change_list::ChangeList;
use crate::session::Session;
use sc_base::{Boxed, Queue, Shared, SharedBytes, Word};
use sc_types::{Event, SessionState, TimerImage};

/// An elementary change of the host. A command is prepared as a list of them, each to be made of the host that the ones
/// before it leave. What is large stands in a place of its own, since the list moves all changes of a command.
#[derive(Drop)]
pub enum Change<P> {
    /// A command is counted.
    Count,
    /// The clock advances.
    Advance {
        clock: u64,
    },
    /// A chart is installed.
    Install {
        name: Word,
        chart: Boxed<InstalledChart<P>>,
    },
    /// A session is started.
    Start {
        name: Word,
        session: Boxed<Session>,
    },
    /// A session is started that the one at a place invoked.
    Bear {
        invoker: usize,
        name: Word,
        session: Boxed<Session>,
    },
    /// The state of the session at a place is replaced.
    PutState {
        place: usize,
        state: Boxed<SessionState>,
    },
    /// The front of an external queue is taken.
    TakeFront {
        place: usize,
    },
    /// An event, which has the next number, joins an external queue. The turn that takes it shares it.
    Queue {
        place: usize,
        event: Shared<Event>,
    },
    /// An event joins an internal queue.
    Tell {
        place: usize,
        event: Boxed<Event>,
    },
    /// The next turn of a session is to end it.
    Flag {
        place: usize,
    },
    /// The next turn of a session is to end it, and it and its invoker hear no more of one another.
    CutOff {
        place: usize,
    },
    /// The invocation of a child leaves the list of those that run.
    DropInvoke {
        place: usize,
        child: Word,
    },
    /// A session that has ended is cleared.
    End {
        place: usize,
    },
    /// A send is pending.
    Delay {
        send: Boxed<TimerImage>,
    },
    /// The pending sends of a session and an id go.
    Undo {
        session: Word,
        id: SharedBytes,
    },
    /// The first pending send leaves.
    Lose,
}

impl<P: Drop> Body<P> {
    /// Makes one change. The changes that nearly every command makes stand apart, so that their frame holds none of the
    /// others.
    fn change(&mut self, change: Change<P>)
        requires agrees { Agrees self.old }
        requires can { CanApply (image self.old) change }
        requires ready { 1 ≤ self.old.ready.spare }
        requires room { HasRoom 1 self.old (queue_rooms self.old) change }
        ensures makes { Makes (apply change (image self.old)) self.old self.new }
        ensures newest { IsNewest self.old self.new change }
        ensures charts { self.new.charts.items ≡ charts_with change self.old.charts.items }
    {
        match change {
            Change::Count => self.count(),
            Change::PutState { place, state } => self.put_state(place, state),
            Change::TakeFront { place } => self.take_front(place),
            Change::Queue { place, event } => self.queue(place, event),
            change => self.change_any(change),
        }
    }

    /// Makes one change of any kind.
    #[inline(never)]
    fn change_any(&mut self, change: Change<P>)
        requires agrees { Agrees self.old }
        requires can { CanApply (image self.old) change }
        requires ready { 1 ≤ self.old.ready.spare }
        requires room { HasRoom 1 self.old (queue_rooms self.old) change }
        ensures makes { Makes (apply change (image self.old)) self.old self.new }
        ensures newest { IsNewest self.old self.new change }
        ensures charts { self.new.charts.items ≡ charts_with change self.old.charts.items }
    {
        match change {
            Change::Count => self.count(),
            Change::Advance { clock } => self.advance(clock),
            Change::Install { name, chart } => self.install_chart(name, chart.into_inner()),
            Change::Start { name, session } => self.start(name, session.into_inner()),
            Change::Bear {
                invoker,
                name,
                session,
            } => self.bear(invoker, name, session.into_inner()),
            Change::PutState { place, state } => self.put_state(place, state),
            Change::TakeFront { place } => self.take_front(place),
            Change::Queue { place, event } => self.queue(place, event),
            Change::Tell { place, event } => self.tell(place, event.into_inner()),
            Change::Flag { place } => self.flag(place),
            Change::CutOff { place } => self.cut_off(place),
            Change::DropInvoke { place, child } => self.drop_invoke(place, &child),
            Change::End { place } => self.end(place),
            Change::Delay { send } => self.delay(send.into_inner()),
            Change::Undo { session, id } => self.undo(&session, &id),
            Change::Lose => self.lose(),
        }
    }

    /// Makes the first change of a list, where there is one.
    #[inline(always)]
    fn install_first(&mut self, first: Option<Change<P>>)
        requires agrees { Agrees self.old }
        requires can { CanMakeFirst first self.old }
        ensures installs { (whole rest : List (ChangeOf P)) (h : BodyOf P)
            → Installs whole (first_of first ++ rest) h self.old → Installs whole rest h self.new }
    {
        if let Some(change) = first {
            self.change(change);
        }
    }

    /// Takes the front of the external queue of the session at a place, where there is one.
    #[inline(always)]
    fn install_taken(&mut self, taken: Option<usize>)
        requires agrees { Agrees self.old }
        requires can { IfSome taken (λ place. CanChange {P = P} (TakeFront place) self.old) }
        ensures installs { (whole rest : List (ChangeOf P)) (h : BodyOf P)
            → Installs whole (taken_of taken ++ rest) h self.old → Installs whole rest h self.new }
    {
        if let Some(place) = taken {
            self.take_front(place);
        }
    }

    /// Makes these changes in order, and counts the command after them.
    #[inline(always)]
    fn install_more(&mut self, more: &mut Queue<Change<P>>, counted: bool)
        requires agrees { Agrees self.old }
        requires can { CanApplyAll (image self.old) (more.old ++ counted_of counted) }
        requires ready { length (more.old ++ counted_of {P = P} counted) ≤ self.old.ready.spare }
        requires room { HaveRoom (length (more.old ++ counted_of {P = P} counted)) self.old
            (more.old ++ counted_of counted) }
        ensures agrees { Agrees self.new }
        ensures image { image self.new ≡ installed (more.old ++ counted_of counted) (image self.old) }
        ensures charts { self.new.charts.items ≡ charts_after (more.old ++ counted_of counted) self.old.charts.items }
    {
        while let Some(change) = more.pop_front() {
            self.change_any(change);
        }
        if counted {
            self.count();
        }
    }

    /// Makes the changes in order, for which the room was made before.
    pub(crate) fn install(&mut self, changes: &mut ChangeList<P>)
        requires agrees { Agrees self.old }
        requires can { CanApplyAll (image self.old) changes.old }
        requires ready { length changes.old ≤ self.old.ready.spare }
        requires room { HaveRoom (length changes.old) self.old changes.old }
        ensures agrees { Agrees self.new }
        ensures image { image self.new ≡ installed changes.old (image self.old) }
        ensures charts { self.new.charts.items ≡ charts_after changes.old self.old.charts.items }
    {
        self.install_first(changes.first.take());
        self.install_taken(changes.taken.take());
        self.install_more(&mut changes.more, changes.counted);
    }
}
