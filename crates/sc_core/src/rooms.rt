ghost use Rattle.std.specs.Prelude.{◌≡◌, ◌≤◌, ◌<◌, length, OnOk};
ghost use Rattle.sc_core.specs.Bodies.{Agrees, Keeps, children_room, failure_room, image, queue_room};
ghost use Rattle.sc_core.specs.ChangeLists.{first_of};
ghost use Rattle.sc_core.specs.Installing.{AreMadeFor, AreRoomy, IsMadeFor, HasTarget, HaveRoom, HaveTargets};

use crate::body::Body;
use crate::change::Change;
use crate::change_list::ChangeList;
use sc_base::{NoMemory, Queue};

impl<P: Drop> Body<P> {
    /// Makes room for so many more events in the external queue of the session at a place.
    fn reserve_queue(&mut self, place: usize, count: usize) -> Result<(), NoMemory>
        requires agrees { Agrees self.old }
        requires within { place < length self.old.sessions.items }
        ensures keeps { Keeps self.old self.new }
        ensures charts { self.new.charts.items ≡ self.old.charts.items }
        ensures ok { OnOk result (count ≤ queue_room self.new place) }
    {
        self.sessions.item_mut(place).queued.reserve(count)
    }

    /// Makes room for so many more events in the internal queue of the session at a place.
    fn reserve_failures(&mut self, place: usize, count: usize) -> Result<(), NoMemory>
        requires agrees { Agrees self.old }
        requires within { place < length self.old.sessions.items }
        ensures keeps { Keeps self.old self.new }
        ensures charts { self.new.charts.items ≡ self.old.charts.items }
        ensures ok { OnOk result (count ≤ failure_room self.new place) }
    {
        self.sessions.item_mut(place).failures.reserve(count)
    }

    /// Makes room for so many more children of the session at a place.
    fn reserve_children(&mut self, place: usize, count: usize) -> Result<(), NoMemory>
        requires agrees { Agrees self.old }
        requires within { place < length self.old.sessions.items }
        ensures keeps { Keeps self.old self.new }
        ensures charts { self.new.charts.items ≡ self.old.charts.items }
        ensures ok { OnOk result (count ≤ children_room self.new place) }
    {
        self.sessions.item_mut(place).children.reserve(count)
    }

    /// Makes room for so many more events in the external queue of the session at a place, where it is there already.
    fn reserve_target(&mut self, place: usize, count: usize) -> Result<(), NoMemory>
        requires agrees { Agrees self.old }
        ensures keeps { Keeps self.old self.new }
        ensures charts { self.new.charts.items ≡ self.old.charts.items }
        ensures ok { OnOk result (place < length self.old.sessions.items → count ≤ queue_room self.new place) }
    {
        if place >= self.sessions.len() {
            return Ok(());
        }
        self.reserve_queue(place, count)
    }

    /// Makes room for so many changes where one puts something.
    fn make_room_for(&mut self, change: &Change<P>, count: usize) -> Result<(), NoMemory>
        requires agrees { Agrees self.old }
        requires target { HasTarget (length self.old.sessions.items) change.now }
        ensures keeps { Keeps self.old self.new }
        ensures charts { self.new.charts.items ≡ self.old.charts.items }
        ensures ok { OnOk result (IsMadeFor count self.new change.now) }
    {
        match change {
            Change::Install { .. } => self.charts.reserve(count),
            Change::Start { .. } => self.sessions.reserve(count),
            Change::Bear { invoker, .. } => {
                self.sessions.reserve(count)?;
                self.reserve_children(*invoker, count)
            }
            Change::Queue { place, .. } => self.reserve_target(*place, count),
            Change::Tell { place, .. } => self.reserve_failures(*place, count),
            Change::Delay { .. } => self.timers.reserve(count),
            _ => Ok(()),
        }
    }

    /// The same of the first change, where there is one.
    #[inline(always)]
    fn make_room_first(&mut self, first: &Option<Change<P>>, count: usize) -> Result<(), NoMemory>
        requires agrees { Agrees self.old }
        requires targets { HaveTargets (length self.old.sessions.items) (first_of first.now) }
        ensures keeps { Keeps self.old self.new }
        ensures charts { self.new.charts.items ≡ self.old.charts.items }
        ensures ok { OnOk result (AreMadeFor count self.new (first_of first.now)) }
    {
        match first {
            Some(change) => self.make_room_for(change, count),
            None => Ok(()),
        }
    }

    /// The same of each of these changes.
    #[inline(always)]
    fn make_room_more(&mut self, more: &Queue<Change<P>>, count: usize) -> Result<(), NoMemory>
        requires agrees { Agrees self.old }
        requires targets { HaveTargets (length self.old.sessions.items) more.now }
        ensures keeps { Keeps self.old self.new }
        ensures charts { self.new.charts.items ≡ self.old.charts.items }
        ensures ok { OnOk result (AreMadeFor count self.new more.now) }
    {
        let _end = more.len();
        let mut place = 0;
        while let Some(change) = more.get(place) {
            self.make_room_for(change, count)?;
            place += 1;
        }
        Ok(())
    }

    /// Makes the room that a list of changes needs, so that they can be made without memory.
    #[inline(always)]
    pub(crate) fn make_room(&mut self, changes: &ChangeList<P>) -> Result<(), NoMemory>
        requires agrees { Agrees self.old }
        requires targets { HaveTargets (length self.old.sessions.items) changes.now }
        requires roomy { AreRoomy (length self.old.sessions.items) changes.now }
        ensures keeps { Keeps self.old self.new }
        ensures charts { self.new.charts.items ≡ self.old.charts.items }
        ensures ready { OnOk result (length changes.now ≤ self.new.ready.spare) }
        ensures room { OnOk result (HaveRoom (length changes.now) self.new changes.now) }
    {
        let count = changes.count()?;
        self.ready.reserve(count)?;
        self.make_room_first(&changes.first, count)?;
        self.make_room_more(&changes.more, count)
    }
}
