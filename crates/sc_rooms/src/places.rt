ghost use Rattle.std.specs.Prelude.{◌≡◌, ◌-◌, ◌<◌, ◌≤◌, ◌==◌, not, nat_le, [], filter, find, slice_get, length, IsTrue, ◌↔◌, OnOk};
ghost use Rattle.std.specs.List.{position_or_len};
ghost use Rattle.sc_base.specs.Ascending.{contains, with_number};
ghost use Rattle.sc_rooms.specs.Rooms.{IsAscending};

use sc_base::NoMemory;
use std::alloc::Global;
use std::collections::VecDeque;
use std::marker::Model;

/// A set of places with room, which contracts see as the ascending list of its members.
#[derive(Debug, Drop)]
pub struct Places {
    places: VecDeque<usize>,
}

impl Model for Places {
    ghost use Rattle.std.specs.Prelude.{◌-◌};
    ghost use Rattle.std.specs.VecDeque.{deque_len, deque_capacity};
    ghost use Rattle.sc_rooms.specs.Rooms.{PlacesOf, IsAscending};

    ghost Value = { PlacesOf };

    ghost view = { λ p. record { places = p.places.items; spare = deque_capacity p.places - deque_len p.places } };

    ghost invariant = { λ p. IsAscending 0 p.places.items };
}

impl Places {
    /// No members.
    pub fn new(alloc: Global) -> Places
        ensures { result.places ≡ [] }
    {
        Places {
            places: VecDeque::new(alloc),
        }
    }

    /// How many members the set has.
    pub fn len(&self) -> usize
        ensures value { result ≡ length self.now.places }
        ensures ascending { IsAscending 0 self.now.places }
    {
        self.places.len()
    }

    pub fn is_empty(&self) -> bool
        ensures { IsTrue result ↔ (self.now.places ≡ []) }
    {
        self.places.is_empty()
    }

    /// Makes room for at least so many more members. Out of memory, the members stay as they were.
    pub fn reserve(&mut self, count: usize) -> Result<(), NoMemory>
        ensures places { self.new.places ≡ self.old.places }
        ensures spare { self.old.spare ≤ self.new.spare }
        ensures ok { OnOk result (count ≤ self.new.spare) }
    {
        self.places.reserve(count)?;
        Ok(())
    }

    /// The first member that is no less than `from`.
    pub fn next(&self, from: usize) -> Option<usize>
        ensures value { result ≡ find (λ place. nat_le from place) self.now.places }
        ensures ascending { IsAscending 0 self.now.places }
    {
        member_at(&self.places, rank(&self.places, from))
    }

    /// Whether a place is a member.
    pub fn has(&self, place: usize) -> bool
        ensures { result ≡ contains self.now.places place }
    {
        is_member(&self.places, rank(&self.places, place), place)
    }

    /// Makes a place a member.
    pub fn insert(&mut self, place: usize)
        requires { 0 < self.old.spare }
        ensures places { self.new.places ≡ with_number place self.old.places }
        ensures spare { self.old.spare - 1 ≤ self.new.spare }
    {
        let rank = rank(&self.places, place);
        if is_member(&self.places, rank, place) {
            return;
        }
        match self.places.insert(rank, place) {
            Ok(()) => {}
            Err(_) => unreachable!(),
        }
    }

    /// Makes a place no member.
    pub fn remove(&mut self, place: usize)
        ensures places { self.new.places ≡ filter (λ member. not (member == place)) self.old.places }
        ensures spare { self.old.spare ≤ self.new.spare }
    {
        let rank = rank(&self.places, place);
        if is_member(&self.places, rank, place) {
            match self.places.remove(rank) {
                Some(_) => {}
                None => unreachable!(),
            }
        }
    }
}

// How many of the ascending places are below `from`.
fn rank(places: &VecDeque<usize>, from: usize) -> usize
    requires { IsAscending 0 places.now.items }
    ensures value { result ≡ position_or_len (λ place. nat_le from place) places.now.items }
    ensures within { result ≤ length places.now.items }
{
    places.partition_point(|place| *place < from)
}

// Whether a place, of which so many members are below, is one of them.
fn is_member(places: &VecDeque<usize>, rank: usize, place: usize) -> bool
    requires ascending { IsAscending 0 places.now.items }
    requires rank { rank ≡ position_or_len (λ member. nat_le place member) places.now.items }
    ensures { result ≡ contains places.now.items place }
{
    match member_at(places, rank) {
        Some(member) => member == place,
        None => false,
    }
}

fn member_at(places: &VecDeque<usize>, rank: usize) -> Option<usize>
    ensures { result ≡ slice_get places.now.items rank }
{
    match places.get(rank) {
        Some(place) => Some(*place),
        None => None,
    }
}
