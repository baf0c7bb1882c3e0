ghost use Rattle.std.specs.Prelude.{◌≡◌, ◌-◌, ◌<◌, ◌≤◌, ℕ, List, [], ◌∷◌, length, not, filter, count_by, slice_get};
ghost use Rattle.std.specs.Prelude.{Option, Some, IsOk, OnOk, OnErr, IfNone, IfSome, All};
ghost use Rattle.std.specs.Option.{option_copied};
ghost use Rattle.sc_types.specs.Sends.{with_send, is_of, is_send, IsBeforeAll, IsInDueOrder};
ghost use Rattle.sc_timers.specs.Order.{picks};

use crate::kept::{Kept, add, count_picked, remove_picked, take_first};
use crate::timed::{Pick, Timed};
use sc_base::NoMemory;
use sc_ranks::Ranks;
use slab::Slab;
use std::alloc::Global;
use std::marker::Model;

/// The pending sends, and for how many more there is room.
#[derive(Drop)]
pub struct Timers {
    kept: Kept,
    spare: usize,
}

impl Model for Timers {
    ghost use Rattle.std.specs.Prelude.{ℕ, ◌≤◌};
    ghost use Rattle.slab.specs.Slab.{get as send_at, HasRoomFor};
    ghost use Rattle.sc_timers.specs.Timers.{TimersOf};
    ghost use Rattle.sc_timers.specs.Order.{sends_of, AreKept};
    ghost use Rattle.sc_types.specs.contracts.host.TimerImage as timed;
    ghost use Rattle.std.specs.Coded.{codes};

    ghost Value = { TimersOf };

    ghost coded = { Prim.hlevel (codes, timed.the_row.coded) };

    ghost view = { λ t. record { sends = sends_of (send_at t.kept.sends) t.kept.due.entries; spare = t.spare } };

    ghost invariant = { λ t. AreKept (send_at t.kept.sends) t.kept.due.entries t.kept.session.entries
        × (t.spare ≤ t.kept.due.spare) × (t.spare ≤ t.kept.session.spare) × HasRoomFor t.kept.sends t.spare };
}

impl Timers {
    /// No sends, and room for none.
    pub fn new(alloc: Global) -> Timers
        ensures { result ≡ record { sends = []; spare = 0 } }
    {
        Timers {
            kept: Kept {
                sends: Slab::new(alloc),
                due: Ranks::new(alloc),
                session: Ranks::new(alloc),
            },
            spare: 0,
        }
    }

    /// Makes room for at least so many more sends. Out of memory, nothing is changed.
    pub fn reserve(&mut self, count: usize) -> Result<(), NoMemory>
        ensures sends { self.new.sends ≡ self.old.sends }
        ensures spare { self.old.spare ≤ self.new.spare }
        ensures ok { OnOk result (count ≤ self.new.spare) }
        ensures err { OnErr result (self.new ≡ self.old) }
        ensures enough { count ≤ self.old.spare → IsOk result × (self.new ≡ self.old) }
    {
        if count <= self.spare {
            return Ok(());
        }
        self.kept.due.reserve(count)?;
        self.kept.session.reserve(count)?;
        self.kept.sends.reserve(count)?;
        self.spare = count;
        Ok(())
    }

    /// Adds a send that was made after all that are pending.
    pub fn add(&mut self, send: Timed)
        requires room { 0 < self.old.spare }
        requires newest { All (λ s. s.number < send.number) self.old.sends }
        ensures { self.new ≡ record { sends = with_send send self.old.sends; spare = self.old.spare - 1 } }
    {
        add(&mut self.kept, send);
        self.spare -= 1;
    }

    /// How many sends are pending.
    pub fn len(&self) -> usize
        ensures { result ≡ length self.now.sends }
    {
        self.kept.due.len()
    }

    /// How many sends of a session have an id. What it costs depends on the sends of that session.
    pub fn count(&self, session: &[u8], id: &[u8]) -> u64
        ensures { result ≡ count_by (is_send session.now id.now) self.now.sends }
    {
        let pick = Pick {
            session,
            id: Some(id),
        };
        count_picked(&self.kept, pick)
    }

    /// Removes the sends of a session with an id, and counts them.
    pub fn cancel_all(&mut self, session: &[u8], id: &[u8]) -> u64
        ensures count { result ≡ count_by (is_send session.now id.now) self.old.sends }
        ensures sends { self.new.sends ≡ filter (λ s. not (is_send session.now id.now s)) self.old.sends }
        ensures spare { self.new.spare ≡ self.old.spare }
    {
        let pick = Pick {
            session,
            id: Some(id),
        };
        self.remove_picked(pick)
    }

    /// Removes all sends of a session, and counts them.
    pub fn discard(&mut self, session: &[u8]) -> u64
        ensures count { result ≡ count_by (is_of session.now) self.old.sends }
        ensures sends { self.new.sends ≡ filter (λ s. not (is_of session.now s)) self.old.sends }
        ensures spare { self.new.spare ≡ self.old.spare }
    {
        let pick = Pick { session, id: None };
        self.remove_picked(pick)
    }

    /// Takes the first send out where it is due by now.
    pub fn take_due(&mut self, now: u64) -> Option<Timed>
        ensures none { IfNone result (All (λ s. now < s.due) self.old.sends × (self.new ≡ self.old)) }
        ensures first { IfSome result (λ t. (self.old.sends ≡ t ∷ self.new.sends) × (t.due ≤ now)) }
        ensures earliest { IfSome result (λ t. IsBeforeAll t self.new.sends) }
        ensures spare { self.new.spare ≡ self.old.spare }
    {
        if now < self.get(0)?.due {
            return None;
        }
        Some(self.take_first())
    }

    /// The send at a place of the due order, counted from 0.
    pub fn get(&self, place: usize) -> Option<&Timed>
        ensures value { option_copied result ≡ slice_get self.now.sends place }
        ensures order { IsInDueOrder self.now.sends }
    {
        match self.kept.due.get(place) {
            Some(entry) => self.kept.sends.get(entry.key),
            None => None,
        }
    }

    fn take_first(&mut self) -> Timed
        requires { 0 < length self.old.sends }
        ensures first { self.old.sends ≡ result ∷ self.new.sends }
        ensures spare { self.new.spare ≡ self.old.spare }
    {
        take_first(&mut self.kept)
    }

    // Removes the picked sends, and counts them.
    fn remove_picked(&mut self, pick: Pick<'_>) -> u64
        ensures count { result ≡ count_by (picks pick.entry) self.old.sends }
        ensures sends { self.new.sends ≡ filter (λ s. not (picks pick.entry s)) self.old.sends }
        ensures spare { self.new.spare ≡ self.old.spare }
    {
        remove_picked(&mut self.kept, pick)
    }
}
