ghost use Rattle.std.specs.Prelude.{◌≡◌, ◌++◌, ◌∷◌, [], OnOk};
ghost use Rattle.sc_core.specs.declared.change.Change.TheVariants as change;

use crate::change::Change;
use sc_base::{Boxed, NoMemory, Queue, Sequence, Word};
use sc_types::{Delivery, Event};
use std::alloc::Global;

/// A session by its name and its place.
#[derive(Debug, Drop)]
pub struct Placed {
    pub(crate) name: Word,
    pub(crate) place: usize,
}

/// What is prepared of a step's effects so far: the changes, and what becomes of each effect.
#[derive(Drop)]
pub struct Draft<P> {
    pub(crate) changes: Queue<Change<P>>,
    pub(crate) sent: Sequence<Delivery>,
    /// The sessions that are born by then, in order.
    pub(crate) births: Sequence<Placed>,
    /// How many events have numbers by then.
    pub(crate) events: u128,
    /// How many sends are delayed by then.
    pub(crate) delayed: u64,
}

impl<P: Drop> Draft<P> {
    /// Before the first effect.
    pub(crate) fn new(alloc: Global, events: u128, delayed: u64) -> Draft<P>
        ensures { result ≡ record { changes = []; sent = []; births = []; events = events; delayed = delayed } }
    {
        Draft {
            changes: Queue::new(alloc),
            sent: Sequence::new(alloc),
            births: Sequence::new(alloc),
            events,
            delayed,
        }
    }

    /// Prepares that an event joins the internal queue of the session at a place.
    pub(crate) fn tell(&mut self, alloc: Global, place: usize, event: Event) -> Result<(), NoMemory>
        ensures { OnOk result
            (self.new ≡ record self.old { changes = self.old.changes ++ change.Tell place event ∷ [] }) }
    {
        let event = Boxed::new(alloc, event)?;
        self.changes.push(Change::Tell { place, event })
    }
}
