ghost use Rattle.std.specs.Prelude.{◌≡◌, ◌<◌, [], ◌∷◌, true, length};
ghost use Rattle.sc_pool.specs.Clients.{Marks, Takes};

use sc_types::{Command, Remaining, Sequence};

/// A client of a pool.
#[derive(Drop)]
pub(crate) struct Client {
    /// Its number, from 1 on.
    pub(crate) number: u32,
    /// The commands that it has still to make.
    pub(crate) left: Remaining<Command>,
    /// Whether one of its commands met a fault. It makes no more then.
    pub(crate) failed: bool,
}

/// What a client's job finds in its list.
#[derive(Drop)]
pub(crate) enum Taken {
    /// The next command, and the client's number.
    Next(u32, Command),
    /// All its commands are made.
    Over,
    /// One of them met a fault.
    Failed,
}

impl Client {
    fn take(&mut self) -> Taken
        ensures { Takes 0 (self.old ∷ []) (self.new ∷ []) result }
    {
        if self.failed {
            return Taken::Failed;
        }
        match self.left.take_first() {
            Some(command) => Taken::Next(self.number, command),
            None => Taken::Over,
        }
    }

    fn mark(&mut self)
        ensures { self.new ≡ record self.old { failed = true } }
    {
        self.failed = true;
    }
}

/// Takes the next command of the client at a place.
pub(crate) fn take(clients: &mut Sequence<Client>, place: usize) -> Taken
    ensures { Takes place clients.old clients.new result }
{
    if place >= clients.len() {
        return Taken::Over;
    }
    clients.item_mut(place).take()
}

/// Marks the client at a place as one that met a fault.
pub(crate) fn mark(clients: &mut Sequence<Client>, place: usize)
    requires { place < length clients.old }
    ensures { Marks place clients.old clients.new }
{
    clients.item_mut(place).mark();
}
