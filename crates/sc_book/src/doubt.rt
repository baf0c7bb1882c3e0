use sc_types::{Command, Who};

/// A command that the disk failed to take, and that a stop of the machine may leave in the journal or not.
#[derive(Drop)]
pub struct Doubt {
    pub who: Who,
    pub command: Command,
    /// How many entries the history had.
    pub before: usize,
}
