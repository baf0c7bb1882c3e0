use sc_types::{Command, Sequence};

/// The commands of a script: those of the set-up, which come first, and those of each client.
#[derive(Drop, PartialEq, Eq)]
pub struct Script {
    pub setup: Sequence<Command>,
    /// At most 64 lists, of which each may be empty.
    pub clients: Sequence<Sequence<Command>>,
}
