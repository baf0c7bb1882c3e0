use sc_base::{SharedBytes, Word};
use sc_rooms::HasName;

/// That a session was invoked, by whom and under which id.
#[derive(Debug, Drop)]
pub struct Link {
    /// The invoked session.
    pub child: Word,
    pub invoker: Word,
    pub invokeid: SharedBytes,
    /// The invoker's depth plus 1; a session that nobody invoked has 1.
    pub depth: u32,
    /// Whether the two hear no more of one another.
    pub cut: bool,
}

impl HasName for Link {
    ghost name = { λ l. l.child };

    fn name(&self) -> &Word {
        &self.child
    }
}
