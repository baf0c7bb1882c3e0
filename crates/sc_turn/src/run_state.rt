use sc_exec::Running;
use sc_types::Histories;

/// A session in the middle of a turn, and what its histories recorded.
#[derive(Drop)]
pub(crate) struct RunState {
    pub(crate) running: Running,
    pub(crate) histories: Histories,
}
