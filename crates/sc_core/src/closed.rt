use crate::history::History;
use crate::host_state::HostState;
use sc_law::Engine;

/// What a run leaves: the host, how many commands the journal held when it was opened, what happened since, and the
/// disk.
#[derive(Drop)]
pub struct Closed<E: Engine, D> {
    pub host: HostState<E>,
    pub opened: u64,
    pub history: History,
    pub disk: D,
}
