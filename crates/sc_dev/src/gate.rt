use std::sync::atomic::{AtomicU64, Ordering};

/// What a worker passes between the claim of a session and its commit, outside every lock.
pub trait Gate: Sync {
    /// A worker has claimed the session at a place, counted from 0 in order of start.
    fn inside(&self, session: u64);
}

/// A gate that does nothing.
#[derive(Debug, Drop)]
pub struct OpenGate;

impl Gate for OpenGate {
    fn inside(&self, _session: u64) {}
}

/// The most looks for a second call that the first one takes.
const HELD_LOOKS: u32 = 1_000_000_000;

/// A gate that holds the first call until a second one has entered, for at most 1,000,000,000 looks. It shows that two
/// workers were inside at once.
#[derive(Debug, Drop)]
pub struct HoldGate {
    entered: AtomicU64,
    met: AtomicU64,
}

impl HoldGate {
    pub fn new() -> HoldGate {
        HoldGate {
            entered: AtomicU64::new(0),
            met: AtomicU64::new(0),
        }
    }

    /// Whether a second call entered while the first was held.
    pub fn met(&self) -> bool {
        self.met.load(Ordering::SeqCst) > 0
    }
}

impl Gate for HoldGate {
    fn inside(&self, _session: u64) {
        if self.entered.fetch_add(1, Ordering::SeqCst) > 0 {
            return;
        }
        for _look in 0..HELD_LOOKS {
            if self.entered.load(Ordering::SeqCst) > 1 {
                self.met.store(1, Ordering::SeqCst);
                return;
            }
        }
    }
}
