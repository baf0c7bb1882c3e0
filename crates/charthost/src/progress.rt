use sc_dev::Part;
use std::time::{Duration, Instant};

/// Tells on standard error how many commands a long run has accepted, steps among them. Each is synced twice, behind
/// the one sync with which the journal was opened.
#[derive(Drop)]
pub(crate) struct Progress {
    is_told: bool,
    syncs: u64,
    due: Option<Instant>,
}

impl Progress {
    pub(crate) fn new(is_told: bool) -> Progress {
        Progress {
            is_told,
            syncs: 0,
            due: None,
        }
    }

    /// Counts a sync. Two seconds after the first, and then once a second at most, the count is told, once there is a
    /// command to count.
    pub(crate) fn synced(&mut self, rt: &HostRuntime, part: Part) {
        if !self.is_told || part != Part::Journal {
            return;
        }
        self.syncs = self.syncs.saturating_add(1);
        let Ok(now) = Instant::now(rt) else {
            return;
        };
        if self.due.is_none() {
            self.due = now.checked_add(Duration::from_secs(2));
        } else if self.is_due(now) && self.commands() > 0 {
            self.due = now.checked_add(Duration::from_secs(1));
            let _ = eprintln!(rt; "charthost: {} commands accepted so far", self.commands());
        }
    }

    fn is_due(&self, now: Instant) -> bool {
        match &self.due {
            Some(due) => *due <= now,
            None => false,
        }
    }

    fn commands(&self) -> u64 {
        self.syncs.saturating_sub(1) / 2
    }
}
