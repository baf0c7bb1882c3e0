/// The threads that step sessions in a run, where the words do not say it.
pub const RUN_WORKERS: u64 = 2;

/// The most threads that the words may give a run to step sessions.
pub const RUN_WORKERS_LIMIT: u64 = 16;

/// The steps that a run may take, where the words do not say it.
pub const RUN_BUDGET: u64 = 1_000_000;

/// The most steps that the words may give a run.
pub const RUN_BUDGET_LIMIT: u64 = 1_000_000_000_000;

/// The most commands that the words may have drawn from a number, beside those that start the sessions.
pub const GEN_SIZE_LIMIT: u64 = 100_000;

/// What the words of a command line ask for.
#[derive(Clone, Copy, Debug, PartialEq, Eq)]
pub enum Asked {
    /// A new journal.
    Init,
    /// The run of a script.
    Run {
        /// How many threads step the sessions; where it is 0, the one thread that there is does everything.
        workers: u32,
        /// How many steps the run may take.
        budget: u64,
    },
    /// The host that the journal holds.
    Show,
    /// Whether a text spells a legal chart.
    Check,
    /// The run of a script that is drawn from a number, on one thread.
    Gen {
        number: u64,
        /// How many commands are drawn.
        size: u32,
    },
}
