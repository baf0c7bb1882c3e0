ghost use Rattle.std.specs.Prelude.{◌≡◌};
ghost use Rattle.sc_report.specs.Report.{end_word};

/// How a report ends.
#[derive(Clone, Copy, Debug, PartialEq, Eq)]
pub enum End {
    /// The script was run, and no session is ready.
    Quiet,
    /// The script was run, a session is ready, and the steps are used up.
    Budget,
    /// The disk failed.
    Disk,
    /// The journal has no room for the next command.
    Full,
    /// Nothing was run.
    Shown,
}

impl End {
    pub(crate) fn word(self) -> &'static [u8]
        ensures { result.now ≡ end_word self }
    {
        match self {
            End::Quiet => b"quiet",
            End::Budget => b"budget",
            End::Disk => b"disk",
            End::Full => b"full",
            End::Shown => b"shown",
        }
    }
}
