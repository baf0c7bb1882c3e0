ghost use Rattle.std.specs.Prelude.{◌≡◌};
ghost use Rattle.sc_top.specs.Statuses.{code, end_status};

use sc_report::End;

/// How the program ends.
#[derive(Clone, Copy, Debug, PartialEq, Eq)]
pub enum Status {
    /// What was asked for was done.
    Done,
    /// The words after the program's name are no command.
    OtherWords,
    /// The text spells no script.
    BadScript,
    /// The text spells no legal chart.
    Faulty,
    /// The source failed.
    ReadFault,
    /// The sink failed, and has taken the first part of what was to be written.
    WriteFault,
    /// The disk failed.
    DiskFault,
    /// Memory is out. Nothing was written.
    OutOfMemory,
    /// The steps of a run were used up, and a session is ready.
    Budget,
    /// The disk holds no journal that a host can be made of.
    BadJournal,
    /// The journal has no room for the next command.
    Full,
    /// There is a journal already.
    Exists,
}

impl Status {
    /// The status of a report that ends so.
    pub(crate) fn of_end(end: End) -> Status
        ensures { result ≡ end_status end }
    {
        match end {
            End::Quiet | End::Shown => Status::Done,
            End::Budget => Status::Budget,
            End::Disk => Status::DiskFault,
            End::Full => Status::Full,
        }
    }

    /// The number that the process ends with.
    pub fn code(self) -> u8
        ensures { result ≡ code self }
    {
        match self {
            Status::Done => 0,
            Status::OtherWords => 1,
            Status::BadScript => 2,
            Status::Faulty => 3,
            Status::ReadFault => 4,
            Status::WriteFault => 5,
            Status::DiskFault => 6,
            Status::OutOfMemory => 7,
            Status::Budget => 8,
            Status::BadJournal => 9,
            Status::Full => 10,
            Status::Exists => 11,
        }
    }
}
