use sc_base::NoMemory;
use sc_dev::Failed;
use std::error::Error;
use std::fmt;

/// Why a journal was not opened as a host.
#[derive(Clone, Copy, Debug, PartialEq, Eq)]
pub enum OpenFault {
    /// The disk failed.
    Disk,
    /// The text is no journal's; the place in it says where.
    Damaged(u64),
    /// The entry of this number, counted from 1, is the first that is no command, or that the host refuses there.
    BadEntry(u64),
    /// Memory is out.
    NoMemory,
}

/// Why a command was not answered. The history and the host are as before.
#[derive(Clone, Copy, Debug, PartialEq, Eq)]
pub enum CallFault {
    /// The disk failed. The command may be in doubt.
    Disk,
    /// The host would accept the command, and the journal has no room for it.
    Full,
    /// Memory is out, or the host would accept the command and a value in it is past the limits of values.
    NoMemory,
}

impl From<NoMemory> for OpenFault {
    ghost use Rattle.std.specs.Prelude.{◌≡◌};
    ghost use Rattle.sc_book.specs.declared.fault.OpenFault.TheVariants.{NoMemory};

    ghost from_gives = { λ _ e. e ≡ NoMemory };

    fn from(_error: NoMemory) -> OpenFault {
        OpenFault::NoMemory
    }
}

impl From<NoMemory> for CallFault {
    ghost use Rattle.std.specs.Prelude.{◌≡◌};
    ghost use Rattle.sc_book.specs.declared.fault.CallFault.TheVariants.{NoMemory};

    ghost from_gives = { λ _ e. e ≡ NoMemory };

    fn from(_error: NoMemory) -> CallFault {
        CallFault::NoMemory
    }
}

impl From<Failed> for CallFault {
    ghost use Rattle.std.specs.Prelude.{◌≡◌};
    ghost use Rattle.sc_book.specs.declared.fault.CallFault.TheVariants.{Disk};

    ghost from_gives = { λ _ e. e ≡ Disk };

    fn from(_error: Failed) -> CallFault {
        CallFault::Disk
    }
}

impl fmt::Display for OpenFault {
    fn fmt<W: fmt::Write>(&self, f: &mut fmt::Formatter<W>) -> fmt::Result {
        match self {
            OpenFault::Disk => write!(f, "the disk failed"),
            OpenFault::Damaged(place) => write!(f, "the journal is damaged at {place}"),
            OpenFault::BadEntry(number) => write!(
                f,
                "the entry {number} of the journal is no command that the host accepts"
            ),
            OpenFault::NoMemory => write!(f, "out of memory"),
        }
    }
}

impl fmt::Display for CallFault {
    fn fmt<W: fmt::Write>(&self, f: &mut fmt::Formatter<W>) -> fmt::Result {
        match self {
            CallFault::Disk => write!(f, "the disk failed"),
            CallFault::Full => write!(f, "the journal is full"),
            CallFault::NoMemory => write!(f, "out of memory"),
        }
    }
}

impl Error for OpenFault {}

impl Error for CallFault {}
