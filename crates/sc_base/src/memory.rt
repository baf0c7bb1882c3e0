use std::alloc::{AllocError, AllocFailed};
use std::error::Error;
use std::fmt;

/// Out of memory. It is the one answer that no contract ties to a cause; what a call leaves behind is as before
/// unless its own page says otherwise.
#[derive(Clone, Copy, Debug, PartialEq, Eq)]
pub struct NoMemory;

impl fmt::Display for NoMemory {
    fn fmt<W: fmt::Write>(&self, f: &mut fmt::Formatter<W>) -> fmt::Result {
        write!(f, "out of memory")
    }
}

impl Error for NoMemory {}

impl From<AllocError> for NoMemory {
    fn from(_error: AllocError) -> NoMemory {
        NoMemory
    }
}

impl<T: Drop> From<AllocFailed<T>> for NoMemory {
    /// Out of line, so that a caller holds none of the code that drops what had no room.
    #[cold]
    #[inline(never)]
    fn from(_error: AllocFailed<T>) -> NoMemory {
        NoMemory
    }
}
