use sc_base::Failure;
use std::error::Error;
use std::fmt;

/// A device did not do what it was asked. What it holds is as before, and its count of faults rose or stands
/// at its last value.
#[derive(Clone, Copy, Debug, PartialEq, Eq)]
pub struct Failed;

impl fmt::Display for Failed {
    fn fmt<W: fmt::Write>(&self, f: &mut fmt::Formatter<W>) -> fmt::Result {
        write!(f, "the device failed")
    }
}

impl Error for Failed {}

impl From<Failed> for Failure<Failed> {
    ghost use Rattle.std.specs.Prelude.{◌≡◌};
    ghost use Rattle.sc_base.specs.declared.failure.Failure.TheVariants.{Fault};

    ghost from_gives = { λ error e. e ≡ Fault error };

    fn from(error: Failed) -> Failure<Failed> {
        Failure::Fault(error)
    }
}
