use sc_base::NoMemory;
use std::error::Error;
use std::fmt;

/// Why no command was read from a body.
#[derive(Clone, Copy, Debug, PartialEq, Eq)]
pub enum CodecFault {
    /// The bytes are the body of no command.
    NotCommand,
    NoMemory,
}

impl fmt::Display for CodecFault {
    fn fmt<W: fmt::Write>(&self, f: &mut fmt::Formatter<W>) -> fmt::Result {
        match self {
            CodecFault::NotCommand => write!(f, "not the body of a command"),
            CodecFault::NoMemory => write!(f, "out of memory"),
        }
    }
}

impl Error for CodecFault {}

impl From<NoMemory> for CodecFault {
    ghost use Rattle.std.specs.Prelude.{◌≡◌};
    ghost use Rattle.sc_codec.specs.declared.fault.CodecFault.TheVariants.{NoMemory};

    ghost from_gives = { λ _ e. e ≡ NoMemory };

    fn from(_error: NoMemory) -> CodecFault {
        CodecFault::NoMemory
    }
}
