ghost use Rattle.std.specs.Prelude.{◌≡◌, IfOk};

use crate::memory::NoMemory;
use std::alloc::{AllocError, Global};
use std::marker::Model;
use std::sync::Arc;

/// Bytes with a count of owners, which contracts see as a list of numbers.
#[derive(Debug, Drop)]
pub(crate) struct Counted {
    bytes: Arc<Vec<u8>>,
}

impl Model for Counted {
    ghost use Rattle.std.specs.Prelude.{List, ℕ};

    ghost Value = { List ℕ };

    ghost view = { λ c. c.bytes.value.items };
}

impl Counted {
    pub(crate) fn new(alloc: Global, bytes: &[u8]) -> Result<Counted, NoMemory>
        ensures { IfOk result (λ c. c ≡ bytes.now) }
    {
        let bytes = Vec::from_slice(alloc, bytes)?;
        Ok(Counted {
            bytes: Arc::new(alloc, bytes)?,
        })
    }

    pub(crate) fn slice(&self) -> &[u8]
        ensures { result.now ≡ self.now }
    {
        self.bytes.as_slice()
    }
}

impl Clone for Counted {
    ghost is_clone = { λ b copy. copy ≡ b };

    fn clone(&self) -> Result<Self, AllocError> {
        Ok(Counted {
            bytes: Arc::try_clone(&self.bytes)?,
        })
    }
}
