ghost use Rattle.std.specs.Prelude.{◌≡◌, [], IsTrue, ◌↔◌, IfOk};

use crate::counted::Counted;
use crate::memory::NoMemory;
use crate::plain::Plain;
use std::alloc::{AllocError, Global};
use std::marker::Model;

/// Bytes that never change and that most values lack, as the ids and the origin of an event. Contracts see them as a
/// list of numbers. The value itself takes 16 bytes, and its bytes, where it has any, have a count of owners:
/// a copy allocates nothing.
#[derive(Debug, Drop)]
pub struct SharedBytes {
    counted: Option<Counted>,
}

impl Model for SharedBytes {
    ghost use Rattle.std.specs.Prelude.{List, ℕ, [], unwrap_or};

    ghost Value = { List ℕ };

    ghost view = { λ s. unwrap_or s.counted [] };
}

impl SharedBytes {
    pub fn from_slice(alloc: Global, bytes: &[u8]) -> Result<SharedBytes, NoMemory>
        ensures { IfOk result (λ s. s ≡ bytes.now) }
    {
        if bytes.is_empty() {
            return Ok(SharedBytes::empty());
        }
        Ok(SharedBytes {
            counted: Some(Counted::new(alloc, bytes)?),
        })
    }

    /// No bytes.
    pub fn empty() -> SharedBytes
        ensures { result ≡ [] }
    {
        SharedBytes { counted: None }
    }

    pub fn slice(&self) -> &[u8]
        ensures { result.now ≡ self.now }
    {
        match &self.counted {
            Some(counted) => counted.slice(),
            None => &[],
        }
    }

    pub fn is_empty(&self) -> bool
        ensures { IsTrue result ↔ (self.now ≡ []) }
    {
        self.slice().is_empty()
    }
}

impl Clone for SharedBytes {
    ghost is_clone = { λ b copy. copy ≡ b };

    fn clone(&self) -> Result<Self, AllocError> {
        let counted = match &self.counted {
            Some(counted) => Some(counted.clone()?),
            None => None,
        };
        Ok(SharedBytes { counted })
    }
}

impl Plain for SharedBytes {
    ghost clone_equals = { λ b copy e. e };
}

impl PartialEq for SharedBytes {
    ghost use Rattle.std.specs.Prelude.{nat_eq};
    ghost use Rattle.std.specs.Cmp.{partial_equiv_from_equiv};
    ghost use Rattle.std.specs.Cmp.Lexicographic.{pointwise, nat_list_eq_equiv};

    ghost eq = { pointwise nat_eq };

    ghost laws = { partial_equiv_from_equiv nat_list_eq_equiv };

    fn eq(&self, other: &SharedBytes) -> bool {
        self.slice() == other.slice()
    }
}

impl Eq for SharedBytes {
    ghost use Rattle.std.specs.Cmp.Lexicographic.{nat_list_eq_equiv};

    ghost laws = { nat_list_eq_equiv };
}
