ghost use Rattle.std.specs.Prelude.{◌≡◌, IfOk};

use crate::counted::Counted;
use crate::memory::NoMemory;
use crate::plain::Plain;
use std::alloc::{AllocError, Global};
use std::marker::Model;

/// Where bytes lie.
#[derive(Debug, Drop)]
enum Held {
    /// In the value itself, the first ones of the room.
    Here { len: u8, room: [u8; 22] },
    Elsewhere(Counted),
}

/// Bytes that never change, which contracts see as a list of numbers. Up to 22 of them lie in the value itself, which
/// takes 24 bytes, and more of them have a count of owners, so that a copy allocates nothing.
#[derive(Debug, Drop)]
pub struct SmallBytes {
    held: Held,
}

impl Model for SmallBytes {
    ghost use Rattle.std.specs.Prelude.{List, ℕ, ◌≤◌};
    ghost use Rattle.sc_base.specs.SmallBytes.{small_bytes, IsSmall};

    ghost Value = { List ℕ };

    ghost view = { small_bytes };

    ghost invariant = { IsSmall };
}

impl SmallBytes {
    pub fn from_slice(alloc: Global, bytes: &[u8]) -> Result<SmallBytes, NoMemory>
        ensures { IfOk result (λ s. s ≡ bytes.now) }
    {
        if bytes.len() <= 22 {
            let mut room = [0u8; 22];
            room[..bytes.len()].copy_from_slice(bytes);
            let len = bytes.len() as u8;
            return Ok(SmallBytes {
                held: Held::Here { len, room },
            });
        }
        Ok(SmallBytes {
            held: Held::Elsewhere(Counted::new(alloc, bytes)?),
        })
    }

    pub fn slice(&self) -> &[u8]
        ensures { result.now ≡ self.now }
    {
        match &self.held {
            Held::Here { len, room } => &room[..*len as usize],
            Held::Elsewhere(counted) => counted.slice(),
        }
    }
}

impl Clone for SmallBytes {
    ghost is_clone = { λ b copy. copy ≡ b };

    fn clone(&self) -> Result<Self, AllocError> {
        let held = match &self.held {
            Held::Here { len, room } => Held::Here {
                len: *len,
                room: *room,
            },
            Held::Elsewhere(counted) => Held::Elsewhere(counted.clone()?),
        };
        Ok(SmallBytes { held })
    }
}

impl Plain for SmallBytes {
    ghost clone_equals = { λ b copy e. e };
}

impl PartialEq for SmallBytes {
    ghost use Rattle.std.specs.Prelude.{nat_eq};
    ghost use Rattle.std.specs.Cmp.{partial_equiv_from_equiv};
    ghost use Rattle.std.specs.Cmp.Lexicographic.{pointwise, nat_list_eq_equiv};

    ghost eq = { pointwise nat_eq };

    ghost laws = { partial_equiv_from_equiv nat_list_eq_equiv };

    fn eq(&self, other: &SmallBytes) -> bool {
        self.slice() == other.slice()
    }
}

impl Eq for SmallBytes {
    ghost use Rattle.std.specs.Cmp.Lexicographic.{nat_list_eq_equiv};

    ghost laws = { nat_list_eq_equiv };
}
