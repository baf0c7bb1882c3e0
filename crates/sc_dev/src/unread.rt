ghost use Rattle.std.specs.Prelude.{◌≡◌, min, length, take, drop, IfOk};

use sc_base::{Bytes, NoMemory};
use std::alloc::Global;
use std::marker::Model;

// The bytes that a source in memory has left.
#[derive(Debug, Drop)]
pub struct Unread {
    bytes: Bytes,
    at: usize,
}

impl Model for Unread {
    ghost use Rattle.std.specs.Prelude.{List, ℕ, ◌≤◌, length, drop};

    ghost Value = { List ℕ };

    ghost view = { λ u. drop u.at u.bytes };

    ghost invariant = { λ u. u.at ≤ length u.bytes };
}

impl Unread {
    pub fn new(alloc: Global, bytes: &[u8]) -> Result<Unread, NoMemory>
        ensures { IfOk result (λ u. u ≡ bytes.now) }
    {
        Ok(Unread {
            bytes: Bytes::from_slice(alloc, bytes)?,
            at: 0,
        })
    }

    // Hands over as many bytes as there is room for.
    pub fn hand_over(&mut self, into: &mut [u8]) -> usize
        ensures count { result ≡ min (length into.old) (length self.old) }
        ensures bytes { take result into.new ≡ take result self.old }
        ensures rest { self.new ≡ drop result self.old }
    {
        let count = copy_front(&self.bytes.slice()[self.at..], into);
        self.at += count;
        count
    }
}

// Copies as many bytes as there is room for.
pub fn copy_front(from: &[u8], into: &mut [u8]) -> usize
    ensures count { result ≡ min (length into.old) (length from.now) }
    ensures bytes { take result into.new ≡ take result from.now }
{
    let count = into.len().min(from.len());
    into[..count].copy_from_slice(&from[..count]);
    count
}
