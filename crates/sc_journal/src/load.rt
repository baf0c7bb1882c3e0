ghost use Rattle.std.specs.Prelude.{◌≡◌, ◌≢◌, ◌+◌, ◌^◌, ◌<◌, ◌≤◌, ℕ, length, take, Ok, Err, IfOk, vec_capacity};
ghost use Rattle.sc_dev.specs.Causes.{Rose};
ghost use Rattle.sc_dev.specs.Disks.{DiskOf, Fits, Within};
ghost use Rattle.sc_journal.specs.Stops.{Passes};
ghost use Rattle.sc_journal.specs.Texts.{held, first_number, front, Holds};

use crate::fault::JournalFault;
use crate::text::{Found, read_text};
use sc_dev::{Disk, Part};
use std::alloc::Global;

const MOST: usize = 1 << 40;

// All bytes of the journal, read in pieces.
pub fn read_journal<D: Disk>(alloc: Global, disk: &mut D) -> Result<Vec<u8>, JournalFault>
    requires { (c : DiskOf) → D.law.may_leave disk.old c → Fits c }
    ensures bytes { D.law.tells → IfOk result (λ v. v.items ≡ (D.law.reads disk.old).journal) }
    ensures short { IfOk result (λ v. length v.items ≤ 2 ^ 40) }
    ensures stays { D.law.reads disk.new ≡ D.law.reads disk.old }
    ensures images { Within (D.law.may_leave disk.old) (D.law.may_leave disk.new) }
    ensures passes { Passes D.law disk.old disk.new (D.law.may_leave disk.old) }
    ensures disk { result ≡ Err JournalFault.Disk → Rose (D.law.faults disk.old) (D.law.faults disk.new) }
    ensures later { D.law.faults disk.old ≤ D.law.faults disk.new }
    ensures fine { result ≢ Err JournalFault.Disk → D.law.faults disk.new ≡ D.law.faults disk.old }
    ensures damaged { (at : ℕ) → result ≢ Err (JournalFault.Damaged at) }
    ensures same { D.law.identity disk.new ≡ D.law.identity disk.old }
{
    let mut text = Vec::new(alloc);
    let mut buffer = [0u8; 65536];
    while text.len() < MOST {
        let room = (MOST - text.len()).min(65536);
        let count = disk.read_at(Part::Journal, text.len() as u64, &mut buffer[..room])?;
        text.extend_from_slice(&buffer[..count])?;
        if count < room {
            return Ok(text);
        }
    }
    Ok(text)
}

// What an opening found, and the buffer of the journal.
#[derive(Drop)]
pub struct Loaded {
    pub found: Found,
    pub buffer: Vec<u8>,
}

// Syncs the journal and reads what it holds.
pub fn load<D: Disk>(alloc: Global, disk: &mut D) -> Result<Loaded, JournalFault>
    ensures bodies { D.law.tells → IfOk result (λ l. held (D.law.reads disk.old).journal ≡ Ok l.found.bodies) }
    ensures first { D.law.tells → IfOk result (λ l. first_number (D.law.reads disk.old).journal ≡ Ok l.found.first) }
    ensures holds { D.law.tells → IfOk result (λ l. (c : DiskOf) → D.law.may_leave disk.new c
        → Holds (record { format = 1; first = l.found.first }) l.found.bodies c.journal) }
    ensures end { IfOk result (λ l.
        l.found.end ≡ length (front (record { format = 1; first = l.found.first }) l.found.bodies)) }
    ensures last { IfOk result (λ l. l.found.first + length l.found.bodies ≤ 2 ^ 48 + 1) }
    ensures short { IfOk result (λ l. l.found.end < 2 ^ 40) }
    ensures room { IfOk result (λ l. 2097157 ≤ vec_capacity l.buffer) }
    ensures damaged { D.law.tells → (at : ℕ) → result ≡ Err (JournalFault.Damaged at)
        → held (D.law.reads disk.old).journal ≡ Err at }
    ensures disk { result ≡ Err JournalFault.Disk → Rose (D.law.faults disk.old) (D.law.faults disk.new) }
    ensures later { D.law.faults disk.old ≤ D.law.faults disk.new }
    ensures fine { result ≢ Err JournalFault.Disk → D.law.faults disk.new ≡ D.law.faults disk.old }
    ensures stays { result ≢ Err JournalFault.Disk → D.law.reads disk.new ≡ D.law.reads disk.old }
    ensures images { Within (D.law.may_leave disk.old) (D.law.may_leave disk.new) }
    ensures passes { Passes D.law disk.old disk.new (D.law.may_leave disk.old) }
    ensures same { D.law.identity disk.new ≡ D.law.identity disk.old }
{
    disk.sync(Part::Journal)?;
    let text = read_journal(alloc, disk)?;
    let found = match read_text(text) {
        Ok(found) => found,
        Err(place) => return Err(JournalFault::Damaged(place)),
    };
    let buffer = Vec::with_capacity(alloc, 2097157)?;
    Ok(Loaded { found, buffer })
}
