ghost use Rattle.std.specs.Prelude.{◌≡◌, ◌+◌, ◌<◌, ◌≤◌, ◌^◌, [], length, IfOk, OnErr};
ghost use Rattle.sc_dev.specs.Disks.{DiskOf, part_of};
ghost use Rattle.sc_dev.specs.Histories.{passed, wrote, lost, synced, filled};
ghost use Rattle.sc_dev.specs.MemDisks.{PartsFit, with_call, parts_read, parts_filled, calls_made, all_written};

use crate::disk::Part;
use crate::mem_part::{MemPart, Rooms};
use sc_base::NoMemory;
use std::alloc::Global;
use std::marker::Model;

// The three parts of a disk in memory.
#[derive(Debug, Drop)]
pub struct MemParts {
    journal: MemPart,
    slot_a: MemPart,
    slot_b: MemPart,
    rooms: Rooms,
}

// The bytes of three parts.
#[derive(Clone, Copy)]
pub struct Contents<'a> {
    pub journal: &'a [u8],
    pub slot_a: &'a [u8],
    pub slot_b: &'a [u8],
}

impl Model for MemParts {
    ghost use Rattle.sc_dev.specs.MemDisks.{PartsOf};

    ghost Value = { PartsOf };

    ghost use Rattle.sc_dev.specs.PartsInside.{parts_inside, AreWhole};

    ghost view = { parts_inside };

    ghost invariant = { AreWhole };
}

impl MemParts {
    pub fn new(alloc: Global, contents: Contents<'_>, rooms: Rooms) -> Result<MemParts, NoMemory>
        requires limit { rooms.bytes ≤ 2 ^ 40 }
        requires journal { length contents.journal.now ≤ rooms.bytes }
        requires slot_a { length contents.slot_a.now ≤ rooms.bytes }
        requires slot_b { length contents.slot_b.now ≤ rooms.bytes }
        ensures { IfOk result (λ p. p ≡ record {
          journal = record { first = contents.entry.journal.now; calls = [] };
          slot_a = record { first = contents.entry.slot_a.now; calls = [] };
          slot_b = record { first = contents.entry.slot_b.now; calls = [] };
          rooms = rooms;
        }) }
    {
        Ok(MemParts {
            journal: MemPart::new(alloc, contents.journal, rooms)?,
            slot_a: MemPart::new(alloc, contents.slot_a, rooms)?,
            slot_b: MemPart::new(alloc, contents.slot_b, rooms)?,
            rooms,
        })
    }

    pub fn bytes(&self, part: Part) -> &[u8]
        ensures { result.now ≡ part_of part (parts_read self.now) }
    {
        match part {
            Part::Journal => self.journal.bytes(),
            Part::SlotA => self.slot_a.bytes(),
            Part::SlotB => self.slot_b.bytes(),
        }
    }

    pub fn rooms(&self) -> Rooms
        ensures rooms { result ≡ self.now.rooms }
        ensures fit { PartsFit self.now }
    {
        self.rooms
    }

    pub fn calls(&self) -> usize
        ensures { result ≡ calls_made self.now }
    {
        self.journal.calls()
    }

    pub fn pass(&mut self)
        requires { calls_made self.old < self.old.rooms.calls }
        ensures after { self.new ≡ with_call Part.Journal passed self.old }
        ensures fit { PartsFit self.new }
    {
        self.journal.pass();
        self.slot_a.pass();
        self.slot_b.pass();
    }

    pub fn sync(&mut self, part: Part)
        requires { calls_made self.old < self.old.rooms.calls }
        ensures after { self.new ≡ with_call part synced self.old }
        ensures fit { PartsFit self.new }
    {
        match part {
            Part::Journal => {
                self.journal.sync();
                self.slot_a.pass();
                self.slot_b.pass();
            }
            Part::SlotA => {
                self.journal.pass();
                self.slot_a.sync();
                self.slot_b.pass();
            }
            Part::SlotB => {
                self.journal.pass();
                self.slot_a.pass();
                self.slot_b.sync();
            }
        }
    }

    pub fn lose(&mut self, part: Part, at: usize, size: usize)
        requires calls { calls_made self.old < self.old.rooms.calls }
        requires room { at + size ≤ self.old.rooms.bytes }
        ensures after { self.new ≡ with_call part (lost at size) self.old }
        ensures fit { PartsFit self.new }
    {
        match part {
            Part::Journal => {
                self.journal.lose(at, size);
                self.slot_a.pass();
                self.slot_b.pass();
            }
            Part::SlotA => {
                self.journal.pass();
                self.slot_a.lose(at, size);
                self.slot_b.pass();
            }
            Part::SlotB => {
                self.journal.pass();
                self.slot_a.pass();
                self.slot_b.lose(at, size);
            }
        }
    }

    pub fn write(&mut self, part: Part, at: usize, piece: &[u8])
        requires calls { calls_made self.old < self.old.rooms.calls }
        requires room { at + length piece.now ≤ self.old.rooms.bytes }
        requires written { all_written self.old + length piece.now ≤ self.old.rooms.written }
        ensures after { self.new ≡ with_call part (wrote at piece.now) self.old }
        ensures fit { PartsFit self.new }
    {
        match part {
            Part::Journal => {
                self.journal.write(at, piece);
                self.slot_a.pass();
                self.slot_b.pass();
            }
            Part::SlotA => {
                self.journal.pass();
                self.slot_a.write(at, piece);
                self.slot_b.pass();
            }
            Part::SlotB => {
                self.journal.pass();
                self.slot_a.pass();
                self.slot_b.write(at, piece);
            }
        }
    }

    // The bytes of one part with the fill in each range that was written since its last sync.
    pub fn filled(&self, alloc: Global, part: Part, fill: &[u8]) -> Result<Vec<u8>, NoMemory>
        requires { 0 < length fill.now }
        ensures bytes { IfOk result (λ v. v.items ≡ part_of part (parts_filled fill.now self.now)) }
        ensures size { IfOk result (λ v. length v.items ≤ self.now.rooms.bytes) }
    {
        match part {
            Part::Journal => self.journal.filled(alloc, fill),
            Part::SlotA => self.slot_a.filled(alloc, fill),
            Part::SlotB => self.slot_b.filled(alloc, fill),
        }
    }
}
