ghost use Rattle.std.specs.Prelude.{◌≡◌, ◌+◌, ◌-◌, ◌^◌, ◌<◌, ◌≤◌, ⊤, true, false, [], min, length, take, drop, IfOk, OnOk, MatchResult};
ghost use Rattle.std.specs.Io.{ReadsAtMost};
ghost use Rattle.sc_dev.specs.Causes.{HasCause, Rose, risen};
ghost use Rattle.sc_dev.specs.Disks.{DiskOf, Elapsed, Fits, Follows, Torn, Within, part_of};
ghost use Rattle.sc_dev.specs.Histories.{passed, synced, lost, wrote};
ghost use Rattle.sc_dev.specs.MemDisks.{PartsLeave, MightHaveLeft, parts_read, parts_filled, moment_of, identity_of, mem_law, new_disk, with_call, made, refused, is_past, is_named, has_room, goes_well, after_read_at, after_sync, write_goes_well, after_write_at};
ghost use Rattle.sc_dev.specs.MemDiskFacts.{parts_stand, since_grows, since_now, since_only};
ghost use Rattle.sc_dev.specs.Steps.{Steps};

use crate::disk::{Disk, Part};
use crate::failed::Failed;
use crate::mem_part::{Rooms, range_of};
use crate::mem_parts::{Contents, MemParts};
use crate::unread::copy_front;
use sc_base::{NoMemory, Sequence};
use std::alloc::Global;
use std::marker::Model;

/// A disk in memory, which tells what it holds and what a stop may leave of it. It fails at the calls that it
/// is told to, and where a room is full. Every room is made with it, so that no call on it takes memory.
#[derive(Debug, Drop)]
pub struct MemDisk {
    parts: MemParts,
    past: u64,
    written: usize,
    failing: Sequence<u64>,
    faults: u64,
}

impl Model for MemDisk {
    ghost use Rattle.sc_dev.specs.MemDisks.{MemDiskOf};

    ghost Value = { MemDiskOf };

    ghost use Rattle.sc_dev.specs.DiskInside.{disk_inside, IsOrderly};

    ghost view = { disk_inside };

    ghost invariant = { IsOrderly };
}

impl MemDisk {
    /// Three empty parts, each with room for so many bytes, and in all for so many device calls and bytes
    /// written. `failing` has the numbers of the calls that fail, counted from 1.
    pub fn new(
        alloc: Global,
        room: u64,
        calls: u64,
        written: u64,
        failing: &[u64],
    ) -> Result<MemDisk, NoMemory>
        requires { room ≤ 2 ^ 40 }
        ensures { IfOk result (λ d. d ≡ new_disk (record { journal = []; slot_a = []; slot_b = [] })
            (record { bytes = room; calls = calls; written = written }) failing.now) }
    {
        let rooms = Rooms {
            bytes: room as usize,
            calls: calls as usize,
            written: written as usize,
        };
        let contents = Contents {
            journal: &[],
            slot_a: &[],
            slot_b: &[],
        };
        MemDisk::with(alloc, contents, rooms, failing)
    }

    fn with(
        alloc: Global,
        contents: Contents<'_>,
        rooms: Rooms,
        failing: &[u64],
    ) -> Result<MemDisk, NoMemory>
        requires limit { rooms.bytes ≤ 2 ^ 40 }
        requires journal { length contents.journal.now ≤ rooms.bytes }
        requires slot_a { length contents.slot_a.now ≤ rooms.bytes }
        requires slot_b { length contents.slot_b.now ≤ rooms.bytes }
        ensures { IfOk result (λ d. d ≡ new_disk (record {
          journal = contents.entry.journal.now;
          slot_a = contents.entry.slot_a.now;
          slot_b = contents.entry.slot_b.now;
        }) rooms failing.now) }
    {
        Ok(MemDisk {
            parts: MemParts::new(alloc, contents, rooms)?,
            past: 0,
            written: 0,
            failing: Sequence::from_slice(alloc, failing)?,
            faults: 0,
        })
    }

    /// The bytes of a part, as reads give them.
    pub fn bytes(&self, part: Part) -> &[u8]
        ensures { result.now ≡ part_of part (parts_read self.now.parts) }
    {
        self.parts.bytes(part)
    }

    fn calls_made(&self) -> u64
        ensures { result ≡ moment_of self.now }
    {
        (self.parts.calls() as u64).saturating_add(self.past)
    }

    fn is_past(&self) -> bool
        ensures { result ≡ is_past self.now }
    {
        self.parts.rooms().calls <= self.parts.calls()
    }

    fn is_named(&self) -> bool
        ensures { result ≡ is_named self.now }
    {
        let number = self.calls_made().saturating_add(1);
        self.failing.slice().iter().any(|n| *n == number)
    }

    fn has_room(&self, at: usize, size: usize) -> bool
        ensures { result ≡ has_room self.now at size }
    {
        let rooms = self.parts.rooms();
        at <= rooms.bytes
            && size <= rooms.bytes - at
            && self.written <= rooms.written
            && size <= rooms.written - self.written
    }

    // A call that fails and changes nothing.
    fn refuse(&mut self)
        ensures after { self.new ≡ refused self.old }
        ensures cause { Rose self.old.faults self.new.faults }
        ensures later { self.old.faults ≤ self.new.faults }
        ensures steps { Steps self.old self.new }
    {
        if self.is_past() {
            self.count_past();
        } else {
            self.fail();
        }
    }

    fn count_past(&mut self)
        requires { is_past self.old ≡ true }
        ensures after { self.new ≡ record self.old { past = risen self.old.past; faults = risen self.old.faults } }
        ensures later { self.old.faults ≤ self.new.faults }
        ensures steps { Steps self.old self.new }
    {
        let _fit = self.parts.rooms();
        self.past = self.past.saturating_add(1);
        self.faults = self.faults.saturating_add(1);
    }

    fn fail(&mut self)
        requires { is_past self.old ≡ false }
        ensures after { self.new ≡ record self.old {
          parts = with_call Part.Journal passed self.old.parts;
          faults = risen self.old.faults;
        } }
        ensures later { self.old.faults ≤ self.new.faults }
        ensures steps { Steps self.old self.new }
    {
        self.parts.pass();
        self.faults = self.faults.saturating_add(1);
    }

    fn pass(&mut self)
        requires { is_past self.old ≡ false }
        ensures after { self.new ≡ made Part.Journal passed self.old }
        ensures steps { Steps self.old self.new }
    {
        self.parts.pass();
    }

    fn sync_part(&mut self, part: Part)
        requires { is_past self.old ≡ false }
        ensures after { self.new ≡ made part synced self.old }
        ensures steps { Steps self.old self.new }
    {
        self.parts.sync(part);
    }

    // A write that fails, after which its range may hold any bytes.
    fn lose(&mut self, part: Part, at: usize, size: usize)
        requires calls { is_past self.old ≡ false }
        requires room { has_room self.old at size ≡ true }
        ensures after { self.new ≡ record self.old {
          parts = with_call part (lost at size) self.old.parts;
          faults = risen self.old.faults;
        } }
        ensures cause { Rose self.old.faults self.new.faults }
        ensures later { self.old.faults ≤ self.new.faults }
        ensures steps { Steps self.old self.new }
    {
        self.parts.lose(part, at, size);
        self.faults = self.faults.saturating_add(1);
    }

    fn write(&mut self, part: Part, at: usize, piece: &[u8])
        requires calls { is_past self.old ≡ false }
        requires room { has_room self.old at (length piece.now) ≡ true }
        ensures after { self.new ≡ made part (wrote at piece.now) self.old }
        ensures steps { Steps self.old self.new }
    {
        let most = self.parts.rooms().written;
        self.parts.write(part, at, piece);
        self.written = (self.written + piece.len()).min(most);
    }

    /// The disk that a stop leaves whose pending ranges, those written since the last sync of their part, hold
    /// the fill, repeated from its first byte on in each range. It has the rooms in bytes of this one, and room
    /// for so many device calls, none of which is to fail.
    pub fn crash(&self, fill: &[u8], calls: u64) -> Result<MemDisk, NoMemory>
        requires { 0 < length fill.now }
        ensures disk { IfOk result (λ d. d ≡ new_disk (parts_filled fill.now self.now.parts)
            (record self.now.parts.rooms { calls = calls }) []) }
        ensures image { IfOk result (λ d. PartsLeave self.now.parts (parts_read d.parts)) }
    {
        let alloc = self.failing.allocator();
        let journal = self.parts.filled(alloc, Part::Journal, fill)?;
        let slot_a = self.parts.filled(alloc, Part::SlotA, fill)?;
        let slot_b = self.parts.filled(alloc, Part::SlotB, fill)?;
        let contents = Contents {
            journal: &journal,
            slot_a: &slot_a,
            slot_b: &slot_b,
        };
        let rooms = Rooms {
            calls: calls as usize,
            ..self.parts.rooms()
        };
        MemDisk::with(alloc, contents, rooms, &[])
    }
}

impl Disk for MemDisk {
    ghost law = { mem_law };

    ghost stands = { λ d. parts_stand d.parts };

    ghost grows = { since_grows };

    ghost counts_now = { since_now };

    ghost only_now = { since_only };

    fn read_at(&mut self, part: Part, at: u64, into: &mut [u8]) -> Result<usize, Failed>
        requires some { 0 < length into.old }
        requires range { at + length into.old ≤ 2 ^ 40 }
        ensures bound { ReadsAtMost result into.new }
        ensures bytes { ⊤ → IfOk result (λ n.
            take n into.new ≡ take (length into.old) (drop at (part_of part (parts_read self.old.parts)))) }
        ensures stays { parts_read self.new.parts ≡ parts_read self.old.parts }
        ensures images { Within (PartsLeave self.old.parts) (PartsLeave self.new.parts) }
        ensures fits { (c : DiskOf) → PartsLeave self.new.parts c → Fits c }
        ensures time { Elapsed (moment_of self.old) (moment_of self.new) (MightHaveLeft self.old)
            (MightHaveLeft self.new) (PartsLeave self.new.parts) }
        ensures cause { HasCause self.old.faults self.new.faults result }
        ensures fine { OnOk result (self.new.faults ≡ self.old.faults) }
        ensures same { identity_of self.new ≡ identity_of self.old }
        ensures answer { MatchResult result (λ _. goes_well self.old ≡ true) (λ _. goes_well self.old ≡ false) }
        ensures after { self.new ≡ after_read_at self.old }
    {
        if self.is_past() || self.is_named() {
            self.refuse();
            return Err(Failed);
        }
        self.pass();
        let from = range_of(self.parts.bytes(part), at as usize, into.len());
        Ok(copy_front(from, into))
    }

    fn write_at(&mut self, part: Part, at: u64, piece: &[u8]) -> Result<(), Failed>
        requires some { 0 < length piece.now }
        requires range { at + length piece.now ≤ 2 ^ 40 }
        ensures written { ⊤ → OnOk result
            (take (length piece.now) (drop at (part_of part (parts_read self.new.parts))) ≡ piece.now) }
        ensures outside { ⊤ → Torn part at (length piece.now) (parts_read self.old.parts) (parts_read self.new.parts) }
        ensures images { Follows (Torn part at (length piece.now)) (PartsLeave self.old.parts)
            (PartsLeave self.new.parts) }
        ensures fits { (c : DiskOf) → PartsLeave self.new.parts c → Fits c }
        ensures time { Elapsed (moment_of self.old) (moment_of self.new) (MightHaveLeft self.old)
            (MightHaveLeft self.new) (PartsLeave self.new.parts) }
        ensures cause { HasCause self.old.faults self.new.faults result }
        ensures fine { OnOk result (self.new.faults ≡ self.old.faults) }
        ensures same { identity_of self.new ≡ identity_of self.old }
        ensures answer { let well = write_goes_well self.old at (length piece.now) in
            MatchResult result (λ _. well ≡ true) (λ _. well ≡ false) }
        ensures after { self.new ≡ after_write_at part at piece.now self.old }
    {
        let start = at as usize;
        if self.is_past() || !self.has_room(start, piece.len()) {
            self.refuse();
            return Err(Failed);
        }
        if self.is_named() {
            self.lose(part, start, piece.len());
            return Err(Failed);
        }
        self.write(part, start, piece);
        Ok(())
    }

    fn sync(&mut self, part: Part) -> Result<(), Failed>
        ensures stays { OnOk result (parts_read self.new.parts ≡ parts_read self.old.parts) }
        ensures durable { ⊤ → OnOk result ((c : DiskOf) → PartsLeave self.new.parts c
            → part_of part c ≡ part_of part (parts_read self.new.parts)) }
        ensures images { Within (PartsLeave self.old.parts) (PartsLeave self.new.parts) }
        ensures fits { (c : DiskOf) → PartsLeave self.new.parts c → Fits c }
        ensures time { Elapsed (moment_of self.old) (moment_of self.new) (MightHaveLeft self.old)
            (MightHaveLeft self.new) (PartsLeave self.new.parts) }
        ensures cause { HasCause self.old.faults self.new.faults result }
        ensures fine { OnOk result (self.new.faults ≡ self.old.faults) }
        ensures same { identity_of self.new ≡ identity_of self.old }
        ensures answer { MatchResult result (λ _. goes_well self.old ≡ true) (λ _. goes_well self.old ≡ false) }
        ensures after { self.new ≡ after_sync part self.old }
    {
        if self.is_past() || self.is_named() {
            self.refuse();
            return Err(Failed);
        }
        self.sync_part(part);
        Ok(())
    }

    fn moment(&self) -> u64 {
        self.calls_made()
    }
}
