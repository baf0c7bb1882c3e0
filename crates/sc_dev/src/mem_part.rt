ghost use Rattle.std.specs.Prelude.{◌≡◌, ◌+◌, ◌-◌, ◌<◌, ◌≤◌, [], ◌∷◌, ◌++◌, length, take, drop, min, replicate, All, vec_len, vec_capacity, IfOk, OnOk};
ghost use Rattle.sc_base.specs.Folds.{each};
ghost use Rattle.sc_dev.specs.declared.mem_part.Range.{Range};
ghost use Rattle.sc_dev.specs.Histories.{passed, wrote, lost, synced, after_call, put_over, read_bytes, repeated, fill_range, filled, bytes_written, furthest};

use sc_base::NoMemory;
use std::alloc::Global;
use std::marker::Model;

// What one call did to a part.
#[derive(Clone, Copy, Debug)]
pub enum Change {
    Passed,
    // A write of so many bytes at this place, where the part had so many bytes before.
    Wrote {
        at: usize,
        size: usize,
        before: usize,
    },
    Lost {
        at: usize,
        size: usize,
    },
    Synced,
}

// A range of bytes.
#[derive(Clone, Copy, Debug)]
pub struct Range {
    pub at: usize,
    pub size: usize,
}

// The rooms of a part: in bytes, in calls, and in bytes written in all.
#[derive(Clone, Copy, Debug)]
pub struct Rooms {
    pub bytes: usize,
    pub calls: usize,
    pub written: usize,
}

// One part of a disk in memory. It keeps each call with the bytes that it replaced, so that all that the part was
// can be told, and all room is made with it.
#[derive(Debug, Drop)]
pub struct MemPart {
    bytes: Vec<u8>,
    replaced: Vec<u8>,
    changes: Vec<Change>,
    pending: Vec<Range>,
    rooms: Rooms,
}

impl Model for MemPart {
    ghost use Rattle.sc_dev.specs.Parts.{PartOf};

    ghost Value = { PartOf };

    ghost use Rattle.sc_dev.specs.PartInside.{part_inside, IsSound};

    ghost view = { part_inside };

    ghost invariant = { IsSound };
}

impl MemPart {
    // A part that begins with these bytes.
    pub fn new(alloc: Global, bytes: &[u8], rooms: Rooms) -> Result<MemPart, NoMemory>
        requires { length bytes.now ≤ rooms.bytes }
        ensures { IfOk result (λ p. p ≡ record { history = record { first = bytes.now; calls = [] }; rooms = rooms }) }
    {
        Ok(MemPart {
            bytes: copied(alloc, bytes, rooms.bytes)?,
            replaced: Vec::with_capacity(alloc, rooms.written)?,
            changes: Vec::with_capacity(alloc, rooms.calls)?,
            pending: Vec::with_capacity(alloc, rooms.calls)?,
            rooms,
        })
    }

    pub fn bytes(&self) -> &[u8]
        ensures { result.now ≡ read_bytes self.now.history }
    {
        self.bytes.as_slice()
    }

    // How many calls there were.
    pub fn calls(&self) -> usize
        ensures { result ≡ length self.now.history.calls }
    {
        self.changes.len()
    }

    pub fn pass(&mut self)
        requires { length self.old.history.calls < self.old.rooms.calls }
        ensures { self.new ≡ record self.old { history = after_call passed self.old.history } }
    {
        note(&mut self.changes, Change::Passed);
    }

    pub fn sync(&mut self)
        requires { length self.old.history.calls < self.old.rooms.calls }
        ensures { self.new ≡ record self.old { history = after_call synced self.old.history } }
    {
        self.pending.clear();
        note(&mut self.changes, Change::Synced);
    }

    pub fn lose(&mut self, at: usize, size: usize)
        requires calls { length self.old.history.calls < self.old.rooms.calls }
        requires room { at + size ≤ self.old.rooms.bytes }
        ensures { self.new ≡ record self.old { history = after_call (lost at size) self.old.history } }
    {
        note(&mut self.pending, Range { at, size });
        note(&mut self.changes, Change::Lost { at, size });
    }

    pub fn write(&mut self, at: usize, piece: &[u8])
        requires calls { length self.old.history.calls < self.old.rooms.calls }
        requires room { at + length piece.now ≤ self.old.rooms.bytes }
        requires written { bytes_written self.old.history + length piece.now ≤ self.old.rooms.written }
        ensures { self.new ≡ record self.old { history = after_call (wrote at piece.now) self.old.history } }
    {
        let size = piece.len();
        let before = self.bytes.len();
        keep(&mut self.replaced, range_of(&self.bytes, at, size));
        put_over(&mut self.bytes, at, piece);
        note(&mut self.pending, Range { at, size });
        note(&mut self.changes, Change::Wrote { at, size, before });
    }

    // The bytes with the fill in each range that was written since the last sync.
    pub fn filled(&self, alloc: Global, fill: &[u8]) -> Result<Vec<u8>, NoMemory>
        requires { 0 < length fill.now }
        ensures { IfOk result (λ v. v.items ≡ filled fill.now self.now.history) }
    {
        let mut bytes = copied(alloc, &self.bytes, self.rooms.bytes)?;
        fill_ranges(alloc, &mut bytes, &self.pending, fill)?;
        Ok(bytes)
    }
}

// The bytes, in a vector with that room.
fn copied(alloc: Global, bytes: &[u8], room: usize) -> Result<Vec<u8>, NoMemory>
    ensures bytes { IfOk result (λ v. v.items ≡ bytes.now) }
    ensures room { IfOk result (λ v. room ≤ vec_capacity v) }
{
    let mut copy = Vec::with_capacity(alloc, room)?;
    copy.extend_from_slice(bytes)?;
    Ok(copy)
}

// Adds an item for which there is room.
fn note<T: Copy>(items: &mut Vec<T>, item: T)
    requires { vec_len items.old < vec_capacity items.old }
    ensures items { items.new.items ≡ items.old.items ++ item ∷ [] }
    ensures room { vec_capacity items.old ≤ vec_capacity items.new }
{
    match items.push(item) {
        Ok(()) => {}
        Err(_) => unreachable!(),
    }
}

// Adds bytes for which there is room.
fn keep(bytes: &mut Vec<u8>, more: &[u8])
    requires { vec_len bytes.old + length more.now ≤ vec_capacity bytes.old }
    ensures items { bytes.new.items ≡ bytes.old.items ++ more.now }
    ensures room { vec_capacity bytes.old ≤ vec_capacity bytes.new }
{
    match bytes.extend_from_slice(more) {
        Ok(()) => {}
        Err(_) => unreachable!(),
    }
}

// So many bytes at a place, or as many as there are.
pub fn range_of(bytes: &[u8], at: usize, size: usize) -> &[u8]
    ensures bytes { result.now ≡ take size (drop at bytes.now) }
    ensures size { length result.now ≤ size }
{
    let start = at.min(bytes.len());
    let rest = &bytes[start..];
    &rest[..size.min(rest.len())]
}

// Puts a piece at its place, for which there is room.
fn put_over(bytes: &mut Vec<u8>, at: usize, piece: &[u8])
    requires old { vec_len bytes.old ≤ vec_capacity bytes.old }
    requires room { at + length piece.now ≤ vec_capacity bytes.old }
    ensures items { bytes.new.items ≡ put_over at piece.now bytes.old.items }
    ensures room { vec_capacity bytes.old ≤ vec_capacity bytes.new }
{
    reach(bytes, at);
    let over = piece.len().min(bytes.len() - at);
    bytes[at..at + over].copy_from_slice(&piece[..over]);
    keep(bytes, &piece[over..]);
}

// Puts zeros behind bytes that end before a place.
fn reach(bytes: &mut Vec<u8>, at: usize)
    requires { at ≤ vec_capacity bytes.old }
    ensures items { bytes.new.items ≡ bytes.old.items ++ replicate (at - length bytes.old.items) 0 }
    ensures room { vec_capacity bytes.old ≤ vec_capacity bytes.new }
{
    if bytes.len() < at {
        match bytes.resize(at, 0) {
            Ok(()) => {}
            Err(_) => unreachable!(),
        }
    }
}

fn fill_ranges(
    alloc: Global,
    bytes: &mut Vec<u8>,
    ranges: &[Range],
    fill: &[u8],
) -> Result<(), NoMemory>
    requires fill { 0 < length fill.now }
    requires room { All (λ (r : Range). r.at + r.size ≤ vec_capacity bytes.old) ranges.now }
    ensures { OnOk result (bytes.new.items ≡ each (fill_range fill.now) ranges.now bytes.old.items) }
{
    for range in ranges {
        fill_range(alloc, bytes, *range, fill)?;
    }
    Ok(())
}

fn fill_range(alloc: Global, bytes: &mut Vec<u8>, range: Range, fill: &[u8]) -> Result<(), NoMemory>
    requires fill { 0 < length fill.now }
    requires room { range.at + range.size ≤ vec_capacity bytes.old }
    ensures items { OnOk result (bytes.new.items ≡ fill_range fill.now range bytes.old.items) }
    ensures room { vec_capacity bytes.old ≤ vec_capacity bytes.new }
{
    let piece = repeated(alloc, fill, range.size)?;
    put_over(bytes, range.at, &piece);
    Ok(())
}

// The first bytes of the fill, repeated.
fn repeated(alloc: Global, fill: &[u8], size: usize) -> Result<Vec<u8>, NoMemory>
    requires { 0 < length fill.now }
    ensures bytes { IfOk result (λ v. v.items ≡ repeated fill.now size) }
    ensures size { IfOk result (λ v. length v.items ≡ size) }
{
    let mut piece = Vec::with_capacity(alloc, size)?;
    for i in 0..size {
        piece.push(fill[i % fill.len()])?;
    }
    Ok(piece)
}
