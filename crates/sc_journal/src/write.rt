ghost use Rattle.std.specs.Prelude.{◌≡◌, ◌+◌, ◌^◌, ◌<◌, ◌≤◌, [], ◌∷◌, ◌++◌, length, take, drop, OnOk, vec_capacity};
ghost use Rattle.sc_dev.specs.Causes.{HasCause, Rose};
ghost use Rattle.sc_dev.specs.Disks.{DiskOf, Follows, Torn};
ghost use Rattle.sc_frame.specs.Fields.{number_field};
ghost use Rattle.sc_journal.specs.Stops.{Passes, TornFrom};

use byteorder::{BigEndian, ByteOrder};
use sc_dev::{Disk, Failed, Part};

// Writes a piece to the journal and syncs it.
pub fn write_synced<D: Disk>(disk: &mut D, at: u64, piece: &[u8]) -> Result<(), Failed>
    requires some { 0 < length piece.now }
    requires range { at + length piece.now ≤ 2 ^ 40 }
    ensures images { Follows (Torn Part.Journal at (length piece.now)) (D.law.may_leave disk.old) (D.law.may_leave disk.new) }
    ensures passes { Passes D.law disk.old disk.new
        (TornFrom (D.law.may_leave disk.old) Part.Journal at (length piece.now)) }
    ensures durable { D.law.tells → OnOk result
        ((c : DiskOf) → D.law.may_leave disk.new c → c.journal ≡ (D.law.reads disk.new).journal) }
    ensures written { D.law.tells → OnOk result
        (take (length piece.now) (drop at (D.law.reads disk.new).journal) ≡ piece.now) }
    ensures outside { D.law.tells → OnOk result
        (Torn Part.Journal at (length piece.now) (D.law.reads disk.old) (D.law.reads disk.new)) }
    ensures cause { HasCause (D.law.faults disk.old) (D.law.faults disk.new) result }
    ensures fine { OnOk result (D.law.faults disk.new ≡ D.law.faults disk.old) }
    ensures rose { Rose (D.law.moment disk.old) (D.law.moment disk.new) }
    ensures same { D.law.identity disk.new ≡ D.law.identity disk.old }
{
    disk.write_at(Part::Journal, at, piece)?;
    disk.sync(Part::Journal)
}

// Fills the buffer with the length and the body of an entry and a closed gate.
#[tactic(auto, unfolding(sc_frame::specs::Fields::number_field))]
pub fn fill(buffer: &mut Vec<u8>, body: &[u8])
    requires size { length body.now < 2 ^ 32 }
    requires room { length body.now + 5 ≤ vec_capacity buffer.old }
    ensures items { buffer.new.items ≡ number_field 4 (length body.now) ++ (body.now ++ 0 ∷ []) }
    ensures room { vec_capacity buffer.old ≤ vec_capacity buffer.new }
{
    let mut length = [0u8; 4];
    BigEndian::write_u32(&mut length, body.len() as u32);
    buffer.clear();
    add(buffer, &length);
    add(buffer, body);
    add(buffer, &[0]);
}

// Adds bytes for which there is room.
fn add(buffer: &mut Vec<u8>, bytes: &[u8])
    requires { length buffer.old.items + length bytes.now ≤ vec_capacity buffer.old }
    ensures items { buffer.new.items ≡ buffer.old.items ++ bytes.now }
    ensures room { vec_capacity buffer.old ≤ vec_capacity buffer.new }
{
    match buffer.extend_from_slice(bytes) {
        Ok(()) => {}
        Err(_) => unreachable!(),
    }
}
