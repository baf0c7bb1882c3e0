ghost use Rattle.std.specs.Prelude.{◌≡◌, ℕ, ◌+◌, ◌-◌, ◌^◌, ◌<◌, ◌≤◌, List, length, take, drop, IfOk, OnOk};
ghost use Rattle.std.specs.Io.{ReadsAtMost};
ghost use Rattle.sc_dev.specs.Causes.{HasCause};
ghost use Rattle.sc_dev.specs.Disks.{DiskLaw, DiskOf, Elapses, Fits, Follows, Torn, IsTorn, Within, lent, part_of};

use crate::failed::Failed;

/// The parts of a disk.
#[derive(Clone, Copy, Debug, PartialEq, Eq)]
pub enum Part {
    Journal,
    SlotA,
    SlotB,
}

/// A disk of three parts, whose machine may stop at any call, and go on from what the stop left.
///
/// A device call is a read, a write or a sync. What a call does is a rule of this host: a written range may
/// hold any bytes after a stop until a sync of its part answered `Ok`.
pub trait Disk: Send + Drop {
    // What is to be known of the disk.
    ghost law: { DiskLaw Self };

    /// Reads the bytes of a part from a place on, and says how many: fewer than there is room for only at
    /// the end of the part.
    fn read_at(&mut self, part: Part, at: u64, into: &mut [u8]) -> Result<usize, Failed>
        requires some { 0 < length into.old }
        requires range { at + length into.old ≤ 2 ^ 40 }
        ensures bound { ReadsAtMost result into.new }
        ensures bytes { law.tells → IfOk result (λ n.
            take n into.new ≡ take (length into.old) (drop at (part_of part (law.reads self.old)))) }
        ensures stays { law.reads self.new ≡ law.reads self.old }
        ensures images { Within (law.may_leave self.old) (law.may_leave self.new) }
        ensures fits { (c : DiskOf) → law.may_leave self.new c → Fits c }
        ensures time { Elapses law self.old self.new }
        ensures cause { HasCause (law.faults self.old) (law.faults self.new) result }
        ensures fine { OnOk result (law.faults self.new ≡ law.faults self.old) }
        ensures same { law.identity self.new ≡ law.identity self.old };

    /// Writes over the bytes of a part from a place on, and past its end. Until a sync of the part, a stop may
    /// leave any bytes in the range, also where the write failed.
    fn write_at(&mut self, part: Part, at: u64, piece: &[u8]) -> Result<(), Failed>
        requires some { 0 < length piece.now }
        requires range { at + length piece.now ≤ 2 ^ 40 }
        ensures written { law.tells → OnOk result
            (take (length piece.now) (drop at (part_of part (law.reads self.new))) ≡ piece.now) }
        ensures outside { law.tells → Torn part at (length piece.now) (law.reads self.old) (law.reads self.new) }
        ensures images { Follows (Torn part at (length piece.now)) (law.may_leave self.old) (law.may_leave self.new) }
        ensures fits { (c : DiskOf) → law.may_leave self.new c → Fits c }
        ensures time { Elapses law self.old self.new }
        ensures cause { HasCause (law.faults self.old) (law.faults self.new) result }
        ensures fine { OnOk result (law.faults self.new ≡ law.faults self.old) }
        ensures same { law.identity self.new ≡ law.identity self.old };

    /// After it, a stop leaves in the part what reads give.
    fn sync(&mut self, part: Part) -> Result<(), Failed>
        ensures stays { OnOk result (law.reads self.new ≡ law.reads self.old) }
        ensures durable { law.tells → OnOk result
            ((c : DiskOf) → law.may_leave self.new c → part_of part c ≡ part_of part (law.reads self.new)) }
        ensures images { Within (law.may_leave self.old) (law.may_leave self.new) }
        ensures fits { (c : DiskOf) → law.may_leave self.new c → Fits c }
        ensures time { Elapses law self.old self.new }
        ensures cause { HasCause (law.faults self.old) (law.faults self.new) result }
        ensures fine { OnOk result (law.faults self.new ≡ law.faults self.old) }
        ensures same { law.identity self.new ≡ law.identity self.old };

    /// How many device calls were made, as far as 64 bits count. It is no device call.
    fn moment(&self) -> u64
        ensures { result ≡ law.moment self.now };

    // What reads give is one of the images that a stop now may leave.
    ghost stands: { (disk : Self) → law.may_leave disk (law.reads disk) };

    // What may be left since t grows as t falls.
    ghost grows: { (disk : Self) (s t : ℕ) (c : DiskOf) → s ≤ t → law.may_have_left disk t c
        → law.may_have_left disk s c };

    // It holds all that a stop now may leave.
    ghost counts_now: { (disk : Self) (t : ℕ) (c : DiskOf) → t ≤ law.moment disk → law.may_leave disk c
        → law.may_have_left disk t c };

    // And since this moment nothing else, unless the clock stands at its last value.
    ghost only_now: { (disk : Self) (c : DiskOf) → law.moment disk < 2 ^ 64 - 1
        → law.may_have_left disk (law.moment disk) c → law.may_leave disk c };
}

impl<D: Disk> Disk for &mut D {
    ghost law = { lent D.law };

    ghost stands = { λ d. D.stands d.now };

    ghost grows = { λ d. D.grows d.now };

    ghost counts_now = { λ d. D.counts_now d.now };

    ghost only_now = { λ d. D.only_now d.now };

    fn read_at(&mut self, part: Part, at: u64, into: &mut [u8]) -> Result<usize, Failed> {
        (**self).read_at(part, at, into)
    }

    fn write_at(&mut self, part: Part, at: u64, piece: &[u8]) -> Result<(), Failed> {
        (**self).write_at(part, at, piece)
    }

    fn sync(&mut self, part: Part) -> Result<(), Failed> {
        (**self).sync(part)
    }

    fn moment(&self) -> u64 {
        (**self).moment()
    }
}
