ghost use Rattle.std.specs.Prelude.{◌≡◌, ◌≢◌, ◌⊎◌, ◌+◌, ◌^◌, ◌<◌, ◌≤◌, ◌↔◌, [], ◌∷◌, ◌++◌, length, false, None, Some, Ok, Err, ℕ, vec_capacity, IsTrue, IsSome, IsOk, IfOk, IfErr, OnOk, OnErr, MatchResult};
ghost use Rattle.sc_dev.specs.Causes.{HasCause, Rose};
ghost use Rattle.sc_dev.specs.Disks.{DiskOf, Within};
ghost use Rattle.sc_journal.specs.Journals.{Keeps, IsWithOrWithout, IsAsDoubted, IsFull};
ghost use Rattle.sc_journal.specs.Stops.{LeavesOnly, Passes};
ghost use Rattle.sc_journal.specs.Texts.{HeadOf, Holds, held};

use crate::bodies::Bodies;
use crate::fault::{AppendFault, JournalFault};
use crate::load::{Loaded, load};
use crate::write::{fill, write_synced};
use sc_dev::{Disk, Failed};
use std::alloc::Global;
use std::marker::Model;

/// A journal that was opened: entries are added at its end.
///
/// Where a call failed at the disk, an entry may be in doubt: a stop may leave it or not. It is to be settled
/// before the next one is added.
#[derive(Drop)]
pub struct Journal<D: Disk> {
    disk: D,
    buffer: Vec<u8>,
    end: u64,
    next: u64,
    is_in_doubt: bool,
}

impl<D: Disk> Model for Journal<D> {
    ghost use Rattle.sc_journal.specs.Journals.{JournalOf};

    ghost Value = { JournalOf D };

    ghost use Rattle.sc_journal.specs.JournalInside.{journal_inside, IsReady};

    ghost view = { journal_inside };

    ghost invariant = { IsReady };
}

/// A journal and the bodies that it holds, the first of them first.
#[derive(Drop)]
pub struct Opened<D: Disk> {
    pub journal: Journal<D>,
    /// The number of the first.
    pub first: u64,
    pub bodies: Bodies,
}

/// Why a journal was not opened, and its disk.
#[derive(Drop)]
pub struct NotOpened<D: Disk> {
    pub disk: D,
    pub fault: JournalFault,
}

impl<D: Disk> NotOpened<D> {
    /// The disk. One that was lent is known to be back where it is taken by this call.
    pub fn into_disk(self) -> D
        ensures { result ≡ self.disk }
    {
        self.disk
    }
}

impl<D: Disk> Journal<D> {
    /// Opens a journal: syncs it and reads what it holds. The disk comes back where that fails.
    pub fn open(alloc: Global, disk: D) -> Result<Opened<D>, NotOpened<D>>
        // exactly the bodies of the text, or the first case of damage
        ensures bodies { D.law.tells → IfOk result (λ o. held (D.law.reads disk).journal ≡ Ok o.bodies) }
        ensures damaged { D.law.tells → IfErr result (λ n. (at : ℕ) → n.fault ≡ JournalFault.Damaged at
            → held (D.law.reads disk).journal ≡ Err at) }

        // so where the text holds bodies, these and nothing but a fault or want of memory
        ensures whole { D.law.tells → (head : HeadOf) (bodies : _) → Holds head bodies (D.law.reads disk).journal
            → MatchResult result (λ o. (o.first ≡ head.first) × (o.bodies ≡ bodies))
            (λ n. (at : ℕ) → n.fault ≢ JournalFault.Damaged at) }

        // every stop leaves them
        ensures keeps { D.law.tells → IfOk result (λ o.
            Keeps D.law o.journal (record { format = 1; first = o.first }) o.bodies) }
        ensures settled { IfOk result (λ o. o.journal.doubt ≡ None) }
        ensures next { IfOk result (λ o. o.journal.next ≡ o.first + length o.bodies) }

        // only where the disk's faults rose
        ensures disk { IfErr result (λ n. n.fault ≡ JournalFault.Disk → Rose (D.law.faults disk) (D.law.faults n.disk)) }
        ensures later { MatchResult result (λ o. D.law.faults disk ≤ D.law.faults o.journal.disk)
            (λ n. D.law.faults disk ≤ D.law.faults n.disk) }
        ensures fine { MatchResult result (λ o. D.law.faults o.journal.disk ≡ D.law.faults disk)
            (λ n. n.fault ≢ JournalFault.Disk → D.law.faults n.disk ≡ D.law.faults disk) }

        // nothing was written, unless the disk failed
        ensures stays { MatchResult result (λ o. D.law.reads o.journal.disk ≡ D.law.reads disk)
            (λ n. n.fault ≢ JournalFault.Disk → D.law.reads n.disk ≡ D.law.reads disk) }

        // a stop leaves what it left before
        ensures images { MatchResult result (λ o. Within (D.law.may_leave disk) (D.law.may_leave o.journal.disk))
            (λ n. Within (D.law.may_leave disk) (D.law.may_leave n.disk)) }
        ensures passes { MatchResult result (λ o. Passes D.law disk o.journal.disk (D.law.may_leave disk))
            (λ n. Passes D.law disk n.disk (D.law.may_leave disk)) }
        ensures same { MatchResult result (λ o. D.law.identity o.journal.disk ≡ D.law.identity disk)
            (λ n. D.law.identity n.disk ≡ D.law.identity disk) }
    {
        let mut disk = disk;
        match load(alloc, &mut disk) {
            Ok(loaded) => Ok(Journal::opened(disk, loaded)),
            Err(fault) => Err(NotOpened { disk, fault }),
        }
    }

    fn opened(disk: D, loaded: Loaded) -> Opened<D>
        requires last { loaded.found.first + length loaded.found.bodies ≤ 2 ^ 48 + 1 }
        requires end { loaded.found.end < 2 ^ 40 }
        requires room { 2097157 ≤ vec_capacity loaded.buffer }
        ensures journal { result.journal ≡ record {
          disk = disk;
          end = loaded.found.end;
          next = loaded.found.first + length loaded.found.bodies;
          doubt = None;
        } }
        ensures first { result.first ≡ loaded.found.first }
        ensures bodies { result.bodies ≡ loaded.found.bodies }
    {
        let Loaded { found, buffer } = loaded;
        Opened {
            journal: Journal {
                disk,
                buffer,
                end: found.end as u64,
                next: found.first + found.bodies.len(),
                is_in_doubt: false,
            },
            first: found.first,
            bodies: found.bodies,
        }
    }

    /// Whether an entry is in doubt.
    pub fn in_doubt(&self) -> bool
        ensures { IsTrue result ↔ IsSome self.now.doubt }
    {
        self.is_in_doubt
    }

    /// The number of the entry that is added next.
    pub fn next_number(&self) -> u64
        ensures value { result ≡ self.now.next }
        ensures limit { result ≤ 2 ^ 48 + 1 }
    {
        self.next
    }

    /// The disk's moment.
    pub fn moment(&self) -> u64
        ensures { result ≡ D.law.moment self.now.disk }
    {
        self.disk.moment()
    }

    pub fn into_disk(self) -> D
        ensures { result ≡ self.disk }
    {
        self.disk
    }

    /// Adds an entry. At `Ok` it is acknowledged: from then on each stop leaves it. It makes four device calls.
    pub fn append(&mut self, body: &[u8]) -> Result<(), AppendFault>
        requires settled { self.old.doubt ≡ None }
        requires some { 1 ≤ length body.now }
        requires most { length body.now ≤ 2097152 }

        // exactly where there is no room for it, and then no device is called
        ensures full { result ≡ Err AppendFault.Full → IsFull self.old.end self.old.next (length body.now) }
        ensures no_room { IsFull self.old.end self.old.next (length body.now) → result ≡ Err AppendFault.Full }
        ensures untouched { result ≡ Err AppendFault.Full → self.new ≡ self.old }

        // only where the disk's faults rose
        ensures failed { result ≡ Err AppendFault.Failed → Rose (D.law.faults self.old.disk) (D.law.faults self.new.disk) }
        ensures later { D.law.faults self.old.disk ≤ D.law.faults self.new.disk }
        ensures fine { result ≢ Err AppendFault.Failed → D.law.faults self.new.disk ≡ D.law.faults self.old.disk }

        // where it ends, and what is in doubt
        ensures added { OnOk result ((self.new.end ≡ self.old.end + 5 + length body.now)
            × ((self.new.next ≡ self.old.next + 1) × (self.new.doubt ≡ None))) }
        ensures not_added { OnErr result ((self.new.end ≡ self.old.end) × ((self.new.next ≡ self.old.next)
            × ((self.new.doubt ≡ None) ⊎ (self.new.doubt ≡ Some body.now)))) }
        ensures time { OnOk result (Rose (D.law.moment self.old.disk) (D.law.moment self.new.disk)) }
        ensures elapsed { D.law.moment self.old.disk ≤ D.law.moment self.new.disk }
        ensures same { D.law.identity self.new.disk ≡ D.law.identity self.old.disk }

        // what every stop leaves
        ensures acknowledged { (head : HeadOf) (bodies : _) → Keeps D.law self.old head bodies
            → OnOk result (Keeps D.law self.new head (bodies ++ body.now ∷ [])) }
        ensures kept { (head : HeadOf) (bodies : _) → Keeps D.law self.old head bodies
            → OnErr result (Keeps D.law self.new head bodies) }
        ensures any_moment { (head : HeadOf) (bodies : _) → Keeps D.law self.old head bodies
            → LeavesOnly D.law self.old.disk self.new.disk
            (IsWithOrWithout head bodies body.now) }
    {
        if self.is_full(body.len()) {
            return Err(AppendFault::Full);
        }
        fill(&mut self.buffer, body);
        write_synced(&mut self.disk, self.end + 1, &self.buffer)?;
        self.is_in_doubt = true;
        write_synced(&mut self.disk, self.end, &[1])?;
        self.is_in_doubt = false;
        self.end += 5 + body.len() as u64;
        self.next += 1;
        Ok(())
    }

    fn is_full(&self, size: usize) -> bool
        requires { size ≤ 2097152 }
        ensures full { IsTrue result → IsFull self.now.end self.now.next size }
        ensures room { result ≡ false → (self.now.end + 6 + size ≤ 2 ^ 40) × (self.now.next ≤ 2 ^ 48) }
    {
        self.end + 6 + size as u64 > 1 << 40 || self.next > 1 << 48
    }

    /// Takes an entry back that is in doubt: at `Ok` no stop leaves it any more. It makes two device calls where
    /// one is in doubt, else none.
    pub fn settle(&mut self) -> Result<(), Failed>
        ensures nothing { self.old.doubt ≡ None → IsOk result × (self.new ≡ self.old) }
        ensures settled { OnOk result (self.new.doubt ≡ None) }
        ensures doubtful { OnErr result (self.new.doubt ≡ self.old.doubt) }
        ensures end { self.new.end ≡ self.old.end }
        ensures next { self.new.next ≡ self.old.next }
        ensures cause { HasCause (D.law.faults self.old.disk) (D.law.faults self.new.disk) result }
        ensures fine { OnOk result (D.law.faults self.new.disk ≡ D.law.faults self.old.disk) }
        ensures elapsed { D.law.moment self.old.disk ≤ D.law.moment self.new.disk }
        ensures same { D.law.identity self.new.disk ≡ D.law.identity self.old.disk }

        // what every stop leaves
        ensures kept { (head : HeadOf) (bodies : _) → Keeps D.law self.old head bodies
            → Keeps D.law self.new head bodies }
        ensures any_moment { (head : HeadOf) (bodies : _) → Keeps D.law self.old head bodies
            → LeavesOnly D.law self.old.disk self.new.disk
            (IsAsDoubted self.old.doubt head bodies) }
    {
        if self.is_in_doubt {
            write_synced(&mut self.disk, self.end, &[0])?;
            self.is_in_doubt = false;
        }
        Ok(())
    }
}
