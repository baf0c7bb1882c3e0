//! A disk that is lent to a journal and comes back is known to be the one that was lent.
ghost use Rattle.std.specs.Prelude.{◌≡◌, ◌≤◌, length};
ghost use Rattle.sc_dev.specs.Causes.{Rose};

use sc_dev::Disk;
use sc_journal::{AppendFault, Journal, JournalFault};
use std::alloc::Global;

/// Whether an entry was added, and whether the disk failed.
#[derive(Clone, Copy, Debug, PartialEq, Eq)]
pub enum Lent {
    Added,
    Failed,
    Other,
}

/// Adds an entry to the journal of a disk.
pub fn add_to<D: Disk>(alloc: Global, disk: &mut D, body: &[u8]) -> Lent
    requires some { 1 ≤ length body.now }
    requires most { length body.now ≤ 2097152 }
    ensures later { D.law.faults disk.old ≤ D.law.faults disk.new }
    ensures failed { result ≡ Lent.Failed → Rose (D.law.faults disk.old) (D.law.faults disk.new) }
{
    let mut journal = match Journal::open(alloc, disk) {
        Ok(opened) => opened.journal,
        Err(refused) => {
            let fault = refused.fault;
            let _back = refused.into_disk();
            return match fault {
                JournalFault::Disk => Lent::Failed,
                _ => Lent::Other,
            };
        }
    };
    let answer = journal.append(body);
    let _back = journal.into_disk();
    match answer {
        Ok(()) => Lent::Added,
        Err(AppendFault::Failed) => Lent::Failed,
        Err(AppendFault::Full) => Lent::Other,
    }
}
