ghost use Rattle.std.specs.Prelude.{◌≡◌, ◌≤◌, [], true, false, Err, IfOk, OnOk};
ghost use Rattle.sc_dev.specs.Causes.{HasCause, Rose};
ghost use Rattle.sc_dev.specs.Disks.{DiskOf, Within};
ghost use Rattle.sc_journal.specs.Texts.{Holds, has_open_header};

use crate::fault::CreateFault;
use crate::text::has_open_header;
use crate::write::write_synced;
use sc_dev::{Disk, Failed, Part};

// The header behind its gate, which is closed, and a closed gate.
const CLOSED: [u8; 21] = [
    0, b'S', b'C', b'X', b'H', b'O', b'S', b'T', 0, 0, 0, 1, 0, 0, 0, 0, 0, 0, 0, 1, 0,
];

/// Makes an empty journal whose first entry has the number 1. It takes no memory.
pub fn create<D: Disk>(disk: &mut D) -> Result<(), CreateFault>
    // exactly at an open header, and then nothing was written
    ensures exists { D.law.tells → result ≡ Err CreateFault.Exists → has_open_header (D.law.reads disk.old).journal ≡ true }
    ensures free { D.law.tells → OnOk result (has_open_header (D.law.reads disk.old).journal ≡ false) }
    ensures untouched { D.law.tells → has_open_header (D.law.reads disk.old).journal ≡ true
        → Within (D.law.may_leave disk.old) (D.law.may_leave disk.new) }

    // every stop leaves it
    ensures made { D.law.tells → OnOk result ((c : DiskOf) → D.law.may_leave disk.new c
        → Holds (record { format = 1; first = 1 }) [] c.journal) }

    // only where the disk's faults rose
    ensures failed { result ≡ Err CreateFault.Failed → Rose (D.law.faults disk.old) (D.law.faults disk.new) }
    ensures later { D.law.faults disk.old ≤ D.law.faults disk.new }
    ensures time { D.law.moment disk.old ≤ D.law.moment disk.new }
    ensures same { D.law.identity disk.new ≡ D.law.identity disk.old }
{
    if reads_open_header(disk)? {
        return Err(CreateFault::Exists);
    }
    write_synced(disk, 0, &CLOSED)?;
    write_synced(disk, 0, &[1])?;
    Ok(())
}

// Whether the journal begins with an open header.
fn reads_open_header<D: Disk>(disk: &mut D) -> Result<bool, Failed>
    ensures header { D.law.tells → IfOk result (λ b. b ≡ has_open_header (D.law.reads disk.old).journal) }
    ensures images { Within (D.law.may_leave disk.old) (D.law.may_leave disk.new) }
    ensures stays { D.law.reads disk.new ≡ D.law.reads disk.old }
    ensures cause { HasCause (D.law.faults disk.old) (D.law.faults disk.new) result }
    ensures time { D.law.moment disk.old ≤ D.law.moment disk.new }
    ensures same { D.law.identity disk.new ≡ D.law.identity disk.old }
{
    let mut header = [0u8; 20];
    let count = disk.read_at(Part::Journal, 0, &mut header)?;
    Ok(has_open_header(&header[..count]))
}
