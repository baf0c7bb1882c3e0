// A disk in memory, call by call.
use crate::cases::{AMPLE, Case};
use crate::steps::{Outcome, Step};
use sc_dev::{Disk, MemDisk, Part};
use std::test::Fail;

pub const DISKS: &[Case] = &[
    // Past the room in bytes, past that in bytes written, one that is to fail, and past the room in calls.
    Case {
        name: "calls fail where a room is full",
        room: 8,
        calls: &[5],
        failing: &[&[4]],
        steps: &[
            (Step::Write(Part::SlotA, 1, b"abc"), Outcome::Done),
            (Step::Write(Part::SlotB, 6, b"xyz"), Outcome::Failed),
            (Step::Write(Part::SlotB, 0, b"123456"), Outcome::Failed),
            (Step::Sync(Part::SlotA), Outcome::Failed),
            (Step::Sync(Part::SlotA), Outcome::Done),
            (Step::Sync(Part::SlotA), Outcome::Failed),
            (Step::Moment, Outcome::Number(6)),
            (Step::Has(Part::SlotA, b"\x00abc"), Outcome::Yes),
            (Step::Has(Part::SlotB, b""), Outcome::Yes),
        ],
    },
    Case {
        name: "a stop fills what is pending",
        room: AMPLE,
        calls: &[100],
        failing: &[&[4]],
        steps: &[
            (Step::Write(Part::Journal, 0, b"abcdef"), Outcome::Done),
            (Step::Sync(Part::Journal), Outcome::Done),
            (Step::Write(Part::Journal, 1, b"XYZ"), Outcome::Done),
            (Step::Write(Part::Journal, 5, b"..."), Outcome::Failed),
            (Step::Write(Part::SlotA, 0, b"slot"), Outcome::Done),
            (Step::Has(Part::Journal, b"aXYZef"), Outcome::Yes),
            (Step::Stop(b"12"), Outcome::Done),
            (Step::Has(Part::Journal, b"a121e121"), Outcome::Yes),
            (Step::Has(Part::SlotA, b"1212"), Outcome::Yes),
            (Step::Has(Part::SlotB, b""), Outcome::Yes),
            (Step::Moment, Outcome::Number(0)),
        ],
    },
];

#[test]
fn a_read_gives_what_there_is(rt: HostRuntime) -> Result<(), Fail> {
    let alloc = rt.alloc();
    let mut disk = MemDisk::new(alloc, 8, 5, 10, &[])?;
    let mut into = [9u8; 4];
    disk.write_at(Part::SlotA, 1, b"abc")?;
    let count = disk.read_at(Part::SlotA, 1, &mut into)?;
    assert_eq!(rt; (count, into), (3, *b"abc\x09"));
    Ok(())
}
