// Texts that are no journal's, and texts at the limits.
use crate::cases::{AMPLE, Case, NONE};
use crate::steps::{Outcome, Step, disk};
use sc_base::Bytes;
use sc_dev::Part;
use std::alloc::Global;
use std::test::Fail;

// The command `tick 5` as a body.
const TICK: &[u8] = b"\x04\x00\x00\x00\x00\x00\x00\x00\x05";

// A journal with this one body, byte for byte.
const TICKED: &[u8] = b"\x01SCXHOST\x00\x00\x00\x01\x00\x00\x00\x00\x00\x00\x00\x01\
    \x01\x00\x00\x00\x09\x04\x00\x00\x00\x00\x00\x00\x00\x05\x00";

// An empty journal whose first number is 2^48.
const LAST: &[u8] = b"\x01SCXHOST\x00\x00\x00\x01\x00\x01\x00\x00\x00\x00\x00\x00\x00";

// The first 19 bytes of a journal.
const CUT: &[u8] = b"\x01SCXHOST\x00\x00\x00\x01\x00\x00\x00\x00\x00\x00\x00";

// Two entries behind an open gate.
const TWO: &[u8] = b"\x01\x00\x00\x00\x01x\x01\x00\x00\x00\x01x\x00";

pub const DAMAGE: &[Case] = &[
    Case {
        name: "a journal with one body has these bytes",
        room: AMPLE,
        calls: &[100],
        failing: NONE,
        steps: &[
            (Step::Create, Outcome::Done),
            (Step::Open, Outcome::Opened(1, 0, 0)),
            (Step::Append(TICK), Outcome::Done),
            (Step::Moment, Outcome::Number(11)),
            (Step::Close, Outcome::Done),
            (Step::Has(Part::Journal, TICKED), Outcome::Yes),
        ],
    },
    Case {
        name: "an empty part is damaged",
        room: AMPLE,
        calls: &[100],
        failing: NONE,
        steps: &[(Step::Open, Outcome::Damaged(0))],
    },
    Case {
        name: "no entry passes the last number",
        room: AMPLE,
        calls: &[100],
        failing: NONE,
        steps: &[
            (Step::Write(Part::Journal, 0, LAST), Outcome::Done),
            (Step::Open, Outcome::Opened(281_474_976_710_656, 0, 0)),
            (Step::Append(b"x"), Outcome::Done),
            (Step::Append(b"x"), Outcome::Full),
        ],
    },
    Case {
        name: "an entry past the last number is damaged",
        room: AMPLE,
        calls: &[100],
        failing: NONE,
        steps: &[
            (Step::Write(Part::Journal, 0, LAST), Outcome::Done),
            (Step::Write(Part::Journal, 20, TWO), Outcome::Done),
            (Step::Open, Outcome::Damaged(26)),
        ],
    },
    Case {
        name: "a journal is made where none is",
        room: AMPLE,
        calls: &[100],
        failing: NONE,
        steps: &[
            (Step::Write(Part::Journal, 0, CUT), Outcome::Done),
            (Step::Create, Outcome::Done),
            (Step::Create, Outcome::Exists),
            (Step::Open, Outcome::Opened(1, 0, 0)),
        ],
    },
];

// What is opened of a text in which these bytes were written over at a place.
fn opened<'a>(alloc: Global, text: &'a [u8], place: u64, bytes: &'a [u8]) -> Outcome {
    let steps = [
        (Step::Write(Part::Journal, 0, text), Outcome::Done),
        (Step::Write(Part::Journal, place, bytes), Outcome::Done),
        (Step::Open, Outcome::Nothing),
    ];
    match disk(alloc, AMPLE, 100, &[]).first_other(alloc, &steps) {
        Some((_, outcome)) => outcome,
        None => Outcome::Nothing,
    }
}

// A byte of the journal that was changed, and what is opened then.
const CHANGES: [(u64, u8, Outcome); 10] = [
    (0, 2, Outcome::Damaged(0)),
    (1, 0, Outcome::Damaged(1)),
    (11, 7, Outcome::Damaged(8)),
    (19, 0, Outcome::Damaged(12)),
    (19, 2, Outcome::Opened(2, 1, 9)),
    (20, 0, Outcome::Opened(1, 0, 0)),
    (22, 1, Outcome::Damaged(20)),
    (24, 0, Outcome::Damaged(20)),
    (34, 1, Outcome::Damaged(34)),
    (34, 255, Outcome::Opened(1, 1, 9)),
];

#[test]
fn a_text_that_was_cut_or_changed_is_damaged_where_it_was(rt: HostRuntime) {
    for length in 1..35usize {
        let text = &TICKED[..length.min(TICKED.len())];
        let found = opened(rt.alloc(), text, 0, b"\x01");
        let place = if length < 21 { 0 } else { 20 };
        assert_eq!(rt; found, Outcome::Damaged(place), "cut to {length}");
    }
    for (place, byte, wanted) in CHANGES {
        let found = opened(rt.alloc(), TICKED, place, &[byte]);
        assert_eq!(rt; found, wanted, "byte {place} is {byte}");
    }
}

// A journal that takes two pieces to read, of which the second gives fewer bytes than were asked for.
#[test]
fn a_long_journal_is_read_in_pieces(rt: HostRuntime) -> Result<(), Fail> {
    let alloc = rt.alloc();
    let mut body = Bytes::new(alloc);
    for _ in 0..70_000u32 {
        body.push(1)?;
    }
    let steps = [
        (Step::Create, Outcome::Done),
        (Step::Open, Outcome::Opened(1, 0, 0)),
        (Step::Append(body.slice()), Outcome::Done),
        (Step::Append(TICK), Outcome::Done),
        (Step::Close, Outcome::Done),
        (Step::Open, Outcome::Opened(1, 2, 70_009)),
        (Step::Moment, Outcome::Number(18)),
    ];
    let found = disk(alloc, AMPLE, 100, &[]).first_other(alloc, &steps);
    assert_eq!(rt; found, None);
    Ok(())
}
