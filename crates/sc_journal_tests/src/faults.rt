// A read, a write or a sync that fails at each device call.
use crate::cases::{AMPLE, Case, NONE};
use crate::steps::{Outcome, Step};
use sc_dev::Part;

pub const FAULTS: &[Case] = &[
    Case {
        name: "making a journal fails, and it is made after that",
        room: AMPLE,
        calls: &[100],
        failing: &[&[1], &[2], &[3], &[4]],
        steps: &[
            (Step::Create, Outcome::Failed),
            (Step::Create, Outcome::Done),
        ],
    },
    Case {
        name: "the last sync fails, and its header is open already, so that a journal is there",
        room: AMPLE,
        calls: &[100],
        failing: &[&[5]],
        steps: &[
            (Step::Create, Outcome::Failed),
            (Step::Create, Outcome::Exists),
        ],
    },
    Case {
        name: "opening fails at each call",
        room: AMPLE,
        calls: &[100],
        failing: &[&[6, 8]],
        steps: &[
            (Step::Create, Outcome::Done),
            (Step::Open, Outcome::Failed),
            (Step::Open, Outcome::Failed),
            (Step::Open, Outcome::Opened(1, 0, 0)),
        ],
    },
    Case {
        name: "adding fails before the gate is written",
        room: AMPLE,
        calls: &[100],
        failing: &[&[8], &[9]],
        steps: &[
            (Step::Create, Outcome::Done),
            (Step::Open, Outcome::Opened(1, 0, 0)),
            (Step::Append(b"a"), Outcome::Failed),
            (Step::Append(b"b"), Outcome::Done),
        ],
    },
    Case {
        name: "adding fails as the gate is written or synced",
        room: AMPLE,
        calls: &[100],
        failing: &[&[10], &[11]],
        steps: &[
            (Step::Create, Outcome::Done),
            (Step::Open, Outcome::Opened(1, 0, 0)),
            (Step::Append(b"a"), Outcome::Failed),
            (Step::Append(b"b"), Outcome::InDoubt),
        ],
    },
    Case {
        name: "settling fails at each call",
        room: AMPLE,
        calls: &[100],
        failing: &[&[11, 12], &[11, 13]],
        steps: &[
            (Step::Create, Outcome::Done),
            (Step::Open, Outcome::Opened(1, 0, 0)),
            (Step::Append(b"a"), Outcome::Failed),
            (Step::Settle, Outcome::Failed),
            (Step::Append(b"b"), Outcome::InDoubt),
            (Step::Settle, Outcome::Done),
            (Step::Append(b"b"), Outcome::Done),
        ],
    },
    // A write past the room in bytes: 21, 1, 9 and 1 bytes were written, and 17 more end at 47.
    Case {
        name: "a full disk fails",
        room: 45,
        calls: &[100],
        failing: NONE,
        steps: &[
            (Step::Create, Outcome::Done),
            (Step::Open, Outcome::Opened(1, 0, 0)),
            (Step::Append(b"fits"), Outcome::Done),
            (Step::Append(b"does not fit"), Outcome::Failed),
            (Step::Close, Outcome::Done),
            (Step::Sync(Part::Journal), Outcome::Done),
            (Step::Open, Outcome::Opened(1, 1, 4)),
        ],
    },
];
