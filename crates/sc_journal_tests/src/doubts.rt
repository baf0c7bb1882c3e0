// Entries that a fault left in doubt, and how they are settled. Making and opening take the calls 1 to 7, and the
// first entry 8 to 11.
use crate::cases::{AMPLE, Case, NONE};
use crate::steps::{Outcome, Step};

pub const DOUBTS: &[Case] = &[
    Case {
        name: "an entry in doubt is settled",
        room: AMPLE,
        calls: &[100],
        failing: &[&[11]],
        steps: &[
            (Step::Create, Outcome::Done),
            (Step::Open, Outcome::Opened(1, 0, 0)),
            (Step::Append(b"lost"), Outcome::Failed),
            (Step::Append(b"lost"), Outcome::InDoubt),
            (Step::Settle, Outcome::Done),
            (Step::Append(b"new"), Outcome::Done),
            (Step::Close, Outcome::Done),
            (Step::Open, Outcome::Opened(1, 1, 3)),
        ],
    },
    Case {
        name: "two doubts in a row",
        room: AMPLE,
        calls: &[100],
        failing: &[&[10, 11, 12, 17]],
        steps: &[
            (Step::Create, Outcome::Done),
            (Step::Open, Outcome::Opened(1, 0, 0)),
            (Step::Append(b"one"), Outcome::Failed),
            (Step::Settle, Outcome::Failed),
            (Step::Settle, Outcome::Failed),
            (Step::Settle, Outcome::Done),
            (Step::Append(b"two"), Outcome::Failed),
            (Step::Settle, Outcome::Done),
            (Step::Append(b"three"), Outcome::Done),
            (Step::Close, Outcome::Done),
            (Step::Open, Outcome::Opened(1, 1, 5)),
        ],
    },
    Case {
        name: "where nothing is in doubt settling calls no device",
        room: AMPLE,
        calls: &[7],
        failing: NONE,
        steps: &[
            (Step::Create, Outcome::Done),
            (Step::Open, Outcome::Opened(1, 0, 0)),
            (Step::Settle, Outcome::Done),
            (Step::Moment, Outcome::Number(7)),
        ],
    },
    // The write of the gate failed.
    Case {
        name: "a stop leaves a doubt",
        room: AMPLE,
        calls: &[100],
        failing: &[&[10]],
        steps: &[
            (Step::Create, Outcome::Done),
            (Step::Open, Outcome::Opened(1, 0, 0)),
            (Step::Append(b"doubtful"), Outcome::Failed),
            (Step::Close, Outcome::Done),
            (Step::Stop(b"\x01"), Outcome::Done),
            (Step::Open, Outcome::Opened(1, 1, 8)),
        ],
    },
    Case {
        name: "a stop leaves nothing of a doubt",
        room: AMPLE,
        calls: &[100],
        failing: &[&[10]],
        steps: &[
            (Step::Create, Outcome::Done),
            (Step::Open, Outcome::Opened(1, 0, 0)),
            (Step::Append(b"doubtful"), Outcome::Failed),
            (Step::Close, Outcome::Done),
            (Step::Stop(b"\x00"), Outcome::Done),
            (Step::Open, Outcome::Opened(1, 0, 0)),
        ],
    },
];
