// A stop after each device call of an entry's four. Making and opening take seven calls, and the first entry four.
use crate::cases::{AMPLE, Case, NONE};
use crate::steps::{Outcome, Step};

// The command `tick 5` as a body.
const TICK: &[u8] = b"\x04\x00\x00\x00\x00\x00\x00\x00\x05";

// The bytes of a valid entry whose gate is open.
const ENTRY: &[u8] = b"\x01\x00\x00\x00\x01x\x00";

const CLOSED: &[u8] = b"\x00";

const WITHOUT: Outcome = Outcome::Opened(1, 1, 3);

const WITH: Outcome = Outcome::Opened(1, 2, 12);

pub const STOPS: &[Case] = &[
    Case {
        name: "before its gate is written an entry is not there",
        room: AMPLE,
        calls: &[11, 12, 13],
        failing: NONE,
        steps: &[
            (Step::Create, Outcome::Done),
            (Step::Open, Outcome::Opened(1, 0, 0)),
            (Step::Append(b"old"), Outcome::Done),
            (Step::Append(TICK), Outcome::Failed),
            (Step::Close, Outcome::Done),
            (Step::Stop(ENTRY), Outcome::Done),
            (Step::Open, WITHOUT),
        ],
    },
    Case {
        name: "while its gate is pending it may be there",
        room: AMPLE,
        calls: &[14],
        failing: NONE,
        steps: &[
            (Step::Create, Outcome::Done),
            (Step::Open, Outcome::Opened(1, 0, 0)),
            (Step::Append(b"old"), Outcome::Done),
            (Step::Append(TICK), Outcome::Failed),
            (Step::Close, Outcome::Done),
            (Step::Stop(ENTRY), Outcome::Done),
            (Step::Open, WITH),
        ],
    },
    Case {
        name: "while its gate is pending it may not be there",
        room: AMPLE,
        calls: &[14],
        failing: NONE,
        steps: &[
            (Step::Create, Outcome::Done),
            (Step::Open, Outcome::Opened(1, 0, 0)),
            (Step::Append(b"old"), Outcome::Done),
            (Step::Append(TICK), Outcome::Failed),
            (Step::Close, Outcome::Done),
            (Step::Stop(CLOSED), Outcome::Done),
            (Step::Open, WITHOUT),
        ],
    },
    Case {
        name: "after the last sync it is there, whatever a stop leaves",
        room: AMPLE,
        calls: &[15],
        failing: NONE,
        steps: &[
            (Step::Create, Outcome::Done),
            (Step::Open, Outcome::Opened(1, 0, 0)),
            (Step::Append(b"old"), Outcome::Done),
            (Step::Append(TICK), Outcome::Done),
            (Step::Close, Outcome::Done),
            (Step::Stop(ENTRY), Outcome::Done),
            (Step::Open, WITH),
        ],
    },
    Case {
        name: "after the last sync it is there",
        room: AMPLE,
        calls: &[15],
        failing: NONE,
        steps: &[
            (Step::Create, Outcome::Done),
            (Step::Open, Outcome::Opened(1, 0, 0)),
            (Step::Append(b"old"), Outcome::Done),
            (Step::Append(TICK), Outcome::Done),
            (Step::Close, Outcome::Done),
            (Step::Stop(CLOSED), Outcome::Done),
            (Step::Open, WITH),
        ],
    },
];
