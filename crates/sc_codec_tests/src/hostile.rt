// Bodies of no command, and such as differ from them by little.
use crate::samples::{Outcome, read_pieces};

/// What may stand before and behind a part of a body, where something else would make it no command.
struct Place {
    before: &'static [&'static [u8]],
    behind: &'static [u8],
    parts: &'static [(&'static [u8], Outcome)],
}

const PLACES: &[Place] = &[
    // What begins no command is none.
    Place {
        before: &[b""],
        behind: b"",
        parts: &[
            (b"", Outcome::NotCommand),
            (b"\x00", Outcome::NotCommand),
            (b"\x07", Outcome::NotCommand),
            (b"\x00\x00\x00\x00\x00\x00\x00\x00\x05", Outcome::NotCommand),
            (b"\x07\x00\x00\x00\x00\x00\x00\x00\x05", Outcome::NotCommand),
            (b"\xff\x00\x01s", Outcome::NotCommand),
        ],
    },
    // A name has the form of its type.
    Place {
        before: &[b"\x05", b"\x06", b"\x02\x00\x01s"],
        behind: b"",
        parts: &[
            (b"\x00\x01a", Outcome::Command),
            (b"\x00\x02\xc3\xa9", Outcome::Command),
            (b"\x00\x00", Outcome::NotCommand),
            (b"\x00\x02a#", Outcome::NotCommand),
            (b"\x00\x01 ", Outcome::NotCommand),
            (b"\x00\x01\"", Outcome::NotCommand),
            (b"\x00\x01\x7f", Outcome::NotCommand),
            (b"\x00\x01\xff", Outcome::NotCommand),
            (b"\x00\x03a", Outcome::NotCommand),
            (b"\xff\xffa", Outcome::NotCommand),
            (b"\x01a", Outcome::NotCommand),
        ],
    },
    // A pair has a plain name and a value within the limits.
    Place {
        before: &[b"\x03\x00\x01s\x00\x01e\x00\x01"],
        behind: b"",
        parts: &[
            (b"\x00\x01x\x00\x01", Outcome::Command),
            (b"\x00\x02x1\x00\x01", Outcome::Command),
            (b"\x00\x021x\x00\x01", Outcome::NotCommand),
            (b"\x00\x02x.\x00\x01", Outcome::NotCommand),
            (b"\x00\x04true\x00\x01", Outcome::NotCommand),
            (b"\x00\x00\x00\x01", Outcome::NotCommand),
            (b"\x00\x01x\x00\x02", Outcome::NotCommand),
            (b"\x00\x01x\x04\x00", Outcome::NotCommand),
            (b"\x00\x01x\x02\x00\x00\x00\x01\x7f", Outcome::NotCommand),
            (b"\x00\x01x\x02\x00\x00\x00\x01\xff", Outcome::NotCommand),
            (b"\x00\x01x\x02\x00\x00\x00\x01\x0a", Outcome::Command),
            (b"\x00\x01x\x02\xff\xff\xff\xffa", Outcome::NotCommand),
            (b"\x00\x01x\x03\x00\x01\x00\x01", Outcome::NotCommand),
            (b"\x00\x01x\x03\x00\x01\x03\x00\x00", Outcome::NotCommand),
            (
                b"\x00\x01x\x03\x00\x02\x02\x00\x00\x00\x00",
                Outcome::NotCommand,
            ),
            (b"\x00\x01x\x03\xff\xff", Outcome::NotCommand),
        ],
    },
    // The count is that of the pairs.
    Place {
        before: &[b"\x03\x00\x01s\x00\x01e"],
        behind: b"\x00\x01x\x00\x01",
        parts: &[
            (b"\x00\x01", Outcome::Command),
            (b"\x00\x00", Outcome::NotCommand),
            (b"\x00\x02", Outcome::NotCommand),
            (b"\xff\xff", Outcome::NotCommand),
        ],
    },
];

#[test]
fn a_part_that_is_not_as_it_has_to_be_makes_no_command(rt: HostRuntime) {
    for place in PLACES {
        for (part, wanted) in place.parts {
            for before in place.before {
                let found = read_pieces(rt.alloc(), &[before, part, place.behind]);
                assert_eq!(rt; found, *wanted, "{part:?} behind {before:?}");
            }
        }
    }
}
