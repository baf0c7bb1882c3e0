// Worked bodies, byte for byte.
use crate::samples::{Kind, Outcome, Sample, read, read_pieces, written};

const TICK: &[u8] = b"\x04\x00\x00\x00\x00\x00\x00\x00\x05";

const INSTALL: &[u8] = b"\x01\x00\x04door\x00\x00\x00\x02{}";

const START: &[u8] = b"\x02\x00\x01s\x00\x04door";

// A post with the list of 7 and a text as `x`.
const LISTED: &[u8] = b"\x03\x00\x01s\x00\x01e\x00\x01\x00\x01x\
    \x03\x00\x02\x01\x00\x00\x00\x00\x00\x00\x00\x07\x02\x00\x00\x00\x01a";

const CANCEL: &[u8] = b"\x05\x00\x01s";

/// Commands of each kind, and posts with a value of each kind, with their bodies.
const WRITTEN: [(Sample<'static>, &[u8]); 14] = [
    (Sample::Install(b"door", b"{}"), INSTALL),
    (Sample::Start(b"s", b"door"), START),
    (Sample::Post(&[]), b"\x03\x00\x01s\x00\x01e\x00\x00"),
    (Sample::Tick(5), TICK),
    (Sample::Cancel(b"s"), CANCEL),
    (Sample::Step(b"s/i"), b"\x06\x00\x03s/i"),
    (
        Sample::Post(&[(b"x", Kind::Bool(false))]),
        b"\x03\x00\x01s\x00\x01e\x00\x01\x00\x01x\x00\x00",
    ),
    (
        Sample::Post(&[(b"x", Kind::Bool(true))]),
        b"\x03\x00\x01s\x00\x01e\x00\x01\x00\x01x\x00\x01",
    ),
    (
        Sample::Post(&[(b"x", Kind::Int(-2))]),
        b"\x03\x00\x01s\x00\x01e\x00\x01\x00\x01x\x01\xff\xff\xff\xff\xff\xff\xff\xfe",
    ),
    (
        Sample::Post(&[(b"x", Kind::Text(b""))]),
        b"\x03\x00\x01s\x00\x01e\x00\x01\x00\x01x\x02\x00\x00\x00\x00",
    ),
    (
        Sample::Post(&[(b"x", Kind::Text(b"hi"))]),
        b"\x03\x00\x01s\x00\x01e\x00\x01\x00\x01x\x02\x00\x00\x00\x02hi",
    ),
    (
        Sample::Post(&[(b"x", Kind::List(0, &[]))]),
        b"\x03\x00\x01s\x00\x01e\x00\x01\x00\x01x\x03\x00\x00",
    ),
    (Sample::Post(&[(b"x", Kind::List(1, &[b"a"]))]), LISTED),
    // Pairs stand in their order.
    (
        Sample::Post(&[
            (b"b", Kind::Bool(true)),
            (b"a", Kind::Bool(false)),
            (b"b", Kind::Bool(false)),
        ]),
        b"\x03\x00\x01s\x00\x01e\x00\x03\x00\x01b\x00\x01\x00\x01a\x00\x00\x00\x01b\x00\x00",
    ),
];

#[test]
fn each_command_has_its_body(rt: HostRuntime) {
    for (sample, body) in WRITTEN {
        let found = written(rt.alloc(), sample, body);
        assert_eq!(rt; found, Outcome::Same, "{body:?}");
    }
}

/// A body of each kind.
const BODIES: [&[u8]; 6] = [TICK, INSTALL, START, LISTED, CANCEL, b"\x06\x00\x01s"];

#[test]
fn no_part_of_a_body_and_no_more_is_a_body(rt: HostRuntime) {
    let alloc = rt.alloc();
    for body in BODIES {
        for length in 0..body.len() {
            let found = read(alloc, &body[..length]);
            assert_eq!(rt; found, Outcome::NotCommand, "{length} of {body:?}");
        }
        let found = [read(alloc, body), read_pieces(alloc, &[body, b"\x00"])];
        assert_eq!(rt; found, [Outcome::Command, Outcome::NotCommand], "{body:?}");
    }
}
