// Commands at each limit, and past it.
use crate::samples::{Kind, Outcome, Sample, comes_back, letters, read_pieces};
use std::alloc::Global;
use std::test::Fail;

/// Commands, and whether they have a body, which is read as the command then.
const SAMPLES: [(Sample<'static>, Outcome); 18] = [
    (Sample::Tick(0), Outcome::Same),
    (Sample::Tick(1), Outcome::Same),
    (Sample::Tick(u64::MAX), Outcome::Same),
    (Sample::Post(&[(b"x", Kind::Int(i64::MIN))]), Outcome::Same),
    (Sample::Post(&[(b"x", Kind::Int(-1))]), Outcome::Same),
    (Sample::Post(&[(b"x", Kind::Int(0))]), Outcome::Same),
    (Sample::Post(&[(b"x", Kind::Int(i64::MAX))]), Outcome::Same),
    (Sample::Post(&[(b"x", Kind::Letters(4_096))]), Outcome::Same),
    (
        Sample::Post(&[(b"x", Kind::Letters(4_097))]),
        Outcome::NotEncodable,
    ),
    (Sample::Post(&[(b"x", Kind::List(256, &[]))]), Outcome::Same),
    (
        Sample::Post(&[(b"x", Kind::List(255, &[b"a"]))]),
        Outcome::Same,
    ),
    (
        Sample::Post(&[(b"x", Kind::List(257, &[]))]),
        Outcome::NotEncodable,
    ),
    (
        Sample::Post(&[(b"x", Kind::ListOfTruth)]),
        Outcome::NotEncodable,
    ),
    (
        Sample::Post(&[(b"x", Kind::ListOfList)]),
        Outcome::NotEncodable,
    ),
    (Sample::Pairs(65_535), Outcome::Same),
    (Sample::Pairs(65_536), Outcome::NotEncodable),
    // The text of a chart has any bytes.
    (Sample::Install(b"m", b""), Outcome::Same),
    (Sample::Install(b"m", b"\x00\xff\x01"), Outcome::Same),
];

#[test]
fn commands_within_the_limits_come_back(rt: HostRuntime) {
    for (place, (sample, wanted)) in SAMPLES.iter().enumerate() {
        assert_eq!(rt; comes_back(rt.alloc(), *sample), *wanted, "sample {place}");
    }
}

#[test]
fn a_name_of_65535_bytes_is_the_longest_and_a_chart_may_be_longer(
    rt: HostRuntime,
) -> Result<(), Fail> {
    let alloc = rt.alloc();
    let text = letters(alloc, 1_048_577)?;
    let found = comes_back(alloc, Sample::Install(b"m", text.slice()));
    assert_eq!(rt; found, Outcome::Same);
    for (length, want) in [
        (65_535usize, Outcome::Same),
        (65_536, Outcome::NotEncodable),
    ] {
        let name = &text.slice()[..length.min(text.len())];
        for sample in [
            Sample::Cancel(name),
            Sample::Step(name),
            Sample::Install(name, b"{}"),
            Sample::Start(name, b"m"),
            Sample::Start(b"s", name),
        ] {
            assert_eq!(rt; comes_back(alloc, sample), want, "{length}");
        }
    }
    Ok(())
}

/// What stands before a name of a pair or a text in it, how many letters that has, what stands behind it, and what the
/// body is read as.
const LETTERS: [(&[u8], usize, &[u8], Outcome); 4] = [
    (
        b"\x03\x00\x01s\x00\x01e\x00\x01\x00\x80",
        128,
        b"\x00\x01",
        Outcome::Command,
    ),
    (
        b"\x03\x00\x01s\x00\x01e\x00\x01\x00\x81",
        129,
        b"\x00\x01",
        Outcome::NotCommand,
    ),
    (
        b"\x03\x00\x01s\x00\x01e\x00\x01\x00\x01x\x02\x00\x00\x10\x00",
        4_096,
        b"",
        Outcome::Command,
    ),
    (
        b"\x03\x00\x01s\x00\x01e\x00\x01\x00\x01x\x02\x00\x00\x10\x01",
        4_097,
        b"",
        Outcome::NotCommand,
    ),
];

/// What a body is read as that has so many letters between these pieces.
fn read_around(alloc: Global, before: &[u8], count: usize, behind: &[u8]) -> Outcome {
    match letters(alloc, count) {
        Ok(text) => read_pieces(alloc, &[before, text.slice(), behind]),
        Err(_) => Outcome::NoMemory,
    }
}

#[test]
fn a_body_past_a_limit_is_no_command(rt: HostRuntime) {
    let alloc = rt.alloc();
    for (before, count, behind, wanted) in LETTERS {
        let found = read_around(alloc, before, count, behind);
        assert_eq!(rt; found, wanted, "{count} letters");
    }
    let front = b"\x03\x00\x01s\x00\x01e\x00\x01\x00\x01x\x03\x01\x01".as_slice();
    let mut pieces = [b"\x01\x00\x00\x00\x00\x00\x00\x00\x07".as_slice(); 258];
    pieces[0] = front;
    assert_eq!(rt;
        read_pieces(alloc, &pieces),
        Outcome::NotCommand,
        "257 items"
    );
}
