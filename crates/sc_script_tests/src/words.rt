use sc_words::{Asked, read_words};
use std::alloc::Global;
use std::test::Fail;

/// The words of a line, of which each but the last has a bar behind it, and what they ask for.
const COMMANDS: [(&str, Asked); 17] = [
    ("init", Asked::Init),
    ("show", Asked::Show),
    ("check", Asked::Check),
    (
        "run",
        Asked::Run {
            workers: 2,
            budget: 1_000_000,
        },
    ),
    ("gen|1|2", Asked::Gen { number: 1, size: 2 }),
    // Options stand in any order.
    (
        "run|--workers|3",
        Asked::Run {
            workers: 3,
            budget: 1_000_000,
        },
    ),
    (
        "run|--workers=3",
        Asked::Run {
            workers: 3,
            budget: 1_000_000,
        },
    ),
    (
        "run|--workers=3|--budget|7",
        Asked::Run {
            workers: 3,
            budget: 7,
        },
    ),
    (
        "run|--budget=7|--workers|0",
        Asked::Run {
            workers: 0,
            budget: 7,
        },
    ),
    (
        "run|--budget|1",
        Asked::Run {
            workers: 2,
            budget: 1,
        },
    ),
    // A plus and zeros may lead a number.
    (
        "run|--workers|+5",
        Asked::Run {
            workers: 5,
            budget: 1_000_000,
        },
    ),
    (
        "run|--budget|007",
        Asked::Run {
            workers: 2,
            budget: 7,
        },
    ),
    (
        "run|--workers=+0016",
        Asked::Run {
            workers: 16,
            budget: 1_000_000,
        },
    ),
    ("gen|+7|01", Asked::Gen { number: 7, size: 1 }),
    // Numbers are taken up to their limits.
    (
        "run|--workers|16",
        Asked::Run {
            workers: 16,
            budget: 1_000_000,
        },
    ),
    (
        "run|--budget|1000000000000",
        Asked::Run {
            workers: 2,
            budget: 1_000_000_000_000,
        },
    ),
    (
        "gen|18446744073709551615|100000",
        Asked::Gen {
            number: 18446744073709551615,
            size: 100_000,
        },
    ),
];

/// Lines that are no command.
const OTHERS: [&str; 49] = [
    "",
    "ru",
    "Init",
    "init|x",
    "init|",
    "|init",
    "show|show",
    "check|x",
    "run|3",
    "gen",
    "gen|1",
    "gen|1|2|3",
    "gen|-1|2",
    "gen|1|-2",
    "gen|x|2",
    "gen||2",
    // Numbers past their limits.
    "run|--workers|17",
    "run|--budget|0",
    "run|--budget|1000000000001",
    "gen|18446744073709551616|1",
    "gen|1|0",
    "gen|1|100001",
    // Options that are none, or have no number.
    "run|--workers",
    "run|--workers|-3",
    "run|--workers=-3",
    "run|--workers=",
    "run|--workers|",
    "run|--workers|x",
    "run|--work|3",
    "run|-w|3",
    "run|--workers|1|--workers|1",
    "run|--workers=1|--budget|2|--workers=1",
    "run|--budget",
    "--workers|3|run",
    "gen|1|2|--workers|0",
    // Words that ask for help.
    "help",
    "help|run",
    "--help",
    "-h",
    "--version",
    "-V",
    "--",
    "run|--help",
    "run|-h",
    "run|help",
    "gen|--|1|2",
    "gen|1|help",
    "--|init",
    "init|--",
];

fn asked(alloc: Global, line: &str) -> Result<Option<Asked>, Fail> {
    let mut words = Vec::new(alloc);
    for word in line.split('|') {
        words.push(word.to_string(alloc)?)?;
    }
    Ok(read_words(alloc, words.as_slice())?)
}

#[test]
fn words_are_commands_or_none(rt: HostRuntime) -> Result<(), Fail> {
    for (line, wanted) in COMMANDS {
        assert!(rt; asked(rt.alloc(), line)? == Some(wanted), "{line}");
    }
    for line in OTHERS {
        assert!(rt; asked(rt.alloc(), line)?.is_none(), "{line}");
    }
    assert!(rt; read_words(rt.alloc(), &[])?.is_none());
    Ok(())
}
