use sc_hints::{journal_hint, words_hint};
use std::alloc::Global;
use std::process::Abort;
use std::test::Fail;

/// Whether the sentence on some words tells each of the pieces.
fn is_told(alloc: Global, line: &str, pieces: &str) -> Result<bool, Fail> {
    let mut words = Vec::new(alloc);
    for word in line.split(' ') {
        words.push(word.to_string(alloc)?)?;
    }
    let sentence = words_hint(alloc, words.as_slice())?;
    Ok(pieces.split('|').all(|piece| sentence.contains(piece)))
}

#[test]
fn the_wrong_word_is_told(rt: HostRuntime) -> Result<(), Fail> {
    let rows = [
        ("--help", "init|run|show|check|gen"),
        ("go", "'go'|init|run|show|check|gen"),
        ("chek", "'chek'|the nearest is 'check'"),
        ("post s e", "'post'|script"),
        ("--workers 0 run", "first|run"),
        ("init now", "'now'"),
        ("check a.json", "'a.json'|check < a.json"),
        ("run a.script", "'a.script'|run < a.script"),
        ("run --worker 0", "'--worker'|the nearest is '--workers'"),
        ("run --workers", "--workers|from 0 to 16"),
        ("run --budget 5 --workers=17", "--workers|'17'|from 0 to 16"),
        ("run --workers 0 --budget 1 --workers 1", "--workers|once"),
        ("run --budget 0", "--budget|'0'|from 1 to 1000000000000"),
        ("gen", "NUMBER|SIZE"),
        ("gen 1", "SIZE|from 1 to 100000"),
        ("gen -1 1", "NUMBER|'-1'"),
        ("gen 1 100001", "SIZE|'100001'"),
        ("gen 1 1 1", "'1'|too many"),
    ];
    for (line, pieces) in rows {
        assert!(rt; is_told(rt.alloc(), line, pieces)?, "{line}");
    }
    Ok(())
}

#[test]
fn the_damage_is_told(rt: HostRuntime) -> Result<(), Fail> {
    let rows = [
        ("damaged 0\n", "not a journal"),
        ("damaged 778\n", "byte 778"),
        ("entry 4\n", "entry 4"),
    ];
    for (line, piece) in rows {
        assert!(rt; journal_hint(rt.alloc(), line)?.contains(piece), "{line}");
    }
    Ok(())
}
