use sc_base::Failure;
use sc_script::{Cause, ScriptFault, read_script};
use std::alloc::Global;
use std::test::Fail;

/// A line, and what is wrong with it.
const LINES: [(&[u8], Cause); 60] = [
    (b"\xff", Cause::NotUtf8),
    (b"chart n \"\xff\"", Cause::NotUtf8),
    (b"walk s", Cause::UnknownWord),
    (b"Client", Cause::UnknownWord),
    (b"tick\t1", Cause::UnknownWord),
    (b"step s", Cause::UnknownWord),
    (b"chart", Cause::Missing),
    (b"chart n", Cause::Missing),
    (b"chart n  ", Cause::Missing),
    (b"start", Cause::Missing),
    (b"start s", Cause::Missing),
    (b"post", Cause::Missing),
    (b"post s", Cause::Missing),
    (b"tick", Cause::Missing),
    (b"cancel", Cause::Missing),
    (b"start s n x", Cause::Extra),
    (b"tick 1 1", Cause::Extra),
    (b"cancel s x", Cause::Extra),
    (b"client x", Cause::Extra),
    (b"chart n# {}", Cause::BadWord),
    (b"start s# m", Cause::BadWord),
    (b"start s m'", Cause::BadWord),
    (b"post s\\ e", Cause::BadWord),
    (b"post s e\"", Cause::BadWord),
    (b"cancel \x7f", Cause::BadWord),
    (b"post s e x=", Cause::BadValue),
    (b"post s e x", Cause::BadValue),
    (b"post s e =1", Cause::BadValue),
    (b"post s e x=[1,true]", Cause::BadValue),
    (b"post s e x= 1", Cause::BadValue),
    (b"post s e x =1", Cause::BadValue),
    (b"post s e x=1\ty=2", Cause::BadValue),
    (b"post s e x='a'y=2", Cause::BadValue),
    (b"post s e true=1", Cause::BadValue),
    (b"post s e 1x=1", Cause::BadValue),
    (b"post s e x=- 5", Cause::BadValue),
    (b"post s e x=-0", Cause::BadValue),
    (b"post s e x='a b", Cause::BadValue),
    (b"post s e x=[1, 2", Cause::BadValue),
    (b"post s e x=9223372036854775808", Cause::BadValue),
    (b"post s e x=00", Cause::BadValue),
    (b"post s e x=07", Cause::BadValue),
    (b"post s e x=0000000000000000001", Cause::BadValue),
    (b"post s e x=+1", Cause::BadValue),
    (b"post s e x=1a", Cause::BadValue),
    (b"tick 01", Cause::BadNumber),
    (b"tick +1", Cause::BadNumber),
    (b"tick -1", Cause::BadNumber),
    (b"tick 1.0", Cause::BadNumber),
    (b"tick x", Cause::BadNumber),
    (b"tick 5\r ", Cause::BadNumber),
    (b"tick 18446744073709551616", Cause::BadNumber),
    // Lines with two things wrong: the first cause counts.
    (b"walk \xff", Cause::NotUtf8),
    (b"start s#", Cause::Missing),
    (b"start s# m x", Cause::Extra),
    (b"cancel s# x", Cause::Extra),
    (b"tick 01 1", Cause::Extra),
    (b"chart n# \"\xff\"", Cause::NotUtf8),
    (b"post s# e x=", Cause::BadWord),
    (b"post s# ", Cause::Missing),
];

/// The fault of a text.
fn fault_of(alloc: Global, text: &[u8]) -> Result<Option<ScriptFault>, Fail> {
    match read_script(alloc, text) {
        Ok(_) => Ok(None),
        Err(Failure::Fault(fault)) => Ok(Some(fault)),
        Err(Failure::NoMemory) => Err(Fail::new("out of memory")),
    }
}

/// The fault of the text that these three are together.
fn fault_between(
    alloc: Global,
    before: &[u8],
    line: &[u8],
    behind: &[u8],
) -> Result<Option<ScriptFault>, Fail> {
    let mut text = Vec::from_slice(alloc, before)?;
    text.extend_from_slice(line)?;
    text.extend_from_slice(behind)?;
    fault_of(alloc, text.as_slice())
}

/// What stands before a line and behind it, and its number.
const PLACES: [(&[u8], &[u8], u32); 4] = [
    (b"", b"\ntick 1\npost s e\n", 1),
    (b"tick 1\r\n\nclient\n", b"\n\xff\nwalk\n", 4),
    (b"client\npost s e x='a b' y=[1, 2]\n", b"", 3),
    (b"client\npost s e x='a b' y=[1, 2]\n", b"\n", 3),
];

#[test]
fn a_faulty_line_is_told_wherever_it_stands(rt: HostRuntime) -> Result<(), Fail> {
    for (before, behind, number) in PLACES {
        for (line, cause) in LINES {
            let found = fault_between(rt.alloc(), before, line, behind)?;
            let wanted = Some(ScriptFault {
                line: number,
                cause,
            });
            assert_eq!(rt; found, wanted, "{line:?} as line {number}");
        }
    }
    Ok(())
}

/// How often `client` stands before a text, the text, the line of its fault, and the cause.
const BEHIND_CLIENTS: [(u32, &[u8], u32, Cause); 7] = [
    (64, b"client", 65, Cause::TooManyClients),
    (64, b"client\n\xff", 65, Cause::TooManyClients),
    (64, b"client x", 65, Cause::Extra),
    (64, b"tick 1\n\n  client  \r\n", 67, Cause::TooManyClients),
    // Blank lines are counted.
    (0, b"\nstart s", 2, Cause::Missing),
    (0, b"\r\n  \n\nwalk s\n", 4, Cause::UnknownWord),
    (0, b"tick 1\n\n\n\n\ntick 01\r\n", 6, Cause::BadNumber),
];

#[test]
fn the_65th_client_is_one_too_many_and_blank_lines_are_counted(
    rt: HostRuntime,
) -> Result<(), Fail> {
    for (clients, text, line, cause) in BEHIND_CLIENTS {
        let mut before = Vec::new(rt.alloc());
        for _ in 0..clients {
            before.extend_from_slice(b"client\n")?;
        }
        assert_eq!(rt; fault_of(rt.alloc(), before.as_slice())?, None);
        let found = fault_between(rt.alloc(), before.as_slice(), text, b"")?;
        assert_eq!(rt; found, Some(ScriptFault { line, cause }), "{text:?}");
    }
    Ok(())
}
