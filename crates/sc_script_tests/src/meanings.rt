use sc_script::{Script, read_script};
use sc_types::{Command, Sequence};
use std::alloc::Global;
use std::test::Fail;

/// Ticks, of one command each.
fn ticks(alloc: Global, each: &[u64]) -> Result<Sequence<Command>, Fail> {
    let mut commands = Sequence::new(alloc);
    for ticks in each {
        commands.push(Command::Tick { ticks: *ticks })?;
    }
    Ok(commands)
}

fn script_of(alloc: Global, text: &[u8]) -> Result<Script, Fail> {
    match read_script(alloc, text) {
        Ok(script) => Ok(script),
        Err(_) => Err(Fail::new("no script")),
    }
}

#[test]
fn lines_behind_a_client_are_its_own(rt: HostRuntime) -> Result<(), Fail> {
    let alloc = rt.alloc();
    let text = b"tick 1\nclient\ntick 2\n\ntick 3\n client \nclient\ntick 4";
    let script = script_of(alloc, text)?;
    let setup = ticks(alloc, &[1])?;
    let mut clients = Sequence::new(alloc);
    for each in [[2, 3].as_slice(), &[], &[4]] {
        clients.push(ticks(alloc, each)?)?;
    }
    assert!(rt; script == Script { setup, clients });
    Ok(())
}
