use sc_script::generate;
use sc_types::Command;
use std::test::Fail;

/// Of each command that a number draws a mark, behind those of the set-up: `n` for the chart, and the number of each
/// session that is started or posted to, or `t` for a tick. From the reference model.
const DRAWN: [(u64, &[u8]); 3] = [
    (0, b"n0123456736024737312520t22432661234401510t3410026"),
    (7, b"n012345670227127014430t337401574640t33673t4606252"),
    (
        18446744073709551615,
        b"n0123456775603415t211t23t24401t361133t44736762t37",
    ),
];

/// The digit of a session `g0` to `g7`.
fn digit(session: &[u8]) -> u8 {
    match session {
        [b'g', digit] => *digit,
        _ => b'?',
    }
}

fn mark(command: &Command) -> u8 {
    match command {
        Command::Install { name, .. } => {
            if name.bytes() == b"n".as_slice() {
                b'n'
            } else {
                b'?'
            }
        }
        Command::Start { session, chart } => {
            if chart.bytes() == b"n".as_slice() {
                digit(session.bytes())
            } else {
                b'?'
            }
        }
        Command::Post {
            session,
            event,
            pairs,
        } => {
            if event.bytes() == b"inc".as_slice() && pairs.is_empty() {
                digit(session.bytes())
            } else {
                b'?'
            }
        }
        Command::Tick { ticks } => { if *ticks == 1 { b't' } else { b'?' } }
        _ => b'?',
    }
}

#[test]
fn numbers_draw_the_commands_of_the_model(rt: HostRuntime) -> Result<(), Fail> {
    for (number, wanted) in DRAWN {
        let script = generate(rt.alloc(), number, 40)?;
        let mut marks = Vec::new(rt.alloc());
        for command in script.setup.slice() {
            marks.push(mark(command))?;
        }
        assert_eq!(rt; marks.as_slice(), wanted, "{number}");
        assert!(rt; script.clients.is_empty(), "{number}");
    }
    Ok(())
}
