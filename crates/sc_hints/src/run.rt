use crate::commands::commands;
use crate::one_line::on_one_line;
use crate::refused::refused_hint;
use crate::unmatched::unmatched_hint;
use sc_base::NoMemory;
use sc_words::{Asked, read_words};
use std::alloc::Global;

const EARLY_TICKS: &str =
    "all commands of the set-up were made before any step, its ticks too; with --workers 0, or \
    behind a line client, steps come between them";

/// What surprises in a script that was run: a command that is refused, or an event that no transition takes; and where
/// there is none, with workers, ticks that come before the steps of what it posts, unless a client makes them.
pub fn run_hint(
    alloc: Global,
    words: &[String],
    script: &[u8],
) -> Result<Option<String>, NoMemory> {
    match read_words(alloc, words)? {
        Some(Asked::Run { workers, .. }) => match commands_hint(alloc, script)? {
            None if workers > 0 && ticks_in_set_up(script) => {
                Ok(Some(String::from_str(alloc, EARLY_TICKS)?))
            }
            hint => Ok(hint),
        },
        _ => Ok(None),
    }
}

/// What is told of the commands of a script.
fn commands_hint(alloc: Global, script: &[u8]) -> Result<Option<String>, NoMemory> {
    let Some(commands) = commands(alloc, script)? else {
        return Ok(None);
    };
    let commands = commands.as_slice();
    let hint = match refused_hint(alloc, commands)? {
        Some(hint) => Some(hint),
        None => unmatched_hint(alloc, commands)?,
    };
    match hint {
        Some(hint) => Ok(Some(on_one_line(alloc, hint.as_str())?)),
        None => Ok(None),
    }
}

/// Whether a script has ticks and no clients.
fn ticks_in_set_up(script: &[u8]) -> bool {
    begins_a_line(script, b"tick ") && !begins_a_line(script, b"client")
}

fn begins_a_line(script: &[u8], word: &[u8]) -> bool {
    script
        .split(|byte| *byte == b'\n')
        .any(|line| line.trim_ascii_start().starts_with(word))
}
