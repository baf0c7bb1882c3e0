use crate::commands::{CHART, Command, SESSION};
use crate::element::{descriptors, heeds_all};
use crate::nearest::nearest_told;
use json::{Scratch, Value};
use sc_base::NoMemory;
use sc_names::matches;
use sc_types::EVENT_NAME_LIMIT;
use std::alloc::Global;

/// The first event that the chart of its session has no transition for, chart by chart; `None` where there is none.
pub(crate) fn unmatched_hint(
    alloc: Global,
    commands: &[Command<'_>],
) -> Result<Option<String>, NoMemory> {
    let posts = posts(alloc, commands)?;
    for command in commands {
        if CHART.is_made_by(command) {
            if let Some(hint) = hint_of_chart(alloc, command, posts.as_slice())? {
                return Ok(Some(hint));
            }
        }
    }
    Ok(None)
}

/// A post, and the chart of the session that it goes to.
#[derive(Clone, Copy)]
struct Post<'s> {
    command: Command<'s>,
    chart: &'s str,
}

/// The posts to sessions that the script starts, of events that the host takes.
fn posts<'s>(alloc: Global, commands: &[Command<'s>]) -> Result<Vec<Post<'s>>, NoMemory> {
    let mut posts = Vec::new(alloc);
    for command in commands {
        if command.verb == "post" && command.object.word.len() <= EVENT_NAME_LIMIT {
            if let Some(start) = SESSION.maker(commands, command.name.word) {
                posts.push(Post {
                    command: *command,
                    chart: start.object.word,
                })?;
            }
        }
    }
    Ok(posts)
}

/// The same of the chart that a line installs.
fn hint_of_chart(
    alloc: Global,
    install: &Command<'_>,
    posts: &[Post<'_>],
) -> Result<Option<String>, NoMemory> {
    let mut scratch = Scratch::new(alloc);
    match Value::parse(alloc, install.chart().text, &mut scratch) {
        Ok(root) if !heeds_all(alloc, &root)? => {
            let descriptors = descriptors(alloc, &root)?;
            told(alloc, install, posts, descriptors.as_slice())
        }
        _ => Ok(None),
    }
}

fn told(
    alloc: Global,
    install: &Command<'_>,
    posts: &[Post<'_>],
    descriptors: &[&str],
) -> Result<Option<String>, NoMemory> {
    let chart = install.name.word;
    let found = posts.iter().find(|post| {
        post.chart == chart && !is_matched(descriptors, post.command.object.word)
    });
    let Some(Post { command, .. }) = found else {
        return Ok(None);
    };
    let event = command.object;
    let place = command.place(event);
    let near = nearest_told(alloc, event.word, descriptors)?;
    Ok(Some(format!(in alloc;
        "{place}: the chart '{chart}' of line {} has no transition for the event '{}'{near}; so it changes nothing",
        install.line_number(),
        event.word
    )?))
}

fn is_matched(descriptors: &[&str], event: &str) -> bool {
    descriptors.iter().any(|descriptor| matches(descriptor.as_bytes(), event.as_bytes()))
}
