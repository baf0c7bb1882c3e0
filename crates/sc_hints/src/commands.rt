use crate::chart::Placed;
use crate::place::Place;
use crate::script::{Found, Line};
use sc_base::NoMemory;
use std::alloc::Global;

/// The most lines of a script that is looked at: whoever writes one by hand writes fewer.
const LINE_LIMIT: usize = 1_000;

/// A line of a script by its first three words.
#[derive(Clone, Copy)]
pub(crate) struct Command<'s> {
    line: Line<'s>,
    pub(crate) verb: &'s str,
    /// The session's name, or that of the chart that is installed.
    pub(crate) name: Found<'s>,
    /// The chart of a start, the event of a post, the front of a chart's text.
    pub(crate) object: Found<'s>,
}

impl<'s> Command<'s> {
    fn of(line: Line<'s>) -> Command<'s> {
        Command {
            line,
            verb: line.word(0).word,
            name: line.word(1),
            object: line.word(2),
        }
    }

    pub(crate) fn line_number(&self) -> u32 {
        self.line.number
    }

    /// The place of one of its words.
    pub(crate) fn place(&self, word: Found<'_>) -> Place {
        self.line.place(word.offset)
    }

    /// The text of the chart that it installs.
    pub(crate) fn chart(&self) -> Placed<'s> {
        Placed {
            text: self.line.text.get(self.object.offset..).unwrap_or(""),
            start: self.place(self.object),
        }
    }
}

/// The lines of a script; `None` where it has too many, or one is not UTF-8.
pub(crate) fn commands(alloc: Global, script: &[u8]) -> Result<Option<Vec<Command<'_>>>, NoMemory> {
    let Ok(text) = std::str::from_utf8(script) else {
        return Ok(None);
    };
    let mut commands = Vec::new(alloc);
    let mut number = 0u32;
    for line in text.lines().take(LINE_LIMIT + 1) {
        number = number.saturating_add(1);
        commands.push(Command::of(Line {
            number,
            text: line.strip_suffix('\r').unwrap_or(line),
        }))?;
    }
    Ok(if commands.len() > LINE_LIMIT {
        None
    } else {
        Some(commands)
    })
}

/// A kind of names that one line makes and others use.
#[derive(Clone, Copy)]
pub(crate) struct Kind {
    /// The word that begins the line that makes such a name.
    verb: &'static str,
    /// What that line does.
    pub(crate) does: &'static str,
    pub(crate) what: &'static str,
}

pub(crate) const CHART: Kind = Kind {
    verb: "chart",
    does: "installs",
    what: "chart",
};

pub(crate) const SESSION: Kind = Kind {
    verb: "start",
    does: "starts",
    what: "session",
};

impl Kind {
    pub(crate) fn is_made_by(self, command: &Command<'_>) -> bool {
        command.verb == self.verb
    }

    /// The first line that makes a name.
    pub(crate) fn maker<'s>(self, commands: &[Command<'s>], name: &str) -> Option<Command<'s>> {
        let found = commands.iter().find(|command| self.is_made_by(command)
            && command.name.word == name)?;
        Some(*found)
    }

    /// The names that some lines make.
    pub(crate) fn names<'s>(
        self,
        alloc: Global,
        commands: &[Command<'s>],
    ) -> Result<Vec<&'s str>, NoMemory> {
        let mut names = Vec::new(alloc);
        for command in commands {
            if self.is_made_by(command) {
                names.push(command.name.word)?;
            }
        }
        Ok(names)
    }
}
