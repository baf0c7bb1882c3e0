use crate::chart::placed_chart_hint;
use crate::commands::{CHART, Command, Kind, SESSION};
use crate::nearest::nearest_told;
use crate::script::Found;
use sc_base::NoMemory;
use std::alloc::Global;

/// The first command that the host refuses, for what stands in the script or for a name that the script does not make;
/// `None` where there is none.
pub(crate) fn refused_hint(
    alloc: Global,
    commands: &[Command<'_>],
) -> Result<Option<String>, NoMemory> {
    let has_charts = commands.iter().any(|command| CHART.is_made_by(command));
    let has_clients = commands.iter().any(|command| command.verb == "client");
    for (place, command) in commands.iter().enumerate() {
        let line = ScriptLine {
            command: *command,
            before: &commands[..place],
            makers: if has_clients {
                commands
            } else {
                &commands[..place]
            },
            all: commands,
            has_charts,
        };
        if let Some(hint) = line.hint(alloc)? {
            return Ok(Some(hint));
        }
    }
    Ok(None)
}

/// A line, and those among which it stands.
#[derive(Clone, Copy)]
struct ScriptLine<'l, 's> {
    command: Command<'s>,
    before: &'l [Command<'s>],
    /// Those that may run before this one: with clients it may be any.
    makers: &'l [Command<'s>],
    all: &'l [Command<'s>],
    /// Whether the script installs charts. One that does not goes on with what the journal has.
    has_charts: bool,
}

impl ScriptLine<'_, '_> {
    fn hint(&self, alloc: Global) -> Result<Option<String>, NoMemory> {
        match self.command.verb {
            "chart" => self.install_hint(alloc),
            "start" => self.start_hint(alloc),
            "post" | "cancel" => self.session_hint(alloc),
            _ => Ok(None),
        }
    }

    fn install_hint(&self, alloc: Global) -> Result<Option<String>, NoMemory> {
        if let Some(hint) = self.taken(alloc, CHART)? {
            return Ok(Some(hint));
        }
        let name = self.command.name.word;
        match placed_chart_hint(alloc, self.command.chart())? {
            Some(hint) => Ok(Some(format!(in alloc;
                "{hint}; so the chart '{name}' is not installed"
            )?)),
            None => Ok(None),
        }
    }

    fn start_hint(&self, alloc: Global) -> Result<Option<String>, NoMemory> {
        let session = self.command.name;
        if session.word.contains('/') {
            let place = self.command.place(session);
            return Ok(Some(format!(in alloc;
                "{place}: '{}' has a /, which the names of invoked sessions alone may have: take another name",
                session.word
            )?));
        }
        match self.taken(alloc, SESSION)? {
            Some(hint) => Ok(Some(hint)),
            None => self.missing(alloc, CHART, self.command.object),
        }
    }

    // A session with a / is one that an invoke starts.
    fn session_hint(&self, alloc: Global) -> Result<Option<String>, NoMemory> {
        let session = self.command.name;
        if session.word.contains('/') {
            return Ok(None);
        }
        self.missing(alloc, SESSION, session)
    }

    /// A name that an earlier line makes too.
    fn taken(&self, alloc: Global, kind: Kind) -> Result<Option<String>, NoMemory> {
        let name = self.command.name;
        let Some(first) = kind.maker(self.before, name.word) else {
            return Ok(None);
        };
        let place = self.command.place(name);
        Ok(Some(format!(in alloc;
            "{place}: line {} {} a {} '{}' already: take another name",
            first.line_number(),
            kind.does,
            kind.what,
            name.word
        )?))
    }

    /// A name that no line makes before.
    fn missing(
        &self,
        alloc: Global,
        kind: Kind,
        name: Found<'_>,
    ) -> Result<Option<String>, NoMemory> {
        if !self.has_charts || kind.maker(self.makers, name.word).is_some() {
            return Ok(None);
        }
        let Kind { does, what, .. } = kind;
        let word = name.word;
        let place = self.command.place(name);
        if let Some(later) = kind.maker(self.all, word) {
            return Ok(Some(format!(in alloc;
                "{place}: the {what} '{word}' comes too late, in line {}: put that line before this one",
                later.line_number()
            )?));
        }
        let names = kind.names(alloc, self.makers)?;
        let near = nearest_told(alloc, word, names.as_slice())?;
        Ok(Some(format!(in alloc;
            "{place}: no line before this one {does} a {what} '{word}'{near}; \
            where the journal has none either, this is refused"
        )?))
    }
}
