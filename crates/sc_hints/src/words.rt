use crate::nearest::nearest_told;
use crate::script::FIRST_WORDS;
use sc_base::NoMemory;
use sc_words::{GEN_SIZE_LIMIT, RUN_BUDGET_LIMIT, RUN_WORKERS_LIMIT};
use std::alloc::Global;

/// The commands, one a line.
pub const USAGE: &str = "the commands are
  charthost init                                     makes a journal in this folder
  charthost run [--workers N] [--budget N] < SCRIPT  runs a script, with 0 workers step by step
  charthost show                                     tells what the journal holds
  charthost check < CHART                            says whether a chart is legal
  charthost gen NUMBER SIZE                          runs a script that is drawn from a number";

const COMMANDS: [&str; 5] = ["init", "run", "show", "check", "gen"];

/// An option of `run`, and the numbers that it takes.
#[derive(Clone, Copy)]
struct RunOption {
    name: &'static str,
    least: u64,
    most: u64,
}

const WORKERS: RunOption = RunOption {
    name: "--workers",
    least: 0,
    most: RUN_WORKERS_LIMIT,
};

const BUDGET: RunOption = RunOption {
    name: "--budget",
    least: 1,
    most: RUN_BUDGET_LIMIT,
};

/// What is wrong with the words of a command line that are no command.
pub fn words_hint(alloc: Global, words: &[String]) -> Result<String, NoMemory> {
    match words {
        [first, rest @ ..] if !asks_for_help(words) => command_hint(alloc, first.as_str(), rest),
        _ => Ok(String::from_str(alloc, USAGE)?),
    }
}

fn asks_for_help(words: &[String]) -> bool {
    words
        .iter()
        .any(|word| matches!(word.as_str(), "help" | "--help" | "-h"))
}

fn command_hint(alloc: Global, command: &str, rest: &[String]) -> Result<String, NoMemory> {
    match command {
        "run" => run_hint(alloc, rest),
        "gen" => gen_hint(alloc, rest),
        "check" => check_hint(alloc, rest),
        "init" | "show" => bare_hint(alloc, command, rest),
        _ => unknown_hint(alloc, command),
    }
}

fn unknown_hint(alloc: Global, word: &str) -> Result<String, NoMemory> {
    if word.starts_with("-") {
        return Ok(format!(in alloc;
            "'{word}' stands first, where a command is expected, such as run; {USAGE}"
        )?);
    }
    if FIRST_WORDS.contains(&word) {
        return Ok(format!(in alloc;
            "'{word}' begins a line of a script, which run reads from standard input: charthost run < SCRIPT"
        )?);
    }
    let near = nearest_told(alloc, word, &COMMANDS)?;
    Ok(format!(in alloc; "'{word}' is no command{near}; {USAGE}")?)
}

fn bare_hint(alloc: Global, command: &str, rest: &[String]) -> Result<String, NoMemory> {
    let word = first_of(rest);
    Ok(format!(in alloc;
        "'{word}' is one word too many: {command} takes none, and works in the current folder"
    )?)
}

fn check_hint(alloc: Global, rest: &[String]) -> Result<String, NoMemory> {
    let word = first_of(rest);
    Ok(format!(in alloc;
        "'{word}' is one word too many: the chart is read from standard input, as in charthost check < {word}"
    )?)
}

fn first_of(words: &[String]) -> &str {
    match words {
        [first, ..] => first.as_str(),
        [] => "",
    }
}

fn gen_hint(alloc: Global, rest: &[String]) -> Result<String, NoMemory> {
    let sizes = format!(in alloc; "from 1 to {GEN_SIZE_LIMIT}")?;
    match rest {
        [] => Ok(format!(in alloc; "gen NUMBER SIZE: two numbers are missing, SIZE {sizes}")?),
        [number, ..] if number.parse::<u64>().is_err() => {
            Ok(format!(in alloc;
                "gen NUMBER SIZE: NUMBER is '{number}', and has to be a number of 64 bits"
            )?)
        }
        [_] => Ok(format!(in alloc; "gen NUMBER SIZE: SIZE is missing, a number {sizes}")?),
        [_, size] => Ok(format!(in alloc;
            "gen NUMBER SIZE: SIZE is '{size}', and has to be a number {sizes}"
        )?),
        [_, _, more, ..] => Ok(format!(in alloc;
            "gen NUMBER SIZE: '{more}' is one word too many"
        )?),
    }
}

fn run_hint(alloc: Global, rest: &[String]) -> Result<String, NoMemory> {
    let options = options(alloc, rest)?;
    for Given { name, value } in options.as_slice() {
        let Some(option) = option_of(name) else {
            return not_an_option(alloc, name);
        };
        if options.iter().filter(|other| other.name == *name).count() > 1 {
            return Ok(format!(in alloc; "{name} may stand once")?);
        }
        if !option.takes(value) {
            return option.hint(alloc, value);
        }
    }
    Ok(String::from_str(alloc, USAGE)?)
}

/// An option as it was given. Without a value that is an empty text.
#[derive(Clone, Copy)]
struct Given<'a> {
    name: &'a str,
    value: &'a str,
}

/// The options that stand in some words, where each word without `=` has its value behind it.
fn options(alloc: Global, words: &[String]) -> Result<Vec<Given<'_>>, NoMemory> {
    let mut options = Vec::new(alloc);
    let mut waiting = None;
    for word in words {
        match (waiting, word.split_once('=')) {
            (Some(name), _) => {
                options.push(Given {
                    name,
                    value: word.as_str(),
                })?;
                waiting = None;
            }
            (None, Some((name, value))) => options.push(Given { name, value })?,
            (None, None) => waiting = Some(word.as_str()),
        }
    }
    if let Some(name) = waiting {
        options.push(Given { name, value: "" })?;
    }
    Ok(options)
}

fn option_of(name: &str) -> Option<RunOption> {
    match name {
        "--workers" => Some(WORKERS),
        "--budget" => Some(BUDGET),
        _ => None,
    }
}

impl RunOption {
    fn takes(&self, value: &str) -> bool {
        match value.parse::<u64>() {
            Ok(number) => self.least <= number && number <= self.most,
            Err(_) => false,
        }
    }

    /// What stands behind the option in place of a number that it takes.
    fn hint(&self, alloc: Global, value: &str) -> Result<String, NoMemory> {
        let RunOption { name, least, most } = self;
        if value.is_empty() {
            return Ok(format!(in alloc; "behind {name} stands a number from {least} to {most}")?);
        }
        Ok(format!(in alloc; "{name} is '{value}', and has to be a number from {least} to {most}")?)
    }
}

fn not_an_option(alloc: Global, word: &str) -> Result<String, NoMemory> {
    if word.starts_with("-") {
        let near = nearest_told(alloc, word, &["--workers", "--budget"])?;
        return Ok(format!(in alloc;
            "'{word}' is no option of run{near}; there are --workers N and --budget N"
        )?);
    }
    Ok(format!(in alloc;
        "'{word}' is one word too many: the script is read from standard input, as in charthost run < {word}"
    )?)
}
