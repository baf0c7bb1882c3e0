ghost use Rattle.std.specs.Prelude.{◌≡◌, IfOk, map, string_bytes, option_and_then};
ghost use Rattle.std.specs.List.{list_any};
ghost use Rattle.clap.specs.Words.{found_of, rows_of, subcommand_rows_of};
ghost use Rattle.sc_words.specs.Asked.{asked, command_of, gen_of, is_barred, run_of};
ghost use Rattle.sc_words.specs.Commands.{IsMatched};

use crate::asked::{
    Asked, GEN_SIZE_LIMIT, RUN_BUDGET, RUN_BUDGET_LIMIT, RUN_WORKERS, RUN_WORKERS_LIMIT,
};
use crate::numbers::{limited, number_of, optional};
use crate::table::table;
use clap::ArgMatches;
use clap::error::ErrorKind;
use sc_base::NoMemory;
use std::alloc::Global;

/// What the words after the program's name ask for; `Ok(None)` where they are no command.
pub fn read_words(alloc: Global, words: &[String]) -> Result<Option<Asked>, NoMemory>
    ensures { IfOk result (λ a. a ≡ asked (map string_bytes words.now)) }
{
    if has_barred(words) {
        return Ok(None);
    }
    match matched(alloc, words)? {
        Some(matches) => Ok(chosen(&matches)),
        None => Ok(None),
    }
}

fn has_barred(words: &[String]) -> bool
    ensures { result ≡ list_any (λ w. is_barred (string_bytes w)) words.now }
{
    words.iter().any(|word| is_barred(word))
}

#[tactic(auto, unfolding(crate::specs::Asked::is_barred))]
fn is_barred(word: &String) -> bool
    ensures { result ≡ is_barred (string_bytes word.now) }
{
    matches!(word.as_str(), "help" | "--help" | "-h" | "--")
}

/// What `clap` makes of the words; `Ok(None)` where it refuses them.
fn matched<'a>(alloc: Global, words: &'a [String]) -> Result<Option<ArgMatches<'a>>, NoMemory>
    ensures { IfOk result (λ o. IsMatched (map string_bytes words.entry.now) o) }
{
    match table(alloc)?.try_get_matches_from(words) {
        Ok(matches) => Ok(Some(matches)),
        Err(error) => match error.kind() {
            ErrorKind::OutOfMemory => Err(NoMemory),
            _ => Ok(None),
        },
    }
}

fn chosen(matches: &ArgMatches<'_>) -> Option<Asked>
    ensures { result ≡ option_and_then (λ p. command_of p.0 p.1) (subcommand_rows_of matches.now) }
{
    let (name, values) = matches.subcommand()?;
    command_of(name, values)
}

fn command_of(name: &str, values: &ArgMatches<'_>) -> Option<Asked>
    ensures { result ≡ command_of name.now (rows_of (found_of values.now)) }
{
    match name {
        "init" => Some(Asked::Init),
        "run" => run_of(values),
        "show" => Some(Asked::Show),
        "check" => Some(Asked::Check),
        "gen" => gen_of(values),
        _ => None,
    }
}

#[tactic(auto, using(crate::proofs::Taken::value_rows))]
fn run_of(values: &ArgMatches<'_>) -> Option<Asked>
    ensures { result ≡ run_of (rows_of (found_of values.now)) }
{
    let workers = optional(values.get_str("workers"), RUN_WORKERS, 0, RUN_WORKERS_LIMIT)?;
    let budget = optional(values.get_str("budget"), RUN_BUDGET, 1, RUN_BUDGET_LIMIT)?;
    Some(Asked::Run {
        workers: workers as u32,
        budget,
    })
}

#[tactic(auto, using(crate::proofs::Taken::value_rows))]
fn gen_of(values: &ArgMatches<'_>) -> Option<Asked>
    ensures { result ≡ gen_of (rows_of (found_of values.now)) }
{
    let number = number_of(values.get_str("number")?)?;
    let size = limited(values.get_str("size")?, 1, GEN_SIZE_LIMIT)?;
    Some(Asked::Gen {
        number,
        size: size as u32,
    })
}
