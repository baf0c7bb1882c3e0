use crate::file_disk::FileDisk;
use sc_hints::{chart_hint, journal_hint, run_hint, script_hint, words_hint};
use sc_top::Status;
use sc_types::NoMemory;
use std::alloc::Global;
use std::env::VarError;
use std::io::{ErrorKind, IsTerminal};
use std::process::ExitCode;
use std::{env, io};

/// The variable of the environment that asks for help, by any value but the empty one.
const VARIABLE: &str = "REEDSHOVEL_HELP";

/// What was expected where the program ends with a status, and which section of the documents tells more.
const EXPECTED: [(Status, &str, &str); 11] = [
    (
        Status::OtherWords,
        "one of the words init, run, show, check and gen, with what belongs to it",
        "\"The command line\" in README.md",
    ),
    (
        Status::BadScript,
        "a script, of which standard output tells the first faulty line and the cause",
        "\"Scripts\" in docs/FORMATS.md",
    ),
    (
        Status::Faulty,
        "a legal chart, of which standard output tells the first fault and its place",
        "\"Charts\" in docs/FORMATS.md",
    ),
    (
        Status::ReadFault,
        "a standard input that can be read to its end",
        STATUSES,
    ),
    (
        Status::WriteFault,
        "a standard output that takes all, but it took the first part alone",
        STATUSES,
    ),
    (
        Status::DiskFault,
        "that scxml.journal in this folder can be read, written and synced",
        STATUSES,
    ),
    (Status::OutOfMemory, "more memory than there is", STATUSES),
    (
        Status::Budget,
        "that all sessions come to rest, but the steps were used up before",
        STATUSES,
    ),
    (
        Status::BadJournal,
        "a sound journal in this folder's scxml.journal (init makes one), and standard output tells the damaged place",
        "\"A damaged journal\" in docs/FORMATS.md",
    ),
    (
        Status::Full,
        "room in the journal for the next command",
        "\"Limits\" in docs/FORMATS.md",
    ),
    (
        Status::Exists,
        "a folder without a journal, and the one in this folder was left as it is",
        "\"The journal\" in docs/FORMATS.md",
    ),
];

const STATUSES: &str = "\"Statuses\" in docs/FORMATS.md";

/// Whether somebody reads standard error: it is a terminal, or the environment asks for help.
pub(crate) fn is_wanted(rt: &HostRuntime) -> bool {
    rt.stderr().is_terminal() || is_asked_for(rt)
}

fn is_asked_for(rt: &HostRuntime) -> bool {
    match env::var(rt, VARIABLE) {
        Ok(value) => !value.is_empty(),
        Err(VarError::NotUnicode) => true,
        Err(_) => false,
    }
}

/// What is known of a run of the program that has ended.
#[derive(Drop)]
pub(crate) struct Ended<'a, 'r> {
    pub(crate) words: &'a [String],
    /// What was read of standard input, where there was memory to keep it.
    pub(crate) input: Option<&'a [u8]>,
    /// The first bytes of what was written.
    pub(crate) output: Option<&'a [u8]>,
    pub(crate) disk: &'a FileDisk<'r>,
}

/// Says on standard error what is wrong where the program ends with the status of a number, and what was expected.
pub(crate) fn explain(rt: &HostRuntime, number: u8, ended: &Ended<'_, '_>) {
    if let Ok(Some(hint)) = hint(rt.alloc(), status_of(number), ended) {
        let _ = eprintln!(rt; "charthost: {hint}");
    }
    tell_expected(rt, number);
}

/// Says what was expected.
pub(crate) fn tell_expected(rt: &HostRuntime, number: u8) {
    for (status, expected, page) in EXPECTED {
        if status.code() == number {
            let _ = eprintln!(rt; "charthost: expected was {expected}; {page} tells more.");
        }
    }
}

fn status_of(number: u8) -> Status {
    match EXPECTED.iter().find(|row| row.0.code() == number) {
        Some(row) => row.0,
        None => Status::Done,
    }
}

/// What is wrong with the very input of this run.
fn hint(alloc: Global, status: Status, ended: &Ended<'_, '_>) -> Result<Option<String>, NoMemory> {
    match (status, ended.input) {
        (Status::OtherWords, _) => Ok(Some(words_hint(alloc, ended.words)?)),
        (Status::BadScript, Some(input)) => script_hint(alloc, input),
        (Status::Faulty, Some(input)) => chart_hint(alloc, input),
        (Status::Done | Status::Budget, Some(input)) => run_hint(alloc, ended.words, input),
        (Status::DiskFault, _) => disk_hint(alloc, ended.disk.first_fault()),
        (Status::BadJournal, _) => damage_hint(alloc, ended),
        (Status::Exists, _) => told(
            alloc,
            "scxml.journal is a journal already: charthost run and charthost show work on it",
        ),
        _ => Ok(None),
    }
}

fn disk_hint(alloc: Global, fault: Option<io::Error>) -> Result<Option<String>, NoMemory> {
    let Some(fault) = fault else {
        return Ok(None);
    };
    match fault.kind() {
        ErrorKind::WouldBlock => told(alloc, "another program has the journal, until it ends"),
        ErrorKind::AlreadyExists => told(alloc, "another program has just made the journal"),
        _ => Ok(Some(format!(in alloc; "scxml.journal: {fault}")?)),
    }
}

fn damage_hint(alloc: Global, ended: &Ended<'_, '_>) -> Result<Option<String>, NoMemory> {
    if ended.disk.has_no_journal() {
        return told(
            alloc,
            "there is no journal in this folder, no file scxml.journal: charthost init makes one",
        );
    }
    let line = std::str::from_utf8(ended.output.unwrap_or(b"")).unwrap_or("");
    Ok(Some(journal_hint(alloc, line)?))
}

fn told(alloc: Global, sentence: &str) -> Result<Option<String>, NoMemory> {
    Ok(Some(String::from_str(alloc, sentence)?))
}
