//! The program: it makes the real streams and the disk over files, hands them to [`sc_top::top`] with the words of the
//! command line, and ends with the status that comes back.
#![tactic(auto)]

mod counted;
mod file_disk;
mod help;
mod kept;
mod parts;
mod progress;

use counted::Counted;
use file_disk::FileDisk;
use help::Ended;
use kept::Kept;
use progress::Progress;
use sc_dev::{OpenGate, Sink, Source};
use sc_top::Status;
use sc_types::{NoMemory, SCRIPT_TEXT_LIMIT};
use std::alloc::Global;
use std::process::ExitCode;
use std::sync::Wait;
use std::thread::Threads;
use std::{env, io};

/// How many bytes of standard output are kept for help: the first line of those that tell a fault.
const LINE_ROOM: usize = 64;

fn main(rt: HostRuntime) -> ExitCode {
    let is_helped = help::is_wanted(&rt);
    let Ok(words) = words(&rt) else {
        return without_words(&rt, is_helped);
    };
    let (input_room, output_room) = rooms(is_helped);
    let alloc = rt.alloc();
    let mut input = Kept::new(alloc, Counted::new(rt.stdin()), input_room);
    let mut output = Kept::new(alloc, Counted::new(rt.stdout()), output_room);
    let mut disk = FileDisk::new(&rt, Progress::new(is_helped));
    let status = run(
        &rt,
        alloc,
        words.as_slice(),
        &mut input,
        &mut output,
        &mut disk,
    );
    if is_helped {
        let ended = Ended {
            words: words.as_slice(),
            input: input.copy(),
            output: output.copy(),
            disk: &disk,
        };
        help::explain(&rt, status, &ended);
    }
    ExitCode::from(status)
}

// Ends where there was no memory for the words.
fn without_words(rt: &HostRuntime, is_helped: bool) -> ExitCode {
    let status = Status::OutOfMemory.code();
    if is_helped {
        help::tell_expected(rt, status);
    }
    ExitCode::from(status)
}

// How many bytes of the input and of the output are kept: all that is read, and none where no help is wanted.
fn rooms(is_helped: bool) -> (usize, usize) {
    if is_helped {
        (SCRIPT_TEXT_LIMIT + 1, LINE_ROOM)
    } else {
        (0, 0)
    }
}

// Runs a command line over these devices. Its workers pass a gate that is always open.
fn run<R: Threads + Wait + Sync, S: Source, K: Sink>(
    rt: &R,
    alloc: Global,
    words: &[String],
    input: &mut S,
    output: &mut K,
    disk: &mut FileDisk<'_>,
) -> u8 {
    sc_top::top(rt, alloc, words, input, output, disk, &OpenGate)
}

// The words after the program's name. A command line with a word that is not UTF-8 is no command, and is
// handed on as one without words, which is none either.
fn words(rt: &HostRuntime) -> Result<Vec<String>, NoMemory> {
    match env::args(rt) {
        Ok(all) => Ok(all.skip(1).collect(rt.alloc())?),
        Err(error) => match error.kind() {
            io::ErrorKind::InvalidData => Ok(Vec::new(rt.alloc())),
            _ => Err(NoMemory),
        },
    }
}
