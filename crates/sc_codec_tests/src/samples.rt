//! Commands as plain data over borrowed texts, and what comes of them and of bodies.

use sc_base::{Bytes, NoMemory, PlainName, Sequence, Unfit, Word};
use sc_codec::{CodecFault, decode, encode, is_encodable};
use sc_types::{Command, PairList, Value};
use std::alloc::Global;

/// A command to be made.
#[derive(Clone, Copy)]
pub enum Sample<'a> {
    Install(&'a [u8], &'a [u8]),
    Start(&'a [u8], &'a [u8]),
    /// A post of `e` to `s` with these pairs.
    Post(&'a [(&'a [u8], Kind<'a>)]),
    /// A post of `e` to `s` with so many pairs of `x` and true.
    Pairs(usize),
    Tick(u64),
    Cancel(&'a [u8]),
    Step(&'a [u8]),
}

/// A value to be made.
#[derive(Clone, Copy)]
pub enum Kind<'a> {
    Bool(bool),
    Int(i64),
    Text(&'a [u8]),
    /// A text of so many letters.
    Letters(usize),
    /// A list of so many integers, each 7, and these texts.
    List(usize, &'a [&'a [u8]]),
    /// A list with one truth value.
    ListOfTruth,
    /// A list with an empty list.
    ListOfList,
}

/// What came of it.
#[derive(Clone, Copy, Debug, PartialEq, Eq)]
pub enum Outcome {
    /// The body was the one wanted, and was read as the command.
    Same,
    OtherBody,
    OtherCommand,
    /// The body was read as some command.
    Command,
    NotCommand,
    NotEncodable,
    /// A name has not the form of its type.
    NoForm,
    NoMemory,
}

impl From<Unfit> for Outcome {
    fn from(error: Unfit) -> Outcome {
        match error {
            Unfit::Form => Outcome::NoForm,
            Unfit::NoMemory => Outcome::NoMemory,
        }
    }
}

impl From<NoMemory> for Outcome {
    fn from(_error: NoMemory) -> Outcome {
        Outcome::NoMemory
    }
}

impl From<CodecFault> for Outcome {
    fn from(fault: CodecFault) -> Outcome {
        match fault {
            CodecFault::NotCommand => Outcome::NotCommand,
            CodecFault::NoMemory => Outcome::NoMemory,
        }
    }
}

/// What a body is read as.
pub fn read(alloc: Global, body: &[u8]) -> Outcome {
    match decode(alloc, body) {
        Ok(_) => Outcome::Command,
        Err(fault) => Outcome::from(fault),
    }
}

/// What the pieces of a body, one behind the other, are read as.
pub fn read_pieces(alloc: Global, pieces: &[&[u8]]) -> Outcome {
    let mut body = Bytes::new(alloc);
    for piece in pieces {
        match body.extend(piece) {
            Ok(()) => {}
            Err(_) => return Outcome::NoMemory,
        }
    }
    read(alloc, body.slice())
}

/// Whether this is the body of the sample, byte for byte, and is read as the sample.
pub fn written(alloc: Global, sample: Sample<'_>, body: &[u8]) -> Outcome {
    match sample.command(alloc) {
        Ok(command) => of_result(compared(alloc, &command, body)),
        Err(outcome) => outcome,
    }
}

/// Whether the sample has a body, which is read as the sample.
pub fn comes_back(alloc: Global, sample: Sample<'_>) -> Outcome {
    match sample.command(alloc) {
        Ok(command) => of_result(read_back(alloc, &command)),
        Err(outcome) => outcome,
    }
}

fn of_result(answer: Result<Outcome, Outcome>) -> Outcome {
    match answer {
        Ok(outcome) => outcome,
        Err(outcome) => outcome,
    }
}

fn body_of(alloc: Global, command: &Command) -> Result<Bytes, Outcome> {
    if !is_encodable(command) {
        return Err(Outcome::NotEncodable);
    }
    Ok(encode(alloc, command)?)
}

fn compared(alloc: Global, command: &Command, body: &[u8]) -> Result<Outcome, Outcome> {
    let own = body_of(alloc, command)?;
    if own.slice() != body {
        return Ok(Outcome::OtherBody);
    }
    read_back(alloc, command)
}

fn read_back(alloc: Global, command: &Command) -> Result<Outcome, Outcome> {
    let own = body_of(alloc, command)?;
    let read = decode(alloc, own.slice())?;
    Ok(if read == *command {
        Outcome::Same
    } else {
        Outcome::OtherCommand
    })
}

/// So many bytes `n`.
pub fn letters(alloc: Global, count: usize) -> Result<Bytes, NoMemory> {
    let mut text = Bytes::new(alloc);
    for _ in 0..count {
        text.push(b'n')?;
    }
    Ok(text)
}

impl<'a> Sample<'a> {
    fn command(self, alloc: Global) -> Result<Command, Outcome> {
        match self {
            Sample::Install(name, chart) => Ok(Command::Install {
                name: Word::of(alloc, name)?,
                chart: Bytes::from_slice(alloc, chart)?,
            }),
            Sample::Start(session, chart) => Ok(Command::Start {
                session: Word::of(alloc, session)?,
                chart: Word::of(alloc, chart)?,
            }),
            Sample::Post(pairs) => post(alloc, list_of_pairs(alloc, pairs)?),
            Sample::Pairs(count) => post(alloc, so_many_pairs(alloc, count)?),
            Sample::Tick(ticks) => Ok(Command::Tick { ticks }),
            Sample::Cancel(session) => Ok(Command::Cancel {
                session: Word::of(alloc, session)?,
            }),
            Sample::Step(session) => Ok(Command::Step {
                session: Word::of(alloc, session)?,
            }),
        }
    }
}

fn post(alloc: Global, pairs: PairList) -> Result<Command, Outcome> {
    Ok(Command::Post {
        session: Word::of(alloc, b"s")?,
        event: Word::of(alloc, b"e")?,
        pairs,
    })
}

fn list_of_pairs(alloc: Global, pairs: &[(&[u8], Kind<'_>)]) -> Result<PairList, Outcome> {
    let mut list = Sequence::new(alloc);
    for (name, kind) in pairs {
        list.push((PlainName::of(alloc, name)?, value(alloc, *kind)?))?;
    }
    Ok(list)
}

fn so_many_pairs(alloc: Global, count: usize) -> Result<PairList, Outcome> {
    let mut list = Sequence::new(alloc);
    for _ in 0..count {
        list.push((PlainName::of(alloc, b"x")?, Value::Bool(true)))?;
    }
    Ok(list)
}

fn value(alloc: Global, kind: Kind<'_>) -> Result<Value, NoMemory> {
    match kind {
        Kind::Bool(truth) => Ok(Value::Bool(truth)),
        Kind::Int(number) => Ok(Value::Int(number)),
        Kind::Text(text) => Ok(Value::Text(Bytes::from_slice(alloc, text)?)),
        Kind::Letters(count) => Ok(Value::Text(letters(alloc, count)?)),
        Kind::List(count, texts) => items(alloc, count, texts),
        Kind::ListOfTruth => list_of_one(alloc, Value::Bool(true)),
        Kind::ListOfList => list_of_one(alloc, Value::List(Sequence::new(alloc))),
    }
}

fn items(alloc: Global, count: usize, texts: &[&[u8]]) -> Result<Value, NoMemory> {
    let mut items = Sequence::new(alloc);
    for _ in 0..count {
        items.push(Value::Int(7))?;
    }
    for text in texts {
        items.push(Value::Text(Bytes::from_slice(alloc, text)?))?;
    }
    Ok(Value::List(items))
}

fn list_of_one(alloc: Global, item: Value) -> Result<Value, NoMemory> {
    let mut items = Sequence::new(alloc);
    items.push(item)?;
    Ok(Value::List(items))
}
