ghost use Rattle.std.specs.Prelude.{◌≡◌, Ok, Err, Some, IfOk, IsTrue};
ghost use Rattle.std.specs.Str.{IsAscii, is_utf8};
ghost use Rattle.sc_script.specs.declared.fault.Cause.{Cause};
ghost use Rattle.sc_script.specs.Meanings.{chart_line, start_line, post_line, tick_line, cancel_line, client_line, form_word, form_of, said, words_say, meaning};

use crate::fault::Cause;
use crate::lines::without_return;
use crate::names::read_word;
use crate::pairs::read_pairs;
use crate::words::{cut_word, trimmed};
use sc_base::{Failure, is_utf8};
use sc_expr::number_of;
use sc_types::{Bytes, Command};
use std::alloc::Global;

/// What the first word of a line says of its form.
#[derive(Clone, Copy, Debug, PartialEq, Eq)]
pub(crate) enum Form {
    Post,
    Start,
    Chart,
    Tick,
    Cancel,
    Client,
    /// A line without words.
    Blank,
}

/// What a line says.
#[derive(Drop)]
pub(crate) enum Meaning {
    Blank,
    /// The lines that follow belong to the next client.
    Client,
    Asks(Command),
}

/// The form of the lines that begin with this word.
fn form_of(word: &[u8]) -> Option<Form>
    ensures { result ≡ form_of word.now }
{
    match word {
        b"post" => Some(Form::Post),
        b"start" => Some(Form::Start),
        b"chart" => Some(Form::Chart),
        b"tick" => Some(Form::Tick),
        b"cancel" => Some(Form::Cancel),
        b"client" => Some(Form::Client),
        b"" => Some(Form::Blank),
        _ => None,
    }
}

/// Whether a line is UTF-8, which is not looked at again where it is known to be ASCII.
#[tactic(auto, using(crate::proofs::AsciiLemmas::ascii_utf8))]
fn is_utf8_line(line: &[u8], ascii: bool) -> bool
    requires { IsTrue ascii → IsAscii line.now }
    ensures { result ≡ is_utf8 line.now }
{
    ascii || is_utf8(line)
}

/// What a line says. It is ASCII where that is known.
#[tactic(auto, unfolding(crate::specs::Meanings::meaning))]
pub(crate) fn read_line(alloc: Global, line: &[u8], ascii: bool) -> Result<Meaning, Failure<Cause>>
    requires { IsTrue ascii → IsAscii line.now }
    ensures ok { IfOk result (λ m. meaning line.now ≡ Ok m) }
    ensures fault { (cause : Cause) → result ≡ Err (Failure.Fault cause) → meaning line.now ≡ Err cause }
{
    if !is_utf8_line(line, ascii) {
        return Err(Failure::Fault(Cause::NotUtf8));
    }
    read_words(alloc, trimmed(without_return(line)))
}

fn read_words(alloc: Global, words: &[u8]) -> Result<Meaning, Failure<Cause>>
    ensures ok { IfOk result (λ m. words_say words.now ≡ Ok m) }
    ensures fault { (cause : Cause) → result ≡ Err (Failure.Fault cause) → words_say words.now ≡ Err cause }
{
    let (first, rest) = cut_word(words);
    match form_of(first) {
        None => Err(Failure::Fault(Cause::UnknownWord)),
        Some(form) => read_form(alloc, form, rest),
    }
}

fn read_form(alloc: Global, form: Form, rest: &[u8]) -> Result<Meaning, Failure<Cause>>
    ensures ok { IfOk result (λ m. said (Some form) rest.now ≡ Ok m) }
    ensures fault { (cause : Cause) → result ≡ Err (Failure.Fault cause) → said (Some form) rest.now ≡ Err cause }
{
    let (first, behind) = cut_word(rest);
    let (second, more) = cut_word(behind);
    match form {
        Form::Blank => Ok(Meaning::Blank),
        Form::Chart => read_chart(alloc, first, behind),
        Form::Start => read_start(alloc, first, second, more),
        Form::Post => read_post(alloc, first, second, more),
        Form::Tick => told(read_tick(first, behind)),
        Form::Cancel => read_cancel(alloc, first, behind),
        Form::Client => told(read_client(rest)),
    }
}

/// `chart NAME JSON`. The JSON is not read as a chart here.
fn read_chart(alloc: Global, name: &[u8], json: &[u8]) -> Result<Meaning, Failure<Cause>>
    ensures ok { IfOk result (λ m. chart_line name.now json.now ≡ Ok m) }
    ensures fault { (cause : Cause) → result ≡ Err (Failure.Fault cause) → chart_line name.now json.now ≡ Err cause }
{
    if json.is_empty() {
        return Err(Failure::Fault(Cause::Missing));
    }
    let name = read_word(alloc, name)?;
    let chart = Bytes::from_slice(alloc, json)?;
    Ok(Meaning::Asks(Command::Install { name, chart }))
}

/// `start SESSION NAME`
fn read_start(
    alloc: Global,
    session: &[u8],
    chart: &[u8],
    more: &[u8],
) -> Result<Meaning, Failure<Cause>>
    ensures ok { IfOk result (λ m. start_line session.now chart.now more.now ≡ Ok m) }
    ensures fault { (cause : Cause) → result ≡ Err (Failure.Fault cause)
        → start_line session.now chart.now more.now ≡ Err cause }
{
    if chart.is_empty() {
        return Err(Failure::Fault(Cause::Missing));
    }
    if !more.is_empty() {
        return Err(Failure::Fault(Cause::Extra));
    }
    let session = read_word(alloc, session)?;
    let chart = read_word(alloc, chart)?;
    Ok(Meaning::Asks(Command::Start { session, chart }))
}

/// `post SESSION EVENT`, and then the pairs.
fn read_post(
    alloc: Global,
    session: &[u8],
    event: &[u8],
    pairs: &[u8],
) -> Result<Meaning, Failure<Cause>>
    ensures ok { IfOk result (λ m. post_line session.now event.now pairs.now ≡ Ok m) }
    ensures fault { (cause : Cause) → result ≡ Err (Failure.Fault cause)
        → post_line session.now event.now pairs.now ≡ Err cause }
{
    if event.is_empty() {
        return Err(Failure::Fault(Cause::Missing));
    }
    let session = read_word(alloc, session)?;
    let event = read_word(alloc, event)?;
    let pairs = read_pairs(alloc, pairs)?;
    Ok(Meaning::Asks(Command::Post {
        session,
        event,
        pairs,
    }))
}

/// `tick NUMBER`
fn read_tick(number: &[u8], more: &[u8]) -> Result<Meaning, Cause>
    ensures { result ≡ tick_line number.now more.now }
{
    if number.is_empty() {
        return Err(Cause::Missing);
    }
    if !more.is_empty() {
        return Err(Cause::Extra);
    }
    match number_of(number) {
        Some(ticks) => Ok(Meaning::Asks(Command::Tick { ticks })),
        None => Err(Cause::BadNumber),
    }
}

/// `cancel SESSION`
fn read_cancel(alloc: Global, session: &[u8], more: &[u8]) -> Result<Meaning, Failure<Cause>>
    ensures ok { IfOk result (λ m. cancel_line session.now more.now ≡ Ok m) }
    ensures fault { (cause : Cause) → result ≡ Err (Failure.Fault cause)
        → cancel_line session.now more.now ≡ Err cause }
{
    if session.is_empty() {
        return Err(Failure::Fault(Cause::Missing));
    }
    if !more.is_empty() {
        return Err(Failure::Fault(Cause::Extra));
    }
    let session = read_word(alloc, session)?;
    Ok(Meaning::Asks(Command::Cancel { session }))
}

/// `client`
fn read_client(more: &[u8]) -> Result<Meaning, Cause>
    ensures { result ≡ client_line more.now }
{
    if !more.is_empty() {
        return Err(Cause::Extra);
    }
    Ok(Meaning::Client)
}

/// What a line says that was read without memory.
fn told(line: Result<Meaning, Cause>) -> Result<Meaning, Failure<Cause>>
    ensures ok { IfOk result (λ m. line ≡ Ok m) }
    ensures fault { (cause : Cause) → result ≡ Err (Failure.Fault cause) → line ≡ Err cause }
{
    match line {
        Ok(meaning) => Ok(meaning),
        Err(cause) => Err(Failure::Fault(cause)),
    }
}
