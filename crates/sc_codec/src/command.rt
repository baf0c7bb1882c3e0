ghost use Rattle.std.specs.Prelude.{◌≡◌, ◌++◌, ℕ, List, option_map, IfOk, OnOk};
ghost use Rattle.std.specs.Borrow.{Bor};
ghost use Rattle.sc_codec.specs.Bodies.{body_of, IsEncodable, HasForms, Spells};
ghost use Rattle.sc_codec.specs.Reading.{Gives, install_from, start_from, post_from, tick_from, cancel_from, step_from, command_of_kind, command_from, command_of};
ghost use Rattle.sc_types.specs.declared.command.Command.{Command};

use crate::fault::CodecFault;
use crate::field::{text_from, u64_from};
use crate::name::{put_word, word_from};
use crate::pair::{pairs_from, put_pairs};
use sc_base::{Bytes, NoMemory};
use sc_frame::{put_bytes, put_u64};
use sc_types::Command;
use std::alloc::Global;

/// As many bytes as most bodies have at most: their memory is taken at once.
const USUAL_ROOM: usize = 64;

/// The body of a command, for the journal.
///
/// The length of a name in it and the count of its pairs have 2 bytes, so they are at most 65,535, and the length of a
/// chart has 4; [`is_encodable`](crate::is_encodable) tests this. The limits that the host sets are far below these.
pub fn encode(alloc: Global, command: &Command) -> Result<Bytes, NoMemory>
    requires { IsEncodable command.now }
    ensures { IfOk result (λ body. Spells body command.now) }
{
    encode_in(Bytes::new(alloc), command)
}

/// The same body in the memory of another, whose bytes go.
pub fn encode_in(memory: Bytes, command: &Command) -> Result<Bytes, NoMemory>
    requires { IsEncodable command.now }
    ensures { IfOk result (λ body. Spells body command.now) }
{
    let mut out = memory.into_vec();
    out.clear();
    out.reserve(USUAL_ROOM)?;
    put_command(&mut out, command)?;
    Ok(Bytes::from_vec(out))
}

fn put_command(out: &mut Vec<u8>, command: &Command) -> Result<(), NoMemory>
    requires { IsEncodable command.now }
    ensures field { OnOk result (out.new.items ≡ out.old.items ++ body_of command.now) }
    ensures forms { OnOk result (HasForms command.now) }
{
    match command {
        Command::Install { name, chart } => {
            out.push(1)?;
            put_word(out, name)?;
            put_bytes(out, chart.slice())
        }
        Command::Start { session, chart } => {
            out.push(2)?;
            put_word(out, session)?;
            put_word(out, chart)
        }
        Command::Post {
            session,
            event,
            pairs,
        } => {
            out.push(3)?;
            put_word(out, session)?;
            put_word(out, event)?;
            put_pairs(out, pairs.slice())
        }
        Command::Tick { ticks } => {
            out.push(4)?;
            put_u64(out, *ticks)
        }
        Command::Cancel { session } => {
            out.push(5)?;
            put_word(out, session)
        }
        Command::Step { session } => {
            out.push(6)?;
            put_word(out, session)
        }
    }
}

/// The command that a body spells. `NotCommand` exactly where it spells none: also where bytes stand behind the
/// command, where a name has not the form of its type, and where a value is past the limits of values.
pub fn decode(alloc: Global, body: &[u8]) -> Result<Command, CodecFault>
    ensures spelled { IfOk result (λ c. Spells body.now c) }
    ensures one { IfOk result (λ c. (d : Command) → Spells body.now d → d ≡ c) }
    ensures refused { result ≡ Err CodecFault.NotCommand → (c : Command) → ¬ Spells body.now c }
{
    whole(alloc, body)
}

// The command that all of the bytes are.
#[tactic(auto, unfolding(crate::specs::Reading::command_of))]
fn whole(alloc: Global, body: &[u8]) -> Result<Command, CodecFault>
    ensures { Gives (λ c. c) result (command_of body.now) }
{
    let (command, rest) = command_from(alloc, body)?;
    if !rest.is_empty() {
        return Err(CodecFault::NotCommand);
    }
    Ok(command)
}

#[tactic(auto, unfolding(crate::specs::Reading::command_from))]
fn command_from(alloc: Global, bytes: &[u8]) -> Result<(Command, &[u8]), CodecFault>
    ensures { Gives (λ x. (x.0, x.1.now)) result (command_from bytes.now) }
{
    match bytes {
        [] => Err(CodecFault::NotCommand),
        [kind, rest @ ..] => command_of_kind(alloc, *kind, rest),
    }
}

#[tactic(auto, unfolding(crate::specs::Reading::command_of_kind))]
fn command_of_kind(alloc: Global, kind: u8, rest: &[u8]) -> Result<(Command, &[u8]), CodecFault>
    ensures { Gives (λ x. (x.0, x.1.now)) result (command_of_kind kind rest.now) }
{
    match kind {
        1 => install_from(alloc, rest),
        2 => start_from(alloc, rest),
        3 => post_from(alloc, rest),
        4 => tick_from(rest).ok_or(CodecFault::NotCommand),
        5 => cancel_from(alloc, rest),
        6 => step_from(alloc, rest),
        _ => Err(CodecFault::NotCommand),
    }
}

#[tactic(auto, unfolding(crate::specs::Reading::install_from))]
fn install_from(alloc: Global, bytes: &[u8]) -> Result<(Command, &[u8]), CodecFault>
    ensures { Gives (λ x. (x.0, x.1.now)) result (install_from bytes.now) }
{
    let (name, rest) = word_from(alloc, bytes)?;
    let Some((chart, rest)) = text_from(rest) else {
        return Err(CodecFault::NotCommand);
    };
    let chart = Bytes::from_slice(alloc, chart)?;
    Ok((Command::Install { name, chart }, rest))
}

#[tactic(auto, unfolding(crate::specs::Reading::start_from))]
fn start_from(alloc: Global, bytes: &[u8]) -> Result<(Command, &[u8]), CodecFault>
    ensures { Gives (λ x. (x.0, x.1.now)) result (start_from bytes.now) }
{
    let (session, rest) = word_from(alloc, bytes)?;
    let (chart, rest) = word_from(alloc, rest)?;
    Ok((Command::Start { session, chart }, rest))
}

#[tactic(auto, unfolding(crate::specs::Reading::post_from))]
fn post_from(alloc: Global, bytes: &[u8]) -> Result<(Command, &[u8]), CodecFault>
    ensures { Gives (λ x. (x.0, x.1.now)) result (post_from bytes.now) }
{
    let (session, rest) = word_from(alloc, bytes)?;
    let (event, rest) = word_from(alloc, rest)?;
    let (pairs, rest) = pairs_from(alloc, rest)?;
    Ok((
        Command::Post {
            session,
            event,
            pairs,
        },
        rest,
    ))
}

#[tactic(auto, unfolding(crate::specs::Reading::tick_from))]
fn tick_from(bytes: &[u8]) -> Option<(Command, &[u8])>
    ensures { option_map (λ (x : Command × Bor (List ℕ)). (x.0, x.1.now)) result ≡ tick_from bytes.now }
{
    let (ticks, rest) = u64_from(bytes)?;
    Some((Command::Tick { ticks }, rest))
}

#[tactic(auto, unfolding(crate::specs::Reading::cancel_from))]
fn cancel_from(alloc: Global, bytes: &[u8]) -> Result<(Command, &[u8]), CodecFault>
    ensures { Gives (λ x. (x.0, x.1.now)) result (cancel_from bytes.now) }
{
    let (session, rest) = word_from(alloc, bytes)?;
    Ok((Command::Cancel { session }, rest))
}

#[tactic(auto, unfolding(crate::specs::Reading::step_from))]
fn step_from(alloc: Global, bytes: &[u8]) -> Result<(Command, &[u8]), CodecFault>
    ensures { Gives (λ x. (x.0, x.1.now)) result (step_from bytes.now) }
{
    let (session, rest) = word_from(alloc, bytes)?;
    Ok((Command::Step { session }, rest))
}
