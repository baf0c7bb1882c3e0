ghost use Rattle.std.specs.Prelude.{◌≡◌, ◌<◌, IfOk};
ghost use Rattle.sc_script.specs.Generated.{next_number, session_name, command_of, opening, generated};

use crate::names::word;
use crate::script::Script;
use sc_types::{Bytes, Command, NoMemory, Sequence, Word};
use std::alloc::Global;

/// The chart of each generated script, which counts the events `inc`.
const CHART: &[u8] = b"{\"kids\":[\
    {\"kids\":[{\"expr\":\"0\",\"id\":\"n\",\"tag\":\"data\"}],\"tag\":\"datamodel\"},\
    {\"id\":\"a\",\"kids\":[{\"event\":\"inc\",\
    \"kids\":[{\"expr\":\"(n + 1)\",\"location\":\"n\",\"tag\":\"assign\"}],\
    \"tag\":\"transition\"}],\"tag\":\"state\"}],\"tag\":\"scxml\"}";

/// How many sessions each generated script starts.
const SESSIONS: u64 = 8;

/// A script of a set-up alone: it installs a chart `n` that counts the events `inc`, starts its sessions `g0` to `g7`,
/// and then has so many commands, of which each is `tick 1` or posts `inc` to one of the sessions, as numbers decide
/// that are drawn from the given one. This host's own rule.
pub fn generate(alloc: Global, number: u64, size: u32) -> Result<Script, NoMemory>
    ensures { IfOk result (λ s. s ≡ generated number size) }
{
    let mut setup = opening(alloc)?;
    let mut drawn = number;
    for _done in 0..size {
        drawn = next_number(drawn);
        setup.push(command_of(alloc, drawn)?)?;
    }
    Ok(Script {
        setup,
        clients: Sequence::new(alloc),
    })
}

fn opening(alloc: Global) -> Result<Sequence<Command>, NoMemory>
    ensures { IfOk result (λ cs. cs ≡ opening) }
{
    let mut commands = Sequence::new(alloc);
    commands.push(Command::Install {
        name: word(alloc, b"n")?,
        chart: Bytes::from_slice(alloc, CHART)?,
    })?;
    for place in 0..SESSIONS {
        commands.push(Command::Start {
            session: session(alloc, place)?,
            chart: word(alloc, b"n")?,
        })?;
    }
    Ok(commands)
}

/// The linear congruential generator of Knuth's MMIX.
#[tactic(auto, using(crate::proofs::DrawnLemmas::wrapped), unfolding(crate::specs::Generated::next_number))]
fn next_number(number: u64) -> u64
    ensures { result ≡ next_number number }
{
    number
        .wrapping_mul(6364136223846793005)
        .wrapping_add(1442695040888963407)
}

#[tactic(auto, unfolding(crate::specs::Generated::command_of))]
fn command_of(alloc: Global, drawn: u64) -> Result<Command, NoMemory>
    ensures { IfOk result (λ c. c ≡ command_of drawn) }
{
    if (drawn >> 33) % 10 == 0 {
        return Ok(Command::Tick { ticks: 1 });
    }
    Ok(Command::Post {
        session: session(alloc, (drawn >> 40) % SESSIONS)?,
        event: word(alloc, b"inc")?,
        pairs: Sequence::new(alloc),
    })
}

fn session(alloc: Global, place: u64) -> Result<Word, NoMemory>
    requires { place < SESSIONS }
    ensures { IfOk result (λ w. w ≡ session_name place) }
{
    word(alloc, &[b'g', b'0' + place as u8])
}
