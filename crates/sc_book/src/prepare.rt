ghost use Rattle.std.specs.Prelude.{◌≡◌, ◌+◌, ◌^◌, ◌≤◌, true, IfOk, OnOk, length};
ghost use Rattle.std.specs.List.{list_all};
ghost use Rattle.sc_book.specs.Confirming.{Confirms, FitsEntry, IsBodyOf, has_fitting_values};
ghost use Rattle.sc_book.specs.Keeping.{HasRoom, IsSameLog};
ghost use Rattle.sc_machine.specs.Accepted.{is_accepted};
ghost use Rattle.sc_machine.specs.Commands.{answer};
ghost use Rattle.sc_core.specs.HostStates.{CanInstall};
ghost use Rattle.sc_core.specs.Preparing.{Prepares};
ghost use Rattle.sc_types.specs.Values.{fits_flat};

use crate::log::Log;
use crate::receipt::Receipt;
use sc_base::{Bytes, NoMemory, Plain, PlainName};
use sc_codec::encode_in;
use sc_core::{HostState, Prepared};
use sc_law::{Engine, Turned};
use sc_types::{Command, Value};
use std::alloc::Global;

fn have_fitting_values(pairs: &[(PlainName, Value)]) -> bool
    ensures { result ≡ list_all (λ p. fits_flat p.1) pairs.now }
{
    pairs.iter().all(|p| p.1.fits_flat())
}

/// Whether each value in a command is within the limits of values.
fn has_fitting_values(command: &Command) -> bool
    ensures { result ≡ has_fitting_values command.now }
{
    match command {
        Command::Post { pairs, .. } => have_fitting_values(pairs.slice()),
        _ => true,
    }
}

/// The body of a command that the host accepts. `NoMemory` also where a value in it is past the limits of values, for
/// which the journal has no form. It is made in the memory of another.
fn body_of(memory: Bytes, command: &Command) -> Result<Bytes, NoMemory>
    requires entry { FitsEntry command.now }
    ensures { IfOk result (IsBodyOf command.now) }
{
    if !has_fitting_values(command) {
        return Err(NoMemory);
    }
    encode_in(memory, command)
}

/// Makes the body of a command in the memory of the one before it.
#[inline(always)]
fn make_body(alloc: Global, log: &mut Log, command: &Command) -> Result<(), NoMemory>
    requires entry { FitsEntry command.now }
    ensures log { IsSameLog log.old log.new }
    ensures room { HasRoom log.old → HasRoom log.new }
    ensures body { OnOk result (IsBodyOf command.now log.new.body) }
{
    let memory = std::mem::replace(&mut log.body, Bytes::new(alloc));
    log.body = body_of(memory, command)?;
    Ok(())
}

/// Makes room for an entry, and prepares its command; a step with the turn that a worker computed of it, where there is
/// one. The host and the log stay as they are.
#[inline(always)]
pub(crate) fn prepare<E: Engine>(
    engine: &E,
    host: &mut HostState<E>,
    log: &mut Log,
    command: &Command,
    turned: Option<Turned>,
) -> Result<Prepared<E::Plan>, NoMemory>
    requires room { host.old.image.commands ≤ 2 ^ 48 }
    ensures image { host.new.image ≡ host.old.image }
    ensures log { IsSameLog log.old log.new }
    ensures room { OnOk result (HasRoom log.new) }
    ensures answer { IfOk result (Prepares (answer host.old.image command.now) host.old.image) }
    ensures can { IfOk result (λ p. CanInstall E.chart_of host.new p.changes) }
{
    log.reserve()?;
    match (command, turned) {
        (Command::Step { session }, Some(turned)) => host.prepare_turned(engine, session, turned),
        _ => host.prepare(engine, command),
    }
}

/// The receipt of what was prepared of a command. Where the host accepts it, the log gets its body for the journal.
#[inline(always)]
pub(crate) fn confirm<P: Drop>(
    alloc: Global,
    log: &mut Log,
    command: &Command,
    prepared: &Prepared<P>,
) -> Result<Receipt, NoMemory>
    requires entry { is_accepted prepared.now.reply ≡ true → FitsEntry command.now }
    ensures log { IsSameLog log.old log.new }
    ensures room { HasRoom log.old → HasRoom log.new }
    ensures body { OnOk result (is_accepted prepared.now.reply ≡ true → IsBodyOf command.now log.new.body) }
    ensures receipt { IfOk result (Confirms (length log.old.history.entries + 1) prepared.now) }
{
    let number = (log.history.len() as u64).checked_add(1).ok_or(NoMemory)?;
    if prepared.is_accepted() {
        make_body(alloc, log, command)?;
    }
    Ok(Receipt {
        number,
        reply: prepared.reply.copy()?,
        logs: prepared.logs.copy()?,
        sent: prepared.sent.copy()?,
    })
}
