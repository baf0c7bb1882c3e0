// What the types of an entry say of its command and of its maker, gathered part by part.
ghost use Rattle.std.specs.Prelude.{IsTrue, ◌<◌, ◌^◌};
ghost use Rattle.std.specs.List.{AllByRecursion, list_all};
ghost use Rattle.sc_base.specs.Text.{IsPlainName, IsWord, is_int};
ghost use Rattle.sc_report_facts.specs.Histories.{has_ints, IsTypedPair, IsTypedCommand, IsTypedWho, IsTypedEntry};

use sc_base::{PlainName, Word};
use sc_types::{Command, Entry, Value, Who};

/// The entries of every history in memory are as the law takes them, but for what it says of legality and of charts:
/// their types say so.
pub fn are_typed(history: &[Entry])
    ensures { AllByRecursion IsTypedEntry history.now }
{
    for entry in history {
        is_typed(entry);
    }
}

fn is_typed(entry: &Entry)
    ensures { IsTypedEntry entry.now }
{
    is_typed_who(&entry.who);
    is_typed_command(&entry.command);
}

fn is_typed_who(who: &Who)
    ensures { IsTypedWho who.now }
{
    match who {
        Who::Client(number) => fits_u32(*number),
        Who::Worker => {}
    }
}

fn is_typed_command(command: &Command)
    ensures { IsTypedCommand command.now }
{
    match command {
        Command::Install { name, .. } => is_word(name),
        Command::Start { session, chart } => {
            is_word(session);
            is_word(chart);
        }
        Command::Post {
            session,
            event,
            pairs,
        } => {
            is_word(session);
            is_word(event);
            are_typed_pairs(pairs.slice());
        }
        Command::Tick { ticks } => fits_u64(*ticks),
        Command::Cancel { session } => is_word(session),
        Command::Step { session } => is_word(session),
    }
}

fn are_typed_pairs(pairs: &[(PlainName, Value)])
    ensures { AllByRecursion IsTypedPair pairs.now }
{
    for pair in pairs {
        is_typed_pair(pair);
    }
}

fn is_typed_pair(pair: &(PlainName, Value))
    ensures { IsTypedPair pair.now }
{
    is_plain_name(&pair.0);
    has_ints(&pair.1);
}

fn is_word(word: &Word)
    ensures { IsWord word.now }
{
    let _ = word.bytes();
}

fn is_plain_name(name: &PlainName)
    ensures { IsPlainName name.now }
{
    let _ = name.bytes();
}

#[cycle(ints)]
#[tactic(auto, using(crate::proofs::Ints::ints))]
fn has_ints(value: &Value)
    ensures { IsTrue (has_ints value.now) }
{
    match value {
        Value::Bool(_) => {}
        Value::Int(number) => fits_i64(*number),
        Value::Text(_) => {}
        Value::List(items) => have_ints(items.slice()),
    }
}

#[cycle(ints)]
fn have_ints(items: &[Value])
    ensures { IsTrue (list_all has_ints items.now) }
{
    for item in items {
        has_ints(item);
    }
}

fn fits_u32(_number: u32)
    ensures { _number < 2 ^ 32 }
{}

fn fits_u64(_number: u64)
    ensures { _number < 2 ^ 64 }
{}

fn fits_i64(_number: i64)
    ensures { IsTrue (is_int _number) }
{}
