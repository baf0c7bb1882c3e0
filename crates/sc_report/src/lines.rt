ghost use Rattle.std.specs.Prelude.{◌++◌, codes};
ghost use Rattle.std.specs.List.{flat_map};
ghost use Rattle.sc_report.specs.Lines.{command_text, pair_text};
ghost use Rattle.sc_report.specs.Outlets.{Writes};

use crate::outlet::Outlet;
use crate::values::put_value;
use sc_base::{PlainName, Word};
use sc_dev::Sink;
use sc_types::{Command, Value};

fn put_pair<K: Sink>(out: &mut Outlet<'_, K>, pair: &(PlainName, Value))
    ensures { Writes K.taken K.faults out.old out.new (pair_text pair.now) }
{
    out.texts(&[b" ", pair.0.bytes(), b"="]);
    put_value(out, &pair.1);
}

fn put_pairs<K: Sink>(out: &mut Outlet<'_, K>, pairs: &[(PlainName, Value)])
    ensures { Writes K.taken K.faults out.old out.new (flat_map pair_text pairs.now) }
{
    for pair in pairs {
        put_pair(out, pair);
    }
}

pub(crate) fn put_post<K: Sink>(
    out: &mut Outlet<'_, K>,
    session: &Word,
    event: &Word,
    pairs: &[(PlainName, Value)],
)
    ensures { Writes K.taken K.faults out.old out.new
        (codes "post " ++ session.now ++ codes " " ++ event.now ++ flat_map pair_text pairs.now) }
{
    out.texts(&[b"post ", session.bytes(), b" ", event.bytes()]);
    put_pairs(out, pairs);
}

pub(crate) fn put_command<K: Sink>(out: &mut Outlet<'_, K>, command: &Command)
    ensures { Writes K.taken K.faults out.old out.new (command_text command.now) }
{
    match command {
        Command::Install { name, chart } => {
            out.texts(&[b"chart ", name.bytes(), b" ", chart.slice()]);
        }
        Command::Start { session, chart } => {
            out.texts(&[b"start ", session.bytes(), b" ", chart.bytes()]);
        }
        Command::Post {
            session,
            event,
            pairs,
        } => put_post(out, session, event, pairs.slice()),
        Command::Tick { ticks } => out.counted(b"tick ", *ticks),
        Command::Cancel { session } => out.texts(&[b"cancel ", session.bytes()]),
        Command::Step { session } => out.texts(&[b"step ", session.bytes()]),
    }
}
