ghost use Rattle.std.specs.Prelude.{◌≡◌, ◌+◌, ◌<◌, ◌++◌, Some, codes, decimal, length, slice_get};
ghost use Rattle.std.specs.List.{flat_map};
ghost use Rattle.sc_core.specs.Showing.{posted_entry, shown_entry, stepped_entry};
ghost use Rattle.sc_report.specs.Lines.{line};
ghost use Rattle.sc_report.specs.Outlets.{Writes};
ghost use Rattle.sc_report.specs.Entries.{who_text, reply_text, log_text, delivery_text, entry_text, entries_text, what_text};
ghost use Rattle.sc_types.specs.declared.history.Entry.{Entry as EntryOf};

use crate::lines::{put_command, put_post};
use crate::outlet::Outlet;
use crate::replies::{put_reply, put_who};
use crate::values::{put_text, put_value};
use itoa::Buffer;
use sc_base::Word;
use sc_core::{History, Shown};
use sc_dev::Sink;
use sc_types::{CueName, Delivery, Entry, LogLine, Reply, Who};

fn put_log<K: Sink>(out: &mut Outlet<'_, K>, log: &LogLine)
    ensures { Writes K.taken K.faults out.old out.new (log_text log.now) }
{
    out.bytes(b"> ");
    put_text(out, log.label.slice());
    out.bytes(b" ");
    put_value(out, &log.value);
    out.end_line();
}

fn put_logs<K: Sink>(out: &mut Outlet<'_, K>, logs: &[LogLine])
    ensures { Writes K.taken K.faults out.old out.new (flat_map log_text logs.now) }
{
    for log in logs {
        put_log(out, log);
    }
}

/// A word, and the name of a session behind it.
fn put_session<K: Sink>(out: &mut Outlet<'_, K>, word: &[u8], session: &Word)
    ensures { Writes K.taken K.faults out.old out.new (word.now ++ session.now) }
{
    out.texts(&[word, session.bytes()]);
}

fn put_timed<K: Sink>(out: &mut Outlet<'_, K>, number: u64, due: u64)
    ensures { Writes K.taken K.faults out.old out.new (codes "timed " ++ decimal number ++ codes " " ++ decimal due) }
{
    let mut first = Buffer::new();
    let mut second = Buffer::new();
    out.texts(&[
        b"timed ",
        first.format(number).as_bytes(),
        b" ",
        second.format(due).as_bytes(),
    ]);
}

fn put_queued<K: Sink>(out: &mut Outlet<'_, K>, number: u128, session: &Word)
    ensures { Writes K.taken K.faults out.old out.new (codes "queued " ++ decimal number ++ codes " " ++ session.now) }
{
    let mut digits = Buffer::new();
    out.texts(&[
        b"queued ",
        digits.format(number).as_bytes(),
        b" ",
        session.bytes(),
    ]);
}

fn put_what<K: Sink>(out: &mut Outlet<'_, K>, delivery: &Delivery)
    ensures { Writes K.taken K.faults out.old out.new (what_text delivery.now) }
{
    match delivery {
        Delivery::Queued { number, session } => put_queued(out, *number, session),
        Delivery::Timed { number, due } => put_timed(out, *number, *due),
        Delivery::Unreachable => out.bytes(b"unreachable"),
        Delivery::Dropped => out.bytes(b"dropped"),
        Delivery::Undone(count) => out.counted(b"undone ", *count),
        Delivery::Born(session) => put_session(out, b"born ", session),
        Delivery::Unborn => out.bytes(b"unborn"),
        Delivery::Flagged(session) => put_session(out, b"flagged ", session),
        Delivery::Nothing => out.bytes(b"nothing"),
    }
}

fn put_delivery<K: Sink>(out: &mut Outlet<'_, K>, delivery: &Delivery)
    ensures { Writes K.taken K.faults out.old out.new (delivery_text delivery.now) }
{
    out.bytes(b"* ");
    put_what(out, delivery);
    out.end_line();
}

fn put_deliveries<K: Sink>(out: &mut Outlet<'_, K>, sent: &[Delivery])
    ensures { Writes K.taken K.faults out.old out.new (flat_map delivery_text sent.now) }
{
    for delivery in sent {
        put_delivery(out, delivery);
    }
}

/// What the line of a command begins with that has this number in its history.
fn put_heading<K: Sink>(out: &mut Outlet<'_, K>, number: usize, who: Who)
    ensures { Writes K.taken K.faults out.old out.new
        (decimal number ++ codes " " ++ who_text who ++ codes " ") }
{
    out.number(number);
    out.bytes(b" ");
    put_who(out, who);
    out.bytes(b" ");
}

fn put_reply_line<K: Sink>(out: &mut Outlet<'_, K>, reply: &Reply)
    ensures { Writes K.taken K.faults out.old out.new (line (codes "= " ++ reply_text reply.now)) }
{
    out.bytes(b"= ");
    put_reply(out, reply);
    out.end_line();
}

fn put_entry<K: Sink>(out: &mut Outlet<'_, K>, number: usize, entry: &Entry)
    ensures { Writes K.taken K.faults out.old out.new (entry_text number entry.now) }
{
    put_heading(out, number, entry.who);
    put_command(out, &entry.command);
    out.end_line();
    put_reply_line(out, &entry.reply);
    put_logs(out, entry.logs.slice());
    put_deliveries(out, entry.sent.slice());
}

/// A post without data, and the number of its event.
fn put_posted<K: Sink>(
    out: &mut Outlet<'_, K>,
    number: usize,
    who: Who,
    session: &Word,
    event: &Word,
    posted: u128,
)
    ensures { Writes K.taken K.faults out.old out.new
        (entry_text number (posted_entry who session.now event.now posted)) }
{
    put_heading(out, number, who);
    put_post(out, session, event, &[]);
    out.end_line();
    put_reply_line(out, &Reply::Posted(posted));
    put_logs(out, &[]);
    put_deliveries(out, &[]);
}

/// A step that neither logged nor sent.
fn put_stepped<K: Sink>(
    out: &mut Outlet<'_, K>,
    number: usize,
    who: Who,
    session: &Word,
    cue: CueName,
)
    ensures { Writes K.taken K.faults out.old out.new
        (entry_text number (stepped_entry who session.now cue)) }
{
    put_heading(out, number, who);
    put_session(out, b"step ", session);
    out.end_line();
    put_reply_line(out, &Reply::Stepped(cue));
    put_logs(out, &[]);
    put_deliveries(out, &[]);
}

fn put_shown<K: Sink>(out: &mut Outlet<'_, K>, number: usize, shown: Shown<'_>)
    ensures { Writes K.taken K.faults out.old out.new (entry_text number (shown_entry shown.entry)) }
{
    match shown {
        Shown::Posted {
            who,
            session,
            event,
            number: posted,
        } => put_posted(out, number, who, session, event, posted),
        Shown::Stepped { who, session, cue } => put_stepped(out, number, who, session, cue),
        Shown::Whole(entry) => put_entry(out, number, entry),
    }
}

/// The entry at a place, counted from 0; its number is one more.
fn put_entry_at<K: Sink>(out: &mut Outlet<'_, K>, history: &History, place: usize)
    requires within { place < length history.now.entries }
    ensures { (e : EntryOf) → slice_get history.now.entries place ≡ Some e
        → Writes K.taken K.faults out.old out.new (entry_text (place + 1) e) }
{
    // A length fits a usize, so the number cannot run out.
    let _count = history.len();
    match history.get(place) {
        Some(shown) => put_shown(out, place + 1, shown),
        None => unreachable!(),
    }
}

pub(crate) fn put_entries<K: Sink>(out: &mut Outlet<'_, K>, history: &History)
    ensures { Writes K.taken K.faults out.old out.new (entries_text 1 history.now.entries) }
{
    for place in 0..history.len() {
        put_entry_at(out, history, place);
    }
}
