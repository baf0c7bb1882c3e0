ghost use Rattle.sc_report.specs.Outlets.{Writes};
ghost use Rattle.sc_report.specs.Entries.{who_text, path_rest, path_text, fault_text, how_text, refusal_text, cue_text, member_text, reply_text};

use crate::outlet::Outlet;
use sc_dev::Sink;
use sc_types::{ChartFault, CueName, How, Refusal, Reply, Who};

pub(crate) fn put_who<K: Sink>(out: &mut Outlet<'_, K>, who: Who)
    ensures { Writes K.taken K.faults out.old out.new (who_text who) }
{
    match who {
        Who::Client(number) => out.counted(b"c", number),
        Who::Worker => out.bytes(b"w"),
    }
}

fn put_path_rest<K: Sink>(out: &mut Outlet<'_, K>, places: &[u32])
    ensures { Writes K.taken K.faults out.old out.new (path_rest places.now) }
{
    for place in places {
        out.counted(b".", *place);
    }
}

fn put_path<K: Sink>(out: &mut Outlet<'_, K>, path: &[u32])
    ensures { Writes K.taken K.faults out.old out.new (path_text path.now) }
{
    match path {
        [] => out.bytes(b"-"),
        [place, places @ ..] => {
            out.number(*place);
            put_path_rest(out, places);
        }
    }
}

/// The attribute of a faulty expression.
fn put_member<K: Sink>(out: &mut Outlet<'_, K>, fault: &ChartFault)
    ensures { Writes K.taken K.faults out.old out.new (member_text fault.now) }
{
    if fault.number == 6 {
        out.texts(&[b" ", fault.member.slice()]);
    }
}

pub(crate) fn put_fault<K: Sink>(out: &mut Outlet<'_, K>, fault: &ChartFault)
    ensures { Writes K.taken K.faults out.old out.new (fault_text fault.now) }
{
    out.number(fault.number);
    out.bytes(b" ");
    put_path(out, fault.path.slice());
    put_member(out, fault);
}

pub(crate) fn put_how<K: Sink>(out: &mut Outlet<'_, K>, how: &How)
    ensures { Writes K.taken K.faults out.old out.new (how_text how.now) }
{
    match how {
        How::Final(_) => out.bytes(b"final"),
        How::Cancelled => out.bytes(b"cancelled"),
        How::Runaway => out.bytes(b"runaway"),
    }
}

fn put_refusal<K: Sink>(out: &mut Outlet<'_, K>, refusal: &Refusal)
    ensures { Writes K.taken K.faults out.old out.new (refusal_text refusal.now) }
{
    match refusal {
        Refusal::BadChart(fault) => {
            out.bytes(b"1 bad-chart ");
            put_fault(out, fault.get());
        }
        Refusal::NameTaken => out.bytes(b"2 name-taken"),
        Refusal::NoChart => out.bytes(b"3 no-chart"),
        Refusal::NoSession => out.bytes(b"4 no-session"),
        Refusal::Ended(how) => {
            out.bytes(b"5 ended ");
            put_how(out, how.get());
        }
        Refusal::TooLong(which) => out.counted(b"6 too-long ", *which),
        Refusal::ClockFull => out.bytes(b"7 clock-full"),
        Refusal::Idle => out.bytes(b"8 idle"),
        Refusal::BadName => out.bytes(b"9 bad-name"),
    }
}

fn put_cue<K: Sink>(out: &mut Outlet<'_, K>, cue: CueName)
    ensures { Writes K.taken K.faults out.old out.new (cue_text cue) }
{
    match cue {
        CueName::Fresh => out.bytes(b"fresh"),
        CueName::Resume => out.bytes(b"resume"),
        CueName::Cancel => out.bytes(b"cancel"),
        CueName::External(number) => out.counted(b"external ", number),
    }
}

pub(crate) fn put_reply<K: Sink>(out: &mut Outlet<'_, K>, reply: &Reply)
    ensures { Writes K.taken K.faults out.old out.new (reply_text reply.now) }
{
    match reply {
        Reply::Installed => out.bytes(b"installed"),
        Reply::Started => out.bytes(b"started"),
        Reply::Posted(number) => out.counted(b"posted ", *number),
        Reply::Ticked(count) => out.counted(b"ticked ", *count),
        Reply::Cancelled => out.bytes(b"cancelled"),
        Reply::Stepped(cue) => {
            out.bytes(b"stepped ");
            put_cue(out, *cue);
        }
        Reply::Refused(refusal) => {
            out.bytes(b"refused ");
            put_refusal(out, refusal);
        }
    }
}
