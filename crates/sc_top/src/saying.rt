ghost use Rattle.std.specs.Prelude.{◌≡◌, ◌≢◌, OnErr, OnOk};
ghost use Rattle.std.specs.Io.KnownBytes.{Appends};
ghost use Rattle.sc_dev.specs.Causes.{HasCause};
ghost use Rattle.sc_dev.specs.Transfer.{AppendsPart};
ghost use Rattle.sc_top.specs.Sayings.{account, status_of, text_of};
ghost use Rattle.sc_top.specs.Statuses.{code};

use crate::status::Status;
use sc_base::Bytes;
use sc_core::Closed;
use sc_dev::{Failed, Sink, write_all};
use sc_report::{End, write_fault, write_report, write_summary};
use sc_turn::Compiled;
use sc_types::ChartFault;

/// What is written of a run.
#[derive(Clone, Copy, Debug, PartialEq, Eq)]
pub(crate) enum Form {
    Report,
    /// The summary of the run of a script that was drawn from a number, with so many drawn commands.
    Summary { number: u64, size: u32 },
}

/// What the program has to say.
#[derive(Drop)]
pub(crate) enum Saying {
    OtherWords,
    /// The source failed.
    ReadFault,
    /// The disk failed, and nothing was run.
    DiskFault,
    /// A journal was made.
    Created,
    /// There was a journal.
    Exists,
    /// The first fault of a script's text.
    BadScript(Bytes),
    /// Why the disk holds no journal that a host can be made of.
    BadJournal(Bytes),
    /// That a text is a chart.
    Legal(Bytes),
    /// The first fault of a chart's text.
    Faulty(ChartFault),
    /// What a run or an opening left.
    Run(Form, End, Closed<Compiled, ()>),
}

impl Saying {
    pub(crate) fn status(&self) -> Status
        ensures status { result ≡ status_of self.now }
        ensures no_write_fault { code result ≢ code Status.WriteFault }
    {
        match self {
            Saying::OtherWords => Status::OtherWords,
            Saying::ReadFault => Status::ReadFault,
            Saying::DiskFault => Status::DiskFault,
            Saying::Created => Status::Done,
            Saying::Exists => Status::Exists,
            Saying::BadScript(_) => Status::BadScript,
            Saying::BadJournal(_) => Status::BadJournal,
            Saying::Legal(_) => Status::Done,
            Saying::Faulty(_) => Status::Faulty,
            Saying::Run(_, end, _) => Status::of_end(*end),
        }
    }

    /// Writes it.
    pub(crate) fn write<K: Sink>(&self, sink: &mut K) -> Result<(), Failed>
        ensures ok { OnOk result (Appends (K.taken sink.old) (K.taken sink.new) (text_of self.now)) }
        ensures err { OnErr result (AppendsPart (K.taken sink.old) (K.taken sink.new) (text_of self.now)) }
        ensures cause { HasCause (K.faults sink.old) (K.faults sink.new) result }
    {
        match self {
            Saying::OtherWords => write_all(sink, b"words\n"),
            Saying::ReadFault => write_all(sink, b"read\n"),
            Saying::DiskFault => write_all(sink, b"disk\n"),
            Saying::Created => write_all(sink, b"created\n"),
            Saying::Exists => write_all(sink, b"exists\n"),
            Saying::BadScript(text) => write_all(sink, text.slice()),
            Saying::BadJournal(text) => write_all(sink, text.slice()),
            Saying::Legal(text) => write_all(sink, text.slice()),
            Saying::Faulty(fault) => write_fault(fault, sink),
            Saying::Run(form, end, closed) => write_run(*form, *end, closed, sink),
        }
    }
}

/// Writes of a run what the form says.
fn write_run<K: Sink>(
    form: Form,
    end: End,
    closed: &Closed<Compiled, ()>,
    sink: &mut K,
) -> Result<(), Failed>
    ensures ok { OnOk result (Appends (K.taken sink.old) (K.taken sink.new)
        (account form closed.now.opened closed.now.host.image closed.now.history.entries end)) }
    ensures err { OnErr result (AppendsPart (K.taken sink.old) (K.taken sink.new)
        (account form closed.now.opened closed.now.host.image closed.now.history.entries end)) }
    ensures cause { HasCause (K.faults sink.old) (K.faults sink.new) result }
{
    match form {
        Form::Report => write_report(closed, end, sink),
        Form::Summary { number, size } => write_summary(closed, number, size, end, sink),
    }
}
