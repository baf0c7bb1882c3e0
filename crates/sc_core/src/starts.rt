ghost use Rattle.std.specs.Prelude.{◌≡◌, ◌+◌, ◌^◌, ◌<◌, [], Ok, IfOk, false};
ghost use Rattle.sc_core.specs.Bodies.{Agrees, image, session_image};
ghost use Rattle.sc_machine.specs.Commands.{fresh_session, has_slash, install, install_read, start};
ghost use Rattle.sc_machine.specs.Hosts.{has_chart, session_place};
ghost use Rattle.sc_core.specs.HostStates.{ArePlanned};
ghost use Rattle.sc_core.specs.Preparing.{InstallNone, Prepares};
ghost use Rattle.sc_law.specs.LegalCharts.{legal_chart_of};
ghost use Rattle.sc_law.specs.Runs.{fresh_state};

use crate::body::Body;
use crate::change::Change;
use crate::charts::{installed_chart, read_legal_chart};
use crate::prepared::Prepared;
use crate::session::Session;
use sc_base::{Boxed, Bytes, NoMemory, Plain, Queue, Sequence, Word};
use sc_law::Engine;
use sc_rooms::RoomyQueue;
use sc_types::{
    ChartRefusal, NAME_LIMIT, PairList, Phase, Refusal, Reply, SessionState, ShortList,
};
use sc_valid::LegalChart;
use std::alloc::Global;

impl<P: Drop> Body<P> {
    pub(crate) fn has_chart(&self, name: &Word) -> bool
        requires agrees { Agrees self.now }
        ensures { result ≡ has_chart (image self.now) name.now }
    {
        self.chart_place(name).is_some()
    }

    /// Prepares that a chart is installed.
    #[inline(never)]
    pub(crate) fn draft_install<E: Engine<Plan = P>>(
        &self,
        alloc: Global,
        e: &E,
        name: &Word,
        text: &Bytes,
    ) -> Result<Prepared<P>, NoMemory>
        requires agrees { Agrees self.now }
        requires commands { self.now.commands + 1 < 2 ^ 64 }
        ensures answer { IfOk result (Prepares (install (image self.now) name.now text.now) (image self.now)) }
        ensures plans { IfOk result (λ p. ArePlanned E.chart_of p.changes) }
    {
        if name.bytes().len() > NAME_LIMIT {
            return Ok(Prepared::refused(alloc, Refusal::TooLong(2)));
        }
        if self.has_chart(name) {
            return Ok(Prepared::refused(alloc, Refusal::NameTaken));
        }
        match read_legal_chart(alloc, text.slice()) {
            Ok(chart) => self.draft_chart(alloc, e, name, text, chart),
            Err(ChartRefusal::Fault(fault)) => Ok(Prepared::refused(
                alloc,
                Refusal::BadChart(Boxed::new(alloc, fault)?),
            )),
            Err(ChartRefusal::NoMemory) => Err(NoMemory),
        }
    }

    /// Prepares that the legal chart is installed which the text spells.
    fn draft_chart<E: Engine<Plan = P>>(
        &self,
        alloc: Global,
        e: &E,
        name: &Word,
        text: &Bytes,
        chart: LegalChart,
    ) -> Result<Prepared<P>, NoMemory>
        requires agrees { Agrees self.now }
        requires commands { self.now.commands + 1 < 2 ^ 64 }
        requires new { has_chart (image self.now) name.now ≡ false }
        requires chart { legal_chart_of text.now ≡ Ok chart }
        ensures answer { IfOk result
            (Prepares (install_read (image self.now) name.now text.now (Ok chart)) (image self.now)) }
        ensures plans { IfOk result (λ p. ArePlanned E.chart_of p.changes) }
    {
        let chart = installed_chart(alloc, e, name, text, chart)?;
        let change = Change::Install {
            name: name.copy()?,
            chart: Boxed::new(alloc, chart)?,
        };
        Ok(Prepared::accepted(alloc, Reply::Installed, change))
    }

    /// Prepares that a session is started.
    #[inline(never)]
    pub(crate) fn draft_start(
        &self,
        alloc: Global,
        session: &Word,
        chart: &Word,
    ) -> Result<Prepared<P>, NoMemory>
        requires agrees { Agrees self.now }
        requires commands { self.now.commands + 1 < 2 ^ 64 }
        ensures answer { IfOk result (Prepares (start (image self.now) session.now chart.now) (image self.now)) }
        ensures none { IfOk result (λ p. InstallNone p.changes) }
    {
        if session.bytes().len() > NAME_LIMIT {
            return Ok(Prepared::refused(alloc, Refusal::TooLong(1)));
        }
        if chart.bytes().len() > NAME_LIMIT {
            return Ok(Prepared::refused(alloc, Refusal::TooLong(2)));
        }
        if has_slash(session.bytes()) {
            return Ok(Prepared::refused(alloc, Refusal::BadName));
        }
        if !self.has_chart(chart) {
            return Ok(Prepared::refused(alloc, Refusal::NoChart));
        }
        if self.session_place(session).is_some() {
            return Ok(Prepared::refused(alloc, Refusal::NameTaken));
        }
        let change = Change::Start {
            name: session.copy()?,
            session: fresh_session(alloc, session, chart)?,
        };
        Ok(Prepared::accepted(alloc, Reply::Started, change))
    }
}

fn has_slash(name: &[u8]) -> bool
    ensures { result ≡ has_slash name.now }
{
    name.iter().any(|b| *b == b'/')
}

/// A session that was not stepped yet, with what it is started with.
pub(crate) fn fresh_state(
    alloc: Global,
    session: &Word,
    chart: &Word,
    params: PairList,
) -> Result<Boxed<SessionState>, NoMemory>
    ensures { IfOk result (λ s. s ≡ fresh_state session.now chart.now params) }
{
    let state = SessionState {
        session: session.copy()?,
        chart: chart.copy()?,
        phase: Phase::Fresh,
        configuration: ShortList::new(alloc),
        values: Sequence::new(alloc),
        entered: ShortList::new(alloc),
        histories: Sequence::new(alloc),
        internal: Queue::new(alloc),
        invokes: Sequence::new(alloc),
        bound: None,
        params,
        sends: 0,
        born: 0,
    };
    Boxed::new(alloc, state)
}

fn fresh_session(alloc: Global, session: &Word, chart: &Word) -> Result<Boxed<Session>, NoMemory>
    ensures image { IfOk result (λ s. session_image s ≡ fresh_session session.now chart.now) }
    ensures children { IfOk result (λ s. s.children.items ≡ []) }
{
    let session = Session {
        state: fresh_state(alloc, session, chart, Sequence::new(alloc))?,
        failures: RoomyQueue::new(alloc),
        queued: RoomyQueue::new(alloc),
        flagged: false,
        invoker: None,
        depth: 1,
        children: RoomyQueue::new(alloc),
    };
    Boxed::new(alloc, session)
}
