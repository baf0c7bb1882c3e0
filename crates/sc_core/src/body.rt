ghost use Rattle.std.specs.Prelude.{◌≡◌, [], find, nat_le};
ghost use Rattle.sc_machine.specs.Hosts.{empty_host, session_place, chart_place};
ghost use Rattle.sc_core.specs.Bodies.{Agrees, cued, image};

use crate::session::Session;
use sc_base::Word;
use sc_rooms::{Named, Places};
use sc_timers::Timers;
use sc_types::{Chart, ChartImage};
use std::alloc::Global;
use std::sync::Arc;

/// An installed chart by its name and text, as an element, and its plan.
#[derive(Drop)]
pub struct InstalledChart<P> {
    pub(crate) image: ChartImage,
    pub(crate) chart: Arc<Chart>,
    pub(crate) plan: Arc<P>,
}

/// What the host holds, so that a change of it costs what it changes.
#[derive(Drop)]
pub struct Body<P> {
    pub(crate) clock: u64,
    pub(crate) commands: u64,
    pub(crate) events: u128,
    pub(crate) delayed: u64,
    pub(crate) charts: Named<InstalledChart<P>>,
    pub(crate) sessions: Named<Session>,
    pub(crate) timers: Timers,
    /// The places of the sessions that have a cue.
    pub(crate) ready: Places,
}

impl<P: Drop> Body<P> {
    pub(crate) fn new(alloc: Global) -> Body<P>
        ensures image { image result ≡ empty_host }
        ensures agrees { Agrees result }
        ensures charts { result.charts.items ≡ [] }
    {
        Body {
            clock: 0,
            commands: 0,
            events: 0,
            delayed: 0,
            charts: Named::new(alloc),
            sessions: Named::new(alloc),
            timers: Timers::new(alloc),
            ready: Places::new(alloc),
        }
    }

    /// The place of a session.
    #[inline(always)]
    #[tactic(auto, using(crate::proofs::BodyLemmas::position_map))]
    pub(crate) fn session_place(&self, name: &Word) -> Option<usize>
        requires agrees { Agrees self.now }
        ensures { result ≡ session_place (image self.now) name.now }
    {
        self.sessions.place_of(name)
    }

    /// The place of a chart.
    #[tactic(auto, using(crate::proofs::BodyLemmas::position_map))]
    pub(crate) fn chart_place(&self, name: &Word) -> Option<usize>
        requires agrees { Agrees self.now }
        ensures { result ≡ chart_place (image self.now) name.now }
    {
        self.charts.place_of(name)
    }

    /// The first place from one on of a session that has a cue.
    pub(crate) fn ready(&self, from: usize) -> Option<usize>
        requires agrees { Agrees self.now }
        ensures { result ≡ find (λ place. nat_le from place) (cued 0 (image self.now).sessions) }
    {
        self.ready.next(from)
    }
}
