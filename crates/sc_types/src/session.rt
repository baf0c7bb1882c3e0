ghost use Rattle.std.specs.Prelude.{◌≡◌, IfOk};
ghost use Rattle.std.proofs.Common.{rules};

use crate::event::{Data, Event};
use crate::short_list::ShortList;
use crate::value::{PairList, Value};
use sc_base::{Boxed, NoMemory, Plain, PlainName, Queue, Sequence, Shared, SharedBytes, Word};
use std::alloc::{AllocError, Global};

/// How a session ended.
#[derive(Clone, Drop)]
pub enum How {
    /// By a top-level final state, with its done data.
    Final(Data),
    Cancelled,
    /// A turn would have needed more rounds than the chart's limit.
    Runaway,
}

/// Where a session stands.
#[derive(Clone, Drop)]
pub enum Phase {
    /// Started, and not stepped yet.
    Fresh,
    Running,
    Ended(How),
}

/// An invocation that runs: the state and the place among its children of the `<invoke>`, its id, and the
/// child session.
#[derive(Clone, Drop)]
pub struct Invoked {
    pub state: u32,
    pub place: u32,
    pub invokeid: SharedBytes,
    pub child: Word,
}

/// The data of a session in order of declaration; `None` is a datum that is unset.
pub type Values = Sequence<(PlainName, Option<Value>)>;

/// The states that each history recorded, by the histories' numbers, ascending.
pub type Histories = Sequence<(u32, Sequence<u32>)>;

/// A session between two turns. States are named by their numbers in document order, from 0.
#[derive(Drop)]
pub struct SessionState {
    pub session: Word,
    pub chart: Word,
    pub phase: Phase,
    /// The active states, ascending.
    pub configuration: ShortList,
    pub values: Values,
    /// The states that were entered at least once, ascending.
    pub entered: ShortList,
    pub histories: Histories,
    /// The internal queue, its front first.
    pub internal: Queue<Event>,
    pub invokes: Sequence<Invoked>,
    /// The event that `_event` names.
    pub bound: Option<Shared<Event>>,
    /// What the session was started with.
    pub params: PairList,
    /// How many ids `send.N` were made.
    pub sends: u64,
    /// How many child sessions were started.
    pub born: u64,
}

/// What a turn begins with.
#[derive(Clone, Drop)]
pub enum Cue {
    /// The session's first turn.
    Fresh,
    /// Internal events are waiting.
    Resume,
    /// The session is to be cancelled.
    Cancel,
    /// The front of the external queue.
    External(Shared<Event>),
}

/// The name of a cue, as replies give it: an external event by its number.
#[derive(Clone, Copy, Debug, PartialEq, Eq)]
pub enum CueName {
    Fresh,
    Resume,
    Cancel,
    External(u128),
}

impl Plain for How {
    ghost clone_equals = { Prim.search rules };
}

impl Plain for Phase {
    ghost clone_equals = { Prim.search rules };
}

impl Plain for Invoked {
    ghost clone_equals = { Prim.search rules };
}

// By hand, since the proof of a derived `clone` of so many fields takes many minutes.
impl Clone for SessionState {
    ghost is_clone = { λ s copy. copy ≡ s };

    fn clone(&self) -> Result<Self, AllocError> {
        match copy_state(self) {
            Ok(state) => Ok(state),
            Err(NoMemory) => Err(AllocError),
        }
    }
}

impl Plain for SessionState {
    ghost clone_equals = { λ s copy same. same };
}

impl SessionState {
    /// A copy in a place of its own, which is moved as cheaply as a number.
    pub fn boxed(&self, alloc: Global) -> Result<Boxed<SessionState>, NoMemory>
        ensures { IfOk result (λ c. c ≡ self.now) }
    {
        Boxed::new(alloc, copy_state(self)?)
    }
}

/// A copy of a state, in three parts: an early exit then has few values to drop.
fn copy_state(state: &SessionState) -> Result<SessionState, NoMemory>
    ensures { IfOk result (λ c. c ≡ state.now) }
{
    let (session, chart, phase) = copy_names(state)?;
    let (configuration, values, entered, histories) = copy_sets(state)?;
    let (internal, invokes, bound, params) = copy_events(state)?;
    Ok(SessionState {
        session,
        chart,
        phase,
        configuration,
        values,
        entered,
        histories,
        internal,
        invokes,
        bound,
        params,
        sends: state.sends,
        born: state.born,
    })
}

fn copy_names(state: &SessionState) -> Result<(Word, Word, Phase), NoMemory>
    ensures { IfOk result (λ c. c ≡ (state.now.session, state.now.chart, state.now.phase)) }
{
    Ok((
        state.session.copy()?,
        state.chart.copy()?,
        state.phase.copy()?,
    ))
}

fn copy_sets(state: &SessionState) -> Result<(ShortList, Values, ShortList, Histories), NoMemory>
    ensures { IfOk result (λ c. c
        ≡ (state.now.configuration, state.now.values, state.now.entered, state.now.histories)) }
{
    Ok((
        state.configuration.copy()?,
        state.values.copy()?,
        state.entered.copy()?,
        state.histories.copy()?,
    ))
}

fn copy_events(
    state: &SessionState,
) -> Result<
    (
        Queue<Event>,
        Sequence<Invoked>,
        Option<Shared<Event>>,
        PairList,
    ),
    NoMemory,
>
    ensures { IfOk result (λ c. c ≡ (state.now.internal, state.now.invokes, state.now.bound, state.now.params)) }
{
    Ok((
        state.internal.copy()?,
        state.invokes.copy()?,
        state.bound.copy()?,
        state.params.copy()?,
    ))
}

impl Plain for Cue {
    ghost clone_equals = { Prim.search rules };
}

impl Plain for CueName {
    ghost clone_equals = { Prim.search rules };
}
