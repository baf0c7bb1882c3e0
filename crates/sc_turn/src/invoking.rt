ghost use Rattle.std.specs.Prelude.{◌≡◌, ◌+◌, ◌++◌, ◌<◌, ◌≤◌, ◌^◌, IfErr, IfOk, OnOk, codes, decimal, unwrap_or, [], true};
ghost use Rattle.sc_types.specs.Attributes.{text_at};
ghost use Rattle.sc_types.specs.declared.attribute.Attribute.TheVariants as attribute;
ghost use Rattle.sc_law.specs.Invokes.{child_name, invoke_id, is_invoke_type, start_invoke, start_invokes, start_of, start_written, started};
ghost use Rattle.sc_law.specs.Tree.{state_count};
ghost use Rattle.sc_exec.specs.Runs.{KeepsRows, running_of};
ghost use Rattle.sc_select.specs.Runs.{IsRunOf};
ghost use Rattle.sc_turn.specs.States.{IsOver, state_of};
ghost use Rattle.sc_turn.specs.Starts.{may_start, src_of};
ghost use Rattle.sc_base.specs.Folds.{each};
ghost use Rattle.sc_types.specs.declared.chart.Tag.TheVariants as tag;
ghost use Rattle.sc_law.specs.Nodes.{is_tag, tag_of};
ghost use Rattle.std.specs.Option.{option_map_or};
ghost use Rattle.sc_law.specs.Runs.{failed};

use crate::ids::state_id;
use crate::run_state::RunState;
use sc_base::{Bytes, NoMemory, Plain, SharedBytes, TextWriter, Word};
use sc_exec::{Running, enqueue_failure, named_pairs, params};
use sc_tables::Tables;
use sc_types::{Attribute, Effect, Invoked, Node, PairList, Sequence, Tag, Value};
use std::alloc::Global;

/// Starts the invokes of the states that were entered and not exited, in document order. SCXML 6.4.
#[tactic(auto, using(sc_select::proofs::RunLemmas::runs), unfolding(sc_law::specs::Invokes::start_invokes))]
pub(crate) fn start_invokes(alloc: Global, x: &mut RunState, t: &Tables) -> Result<(), NoMemory>
    requires { IsOver t.now x.old }
    ensures ok { OnOk result (start_invokes t.now (state_of x.old) ≡ state_of x.new) }
    ensures over { OnOk result (IsOver t.now x.new) }
{
    start_all(alloc, &mut x.running, t)?;
    x.running.todo.clear();
    Ok(())
}

#[tactic(auto, using(sc_select::proofs::RunLemmas::runs))]
fn start_all(alloc: Global, run: &mut Running, t: &Tables) -> Result<(), NoMemory>
    requires { IsRunOf t.now run.old }
    ensures ok { OnOk result (each (start_of t.now) run.old.todo.members (running_of run.old) ≡ running_of run.new) }
    ensures kept { KeepsRows run.old run.new }
{
    // The numbers of states have 32 bits.
    let _count = t.count();
    let mut from = 0;
    while let Some(s) = run.todo.next(from) {
        start_of(alloc, run, t, s)?;
        from = s + 1;
    }
    Ok(())
}

/// Starts the invokes of a state.
#[tactic(auto, using(sc_select::proofs::RunLemmas::runs))]
#[inline(never)]
fn start_of(alloc: Global, run: &mut Running, t: &Tables, s: u32) -> Result<(), NoMemory>
    requires run { IsRunOf t.now run.old }
    requires s { s < state_count t.now }
    ensures ok { OnOk result (start_of t.now s (running_of run.old) ≡ running_of run.new) }
    ensures kept { KeepsRows run.old run.new }
{
    let _chart = t.chart();
    for (place, node) in t.element(s).kids.slice().iter().enumerate() {
        if is_invoke(node) {
            start_invoke(alloc, run, t, s, place_number(place)?, node)?;
        }
    }
    Ok(())
}

pub(crate) fn is_invoke(node: &Node) -> bool
    ensures { result ≡ is_tag tag.Invoke (tag_of node.now) }
{
    matches!(node.tag, Tag::Invoke)
}

/// The place of an element among its parent's. An element with 2^32 child elements is larger than any memory.
pub(crate) fn place_number(place: usize) -> Result<u32, NoMemory>
    ensures value { IfOk result (λ n. n ≡ place) }
    ensures large { IfErr result (λ _. 2 ^ 32 ≤ place) }
{
    match u32::try_from(place) {
        Ok(number) => Ok(number),
        Err(_) => Err(NoMemory),
    }
}

/// Whether the type is one that there is. SCXML 6.4.1.
fn has_type(node: &Node) -> bool
    ensures { result ≡ option_map_or is_invoke_type (text_at attribute.Type node.now) true }
{
    match node.text(Attribute::Type) {
        Some(text) => is_invoke_type(text),
        None => true,
    }
}

fn is_invoke_type(text: &[u8]) -> bool
    ensures { result ≡ is_invoke_type text.now }
{
    text == "http://www.w3.org/TR/scxml/".as_bytes()
        || text == "http://www.w3.org/TR/scxml".as_bytes()
        || text == "scxml".as_bytes()
}

fn may_start(node: &Node, born: u64) -> bool
    ensures { result ≡ may_start node.now born }
{
    has_type(node) && born < u64::MAX
}

fn fail(alloc: Global, run: &mut Running) -> Result<(), NoMemory>
    ensures ok { OnOk result (failed [] (running_of run.old) ≡ running_of run.new) }
    ensures kept { KeepsRows run.old run.new }
{
    enqueue_failure(alloc, run, SharedBytes::empty())
}

/// Starts an invoke: the type, the count, `namelist`, the params and the write to `idlocation`, in this order. A fault
/// starts nothing.
#[tactic(auto, using(sc_select::proofs::RunLemmas::runs))]
fn start_invoke(
    alloc: Global,
    run: &mut Running,
    t: &Tables,
    s: u32,
    place: u32,
    node: &Node,
) -> Result<(), NoMemory>
    requires run { IsRunOf t.now run.old }
    requires s { s < state_count t.now }
    ensures ok { OnOk result (start_invoke t.now s place node.now (running_of run.old) ≡ running_of run.new) }
    ensures kept { KeepsRows run.old run.new }
{
    if !may_start(node, run.born) {
        return fail(alloc, run);
    }
    let Some(named) = named_pairs(alloc, &run.env, node.words(Attribute::NameList))? else {
        return fail(alloc, run);
    };
    let number = run.born + 1;
    let given = params(alloc, run, node.kids.slice())?;
    let id = invoke_id(alloc, t, s, node, number)?;
    let pairs = joined(named, given)?;
    start_written(
        alloc,
        run,
        Start {
            s,
            place,
            number,
            id,
            pairs,
        },
        node,
    )
}

/// What is started.
#[derive(Drop)]
struct Start {
    /// The state and the place of the invoke among its child elements.
    s: u32,
    place: u32,
    /// Which of the session's children this is, from 1.
    number: u64,
    id: SharedBytes,
    pairs: PairList,
}

fn joined(named: PairList, given: PairList) -> Result<PairList, NoMemory>
    ensures { IfOk result (λ pairs. pairs ≡ named ++ given) }
{
    let mut pairs = named.into_vec();
    let mut more = given.into_vec();
    if pairs.append(&mut more).is_err() {
        return Err(NoMemory);
    }
    Ok(Sequence::from_vec(pairs))
}

/// The invoke's id; where it has none, that of its state, a dot and the number.
fn invoke_id(
    alloc: Global,
    t: &Tables,
    s: u32,
    node: &Node,
    number: u64,
) -> Result<SharedBytes, NoMemory>
    requires { s < state_count t.now }
    ensures { IfOk result (λ id. id ≡ invoke_id t.now s node.now number) }
{
    match node.text(Attribute::Id) {
        Some(id) => SharedBytes::from_slice(alloc, id),
        None => {
            let mut text = TextWriter::new(alloc);
            text.bytes(state_id(alloc, t, s)?.slice())?;
            text.text(".")?;
            text.number(u128::from(number))?;
            SharedBytes::from_slice(alloc, text.slice())
        }
    }
}

/// `idlocation` gets the id before the session is started.
fn start_written(
    alloc: Global,
    run: &mut Running,
    start: Start,
    node: &Node,
) -> Result<(), NoMemory>
    requires number { start.number ≡ run.old.born + 1 }
    ensures ok { OnOk result (start_written start.s start.place node.now start.id start.pairs (running_of run.old)
        ≡ running_of run.new) }
    ensures kept { KeepsRows run.old run.new }
{
    let Some(name) = node.text(Attribute::IdLocation) else {
        return started(alloc, run, start, node);
    };
    let id = Value::Text(Bytes::from_slice(alloc, start.id.slice())?);
    match run.env.set_named(name, id) {
        Ok(()) => started(alloc, run, start, node),
        Err(_) => fail(alloc, run),
    }
}

/// A text as a word. One that is none is answered as being out of memory; no chart that was read has one.
fn word(alloc: Global, text: &[u8]) -> Result<Word, NoMemory>
    ensures { IfOk result (λ w. w ≡ text.now) }
{
    match Word::of(alloc, text) {
        Ok(word) => Ok(word),
        Err(_) => Err(NoMemory),
    }
}

/// The child session S/n of session S.
fn child_name(alloc: Global, session: &Word, number: u64) -> Result<Word, NoMemory>
    ensures { IfOk result (λ name. name ≡ session.now ++ codes "/" ++ decimal number) }
{
    let mut text = TextWriter::new(alloc);
    text.bytes(session.bytes())?;
    text.text("/")?;
    text.number(u128::from(number))?;
    word(alloc, text.slice())
}

/// The name of the chart that is started.
fn chart_name(alloc: Global, node: &Node) -> Result<Word, NoMemory>
    ensures { IfOk result (λ name. name ≡ src_of node.now) }
{
    match node.text(Attribute::Src) {
        Some(src) => word(alloc, src),
        None => word(alloc, &[]),
    }
}

/// The effect is made, the invoke joins the list, and it is counted.
fn started(alloc: Global, run: &mut Running, start: Start, node: &Node) -> Result<(), NoMemory>
    requires number { start.number ≡ run.old.born + 1 }
    ensures ok { OnOk result (started start.s start.place node.now start.id start.pairs (running_of run.old)
        ≡ running_of run.new) }
    ensures kept { KeepsRows run.old run.new }
{
    let child = child_name(alloc, &run.env.session, start.number)?;
    let invoked = Invoked {
        state: start.s,
        place: start.place,
        invokeid: start.id.copy()?,
        child: child.copy()?,
    };
    let chart = chart_name(alloc, node)?;
    run.effects.push(Effect::Invoke {
        invokeid: start.id,
        child,
        chart,
        pairs: start.pairs,
    })?;
    run.invokes.push(invoked)?;
    run.born = start.number;
    Ok(())
}
