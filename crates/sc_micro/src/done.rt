ghost use Rattle.std.specs.Prelude.{◌≡◌, ◌<◌, ◌++◌, [], IfOk, OnOk, codes, decimal, true};
ghost use Rattle.std.specs.Option.{option_copied};
ghost use Rattle.sc_types.specs.declared.chart.Tag.TheVariants as tag;
ghost use Rattle.sc_law.specs.Configurations.{parent_of};
ghost use Rattle.sc_law.specs.Entering.{done_data, done_event, tell_parallel, tell_parent, told};
ghost use Rattle.sc_law.specs.Kinds.{is_final};
ghost use Rattle.sc_law.specs.Nodes.{kids};
ghost use Rattle.sc_law.specs.Runs.{enqueue, platform_event, state_id};
ghost use Rattle.sc_law.specs.Tree.{state_count};
ghost use Rattle.sc_exec.specs.Children.{first_with};
ghost use Rattle.sc_exec.specs.Runs.{running_of, KeepsRows};
ghost use Rattle.sc_select.specs.Runs.{IsRunOf};
ghost use Rattle.sc_micro.specs.Blocks.{done_kids};

use crate::blocks::kids_of;
use crate::finals::is_in_final;
use sc_base::{Name, NoMemory, SharedBytes, TextWriter};
use sc_exec::{Running, payload};
use sc_tables::Tables;
use sc_types::{Attribute, Data, Event, Kind, Node, Tag};
use std::alloc::Global;

/// Tells that a state was entered, where it is final: a final under the root stops the session. SCXML 3.7.
#[tactic(auto, using(sc_select::proofs::RunLemmas::runs))]
pub(crate) fn tell(alloc: Global, run: &mut Running, t: &Tables, s: u32) -> Result<(), NoMemory>
    requires run { IsRunOf t.now run.old }
    requires s { s < state_count t.now }
    ensures ok { OnOk result (running_of run.new ≡ told t.now s (running_of run.old)) }
    ensures kept { KeepsRows run.old run.new }
{
    if !t.is_final(s) {
        return Ok(());
    }
    match t.parent(s) {
        Some(parent) => tell_parent(alloc, run, t, s, parent),
        None => {
            run.stopped = true;
            Ok(())
        }
    }
}

/// Tells that the parent of a final state is done, and then a parallel above it, where this completes it.
#[tactic(auto, using(sc_select::proofs::RunLemmas::runs))]
fn tell_parent(
    alloc: Global,
    run: &mut Running,
    t: &Tables,
    s: u32,
    parent: u32,
) -> Result<(), NoMemory>
    requires run { IsRunOf t.now run.old }
    requires s { s < state_count t.now }
    requires done { is_final t.now s ≡ true }
    requires parent { parent ≡ parent_of t.now s }
    requires within { parent < state_count t.now }
    ensures ok { OnOk result (running_of run.new ≡ tell_parent t.now s (running_of run.old)) }
    ensures kept { KeepsRows run.old run.new }
{
    let payload = done_data(alloc, run, t, s)?;
    enqueue_done(alloc, run, t, parent, payload)?;
    tell_above(alloc, run, t, parent)
}

/// Tells that the parent of a state that is done is done, where that is a parallel that this completes.
#[tactic(auto, using(sc_select::proofs::RunLemmas::runs))]
fn tell_above(alloc: Global, run: &mut Running, t: &Tables, s: u32) -> Result<(), NoMemory>
    requires run { IsRunOf t.now run.old }
    requires s { s < state_count t.now }
    ensures ok { OnOk result (running_of run.new ≡ tell_parallel t.now (parent_of t.now s) (running_of run.old)) }
    ensures kept { KeepsRows run.old run.new }
{
    match t.parent(s) {
        Some(parent) => tell_parallel(alloc, run, t, parent),
        None => {
            let _chart = t.chart();
            Ok(())
        }
    }
}

#[tactic(auto, using(sc_select::proofs::RunLemmas::runs))]
fn tell_parallel(alloc: Global, run: &mut Running, t: &Tables, s: u32) -> Result<(), NoMemory>
    requires run { IsRunOf t.now run.old }
    requires s { s < state_count t.now }
    ensures ok { OnOk result (running_of run.new ≡ tell_parallel t.now s (running_of run.old)) }
    ensures kept { KeepsRows run.old run.new }
{
    if t.is_parallel(s) && is_in_final(t, &run.env.configuration, t.count(), s) {
        return enqueue_done(alloc, run, t, s, Data::Absent);
    }
    Ok(())
}

/// Puts `done.state.ID` into the internal queue. SCXML 3.7 and 5.10.1.
fn enqueue_done(
    alloc: Global,
    run: &mut Running,
    t: &Tables,
    s: u32,
    payload: Data,
) -> Result<(), NoMemory>
    requires s { s < state_count t.now }
    ensures ok { OnOk result (running_of run.new ≡ enqueue (done_event t.now s payload) (running_of run.old)) }
    ensures kept { KeepsRows run.old run.new }
{
    let event = Event {
        number: 0,
        name: done_name(alloc, t, s)?,
        kind: Kind::Platform,
        sendid: SharedBytes::empty(),
        origin: SharedBytes::empty(),
        origintype: SharedBytes::empty(),
        invokeid: SharedBytes::empty(),
        payload,
    };
    run.internal.push(event)
}

/// `done.state.ID`. A text that no event can have as its name is answered as being out of memory; no chart that was
/// read has one.
fn done_name(alloc: Global, t: &Tables, s: u32) -> Result<Name, NoMemory>
    requires { s < state_count t.now }
    ensures { IfOk result (λ name. name ≡ codes "done.state." ++ state_id t.now s) }
{
    let mut text = TextWriter::new(alloc);
    text.text("done.state.")?;
    put_id(&mut text, t, s)?;
    match Name::of(alloc, text.slice()) {
        Ok(name) => Ok(name),
        Err(_) => Err(NoMemory),
    }
}

/// Writes the id of a state; one without `id` has its number behind `#`. SCXML 3.14.
fn put_id(text: &mut TextWriter, t: &Tables, s: u32) -> Result<(), NoMemory>
    requires { s < state_count t.now }
    ensures { OnOk result (text.new ≡ text.old ++ state_id t.now s) }
{
    match t.element(s).text(Attribute::Id) {
        Some(id) => text.bytes(id),
        None => put_number(text, s),
    }
}

fn put_number(text: &mut TextWriter, s: u32) -> Result<(), NoMemory>
    ensures { OnOk result (text.new ≡ text.old ++ (codes "#" ++ decimal s)) }
{
    text.text("#")?;
    text.number(s as u128)
}

/// The data of a final state. SCXML 5.5.
#[tactic(auto, using(sc_select::proofs::RunLemmas::runs))]
pub(crate) fn done_data(
    alloc: Global,
    run: &mut Running,
    t: &Tables,
    s: u32,
) -> Result<Data, NoMemory>
    requires run { IsRunOf t.now run.old }
    requires s { s < state_count t.now }
    requires done { is_final t.now s ≡ true }
    ensures ok { IfOk result (λ payload. done_data t.now s (running_of run.old) ≡ (payload, running_of run.new)) }
    ensures kept { KeepsRows run.old run.new }
{
    // A final of a legal chart has one `<donedata>` at most.
    let _chart = t.chart();
    let kids = done_kids(kids_of(t, s));
    match payload(alloc, run, &[], kids)? {
        Some(data) => Ok(data),
        None => Ok(Data::Absent),
    }
}

/// The child elements of the first `<donedata>` among elements.
fn done_kids(nodes: &[Node]) -> &[Node]
    ensures { result.now ≡ done_kids nodes.now }
{
    match first_done_data(nodes) {
        Some(node) => node.kids.slice(),
        None => &[],
    }
}

fn first_done_data(nodes: &[Node]) -> Option<&Node>
    ensures { option_copied result ≡ first_with tag.DoneData nodes.now }
{
    nodes.iter().find(|node| matches!(node.tag, Tag::DoneData))
}
