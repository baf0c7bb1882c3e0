ghost use Rattle.std.specs.Prelude.{◌≡◌, ◌<◌, IfOk, OnOk};
ghost use Rattle.sc_base.specs.Folds.{each};
ghost use Rattle.sc_types.specs.declared.chart.Tag.TheVariants as tag;
ghost use Rattle.sc_law.specs.Data.{with_tag};
ghost use Rattle.sc_law.specs.Content.{run_blocks};
ghost use Rattle.sc_law.specs.Invokes.{finalize, finalize_at, finalize_in, finalized, forwarded, running_of as invokes_of_element};
ghost use Rattle.sc_law.specs.Nodes.{kids, is_tag, tag_of};
ghost use Rattle.sc_law.specs.Tree.{state_count};
ghost use Rattle.sc_eval.specs.Envs.{HasIds};
ghost use Rattle.sc_exec.specs.Runs.{KeepsRows, running_of};
ghost use Rattle.sc_select.specs.Runs.{IsRunOf};

use crate::invoking::{is_invoke, place_number};
use sc_base::{NoMemory, Plain, Sequence};
use sc_exec::{Running, run_block};
use sc_tables::Tables;
use sc_types::{Attribute, Effect, Event, Invoked, Node, Tag};
use std::alloc::Global;

/// What an external event does to the invokes of the active states, in document order: the `<finalize>` of those that
/// sent it, and forwarding. SCXML 6.5 and 6.4.1.
#[tactic(auto, using(sc_select::proofs::RunLemmas::runs), unfolding(sc_law::specs::Invokes::finalize))]
pub(crate) fn finalize(
    alloc: Global,
    run: &mut Running,
    t: &Tables,
    event: &Event,
) -> Result<(), NoMemory>
    requires { IsRunOf t.now run.old }
    ensures ok { OnOk result (finalize t.now event.now (running_of run.old) ≡ running_of run.new) }
    ensures kept { KeepsRows run.old run.new }
{
    if run.invokes.is_empty() {
        return Ok(());
    }
    // The numbers of states have 32 bits.
    let _count = t.count();
    let mut from = 0;
    while let Some(s) = run.env.configuration.next(from) {
        finalize_in(alloc, run, t, event, s)?;
        from = s + 1;
    }
    Ok(())
}

/// The invokes of one state.
#[tactic(auto, using(sc_select::proofs::RunLemmas::runs))]
#[inline(never)]
fn finalize_in(
    alloc: Global,
    run: &mut Running,
    t: &Tables,
    event: &Event,
    s: u32,
) -> Result<(), NoMemory>
    requires run { IsRunOf t.now run.old }
    requires s { s < state_count t.now }
    ensures ok { OnOk result (finalize_in t.now event.now s (running_of run.old) ≡ running_of run.new) }
    ensures kept { KeepsRows run.old run.new }
{
    let _chart = t.chart();
    for (place, node) in t.element(s).kids.slice().iter().enumerate() {
        if is_invoke(node) {
            finalize_at(alloc, run, event, s, place_number(place)?, node)?;
        }
    }
    Ok(())
}

/// The invokes that run of one element.
#[tactic(auto, using(sc_exec::proofs::Kept::keeping))]
fn finalize_at(
    alloc: Global,
    run: &mut Running,
    event: &Event,
    s: u32,
    place: u32,
    node: &Node,
) -> Result<(), NoMemory>
    requires { HasIds run.old.env }
    ensures ok { OnOk result (finalize_at s event.now (place, node.now) (running_of run.old) ≡ running_of run.new) }
    ensures kept { KeepsRows run.old run.new }
{
    let running = invokes_of_element(alloc, run.invokes.slice(), s, place)?;
    for invoked in running.slice() {
        finalize_for(alloc, run, event, invoked, node)?;
        forward(alloc, run, event, invoked, node)?;
    }
    Ok(())
}

fn invokes_of_element(
    alloc: Global,
    invokes: &[Invoked],
    s: u32,
    place: u32,
) -> Result<Sequence<Invoked>, NoMemory>
    ensures { IfOk result (λ found. found ≡ invokes_of_element s place invokes.now) }
{
    let mut found = Sequence::new(alloc);
    for invoked in invokes {
        if invoked.state == s && invoked.place == place {
            found.push(invoked.copy()?)?;
        }
    }
    Ok(found)
}

fn finalize_for(
    alloc: Global,
    run: &mut Running,
    event: &Event,
    invoked: &Invoked,
    node: &Node,
) -> Result<(), NoMemory>
    requires { HasIds run.old.env }
    ensures ok { OnOk result (finalized node.now event.now invoked.now (running_of run.old) ≡ running_of run.new) }
    ensures kept { KeepsRows run.old run.new }
{
    if invoked.invokeid.slice() == event.invokeid.slice() {
        run_finalize(alloc, run, node.kids.slice())
    } else {
        Ok(())
    }
}

fn is_finalize(node: &Node) -> bool
    ensures { result ≡ is_tag tag.Finalize (tag_of node.now) }
{
    matches!(node.tag, Tag::Finalize)
}

/// Runs the `<finalize>` among these elements.
fn run_finalize(alloc: Global, run: &mut Running, nodes: &[Node]) -> Result<(), NoMemory>
    requires { HasIds run.old.env }
    ensures ok { OnOk result (run_blocks (with_tag tag.Finalize nodes.now) (running_of run.old) ≡ running_of run.new) }
    ensures kept { KeepsRows run.old run.new }
{
    for node in nodes {
        if is_finalize(node) {
            run_block(alloc, run, node.kids.slice())?;
        }
    }
    Ok(())
}

/// Hands the event on as it was received, its number included.
fn forward(
    alloc: Global,
    run: &mut Running,
    event: &Event,
    invoked: &Invoked,
    node: &Node,
) -> Result<(), NoMemory>
    ensures ok { OnOk result (forwarded node.now event.now invoked.now (running_of run.old) ≡ running_of run.new) }
    ensures kept { KeepsRows run.old run.new }
{
    if !node.is_text(Attribute::AutoForward, b"true") {
        return Ok(());
    }
    run.effects.push(Effect::Forward {
        child: invoked.child.copy()?,
        event: event.copy()?,
    })
}
