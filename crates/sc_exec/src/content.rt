ghost use Rattle.std.specs.Prelude.{◌≡◌, ◌≢◌, ◌≤◌, ◌<◌, ◌^◌, Err, OnOk, Some, length, map, pos, slice_range};
ghost use Rattle.sc_types.specs.Attributes.{members_of};
ghost use Rattle.sc_types.specs.declared.attribute.Attribute.TheVariants as attribute;
ghost use Rattle.sc_types.specs.declared.value.Value.TheVariants.{Int};
ghost use Rattle.sc_law.specs.Content.{choice, declared, each_item, for_each, over_items, part, run_block, run_parts, with_name};
ghost use Rattle.sc_law.specs.Nodes.{kids};
ghost use Rattle.sc_law.specs.Outcomes.{on_done, write};
ghost use Rattle.sc_eval.specs.Envs.{HasIds};
ghost use Rattle.sc_exec.specs.Runs.{running_of, KeepsRows, Does};

use crate::branches::branch_end;
use crate::condition::holds;
use crate::elements::{assign, cancel, log, raise};
use crate::events::enqueue_failure;
use crate::running::Running;
use crate::sending::send;
use crate::values::{declare, fault, needed, write};
use sc_base::{Failure, NoMemory, Plain, SharedBytes};
use sc_types::{Attribute, Node, Tag, Value};
use std::alloc::Global;

/// Runs a block of executable content. A fault stops the rest of it, and `error.execution` is enqueued. Out of memory,
/// the run stands at some point of the block. It calls itself as deep as the content goes. SCXML 3.12.2, 4.1.
#[tactic(auto, unfolding(sc_law::specs::Content::run_block, sc_law::specs::Content::exec))]
pub fn run_block(alloc: Global, run: &mut Running, block: &[Node]) -> Result<(), NoMemory>
    requires { HasIds run.old.env }
    ensures ok { OnOk result (running_of run.new ≡ run_block block.now (running_of run.old)) }
    ensures kept { KeepsRows run.old run.new }
{
    match elements(alloc, run, block, 0, block.len()) {
        Ok(()) => Ok(()),
        Err(Failure::Fault(sendid)) => enqueue_failure(alloc, run, sendid),
        Err(Failure::NoMemory) => Err(NoMemory),
    }
}

/// Runs the elements from one place up to another, up to the first fault.
#[cycle(run)]
#[tactic(auto, using(crate::proofs::Kept::keeping))]
fn elements(
    alloc: Global,
    run: &mut Running,
    nodes: &[Node],
    from: usize,
    to: usize,
) -> Result<(), Failure<SharedBytes>>
    requires ids { HasIds run.old.env }
    requires from { from ≤ to }
    requires to { to ≤ length nodes.now }
    ensures outcome { Does result run.new (run_parts (map part (slice_range nodes.now from to)) (running_of run.old)) }
    ensures kept { KeepsRows run.old run.new }
{
    for place in from..to {
        element(alloc, run, &nodes[place])?;
    }
    Ok(())
}

/// Other elements than these do nothing.
#[cycle(run)]
#[tactic(auto, using(crate::proofs::Kept::keeping))]
fn element(alloc: Global, run: &mut Running, node: &Node) -> Result<(), Failure<SharedBytes>>
    requires { HasIds run.old.env }
    ensures outcome { Does result run.new ((part node.now).runs (running_of run.old)) }
    ensures kept { KeepsRows run.old run.new }
{
    match node.tag {
        Tag::Raise => raise(alloc, run, node),
        Tag::If => choice(alloc, run, node),
        Tag::ForEach => for_each(alloc, run, node),
        Tag::Log => log(alloc, run, node),
        Tag::Assign => assign(alloc, run, node),
        Tag::Send => send(alloc, run, node),
        Tag::Cancel => cancel(alloc, run, node),
        _ => Ok(()),
    }
}

/// The first branch whose condition holds. SCXML 4.3 to 4.5.
#[cycle(run)]
#[tactic(auto, using(crate::proofs::Kept::keeping))]
fn choice(alloc: Global, run: &mut Running, node: &Node) -> Result<(), Failure<SharedBytes>>
    requires { HasIds run.old.env }
    ensures outcome { Does result run.new (choice (members_of node.now) (map part (kids node.now))
        (running_of run.old)) }
    ensures kept { KeepsRows run.old run.new }
{
    let kids = node.kids.slice();
    let mut condition = node.expr(Attribute::Cond);
    let mut start = 0;
    loop {
        let end = branch_end(kids, start);
        if holds(alloc, run, condition)? {
            return elements(alloc, run, kids, start, end);
        }
        if end == kids.len() {
            return Ok(());
        }
        condition = kids[end].expr(Attribute::Cond);
        start = end + 1;
    }
}

/// SCXML 4.6. The array is evaluated first.
#[cycle(run)]
#[tactic(auto, using(crate::proofs::Kept::keeping))]
fn for_each(alloc: Global, run: &mut Running, node: &Node) -> Result<(), Failure<SharedBytes>>
    requires { HasIds run.old.env }
    ensures outcome { Does result run.new (for_each (members_of node.now) (map part (kids node.now))
        (running_of run.old)) }
    ensures kept { KeepsRows run.old run.new }
{
    match needed(alloc, &run.env, node, Attribute::Array)? {
        Value::List(items) => over_items(alloc, run, node, items.slice()),
        _ => Err(fault()),
    }
}

/// The item and then the index are declared, also for an empty list.
#[cycle(run)]
#[tactic(auto, using(crate::proofs::Kept::keeping))]
fn over_items(
    alloc: Global,
    run: &mut Running,
    node: &Node,
    items: &[Value],
) -> Result<(), Failure<SharedBytes>>
    requires { HasIds run.old.env }
    ensures outcome { Does result run.new
        (over_items (members_of node.now) (map part (kids node.now)) (Some items.now) (running_of run.old)) }
    ensures kept { KeepsRows run.old run.new }
{
    declare_given(alloc, run, node, Attribute::Item)?;
    declare_given(alloc, run, node, Attribute::Index)?;
    each_item(alloc, run, node, items)
}

#[cycle(run)]
#[tactic(auto, using(crate::proofs::Kept::keeping))]
fn each_item(
    alloc: Global,
    run: &mut Running,
    node: &Node,
    items: &[Value],
) -> Result<(), Failure<SharedBytes>>
    requires { HasIds run.old.env }
    ensures outcome { Does result run.new
        (each_item (members_of node.now) (map part (kids node.now)) 0 items.now (running_of run.old)) }
    ensures kept { KeepsRows run.old run.new }
{
    for place in 0..items.len() {
        one_item(alloc, run, node, place, &items[place])?;
    }
    Ok(())
}

#[cycle(run)]
#[tactic(auto, using(crate::proofs::Kept::keeping))]
fn one_item(
    alloc: Global,
    run: &mut Running,
    node: &Node,
    place: usize,
    item: &Value,
) -> Result<(), Failure<SharedBytes>>
    requires ids { HasIds run.old.env }
    requires place { place < 2 ^ 63 }
    ensures outcome { Does result run.new (on_done (run_parts (map part (kids node.now)))
        (on_done (with_name (λ name. write name (Int (pos place))) attribute.Index (members_of node.now))
        (with_name (λ name. write name item.now) attribute.Item (members_of node.now) (running_of run.old)))) }
    ensures kept { KeepsRows run.old run.new }
{
    set_names(run, node, place, item.copy()?)?;
    let kids = node.kids.slice();
    elements(alloc, run, kids, 0, kids.len())
}

/// The item is set before the index.
fn set_names(
    run: &mut Running,
    node: &Node,
    place: usize,
    item: Value,
) -> Result<(), Failure<SharedBytes>>
    requires { place < 2 ^ 63 }
    ensures outcome { Does result run.new
        (on_done (with_name (λ name. write name (Int (pos place))) attribute.Index (members_of node.now))
        (with_name (λ name. write name item) attribute.Item (members_of node.now) (running_of run.old))) }
    ensures kept { KeepsRows run.old run.new }
    ensures no_memory { result ≢ Err Failure.NoMemory }
{
    write_given(run, node, Attribute::Item, item)?;
    write_given(run, node, Attribute::Index, Value::Int(place as i64))
}

/// Declares the name that an attribute gives, where it is there.
fn declare_given(
    alloc: Global,
    run: &mut Running,
    node: &Node,
    attribute: Attribute,
) -> Result<(), Failure<SharedBytes>>
    ensures outcome { Does result run.new (with_name declared attribute (members_of node.now) (running_of run.old)) }
    ensures kept { KeepsRows run.old run.new }
{
    match node.text(attribute) {
        Some(name) => declare(alloc, run, name),
        None => Ok(()),
    }
}

/// Gives the datum that an attribute names a value, where the attribute is there.
fn write_given(
    run: &mut Running,
    node: &Node,
    attribute: Attribute,
    value: Value,
) -> Result<(), Failure<SharedBytes>>
    ensures outcome { Does result run.new
        (with_name (λ name. write name value) attribute (members_of node.now) (running_of run.old)) }
    ensures kept { KeepsRows run.old run.new }
    ensures no_memory { result ≢ Err Failure.NoMemory }
{
    match node.text(attribute) {
        Some(name) => write(run, name, value),
        None => Ok(()),
    }
}
