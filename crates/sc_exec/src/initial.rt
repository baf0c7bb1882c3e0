ghost use Rattle.std.specs.Prelude.{◌≡◌, [], OnOk};
ghost use Rattle.sc_base.specs.Folds.{each};
ghost use Rattle.sc_types.specs.declared.chart.Tag.TheVariants as tag;
ghost use Rattle.sc_law.specs.Nodes.{element, is_root, is_tag, parent, tag_of};
ghost use Rattle.sc_law.specs.Data.{begin_datum, data_of, declare_datum, first_data, initial_value, initialise, is_late, own_id, put};
ghost use Rattle.sc_law.specs.Runs.{with_env};
ghost use Rattle.sc_eval.specs.Envs.{HasIds};
ghost use Rattle.sc_exec.specs.Runs.{running_of, KeepsRows};
ghost use Rattle.sc_exec.specs.Initial.{data_among, data_in, of_model};

use crate::events::enqueue_failure;
use crate::running::Running;
use crate::values::{datum_name, value_of};
use sc_base::{NoMemory, Plain, PlainName, SharedBytes};
use sc_eval::{EvalFault, last_pair};
use sc_law::{Path, element, element_paths};
use sc_types::{Attribute, Chart, Node, Tag, Value};
use std::alloc::Global;

fn own_id(node: &Node) -> &[u8]
    ensures { result.now ≡ own_id node.now }
{
    match node.text(Attribute::Id) {
        Some(id) => id,
        None => &[],
    }
}

fn put(run: &mut Running, name: &[u8], value: Option<Value>)
    ensures value { running_of run.new
        ≡ with_env (put name.now value (running_of run.old).env) (running_of run.old) }
    ensures kept { KeepsRows run.old run.new }
{
    run.env.values.put(name, value);
}

/// A datum whose `expr` has no value is unset, and `error.execution` is enqueued. SCXML 5.3.
fn initial_value(alloc: Global, run: &mut Running, node: &Node) -> Result<(), NoMemory>
    requires { HasIds run.old.env }
    ensures ok { OnOk result (running_of run.new ≡ initial_value node.now (running_of run.old)) }
    ensures kept { KeepsRows run.old run.new }
{
    let Some(code) = node.expr(Attribute::Expr) else {
        put(run, own_id(node), None);
        return Ok(());
    };
    let value = value_of(alloc, &run.env, code)?;
    if value.is_none() {
        enqueue_failure(alloc, run, SharedBytes::empty())?;
    }
    put(run, own_id(node), value);
    Ok(())
}

/// Gives a datum its initial value: the one that was passed for it, or that of its `expr`. SCXML 5.3 and 6.4.1.
pub fn initialise(
    alloc: Global,
    run: &mut Running,
    params: &[(PlainName, Value)],
    node: &Node,
) -> Result<(), NoMemory>
    requires { HasIds run.old.env }
    ensures ok { OnOk result (running_of run.new ≡ initialise params.now node.now (running_of run.old)) }
    ensures kept { KeepsRows run.old run.new }
{
    match last_pair(params, own_id(node)) {
        Some(value) => {
            put(run, own_id(node), Some(value.copy()?));
            Ok(())
        }
        None => initial_value(alloc, run, node),
    }
}

fn declare_datum(alloc: Global, run: &mut Running, node: &Node) -> Result<(), NoMemory>
    ensures ok { OnOk result (running_of run.new ≡ declare_datum node.now (running_of run.old)) }
    ensures kept { KeepsRows run.old run.new }
{
    let name = datum_name(alloc, own_id(node))?;
    match run.env.declare(&name) {
        Err(EvalFault::NoMemory) => Err(NoMemory),
        _ => Ok(()),
    }
}

fn is_data_item(node: &Node) -> bool
    ensures { result ≡ is_tag tag.DataItem (tag_of node.now) }
{
    matches!(node.tag, Tag::DataItem)
}

fn is_data_model(node: &Node) -> bool
    ensures { result ≡ is_tag tag.DataModel (tag_of node.now) }
{
    matches!(node.tag, Tag::DataModel)
}

fn parent(path: &[usize]) -> &[usize]
    ensures { result.now ≡ parent path.now }
{
    &path[..path.len().saturating_sub(1)]
}

fn is_of_root(path: &[usize]) -> bool
    ensures { result ≡ is_root (parent (parent path.now)) }
{
    parent(parent(path)).len() == 0
}

/// Whether the data of states are initialised when their state is entered first. SCXML 5.2.
pub fn is_late(chart: &Chart) -> bool
    ensures { result ≡ is_late chart.now }
{
    chart.root.is_text(Attribute::Binding, "late".as_bytes())
}

#[tactic(auto, using(crate::proofs::Kept::keeping))]
fn declare_all(
    alloc: Global,
    run: &mut Running,
    chart: &Chart,
    paths: &[Path],
) -> Result<(), NoMemory>
    ensures ok { OnOk result (running_of run.new ≡ each (λ path. declare_datum (element chart.now path))
        (data_among chart.now paths.now) (running_of run.old)) }
    ensures kept { KeepsRows run.old run.new }
{
    for path in paths {
        let node = element(chart, path.slice());
        if is_data_item(node) {
            declare_datum(alloc, run, node)?;
        }
    }
    Ok(())
}

fn begin_datum(
    alloc: Global,
    run: &mut Running,
    chart: &Chart,
    params: &[(PlainName, Value)],
    path: &Path,
) -> Result<(), NoMemory>
    requires { HasIds run.old.env }
    ensures ok { OnOk result (running_of run.new ≡ begin_datum chart.now params.now path.now (running_of run.old)) }
    ensures kept { KeepsRows run.old run.new }
{
    if is_of_root(path.slice()) {
        return initialise(alloc, run, params, element(chart, path.slice()));
    }
    if is_late(chart) {
        return Ok(());
    }
    initialise(alloc, run, &[], element(chart, path.slice()))
}

#[tactic(auto, using(crate::proofs::Kept::keeping))]
fn begin_all(
    alloc: Global,
    run: &mut Running,
    chart: &Chart,
    params: &[(PlainName, Value)],
    paths: &[Path],
) -> Result<(), NoMemory>
    requires { HasIds run.old.env }
    ensures ok { OnOk result (running_of run.new ≡ each (begin_datum chart.now params.now)
        (data_among chart.now paths.now) (running_of run.old)) }
    ensures kept { KeepsRows run.old run.new }
{
    for path in paths {
        if is_data_item(element(chart, path.slice())) {
            begin_datum(alloc, run, chart, params, path)?;
        }
    }
    Ok(())
}

/// Declares the data of a chart, and gives those of the root, and under early binding those of the states, their
/// initial values. What was passed goes to the root's data. SCXML 5.2 and 5.3.
#[tactic(auto, using(crate::proofs::Kept::keeping), unfolding(sc_law::specs::Data::first_data))]
pub fn first_data(
    alloc: Global,
    run: &mut Running,
    chart: &Chart,
    params: &[(PlainName, Value)],
) -> Result<(), NoMemory>
    requires { HasIds run.old.env }
    ensures ok { OnOk result (running_of run.new ≡ first_data chart.now params.now (running_of run.old)) }
    ensures kept { KeepsRows run.old run.new }
{
    let paths = element_paths(alloc, chart)?;
    declare_all(alloc, run, chart, paths.slice())?;
    begin_all(alloc, run, chart, params, paths.slice())
}

#[tactic(auto, using(crate::proofs::Kept::keeping))]
fn initialise_all(alloc: Global, run: &mut Running, items: &[Node]) -> Result<(), NoMemory>
    requires { HasIds run.old.env }
    ensures ok { OnOk result (running_of run.new ≡ each (initialise []) items.now (running_of run.old)) }
    ensures kept { KeepsRows run.old run.new }
{
    for item in items {
        initialise(alloc, run, &[], item)?;
    }
    Ok(())
}

fn model_data(alloc: Global, run: &mut Running, node: &Node) -> Result<(), NoMemory>
    requires { HasIds run.old.env }
    ensures ok { OnOk result (running_of run.new ≡ each (initialise []) (of_model node.now) (running_of run.old)) }
    ensures kept { KeepsRows run.old run.new }
{
    if is_data_model(node) {
        return initialise_all(alloc, run, node.kids.slice());
    }
    Ok(())
}

#[tactic(auto, using(crate::proofs::Kept::keeping))]
fn data_in(alloc: Global, run: &mut Running, kids: &[Node]) -> Result<(), NoMemory>
    requires { HasIds run.old.env }
    ensures ok { OnOk result (running_of run.new ≡ each (initialise []) (data_in kids.now) (running_of run.old)) }
    ensures kept { KeepsRows run.old run.new }
{
    for kid in kids {
        model_data(alloc, run, kid)?;
    }
    Ok(())
}

/// Gives the data of a state their initial values, whatever was assigned to them before, as under late binding where
/// the state is entered first. SCXML 5.2.
pub fn state_data(alloc: Global, run: &mut Running, state: &Node) -> Result<(), NoMemory>
    requires { HasIds run.old.env }
    ensures ok { OnOk result (running_of run.new ≡ each (initialise []) (data_of state.now) (running_of run.old)) }
    ensures kept { KeepsRows run.old run.new }
{
    data_in(alloc, run, state.kids.slice())
}
