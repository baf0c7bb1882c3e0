ghost use Rattle.std.specs.Prelude.{◌≡◌, ◌<◌, ◌==◌, [], OnOk, filter, flat_map, if◌then◌else◌, true};
ghost use Rattle.sc_base.specs.Ascending.{contains};
ghost use Rattle.sc_types.specs.declared.chart.Chart.{Chart};
ghost use Rattle.sc_types.specs.declared.chart.Tag.TheVariants as tag_name;
ghost use Rattle.sc_law.specs.Configurations.{parent_of};
ghost use Rattle.sc_law.specs.Content.{run_blocks};
ghost use Rattle.sc_law.specs.Data.{with_tag};
ghost use Rattle.sc_law.specs.Entering.{enter, enter_state, initial_of, join, late_data, noted_of};
ghost use Rattle.sc_law.specs.Nodes.{is_tag, kids, tag_of};
ghost use Rattle.sc_law.specs.Tree.{kids_of, state_count};
ghost use Rattle.sc_eval.specs.Envs.{HasIds};
ghost use Rattle.sc_exec.specs.Runs.{running_of, KeepsRows};
ghost use Rattle.sc_sets.specs.Triples.{HasWidth, triple_of};
ghost use Rattle.sc_select.specs.Runs.{IsRunOf};

use crate::blocks::{kids_of, run_each, run_tagged};
use crate::done::tell;
use sc_base::NoMemory;
use sc_exec::{Running, is_late, state_data};
use sc_sets::Entry3;
use sc_tables::Tables;
use sc_types::{Node, Tag};
use std::alloc::Global;

/// Enters states in document order. SCXML Appendix D, enterStates.
#[tactic(auto, using(sc_select::proofs::RunLemmas::runs))]
pub(crate) fn enter(
    alloc: Global,
    run: &mut Running,
    t: &Tables,
    e: &Entry3,
) -> Result<(), NoMemory>
    requires run { IsRunOf t.now run.old }
    requires width { HasWidth (state_count t.now) e.now }
    ensures ok { OnOk result (running_of run.new ≡ enter t.now (triple_of e.now) (running_of run.old)) }
    ensures run { IsRunOf t.now run.new }
{
    // The number of the root is past every state's.
    let _root = t.count();
    let mut from = 0;
    while let Some(s) = e.states.next(from) {
        enter_state(alloc, run, t, e, s)?;
        from = s + 1;
    }
    Ok(())
}

/// Enters one state: it joins the configuration, then come its data, its `<onentry>` blocks, the content of its default
/// and of its histories' defaults, and what a final state tells. SCXML 3.8.
#[tactic(auto, using(sc_select::proofs::RunLemmas::runs))]
fn enter_state(
    alloc: Global,
    run: &mut Running,
    t: &Tables,
    e: &Entry3,
    s: u32,
) -> Result<(), NoMemory>
    requires run { IsRunOf t.now run.old }
    requires width { HasWidth (state_count t.now) e.now }
    requires s { s < state_count t.now }
    ensures ok { OnOk result (running_of run.new ≡ enter_state t.now (triple_of e.now) s (running_of run.old)) }
    ensures run { IsRunOf t.now run.new }
{
    let was_entered = run.entered.has(s);
    join(run, s);
    late_data(alloc, run, t, s, was_entered)?;
    run_tagged(alloc, run, Tag::OnEntry, kids_of(t, s))?;
    run_initial(alloc, run, t, e, s)?;
    run_noted(alloc, run, t, e.noted.slice(), s)?;
    tell(alloc, run, t, s)
}

/// A state joins the configuration, and the states whose invokes are to be started.
fn join(run: &mut Running, s: u32)
    requires configuration { s < run.old.env.configuration.width }
    requires entered { s < run.old.entered.width }
    requires todo { s < run.old.todo.width }
    ensures value { running_of run.new ≡ join s (running_of run.old) }
    ensures run { (c : Chart) → IsRunOf c run.old → IsRunOf c run.new }
{
    run.env.configuration.add(s);
    run.entered.add(s);
    run.todo.add(s);
}

/// Under late binding the data of a state are initialised when it is entered first. SCXML 5.2.
fn late_data(
    alloc: Global,
    run: &mut Running,
    t: &Tables,
    s: u32,
    was_entered: bool,
) -> Result<(), NoMemory>
    requires ids { HasIds run.old.env }
    requires s { s < state_count t.now }
    ensures ok { OnOk result (running_of run.new ≡ late_data t.now s was_entered (running_of run.old)) }
    ensures kept { KeepsRows run.old run.new }
{
    if was_entered || !is_late(t.chart()) {
        return Ok(());
    }
    state_data(alloc, run, t.element(s))
}

/// The content of the default of a state, where it is entered by its default. SCXML 3.6.
fn run_initial(
    alloc: Global,
    run: &mut Running,
    t: &Tables,
    e: &Entry3,
    s: u32,
) -> Result<(), NoMemory>
    requires ids { HasIds run.old.env }
    requires width { HasWidth (state_count t.now) e.now }
    requires s { s < state_count t.now }
    ensures ok { OnOk result (running_of run.new
        ≡ run_blocks (initial_of t.now (triple_of e.now) s) (running_of run.old)) }
    ensures kept { KeepsRows run.old run.new }
{
    if e.defaults.has(s) {
        return run_defaults(alloc, run, kids_of(t, s));
    }
    Ok(())
}

/// Runs the transitions of the `<initial>` among elements.
#[tactic(auto, using(sc_exec::proofs::Kept::keeping))]
fn run_defaults(alloc: Global, run: &mut Running, nodes: &[Node]) -> Result<(), NoMemory>
    requires ids { HasIds run.old.env }
    ensures ok { OnOk result (running_of run.new
        ≡ run_blocks (flat_map kids (with_tag tag_name.Initial nodes.now)) (running_of run.old)) }
    ensures kept { KeepsRows run.old run.new }
{
    for node in nodes {
        run_default(alloc, run, node)?;
    }
    Ok(())
}

/// Runs the transitions of an element that is `<initial>`.
fn run_default(alloc: Global, run: &mut Running, node: &Node) -> Result<(), NoMemory>
    requires { HasIds run.old.env }
    ensures ok { OnOk result (running_of run.new
        ≡ run_blocks (if is_tag tag_name.Initial (tag_of node.now) then kids node.now else []) (running_of run.old)) }
    ensures kept { KeepsRows run.old run.new }
{
    if is_initial(node.tag) {
        return run_each(alloc, run, node.kids.slice());
    }
    Ok(())
}

fn is_initial(tag: Tag) -> bool
    ensures { result ≡ is_tag tag_name.Initial tag }
{
    matches!(tag, Tag::Initial)
}

/// The default content of those of the noted histories that stand in a state. SCXML 3.10.
#[tactic(auto, using(sc_exec::proofs::Kept::keeping))]
fn run_noted(
    alloc: Global,
    run: &mut Running,
    t: &Tables,
    noted: &[u32],
    s: u32,
) -> Result<(), NoMemory>
    requires ids { HasIds run.old.env }
    requires s { s < state_count t.now }
    ensures ok { OnOk result (running_of run.new
        ≡ run_blocks (flat_map (kids_of t.now) (filter (λ h. parent_of t.now h == s) noted.now)) (running_of run.old)) }
    ensures kept { KeepsRows run.old run.new }
{
    for history in noted {
        run_default_of(alloc, run, t, *history, s)?;
    }
    Ok(())
}

/// The default content of a history, where it stands in a state.
fn run_default_of(
    alloc: Global,
    run: &mut Running,
    t: &Tables,
    history: u32,
    s: u32,
) -> Result<(), NoMemory>
    requires ids { HasIds run.old.env }
    requires s { s < state_count t.now }
    ensures ok { OnOk result (running_of run.new
        ≡ run_blocks (if parent_of t.now history == s then kids_of t.now history else []) (running_of run.old)) }
    ensures kept { KeepsRows run.old run.new }
{
    if is_child(t, history, s) {
        return run_each(alloc, run, kids_of(t, history));
    }
    Ok(())
}

/// Whether a number is that of a state or history that stands in a state.
fn is_child(t: &Tables, child: u32, s: u32) -> bool
    requires { s < state_count t.now }
    ensures value { result ≡ (parent_of t.now child == s) }
    ensures within { result ≡ true → child < state_count t.now }
{
    if child >= t.count() {
        return false;
    }
    match t.parent(child) {
        Some(parent) => parent == s,
        None => false,
    }
}
