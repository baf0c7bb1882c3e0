ghost use Rattle.std.specs.Prelude.{◌≡◌, ◌<◌, OnOk};
ghost use Rattle.sc_law.specs.Content.{run_blocks};
ghost use Rattle.sc_law.specs.Data.{with_tag};
ghost use Rattle.sc_law.specs.Tree.{kids_of, state_count};
ghost use Rattle.sc_eval.specs.Envs.{HasIds};
ghost use Rattle.sc_exec.specs.Runs.{running_of, KeepsRows};

use sc_base::NoMemory;
use sc_exec::{Running, run_block};
use sc_tables::Tables;
use sc_types::{Node, Tag};
use std::alloc::Global;

/// The child elements of a state.
pub(crate) fn kids_of(t: &Tables, s: u32) -> &[Node]
    requires { s < state_count t.now }
    ensures { result.now ≡ kids_of t.now s }
{
    // The path of a state leads to an element, since the chart is legal.
    let _chart = t.chart();
    t.element(s).kids.slice()
}

/// Runs each of these elements as a block of its own.
#[tactic(auto, using(sc_exec::proofs::Kept::keeping))]
pub(crate) fn run_each(alloc: Global, run: &mut Running, nodes: &[Node]) -> Result<(), NoMemory>
    requires { HasIds run.old.env }
    ensures ok { OnOk result (running_of run.new ≡ run_blocks nodes.now (running_of run.old)) }
    ensures kept { KeepsRows run.old run.new }
{
    for node in nodes {
        run_block(alloc, run, node.kids.slice())?;
    }
    Ok(())
}

/// The same of those that have a tag.
#[tactic(auto, using(sc_exec::proofs::Kept::keeping))]
pub(crate) fn run_tagged(
    alloc: Global,
    run: &mut Running,
    tag: Tag,
    nodes: &[Node],
) -> Result<(), NoMemory>
    requires { HasIds run.old.env }
    ensures ok { OnOk result (running_of run.new ≡ run_blocks (with_tag tag nodes.now) (running_of run.old)) }
    ensures kept { KeepsRows run.old run.new }
{
    for node in nodes {
        if tag == node.tag {
            run_block(alloc, run, node.kids.slice())?;
        }
    }
    Ok(())
}
