ghost use Rattle.std.specs.Prelude.{◌≡◌, ◌+◌, length, IfOk, false, filter, map, slice_get, unwrap_or, []};
ghost use Rattle.std.specs.List.{range_with_len};
ghost use Rattle.sc_types.specs.Elements.{is_numbered};
ghost use Rattle.sc_law.specs.Nodes.{elements, element, tag_of};
ghost use Rattle.sc_law.specs.Tree.{state_paths, state_count, path_of, state_element};
ghost use Rattle.sc_law.specs.Kinds.{kind_of};
ghost use Rattle.sc_law.specs.Configurations.{children};
ghost use Rattle.sc_tables.specs.Blocks.{AreBelowRoot};
ghost use Rattle.sc_tables.specs.Built.{AreStates, HasKinds, below_of, children_of};
ghost use Rattle.sc_tables.specs.Preorder.{IsPreorder};
ghost use Rattle.sc_tables.specs.Rows.{row_of, below};

use crate::ids::state_number;
use crate::kinds::kind_of;
use crate::nearest::parents;
use crate::rows::{below_row, child_row};
use sc_bits::Row;
use sc_law::{Path, element};
use sc_types::{Chart, NoMemory, Plain, Sequence, StateKind};
use std::alloc::Global;

/// The states and histories of a chart by their numbers.
#[derive(Debug, Drop)]
pub(crate) struct States {
    pub(crate) paths: Sequence<Path>,
    pub(crate) parents: Sequence<Option<u32>>,
    pub(crate) kinds: Sequence<StateKind>,
    pub(crate) below: Sequence<Row>,
    /// The rows of the states, and behind them that of the root.
    pub(crate) children: Sequence<Row>,
}

impl States {
    /// The states of a chart whose elements have these paths.
    pub(crate) fn new(alloc: Global, chart: &Chart, all: &[Path]) -> Result<States, NoMemory>
        requires all { all.now ≡ elements chart.now }
        requires root { is_numbered (tag_of chart.now.root) ≡ false }
        ensures { IfOk result (AreStates chart.now) }
    {
        let paths = numbered(alloc, chart, all)?;
        let count = state_number(paths.len())?;
        let parents = parents(alloc, paths.slice())?;
        let kinds = kinds(alloc, chart, paths.slice())?;
        let below = below_rows(alloc, paths.slice(), count)?;
        let children = child_rows(alloc, paths.slice(), kinds.slice(), count)?;
        Ok(States {
            paths,
            parents,
            kinds,
            below,
            children,
        })
    }

    /// The path of a state; the empty one for any other number.
    pub(crate) fn path_of(&self, state: u32) -> &[usize]
        ensures { result.now ≡ unwrap_or (slice_get self.now.paths state) [] }
    {
        self.paths.get(state as usize).map_or(&[], Path::slice)
    }
}

/// The paths of the states and histories among elements.
fn numbered(alloc: Global, chart: &Chart, all: &[Path]) -> Result<Sequence<Path>, NoMemory>
    ensures { IfOk result (λ ps. ps ≡ filter (λ path. is_numbered (tag_of (element chart.now path))) all.now) }
{
    let mut paths = Sequence::new(alloc);
    for path in all {
        if element(chart, path.slice()).tag.is_numbered() {
            paths.push(path.copy()?)?;
        }
    }
    Ok(paths)
}

fn kinds(alloc: Global, chart: &Chart, paths: &[Path]) -> Result<Sequence<StateKind>, NoMemory>
    requires { paths.now ≡ state_paths chart.now }
    ensures { IfOk result (HasKinds chart.now) }
{
    let mut kinds = Sequence::new(alloc);
    for path in paths {
        kinds.push(kind_of(element(chart, path.slice())))?;
    }
    Ok(kinds)
}

/// For each state the row of what is below it.
fn below_rows(alloc: Global, paths: &[Path], count: u32) -> Result<Sequence<Row>, NoMemory>
    requires order { IsPreorder paths.now }
    requires count { count ≡ length paths.now }
    ensures { IfOk result (λ rs. rs ≡ map (below_of paths.now) (range_with_len 0 count)) }
{
    let mut rows = Sequence::new(alloc);
    for state in 0..count {
        let path = paths[state as usize].slice();
        rows.push(below_row(alloc, paths, path, state + 1, count)?)?;
    }
    Ok(rows)
}

/// For each state the row of its child states, and behind them that of the root.
fn child_rows(
    alloc: Global,
    paths: &[Path],
    kinds: &[StateKind],
    count: u32,
) -> Result<Sequence<Row>, NoMemory>
    requires order { IsPreorder paths.now }
    requires below { AreBelowRoot paths.now }
    requires count { count ≡ length paths.now }
    requires kinds { length kinds.now ≡ length paths.now }
    ensures { IfOk result (λ rs. rs ≡ map (children_of kinds.now paths.now) (range_with_len 0 (count + 1))) }
{
    let mut rows = Sequence::new(alloc);
    for state in 0..count {
        let path = paths[state as usize].slice();
        rows.push(child_row(alloc, paths, kinds, path, state + 1, count)?)?;
    }
    rows.push(child_row(alloc, paths, kinds, &[], 0, count)?)?;
    Ok(rows)
}
