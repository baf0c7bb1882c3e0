ghost use Rattle.std.specs.Prelude.{◌≡◌, ◌<◌, ◌&&◌, length, IfOk, filter, if◌then◌else◌, not};
ghost use Rattle.sc_base.specs.Ascending.{with_number};
ghost use Rattle.sc_law.specs.Nodes.{leads_on, parent};
ghost use Rattle.sc_law.specs.Tree.{numbers_where};
ghost use Rattle.sc_tables.specs.Blocks.{IsBlock, is_history_in, is_child_path};

use crate::kinds::is_history;
use sc_base::NoMemory;
use sc_bits::Row;
use sc_law::{Path, leads_on};
use sc_types::StateKind;
use std::alloc::Global;

/// The states and histories below the element at a path, of which the first has the number `from`.
pub(crate) fn below_row(
    alloc: Global,
    paths: &[Path],
    path: &[usize],
    from: u32,
    width: u32,
) -> Result<Row, NoMemory>
    requires width { width ≡ length paths.now }
    requires block { IsBlock paths.now from path.now }
    ensures { IfOk result (λ r. r
        ≡ record { width = width; members = numbers_where (leads_on path.now) 0 paths.now }) }
{
    let mut row = Row::new(alloc, width)?;
    for state in from..width {
        if !leads_on(path, paths[state as usize].slice()) {
            return Ok(row);
        }
        row.add(state);
    }
    Ok(row)
}

/// The child states of the element at a path, of which the first has at least the number `from`.
pub(crate) fn child_row(
    alloc: Global,
    paths: &[Path],
    kinds: &[StateKind],
    path: &[usize],
    from: u32,
    width: u32,
) -> Result<Row, NoMemory>
    requires width { width ≡ length paths.now }
    requires kinds { length kinds.now ≡ length paths.now }
    requires block { IsBlock paths.now from path.now }
    ensures { IfOk result (λ r. r ≡ record {
      width = width;
      members = filter (λ kid. not (is_history_in kinds.now kid)) (numbers_where (is_child_path path.now) 0 paths.now);
    }) }
{
    let mut row = Row::new(alloc, width)?;
    for state in from..width {
        let own = paths[state as usize].slice();
        if !leads_on(path, own) {
            return Ok(row);
        }
        add_if(&mut row, is_child(kinds, path, own, state), state);
    }
    Ok(row)
}

fn add_if(row: &mut Row, test: bool, state: u32)
    requires { state < row.old.width }
    ensures width { row.new.width ≡ row.old.width }
    ensures members { row.new.members ≡ (if test then with_number state row.old.members else row.old.members) }
{
    if test {
        row.add(state);
    }
}

/// Whether a state or history of this path and number is a child state.
fn is_child(kinds: &[StateKind], above: &[usize], path: &[usize], state: u32) -> bool
    requires { state < length kinds.now }
    ensures { result ≡ (is_child_path above.now path.now && not (is_history_in kinds.now state)) }
{
    is_child_path(above, path) && !is_history(kinds[state as usize])
}

/// Whether a path is that of a child element.
fn is_child_path(above: &[usize], path: &[usize]) -> bool
    ensures { result ≡ is_child_path above.now path.now }
{
    !path.is_empty() && parent(path) == above
}

pub(crate) fn parent(path: &[usize]) -> &[usize]
    ensures { result.now ≡ parent path.now }
{
    &path[..path.len().saturating_sub(1)]
}
