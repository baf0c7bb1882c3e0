ghost use Rattle.std.specs.Prelude.{◌≡◌, ◌<◌, ◌≤◌, length, IfOk};
ghost use Rattle.sc_tables.specs.Nearest.{HasParents, IsLast, IsNearest, IsPlaced};
ghost use Rattle.sc_tables.specs.Preorder.{IsPreorder};

use sc_law::{Path, leads_on};
use sc_types::{NoMemory, Sequence};
use std::alloc::Global;

/// The last one of the first `count` states whose path leads on to this one, found through the parents of states.
pub(crate) fn nearest(
    paths: &[Path],
    parents: &[Option<u32>],
    count: usize,
    path: &[usize],
) -> Option<u32>
    requires parents { HasParents paths.now parents.now }
    requires within { count ≤ length parents.now }
    requires small { length paths.now < 4294967296 }
    requires placed { IsPlaced paths.now count path.now }
    ensures { IsNearest paths.now count path.now result }
{
    let mut next = last(count);
    while let Some(number) = next {
        if leads_on(paths[number as usize].slice(), path) {
            return Some(number);
        }
        next = parents[number as usize];
    }
    None
}

/// The last of so many numbers from 0 on.
fn last(count: usize) -> Option<u32>
    requires { count < 4294967296 }
    ensures { IsLast count result }
{
    if count == 0 {
        None
    } else {
        Some((count - 1) as u32)
    }
}

/// The parents of states with these paths, which stand in document order.
pub(crate) fn parents(alloc: Global, paths: &[Path]) -> Result<Sequence<Option<u32>>, NoMemory>
    requires order { IsPreorder paths.now }
    requires small { length paths.now < 4294967296 }
    ensures { IfOk result (λ ps. HasParents paths.now ps × (length ps ≡ length paths.now)) }
{
    let mut parents = Sequence::new(alloc);
    for state in 0..paths.len() {
        let parent = nearest(paths, parents.slice(), state, paths[state].slice());
        parents.push(parent)?;
    }
    Ok(parents)
}
