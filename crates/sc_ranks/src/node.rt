ghost use Rattle.std.specs.Prelude.{◌≡◌, ◌+◌, ◌^◌, ◌<◌, ◌≤◌, Some, [], ◌∷◌, ◌++◌, length, insert, remove, slice_get, IfOk};
ghost use Rattle.sc_ranks.specs.Ranks.{place_of, IsRising};
ghost use Rattle.sc_ranks.specs.Nodes.{linked};

use crate::entry::{Entry, precedes};
use sc_base::NoMemory;
use std::alloc::Global;
use std::marker::Model;
use std::mem;

/// What may be a node below another.
pub type Link = Option<Box<Node>>;

/// An entry, with the entries that stand before it on its left and those that stand after it on its right, which
/// contracts see as the list of them all. The sizes of the sides tell where a place is, and keep the tree flat.
#[cycle(node)]
#[derive(Drop)]
pub struct Node {
    left: Option<Box<Node>>,
    entry: Entry,
    right: Option<Box<Node>>,
    // How many entries the node has.
    size: usize,
}

impl Model for Node {
    ghost use Rattle.std.specs.Prelude.{List, length, ◌≡◌, ◌++◌, ◌∷◌};
    ghost use Rattle.sc_ranks.specs.declared.entry.Entry.{Entry};

    ghost Value = { List Entry };

    ghost use Rattle.sc_ranks.specs.Nodes.{linked};

    ghost view = { λ n. linked n.left ++ n.entry ∷ linked n.right };

    ghost invariant = { λ n. n.size ≡ length (linked n.left ++ n.entry ∷ linked n.right) };

    ghost size = { length };

    ghost use Rattle.std.proofs.Common.{arith, length-append};

    ghost size_decreases = { λ n h. Prim.grind (arith, length-append) };
}

/// A node that was taken apart, and what it is made of.
#[derive(Drop)]
pub struct Parts {
    pub node: Box<Node>,
    pub left: Link,
    pub entry: Entry,
    pub right: Link,
}

fn empty() -> Node
    ensures { length result ≡ 1 }
{
    Node {
        left: None,
        entry: Entry {
            first: 0,
            number: 0,
            key: 0,
        },
        right: None,
        size: 1,
    }
}

/// A node to be used later.
pub fn fresh(alloc: Global) -> Result<Box<Node>, NoMemory> {
    Ok(Box::new(alloc, empty())?)
}

fn size_of(node: &Node) -> usize
    ensures { result ≡ length node.now }
{
    node.size
}

pub fn size(link: &Link) -> usize
    ensures { result ≡ length (linked link.now) }
{
    match link {
        None => 0,
        Some(node) => size_of(node),
    }
}

pub fn opened(mut node: Box<Node>) -> Parts
    ensures { node.value ≡ linked result.left ++ result.entry ∷ linked result.right }
{
    let Node {
        left,
        entry,
        right,
        ..
    } = mem::replace(&mut *node, empty());
    Parts {
        node,
        left,
        entry,
        right,
    }
}

/// A node with these sides.
pub fn joined(mut node: Box<Node>, left: Link, entry: Entry, right: Link) -> Box<Node>
    requires { length (linked left) + length (linked right) + 1 < 2 ^ 64 }
    ensures { result.value ≡ linked left ++ entry ∷ linked right }
{
    let size = size(&left) + size(&right) + 1;
    *node = Node {
        left,
        entry,
        right,
        size,
    };
    node
}

// Whether one side is heavier than the other by more than a factor of two.
fn is_heavier(size: usize, other: usize) -> bool {
    size > other && size - other > other
}

pub fn leans_left(node: &Node) -> bool {
    is_heavier(size(&node.left), size(&node.right))
}

pub fn leans_right(node: &Node) -> bool {
    is_heavier(size(&node.right), size(&node.left))
}

/// The entry at a place.
pub fn entry_at(link: &Link, place: usize) -> Option<Entry>
    ensures { result ≡ slice_get (linked link.now) place }
{
    let mut below = link;
    let mut rest = place;
    while let Some(node) = below {
        let node: &Node = node;
        let before = size(&node.left);
        if rest < before {
            below = &node.left;
        } else if rest > before {
            rest = rest - before - 1;
            below = &node.right;
        } else {
            return Some(node.entry);
        }
    }
    None
}

/// How many entries rank before this rank.
pub fn place_of(link: &Link, first: u64, number: u64) -> usize
    requires rising { IsRising (linked link.now) }
    requires fits { length (linked link.now) < 2 ^ 64 }
    ensures { result ≡ place_of first number (linked link.now) }
{
    let mut below = link;
    let mut place = 0;
    while let Some(node) = below {
        let node: &Node = node;
        if precedes(&node.entry, first, number) {
            place += size(&node.left) + 1;
            below = &node.right;
        } else {
            below = &node.left;
        }
    }
    place
}
