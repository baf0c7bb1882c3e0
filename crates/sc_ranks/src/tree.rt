ghost use Rattle.std.specs.Prelude.{◌≡◌, ◌+◌, ◌^◌, ◌<◌, ◌≤◌, Some, ◌∷◌, ◌++◌, length, insert, remove, slice_get};
ghost use Rattle.sc_ranks.specs.Ranks.{place_of, IsRising};
ghost use Rattle.sc_ranks.specs.Nodes.{linked};

use crate::entry::{Entry, precedes};
use crate::node::{Link, Node, Parts, joined, leans_left, leans_right, opened, size};

/// What is left of a tree without one entry, that entry, and the node that it had.
#[derive(Drop)]
pub struct Without {
    pub rest: Link,
    pub entry: Entry,
    pub node: Box<Node>,
}

// Whether one side is heavier than the other by more than a factor of three.
fn is_heavier(size: usize, other: usize) -> bool {
    size / 3 > other
}

// The same entries, with the right side's node above the other.
fn turned_left(node: Box<Node>, left: Link, entry: Entry, right: Box<Node>) -> Box<Node>
    requires { length (linked left) + length right.value + 1 < 2 ^ 64 }
    ensures { result.value ≡ linked left ++ entry ∷ right.value }
{
    let upper = opened(right);
    let lower = joined(node, left, entry, upper.left);
    joined(upper.node, Some(lower), upper.entry, upper.right)
}

// The same entries, with the left side's node above the other.
fn turned_right(node: Box<Node>, left: Box<Node>, entry: Entry, right: Link) -> Box<Node>
    requires { length left.value + length (linked right) + 1 < 2 ^ 64 }
    ensures { result.value ≡ left.value ++ entry ∷ linked right }
{
    let upper = opened(left);
    let lower = joined(node, upper.right, entry, right);
    joined(upper.node, upper.left, upper.entry, Some(lower))
}

// The same entries, with the heavy inner side of a right side above it.
fn with_light_left(node: Box<Node>) -> Box<Node>
    requires { length node.value < 2 ^ 64 }
    ensures { result.value ≡ node.value }
{
    if !leans_left(&node) {
        return node;
    }
    let Parts {
        node,
        left,
        entry,
        right,
    } = opened(node);
    match left {
        None => joined(node, None, entry, right),
        Some(left) => turned_right(node, left, entry, right),
    }
}

// The same entries, with the heavy inner side of a left side above it.
fn with_light_right(node: Box<Node>) -> Box<Node>
    requires { length node.value < 2 ^ 64 }
    ensures { result.value ≡ node.value }
{
    if !leans_right(&node) {
        return node;
    }
    let Parts {
        node,
        left,
        entry,
        right,
    } = opened(node);
    match right {
        None => joined(node, left, entry, None),
        Some(right) => turned_left(node, left, entry, right),
    }
}

// A flat tree of two sides, of which one has changed by one entry.
fn balanced(node: Box<Node>, left: Link, entry: Entry, right: Link) -> Box<Node>
    requires { length (linked left) + length (linked right) + 1 < 2 ^ 64 }
    ensures { result.value ≡ linked left ++ entry ∷ linked right }
{
    let (before, behind) = (size(&left), size(&right));
    match (left, right) {
        (left, Some(right)) if is_heavier(behind, before) => {
            turned_left(node, left, entry, with_light_left(right))
        }
        (Some(left), right) if is_heavier(before, behind) => {
            turned_right(node, with_light_right(left), entry, right)
        }
        (left, right) => joined(node, left, entry, right),
    }
}

/// The tree with an entry put in at a place, in this node.
pub fn inserted(link: Link, place: usize, entry: Entry, node: Box<Node>) -> Box<Node>
    requires place { place ≤ length (linked link) }
    requires fits { length (linked link) + 1 < 2 ^ 64 }
    ensures { result.value ≡ insert (linked link) place entry }
{
    let Some(top) = link else {
        return joined(node, None, entry, None);
    };
    let top = opened(top);
    let before = size(&top.left);
    if place <= before {
        let left = inserted(top.left, place, entry, node);
        balanced(top.node, Some(left), top.entry, top.right)
    } else {
        let right = inserted(top.right, place - before - 1, entry, node);
        balanced(top.node, top.left, top.entry, Some(right))
    }
}

// The tree without its first entry.
fn without_first(node: Box<Node>) -> Without
    requires { length node.value < 2 ^ 64 }
    ensures { node.value ≡ result.entry ∷ linked result.rest }
{
    let Parts {
        node,
        left,
        entry,
        right,
    } = opened(node);
    match left {
        None => Without {
            rest: right,
            entry,
            node,
        },
        Some(left) => {
            let first = without_first(left);
            Without {
                rest: Some(balanced(node, first.rest, entry, right)),
                entry: first.entry,
                node: first.node,
            }
        }
    }
}

// A flat tree of two sides with nothing between them.
fn glued(left: Link, right: Link) -> Link
    requires { length (linked left) + length (linked right) < 2 ^ 64 }
    ensures { linked result ≡ linked left ++ linked right }
{
    match right {
        None => left,
        Some(right) => {
            let first = without_first(right);
            Some(balanced(first.node, left, first.entry, first.rest))
        }
    }
}

/// The tree without the entry at a place.
pub fn removed(node: Box<Node>, place: usize) -> Without
    requires place { place < length node.value }
    requires fits { length node.value < 2 ^ 64 }
    ensures rest { linked result.rest ≡ remove node.value place }
    ensures len { length (linked result.rest) + 1 ≡ length node.value }
    ensures entry { slice_get node.value place ≡ Some result.entry }
{
    let Parts {
        node,
        left,
        entry,
        right,
    } = opened(node);
    let before = size(&left);
    if place == before {
        return Without {
            rest: glued(left, right),
            entry,
            node,
        };
    }
    if place < before {
        let Some(left) = left else { unreachable!() };
        let taken = removed(left, place);
        Without {
            rest: Some(balanced(node, taken.rest, entry, right)),
            entry: taken.entry,
            node: taken.node,
        }
    } else {
        let Some(right) = right else { unreachable!() };
        let taken = removed(right, place - before - 1);
        Without {
            rest: Some(balanced(node, left, entry, taken.rest)),
            entry: taken.entry,
            node: taken.node,
        }
    }
}
