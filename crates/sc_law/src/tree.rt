ghost use Rattle.std.specs.Prelude.{◌≡◌, ◌++◌, IfOk, OnOk};
ghost use Rattle.std.specs.Option.{option_copied};
ghost use Rattle.sc_law.specs.Nodes.{elements, elements_from, element, node_at, leads_on, tag_of};
ghost use Rattle.sc_law.specs.Tree.{has_states, is_atomic_element};

use sc_types::{Chart, NoMemory, Node, Plain, Sequence, Tag};
use std::alloc::Global;

/// The places among child elements that lead from the root to an element.
pub type Path = Sequence<usize>;

/// Whether an element has child states. Histories are none.
pub fn has_states(node: &Node) -> bool
    ensures { result ≡ has_states node.now }
{
    node.kids.slice().iter().any(|kid| kid.tag.is_state())
}

/// Whether an element is a state without child states, or a final.
pub fn is_atomic_element(node: &Node) -> bool
    ensures { result ≡ is_atomic_element node.now (tag_of node.now) }
{
    match node.tag {
        Tag::State => !has_states(node),
        Tag::Final => true,
        _ => false,
    }
}

/// The paths of all elements of a chart, in document order.
pub fn element_paths(alloc: Global, chart: &Chart) -> Result<Sequence<Path>, NoMemory>
    ensures { IfOk result (λ p. p ≡ elements chart.now) }
{
    let mut paths = Sequence::new(alloc);
    let mut path = Sequence::new(alloc);
    add_paths(&mut paths, &chart.root, &mut path)?;
    Ok(paths)
}

/// Adds the path of an element, which is the one that is walked, and those of the elements below it.
#[cycle(paths)]
fn add_paths(out: &mut Sequence<Path>, node: &Node, path: &mut Path) -> Result<(), NoMemory>
    ensures paths { OnOk result (out.new ≡ out.old ++ elements_from node.now path.old) }
    ensures path { OnOk result (path.new ≡ path.old) }
{
    out.push(path.copy()?)?;
    for (place, kid) in node.kids.slice().iter().enumerate() {
        path.push(place)?;
        add_paths(out, kid, path)?;
        let _ = path.pop();
    }
    Ok(())
}

/// The element that a path leads to, where it leads to one.
pub fn node_at<'a>(node: &'a Node, path: &[usize]) -> Option<&'a Node>
    ensures { option_copied result ≡ node_at node.now path.now }
{
    let mut node = node;
    for place in path {
        node = node.kids.get(*place)?;
    }
    Some(node)
}

/// Whether a path leads on from another.
pub fn leads_on(above: &[usize], path: &[usize]) -> bool
    ensures { result ≡ leads_on above.now path.now }
{
    above.len() < path.len() && path.starts_with(above)
}

/// The element at a path; the root where there is none.
pub fn element<'a>(chart: &'a Chart, path: &[usize]) -> &'a Node
    ensures { result.now ≡ element chart.now path.now }
{
    match node_at(&chart.root, path) {
        Some(node) => node,
        None => &chart.root,
    }
}
