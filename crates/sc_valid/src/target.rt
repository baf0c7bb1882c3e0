ghost use Rattle.std.specs.Prelude.{◌≡◌, IfOk, map};
ghost use Rattle.std.specs.Cmp.Lexicographic.{slice_cmp};
ghost use Rattle.std.specs.List.{list_any};
ghost use Rattle.std.specs.List.Sorted.{IsPermutation, IsSortedByKey};
ghost use Rattle.std.specs.Ordering.{nat_cmp};
ghost use Rattle.std.specs.Prelude.{is_none};
ghost use Rattle.sc_law.specs.Nodes.{tag_of, is_tag, element};
ghost use Rattle.sc_law.specs.Legality.{path_named, target_ids, has_unknown_target, targets, common, is_history_of, are_orthogonal, all_orthogonal, are_below, is_transition, has_bad_targets, is_empty_transition};
ghost use Rattle.sc_types.specs.declared.chart.Tag.TheVariants as tag_name;
ghost use Rattle.sc_valid.specs.Neighbours.{all_neighbours};

use crate::index::{ChartIndex, parent};
use crate::tags::is_state_or_parallel;
use sc_law::{Path, leads_on};
use sc_types::{Attribute, Bytes, NoMemory, Node, Plain, Sequence, Tag};
use std::alloc::Global;

impl<'c> ChartIndex<'c> {
    /// Whether a target is no state's id.
    pub(crate) fn has_unknown_target(&self, path: &[usize]) -> bool
        ensures { result ≡ has_unknown_target self.now path.now }
    {
        self.has_unknown(target_ids(self.element(path)))
    }

    fn has_unknown(&self, ids: &[Bytes]) -> bool
        ensures { result ≡ list_any (λ id. is_none (path_named self.now id)) ids.now }
    {
        ids.iter().any(|id| self.is_unknown(id.slice()))
    }

    fn is_unknown(&self, id: &[u8]) -> bool
        ensures { result ≡ is_none (path_named self.now id.now) }
    {
        self.path_named(id).is_none()
    }

    /// The targets that there are.
    pub(crate) fn targets(&self, alloc: Global, ids: &[Bytes]) -> Result<Sequence<Path>, NoMemory>
        ensures { IfOk result (λ ts. ts ≡ targets self.now ids.now) }
    {
        let mut targets = Sequence::new(alloc);
        for id in ids {
            if let Some(path) = self.path_named(id.slice()) {
                targets.push(path.copy()?)?;
            }
        }
        Ok(targets)
    }

    fn is_history_of(&self, above: &[usize], path: &[usize]) -> bool
        ensures { result ≡ is_history_of self.now above.now path.now }
    {
        match self.tag(path) {
            Tag::History => parent(path) == above,
            _ => false,
        }
    }

    fn is_parallel(&self, path: &[usize]) -> bool
        ensures { result ≡ is_tag tag_name.Parallel (tag_of (element self.now path.now)) }
    {
        matches!(self.tag(path), Tag::Parallel)
    }

    /// Whether two targets can be active at once.
    fn are_orthogonal(&self, a: &[usize], b: &[usize]) -> bool
        ensures { result ≡ are_orthogonal self.now a.now b.now }
    {
        if a == b || leads_on(a, b) || leads_on(b, a) {
            return false;
        }
        let above = common(a, b);
        self.is_parallel(above) && !self.is_history_of(above, a) && !self.is_history_of(above, b)
    }

    /// Whether each two targets can be active at once. In document order it is enough to compare
    /// neighbours.
    pub(crate) fn all_orthogonal(&self, alloc: Global, paths: &[Path]) -> Result<bool, NoMemory>
        ensures { IfOk result (λ b. b ≡ all_orthogonal self.now paths.now) }
    {
        let ordered = in_order(alloc, paths)?;
        Ok(self.are_neighbours_orthogonal(ordered.as_slice()))
    }

    fn are_neighbours_orthogonal(&self, paths: &[&[usize]]) -> bool
        ensures { result ≡ all_neighbours (λ a b. are_orthogonal self.now a.now b.now) paths.now }
    {
        let mut rest = paths;
        while let [a, b, ..] = rest {
            if !self.are_orthogonal(*a, *b) {
                return false;
            }
            rest = &rest[1..];
        }
        true
    }

    /// Whether this is a transition of a state or a parallel.
    fn is_transition(&self, path: &[usize]) -> bool
        ensures { result ≡ is_transition self.now path.now }
    {
        match self.tag(path) {
            Tag::Transition => !path.is_empty() && is_state_or_parallel(self.parent(path).tag),
            _ => false,
        }
    }

    pub(crate) fn has_bad_targets(&self, alloc: Global, path: &[usize]) -> Result<bool, NoMemory>
        ensures { IfOk result (λ b. b ≡ has_bad_targets self.now path.now) }
    {
        if !self.is_transition(path) {
            return Ok(false);
        }
        let targets = self.targets(alloc, self.element(path).words(Attribute::Target))?;
        Ok(!self.all_orthogonal(alloc, targets.slice())?)
    }

    pub(crate) fn is_empty_transition(&self, path: &[usize]) -> bool
        ensures { result ≡ is_empty_transition self.now path.now }
    {
        let node = self.element(path);
        self.is_transition(path)
            && !node.has(Attribute::Event)
            && !node.has(Attribute::Cond)
            && !node.has(Attribute::Target)
    }
}

pub(crate) fn are_below(above: &[usize], paths: &[Path]) -> bool
    ensures { result ≡ are_below above.now paths.now }
{
    paths.iter().all(|path| leads_on(above, path.slice()))
}

/// The paths in document order.
fn in_order<'p>(alloc: Global, paths: &'p [Path]) -> Result<Vec<&'p [usize]>, NoMemory>
    ensures permutation { IfOk result (λ v. IsPermutation paths.now (map (λ p. p.now) v.items)) }
    ensures sorted { IfOk result (λ v. IsSortedByKey (λ p. p.now) (slice_cmp nat_cmp) v.items) }
{
    let mut ordered = Vec::new(alloc);
    for path in paths {
        ordered.push(path.slice())?;
    }
    ordered.sort_unstable();
    Ok(ordered)
}

/// The ids that an element names as targets.
fn target_ids(node: &Node) -> &[Bytes]
    ensures { result.now ≡ target_ids node.now (tag_of node.now) }
{
    match node.tag {
        Tag::Transition => node.words(Attribute::Target),
        Tag::Scxml | Tag::State => node.words(Attribute::Initial),
        _ => &[],
    }
}

/// What two paths have in common from the root on.
fn common<'p>(a: &'p [usize], b: &[usize]) -> &'p [usize]
    ensures { result.now ≡ common a.now b.now }
{
    let mut count = 0;
    while count < a.len() && count < b.len() && a[count] == b[count] {
        count += 1;
    }
    &a[..count]
}
