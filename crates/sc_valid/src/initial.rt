ghost use Rattle.std.specs.Prelude.{◌≡◌, IfOk, option_map, filter, true, not, ◌&&◌, ◌||◌};
ghost use Rattle.std.specs.List.{list_any};
ghost use Rattle.std.specs.Option.{option_copied, option_map_or};
ghost use Rattle.sc_types.specs.declared.chart.Tag.TheVariants as tag_name;
ghost use Rattle.sc_law.specs.Nodes.{tag_of, is_tag, element, parent};
ghost use Rattle.sc_law.specs.Tree.{is_atomic_element};
ghost use Rattle.sc_law.specs.Legality.{is_default, names_none, only_default, default_ids, is_bad_member, are_bad_defaults, is_bad_element, is_bad_initial, is_bad_recorded, are_bad_recorded, is_bad_history, is_state_or_parallel, are_below, targets};

use crate::index::{ChartIndex, parent};
use crate::tags::{has_kid, is_state_or_parallel};
use crate::target::are_below;
use sc_law::{Path, default_ids, has_states, is_atomic_element, leads_on};
use sc_types::{Attribute, Bytes, NoMemory, Node, Tag};
use std::alloc::Global;

impl<'c> ChartIndex<'c> {
    pub(crate) fn is_bad_initial(&self, alloc: Global, path: &[usize]) -> Result<bool, NoMemory>
        ensures { IfOk result (λ b. b ≡ is_bad_initial self.now path.now) }
    {
        let node = self.element(path);
        if path.is_empty() && !has_states(node) {
            return Ok(true);
        }
        if node.has(Attribute::Initial) && self.is_bad_member(alloc, path, node)? {
            return Ok(true);
        }
        match node.tag {
            Tag::Initial => self.is_bad_element(alloc, path),
            _ => Ok(false),
        }
    }

    /// Whether the attribute `initial` is not right.
    fn is_bad_member(&self, alloc: Global, path: &[usize], node: &Node) -> Result<bool, NoMemory>
        ensures { IfOk result (λ b. b ≡ is_bad_member self.now path.now node.now (tag_of node.now)) }
    {
        let targets = self.targets(alloc, node.words(Attribute::Initial))?;
        Ok(match node.tag {
            Tag::Scxml => {
                names_none(Attribute::Initial, node)
                    || !self.all_orthogonal(alloc, targets.slice())?
            }
            Tag::State => {
                names_none(Attribute::Initial, node)
                    || !has_states(node)
                    || has_kid(Tag::Initial, node)
                    || !are_below(path, targets.slice())
                    || !self.all_orthogonal(alloc, targets.slice())?
            }
            _ => false,
        })
    }

    /// Whether the element `initial` is not right.
    fn is_bad_element(&self, alloc: Global, path: &[usize]) -> Result<bool, NoMemory>
        ensures { IfOk result (λ b. b ≡ is_bad_element self.now path.now) }
    {
        match default_ids(self.element(path)) {
            Some(ids) => {
                let targets = self.targets(alloc, ids)?;
                self.are_bad_defaults(alloc, path, targets.slice())
            }
            None => Ok(true),
        }
    }

    fn are_bad_defaults(
        &self,
        alloc: Global,
        path: &[usize],
        targets: &[Path],
    ) -> Result<bool, NoMemory>
        ensures { IfOk result (λ b. b ≡ are_bad_defaults self.now path.now targets.now) }
    {
        if !path.is_empty() && is_bad_below(self.parent(path), parent(path), targets) {
            return Ok(true);
        }
        Ok(!self.all_orthogonal(alloc, targets)?)
    }

    pub(crate) fn is_bad_history(&self, alloc: Global, path: &[usize]) -> Result<bool, NoMemory>
        ensures { IfOk result (λ b. b ≡ is_bad_history self.now path.now) }
    {
        let node = self.element(path);
        match node.tag {
            Tag::History => self.is_bad_record(alloc, path, node),
            _ => Ok(false),
        }
    }

    fn is_bad_record(&self, alloc: Global, path: &[usize], node: &Node) -> Result<bool, NoMemory>
        ensures { IfOk result (λ b. b
            ≡ option_map_or (λ ids. are_bad_recorded self.now path.now (targets self.now ids))
            (default_ids node.now) true) }
    {
        match default_ids(node) {
            Some(ids) => {
                let targets = self.targets(alloc, ids)?;
                self.are_bad_recorded(alloc, path, targets.slice())
            }
            None => Ok(true),
        }
    }

    fn are_bad_recorded(
        &self,
        alloc: Global,
        path: &[usize],
        targets: &[Path],
    ) -> Result<bool, NoMemory>
        ensures { IfOk result (λ b. b ≡ are_bad_recorded self.now path.now targets.now) }
    {
        if self.is_any_bad_recorded(path, targets) {
            return Ok(true);
        }
        Ok(!self.all_orthogonal(alloc, targets)?)
    }

    fn is_any_bad_recorded(&self, path: &[usize], targets: &[Path]) -> bool
        ensures { result ≡ list_any (is_bad_recorded self.now path.now) targets.now }
    {
        targets
            .iter()
            .any(|target| self.is_bad_recorded(path, target.slice()))
    }

    /// A shallow history's target is a child of its parent, a deep one's is anywhere below it.
    fn is_bad_recorded(&self, path: &[usize], target: &[usize]) -> bool
        ensures { result ≡ is_bad_recorded self.now path.now target.now }
    {
        self.is_history(target)
            || path.is_empty()
            || !leads_on(parent(path), target)
            || !self.element(path).is_text(Attribute::Type, b"deep")
                && parent(target) != parent(path)
    }

    fn is_history(&self, path: &[usize]) -> bool
        ensures { result ≡ is_tag tag_name.History (tag_of (element self.now path.now)) }
    {
        matches!(self.tag(path), Tag::History)
    }
}

fn is_bad_below(node: &Node, path: &[usize], targets: &[Path]) -> bool
    ensures { result ≡ (is_atomic_element node.now (tag_of node.now)
        || is_state_or_parallel (tag_of node.now) && not (are_below path.now targets.now)) }
{
    is_atomic_element(node) || is_state_or_parallel(node.tag) && !are_below(path, targets)
}

/// Whether a list of names is empty, as in no chart that a text spells.
fn names_none(attribute: Attribute, node: &Node) -> bool
    ensures { result ≡ names_none attribute node.now }
{
    node.words(attribute).is_empty()
}
