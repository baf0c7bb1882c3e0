ghost use Rattle.std.specs.Prelude.{◌≡◌, None, OnOk, true};
ghost use Rattle.sc_law.specs.Nodes.{Path};
ghost use Rattle.std.specs.Option.{option_copied};
ghost use Rattle.sc_valid.specs.FirstKids.{first_kid, place_of, IsKept};

use crate::tags::is_tag;
use sc_law::Path;
use sc_types::{NoMemory, Node, Plain, Tag};
use std::alloc::Global;
use std::collections::BTreeMap;

/// Where the first child element of a tag stands, of the parents that it was kept for. Each `elseif` of an `if` asks
/// for the first `else`, and a scan for each would take time in the square of their number.
#[derive(Drop)]
pub(crate) struct FirstKids {
    places: BTreeMap<Vec<usize>, Option<usize>>,
}

impl FirstKids {
    pub(crate) fn new(alloc: Global) -> FirstKids
        ensures { (path : Path) → place_of result path ≡ None }
    {
        FirstKids {
            places: BTreeMap::new(alloc),
        }
    }

    /// The place that was kept; `Some(None)` says that the parent has no such child element.
    pub(crate) fn find(&self, path: &[usize]) -> Option<&Option<usize>>
        ensures { option_copied result ≡ place_of self.now path.now }
    {
        self.places.get(path)
    }

    /// Keeps the place for a parent of the table's kind.
    pub(crate) fn add(
        &mut self,
        is_kind: bool,
        tag: Tag,
        node: &Node,
        path: &Path,
    ) -> Result<(), NoMemory>
        ensures { OnOk result (IsKept self.old is_kind path.now (first_kid tag node.now) self.new) }
    {
        if !is_kind {
            return Ok(());
        }
        self.put(path, first_kid(tag, node))
    }

    fn put(&mut self, path: &Path, place: Option<usize>) -> Result<(), NoMemory>
        ensures { OnOk result (IsKept self.old true path.now place self.new) }
    {
        self.places.insert(path.copy()?.into_vec(), place)?;
        Ok(())
    }
}

/// The place of the first child element of a tag.
pub(crate) fn first_kid(tag: Tag, node: &Node) -> Option<usize>
    ensures { result ≡ first_kid tag node.now }
{
    node.kids
        .slice()
        .iter()
        .position(|kid| is_tag(tag, kid.tag))
}
