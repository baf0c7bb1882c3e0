ghost use Rattle.std.specs.Prelude.{◌≡◌, None, ℕ, List, OnOk};
ghost use Rattle.std.specs.Option.{option_copied};
ghost use Rattle.sc_valid.specs.Firsts.{first_of, IsPut, IsAdded};

use sc_law::Path;
use sc_types::{Attribute, NoMemory, Node, Plain};
use std::alloc::Global;
use std::collections::BTreeMap;

/// The path of the first element of each id.
#[derive(Drop)]
pub(crate) struct Firsts {
    paths: BTreeMap<Vec<u8>, Path>,
}

impl Firsts {
    pub(crate) fn new(alloc: Global) -> Firsts
        ensures { (id : List ℕ) → first_of result id ≡ None }
    {
        Firsts {
            paths: BTreeMap::new(alloc),
        }
    }

    pub(crate) fn find(&self, id: &[u8]) -> Option<&Path>
        ensures { option_copied result ≡ first_of self.now id.now }
    {
        self.paths.get(id)
    }

    /// Adds the path of an element of the table's kind. An id that is there already keeps its path.
    pub(crate) fn add(
        &mut self,
        alloc: Global,
        is_kind: bool,
        node: &Node,
        path: &Path,
    ) -> Result<(), NoMemory>
        ensures { OnOk result (IsAdded self.old is_kind node.now path.now self.new) }
    {
        if !is_kind {
            return Ok(());
        }
        match node.text(Attribute::Id) {
            Some(id) => self.put(alloc, id, path),
            None => Ok(()),
        }
    }

    // Ids seldom come twice, so the table is not asked first: where one does, its path is put back.
    fn put(&mut self, alloc: Global, id: &[u8], path: &Path) -> Result<(), NoMemory>
        ensures { OnOk result (IsPut self.old id.now path.now self.new) }
    {
        let key = Vec::from_slice(alloc, id)?;
        let before = self.paths.insert(key, path.copy()?)?;
        if let Some(first) = before {
            let key = Vec::from_slice(alloc, id)?;
            self.paths.insert(key, first)?;
        }
        Ok(())
    }
}
