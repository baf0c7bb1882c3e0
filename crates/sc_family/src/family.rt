ghost use Rattle.std.specs.Prelude.{◌≡◌, ◌-◌, ◌<◌, ◌≤◌, None, IsOk, OnOk, OnErr, [], ◌∷◌, ◌++◌};
ghost use Rattle.std.specs.Option.{option_copied};
ghost use Rattle.sc_family.specs.Links.{link_for, is_live, cut_off};

use crate::link::Link;
use sc_base::NoMemory;
use sc_rooms::NameIndex;
use std::alloc::Global;
use std::marker::Model;

/// The links of the invoked sessions, and for how many more there is room.
#[derive(Drop)]
pub struct Family {
    links: Vec<Link>,
    index: NameIndex,
}

impl Model for Family {
    ghost use Rattle.std.specs.Prelude.{◌+◌, ◌≤◌, length, vec_capacity};
    ghost use Rattle.sc_rooms.specs.Chains.{IsIndex};
    ghost use Rattle.sc_family.specs.Links.{FamilyOf, names_of};

    ghost Value = { FamilyOf };

    ghost view = { λ f. record { links = f.links.items; spare = f.index.spare } };

    ghost invariant = { λ f. IsIndex (names_of f.links.items) f.index
        × (length f.links.items + f.index.spare ≤ vec_capacity f.links) };
}

impl Family {
    /// No links, and room for none.
    pub fn new(alloc: Global) -> Family
        ensures { result ≡ record { links = []; spare = 0 } }
    {
        Family {
            links: Vec::new(alloc),
            index: NameIndex::new(alloc),
        }
    }

    /// Makes room for at least so many more links. Out of memory, nothing is changed.
    pub fn reserve(&mut self, count: usize) -> Result<(), NoMemory>
        ensures links { self.new.links ≡ self.old.links }
        ensures spare { self.old.spare ≤ self.new.spare }
        ensures ok { OnOk result (count ≤ self.new.spare) }
        ensures err { OnErr result (self.new ≡ self.old) }
        ensures enough { count ≤ self.old.spare → IsOk result × (self.new ≡ self.old) }
    {
        if count <= self.index.spare() {
            return Ok(());
        }
        self.links.reserve(count)?;
        self.index.reserve(count)
    }

    /// Binds a session to its invoker.
    pub fn bind(&mut self, link: Link)
        requires room { 0 < self.old.spare }
        requires new { link_for link.child self.old.links ≡ None }
        ensures { self.new ≡ record { links = self.old.links ++ link ∷ []; spare = self.old.spare - 1 } }
    {
        self.index.add(self.links.as_slice(), link.child.bytes());
        self.links.push_reserved(link);
    }

    /// The link of an invoked session.
    pub fn link_of(&self, child: &[u8]) -> Option<&Link>
        ensures { option_copied result ≡ link_for child.now self.now.links }
    {
        let place = self.index.place_of(self.links.as_slice(), child)?;
        Some(&self.links[place])
    }

    /// Cuts a session off from its invoker, and says whether it was bound and not cut.
    pub fn cut(&mut self, child: &[u8]) -> bool
        ensures value { result ≡ is_live child.now self.old.links }
        ensures links { self.new.links ≡ cut_off child.now self.old.links }
        ensures spare { self.new.spare ≡ self.old.spare }
    {
        match self.index.place_of(self.links.as_slice(), child) {
            None => false,
            Some(place) => {
                let link = &mut self.links[place];
                let live = !link.cut;
                link.cut = true;
                live
            }
        }
    }
}
