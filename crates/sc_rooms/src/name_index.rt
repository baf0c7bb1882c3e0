ghost use Rattle.std.specs.Prelude.{◌≡◌, ℕ, ◌+◌, ◌-◌, ◌<◌, ◌≤◌, ◌==◌, None, [], ◌∷◌, ◌++◌, length, map, List, if◌then◌else◌, MatchOption, OnOk, OnErr};
ghost use Rattle.indexmap.specs.IndexMap.{spare as map_room};
ghost use Rattle.std.specs.Str.{bytes_eq};
ghost use Rattle.sc_rooms.specs.Chains.{hash_of, hashes_of, end_of, IsIndex, IsLast, IsChained, IsNew, IsPlaceOf};
ghost use Rattle.sc_rooms.specs.Rooms.{place_of};

use indexmap::IndexMap;
use sc_base::{NoMemory, Word};
use std::alloc::Global;

/// What is found by a name.
pub trait HasName {
    ghost name: { Self → List ℕ };

    fn name(&self) -> &Word
        ensures { result.now ≡ name self.now };
}

impl HasName for Word {
    ghost name = { λ w. w };

    fn name(&self) -> &Word {
        self
    }
}

/// An index of the names of a list of items, which are distinct, with room for more. The list stands with whoever has
/// the index. A name is found at a cost that does not grow with their number.
#[derive(Drop)]
pub struct NameIndex {
    // The place of the name before each in its chain.
    earlier: Vec<usize>,
    // By the hash of a name, the end of its chain.
    ends: IndexMap<u64, usize>,
    spare: usize,
}

impl NameIndex {
    /// The index of no items.
    pub fn new(alloc: Global) -> NameIndex
        ensures index { IsIndex [] result }
        ensures spare { result.spare ≡ 0 }
    {
        NameIndex {
            earlier: Vec::new(alloc),
            ends: IndexMap::new(alloc),
            spare: 0,
        }
    }

    /// For how many more names there is room.
    pub fn spare(&self) -> usize
        ensures { result ≡ self.now.spare }
    {
        self.spare
    }

    /// Makes room for so many more names. Out of memory, the room stays as it was.
    pub fn reserve(&mut self, count: usize) -> Result<(), NoMemory>
        ensures index { (names : List (List ℕ)) → IsIndex names self.old → IsIndex names self.new }
        ensures ok { OnOk result (self.new.spare ≡ count) }
        ensures err { OnErr result (self.new.spare ≡ self.old.spare) }
    {
        self.earlier.reserve(count)?;
        self.ends.reserve(count)?;
        self.spare = count;
        Ok(())
    }

    /// Where the item of a name stands.
    pub fn place_of<T: HasName>(&self, items: &[T], name: &[u8]) -> Option<usize>
        requires { IsIndex (map T.name items.now) self.now }
        ensures value { result ≡ place_of name.now (map T.name items.now) }
        ensures found { MatchOption result (IsNew name.now (map T.name items.now))
            (IsPlaceOf name.now (map T.name items.now)) }
    {
        let end = end_of(&self.ends, hash_of(name));
        place_in_chain(items, self.earlier.as_slice(), end, name)
    }

    /// Enters a new name behind those of these items.
    pub fn add<T: HasName>(&mut self, items: &[T], name: &[u8])
        requires room { 0 < self.old.spare }
        requires index { IsIndex (map T.name items.now) self.old }
        requires new { place_of name.now (map T.name items.now) ≡ None }
        ensures index { IsIndex (map T.name items.now ++ name.now ∷ []) self.new }
        ensures spare { self.new.spare ≡ self.old.spare - 1 }
    {
        let hash = hash_of(name);
        let before = end_of(&self.ends, hash);
        self.earlier.push_reserved(before);
        let place = self.earlier.len();
        set_end(&mut self.ends, hash, place);
        self.spare -= 1;
    }
}

#[tactic(auto, unfolding(crate::specs::Chains::hash_of))]
fn hash_of(bytes: &[u8]) -> u64
    ensures { result ≡ hash_of bytes.now }
{
    let mut hash = 14695981039346656037u64;
    for byte in bytes {
        hash = (hash ^ *byte as u64).wrapping_mul(1099511628211);
    }
    hash
}

fn is_name<T: HasName>(item: &T, name: &[u8]) -> bool
    ensures { result ≡ bytes_eq (T.name item.now) name.now }
{
    item.name().bytes() == name
}

// The place of a name, whose chain ends at `end`.
fn place_in_chain<T: HasName>(
    items: &[T],
    earlier: &[usize],
    end: usize,
    name: &[u8],
) -> Option<usize>
    requires chained { IsChained (hashes_of (map T.name items.now)) earlier.now }
    requires end { IsLast (hashes_of (map T.name items.now)) (length items.now) (hash_of name.now) end }
    ensures { MatchOption result (IsNew name.now (map T.name items.now)) (IsPlaceOf name.now (map T.name items.now)) }
{
    let mut at = end;
    while at > 0 {
        let place = at - 1;
        if is_name(&items[place], name) {
            return Some(place);
        }
        at = earlier[place];
    }
    None
}

fn end_of(ends: &IndexMap<u64, usize>, hash: u64) -> usize
    ensures { result ≡ end_of ends.now hash }
{
    ends.get(&hash).copied().unwrap_or(0)
}

fn set_end(ends: &mut IndexMap<u64, usize>, hash: u64, end: usize)
    requires { 0 < map_room ends.old }
    ensures value { (h : ℕ) → end_of ends.new h ≡ (if h == hash then end else end_of ends.old h) }
    ensures room { map_room ends.old ≤ map_room ends.new + 1 }
{
    match ends.insert(hash, end) {
        Ok(_) => {}
        Err(_) => unreachable!(),
    }
}
