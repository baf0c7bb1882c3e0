ghost use Rattle.std.specs.Prelude.{◌≡◌};
ghost use Rattle.sc_ranks.specs.Ranks.{precedes};

/// A key and its rank.
#[derive(Clone, Copy, Debug)]
pub struct Entry {
    /// What counts most in the rank.
    pub first: u64,
    /// What counts among equal `first`.
    pub number: u64,
    pub key: usize,
}

pub fn precedes(entry: &Entry, first: u64, number: u64) -> bool
    ensures { result ≡ precedes first number entry.now }
{
    entry.first < first || entry.first == first && entry.number < number
}
