ghost use Rattle.std.specs.Prelude.{◌≡◌};
ghost use Rattle.sc_types.specs.Profiles.{text_limit, profile_named};

use sc_base::{LONG_TEXT_LIMIT, TEXT_LIMIT};

/// Which values the expressions of a chart can make. A value that is only read is taken as it is, whatever made it.
#[derive(Clone, Copy, Debug, PartialEq, Eq)]
pub enum Profile {
    /// Texts of at most 4,096 bytes, and lists of integers and texts.
    Flat,
    /// Texts of at most 65,536 bytes, and lists of integers, texts and lists.
    Nested,
}

/// How many profiles a chart may name: `1` is [`Profile::Flat`], `2` is [`Profile::Nested`].
pub const PROFILE_COUNT: u32 = 1;

impl Profile {
    /// The most bytes of a text that an expression writes or makes.
    pub fn text_limit(self) -> usize
        ensures { result ≡ text_limit self }
    {
        match self {
            Profile::Flat => TEXT_LIMIT,
            Profile::Nested => LONG_TEXT_LIMIT,
        }
    }

    /// The profile that the member `values` of a chart names by this text.
    pub fn named(text: &[u8]) -> Option<Profile>
        ensures { result ≡ profile_named text.now }
    {
        if text == b"1".as_slice() {
            Some(Profile::Flat)
        } else if PROFILE_COUNT >= 2 && text == b"2".as_slice() {
            Some(Profile::Nested)
        } else {
            None
        }
    }
}
