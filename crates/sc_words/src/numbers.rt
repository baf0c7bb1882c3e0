ghost use Rattle.std.specs.Prelude.{◌≡◌, ◌≤◌, IfSome, option_map};
ghost use Rattle.sc_words.specs.Numbers.{limited, number_of, within};
ghost use Rattle.sc_words.specs.Asked.{optional};

/// The number that a word writes; `None` where it writes none of 64 bits.
pub(crate) fn number_of(text: &str) -> Option<u64>
    ensures { result ≡ number_of text.now }
{
    text.parse::<u64>().ok()
}

fn within(least: u64, most: u64, number: u64) -> Option<u64>
    ensures { result ≡ within least most number }
{
    if number < least || number > most {
        return None;
    }
    Some(number)
}

/// The number that a word writes, where it is from `least` to `most`.
pub(crate) fn limited(text: &str, least: u64, most: u64) -> Option<u64>
    ensures { result ≡ limited least most text.now }
{
    within(least, most, number_of(text)?)
}

/// The number of an option: its default where the option is left out.
pub(crate) fn optional(text: Option<&str>, default: u64, least: u64, most: u64) -> Option<u64>
    ensures { result ≡ optional default least most (option_map (λ t. t.now) text.entry) }
{
    match text {
        Some(text) => limited(text, least, most),
        None => Some(default),
    }
}
