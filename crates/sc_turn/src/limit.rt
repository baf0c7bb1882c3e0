ghost use Rattle.std.specs.Prelude.{◌≡◌, ◌≤◌, None};
ghost use Rattle.std.specs.Char.{digit_value};
ghost use Rattle.std.specs.Str.Parse.{digits_value};
ghost use Rattle.sc_law.specs.Legality.{legal_fault};
ghost use Rattle.sc_law.specs.Turn.{round_limit};

use sc_types::{Attribute, Chart, DEFAULT_ROUNDS};

/// How many rounds a turn of a legal chart may have.
#[tactic(auto, using(crate::proofs::LimitLemmas::limits))]
pub(crate) fn round_limit(chart: &Chart) -> u64
    requires { legal_fault chart.now ≡ None }
    ensures { result ≡ round_limit chart.now }
{
    match chart.root.text(Attribute::Limit) {
        Some(text) => number_of(text),
        None => u64::from(DEFAULT_ROUNDS),
    }
}

/// The number that digits write, which is within the limits of charts.
fn number_of(text: &[u8]) -> u64
    requires { digits_value 10 text.now ≤ 10000 }
    ensures { result ≡ digits_value 10 text.now }
{
    let mut number = 0;
    for byte in text {
        number = number * 10 + digit(*byte);
    }
    number
}

/// What a byte is worth as a digit of base 36; 36 where it is none. The text of a limit that was read has decimal
/// digits alone.
fn digit(byte: u8) -> u64
    ensures { result ≡ digit_value byte }
{
    u64::from(char::from(byte).to_digit(36).unwrap_or(36))
}
