ghost use Rattle.std.specs.Prelude.{◌≡◌, ◌<◌, ◌≤◌, ◌^◌, length, IfSome, IsTrue};
ghost use Rattle.std.specs.List.{prefix_len};
ghost use Rattle.sc_base.specs.Text.{is_digit};
ghost use Rattle.sc_types.specs.Delays.{are_digits, delay_of, limited, milliseconds, seconds, seconds_of, whole_seconds, fraction_seconds};
ghost use Rattle.sc_expr.specs.Numbers.{short_number};

use crate::number::read_digits;

/// The longest delay, in milliseconds.
const LONGEST: u64 = 1_000_000_000_000;

/// The milliseconds of a delay as `10ms`, `1.5s` or `.5s`; `None` exactly where the text is none. It takes no
/// memory.
#[tactic(auto, unfolding(sc_types::specs::Delays::delay_of))]
pub fn read_delay(text: &[u8]) -> Option<u64>
    ensures { result ≡ delay_of text.now }
{
    if text.ends_with(b"ms") {
        return milliseconds(&text[..text.len() - 2]);
    }
    if text.ends_with(b"s") {
        return seconds(&text[..text.len() - 1]);
    }
    None
}

fn limited(delay: u64) -> Option<u64>
    ensures { result ≡ limited delay }
{
    if delay <= LONGEST { Some(delay) } else { None }
}

fn milliseconds(text: &[u8]) -> Option<u64>
    ensures { result ≡ milliseconds text.now }
{
    if text.is_empty() || text.len() > 13 {
        return None;
    }
    limited(short_number(text)?)
}

/// The number of digits, of which there may be none; `None` where another byte stands among them.
fn short_number(text: &[u8]) -> Option<u64>
    requires { length text.now ≤ 13 }
    ensures value { result ≡ short_number text.now }
    ensures bound { IfSome result (λ n. n < 10 ^ 13) }
{
    if text.is_empty() {
        Some(0)
    } else {
        read_digits(text)
    }
}

#[tactic(auto, using(crate::proofs::RunLemmas::front))]
fn seconds(text: &[u8]) -> Option<u64>
    ensures { result ≡ seconds text.now }
{
    let length = digits_len(text);
    seconds_of(&text[..length], &text[length..])
}

#[tactic(auto, using(crate::proofs::RunLemmas::front))]
fn digits_len(text: &[u8]) -> usize
    ensures { result ≡ prefix_len is_digit text.now }
{
    text.iter().take_while(|b| b.is_ascii_digit()).count()
}

fn seconds_of(whole: &[u8], behind: &[u8]) -> Option<u64>
    requires { IsTrue (are_digits whole.now) }
    ensures { result ≡ seconds_of whole.now behind.now }
{
    match behind {
        [] => whole_seconds(whole),
        [first, fraction @ ..] => {
            if *first == b'.' {
                fraction_seconds(whole, fraction)
            } else {
                None
            }
        }
    }
}

fn whole_seconds(whole: &[u8]) -> Option<u64>
    requires { IsTrue (are_digits whole.now) }
    ensures { result ≡ whole_seconds whole.now }
{
    if whole.is_empty() || whole.len() > 13 {
        return None;
    }
    limited(short_number(whole)? * 1000)
}

fn fraction_seconds(whole: &[u8], fraction: &[u8]) -> Option<u64>
    requires { IsTrue (are_digits whole.now) }
    ensures { result ≡ fraction_seconds whole.now fraction.now }
{
    if whole.len() > 13 || fraction.is_empty() || fraction.len() > 3 {
        return None;
    }
    let thousandths = short_number(fraction)? * power_of_ten(3 - fraction.len());
    limited(short_number(whole)? * 1000 + thousandths)
}

fn power_of_ten(exponent: usize) -> u64
    requires { exponent < 3 }
    ensures value { result ≡ 10 ^ exponent }
    ensures bound { result ≤ 100 }
{
    match exponent {
        0 => 1,
        1 => 10,
        _ => 100,
    }
}
