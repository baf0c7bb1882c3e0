ghost use Rattle.std.specs.Prelude.{◌≡◌, ◌≤◌, IsTrue, length};
ghost use Rattle.std.specs.Str.Parse.{digits_value};
ghost use Rattle.sc_types.specs.Delays.{are_digits};
ghost use Rattle.sc_expr.specs.Numbers.{has_leading_zero};
ghost use Rattle.sc_script.specs.ShortNumbers.{is_short, short_value};

use sc_types::Value;

/// As many digits never pass 63 bits.
const DIGIT_LIMIT: usize = 18;

fn has_leading_zero(text: &[u8]) -> bool
    ensures { result ≡ has_leading_zero text.now }
{
    text.len() > 1 && text[0] == b'0'
}

fn are_digits(text: &[u8]) -> bool
    ensures { result ≡ are_digits text.now }
{
    text.iter().all(u8::is_ascii_digit)
}

fn is_short(text: &[u8]) -> bool
    ensures { result ≡ is_short text.now }
{
    !text.is_empty() && text.len() <= DIGIT_LIMIT && !has_leading_zero(text) && are_digits(text)
}

/// The number that so few digits write.
fn digits_value(text: &[u8]) -> u64
    requires digits { IsTrue (are_digits text.now) }
    requires short { length text.now ≤ 18 }
    ensures { result ≡ digits_value 10 text.now }
{
    let mut number = 0;
    for byte in text {
        number = number * 10 + (*byte - b'0') as u64;
    }
    number
}

/// The value of a number of at most 18 digits, without a sign; `None` of every other text. It is told faster than by
/// tokens.
pub(crate) fn short_value(text: &[u8]) -> Option<Value>
    ensures { result ≡ short_value text.now }
{
    if is_short(text) {
        Some(Value::Int(digits_value(text) as i64))
    } else {
        None
    }
}
