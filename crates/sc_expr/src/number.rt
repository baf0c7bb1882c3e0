ghost use Rattle.std.specs.Prelude.{◌≡◌, ◌^◌};
ghost use Rattle.sc_types.specs.Delays.{are_digits};
ghost use Rattle.sc_types.specs.Tokens.{number_of, positive, negative};
ghost use Rattle.sc_expr.specs.Numbers.{below, digits_number, has_leading_zero};

use sc_types::Token;

/// The number that decimal digits write; `None` where the text is not how it is written, or past 64 bits.
pub fn number_of(text: &[u8]) -> Option<u64>
    ensures { result ≡ below (2 ^ 64) (number_of text.now) }
{
    if has_leading_zero(text) {
        return None;
    }
    read_digits(text)
}

fn has_leading_zero(text: &[u8]) -> bool
    ensures { result ≡ has_leading_zero text.now }
{
    text.len() > 1 && text[0] == b'0'
}

fn are_digits(text: &[u8]) -> bool
    ensures { result ≡ are_digits text.now }
{
    text.iter().all(u8::is_ascii_digit)
}

/// The number of digits alone; `None` also where it takes more than 64 bits.
pub(crate) fn read_digits(text: &[u8]) -> Option<u64>
    ensures { result ≡ digits_number text.now }
{
    if !are_digits(text) {
        return None;
    }
    match std::str::from_utf8(text) {
        Ok(digits) => digits.parse::<u64>().ok(),
        Err(_) => None,
    }
}

/// The number of a run of letters and digits; bad where it is no number below 2^63.
pub(crate) fn positive(run: &[u8]) -> Token
    ensures { result ≡ positive (number_of run.now) }
{
    match number_of(run) {
        Some(number) if number < 1 << 63 => Token::Number(number as i64),
        _ => Token::Bad,
    }
}

/// The number of a run that stands behind a `-`; bad where it is no number from 1 to 2^63.
pub(crate) fn negative(run: &[u8]) -> Token
    ensures { result ≡ negative (number_of run.now) }
{
    match number_of(run) {
        Some(number) if 0 < number && number <= 1 << 63 => {
            Token::Number(-((number - 1) as i64) - 1)
        }
        _ => Token::Bad,
    }
}
