use sc_base::NoMemory;
use std::alloc::Global;

/// What other languages have in expressions and this one has not, and what stands for it here.
const OTHERS: [(&str, &str); 9] = [
    ("===", "write == for ==="),
    ("!==", "write != for !=="),
    ("++", "there is no ++: write x + 1 for it"),
    ("--", "there is no --: write x - 1 for it"),
    (" and ", "write && for and"),
    (" or ", "write || for or"),
    ("not ", "write ! for not"),
    ("?", "there is no ? and :"),
    (";", "an expression ends without a ;"),
];

/// What to change in a text that is no expression.
pub(crate) fn expression_tip(alloc: Global, text: &str) -> Result<String, NoMemory> {
    if text.trim().is_empty() {
        return Ok(String::from_str(alloc, "it is empty")?);
    }
    for (other, told) in OTHERS {
        if let Some(offset) = text.find(other) {
            return at(alloc, offset, told);
        }
    }
    if let Some(offset) = single_equals(text) {
        return at(alloc, offset, "write == for =");
    }
    if let Some(offset) = fraction(text) {
        return at(alloc, offset, "numbers are whole");
    }
    if text.matches('(').count() > text.matches(')').count() {
        return at(alloc, text.len(), "a ) is missing");
    }
    Ok(String::from_str(
        alloc,
        "a text stands in quotes, as in 'open', and docs/FORMATS.md says what else there is",
    )?)
}

fn at(alloc: Global, offset: usize, told: &str) -> Result<String, NoMemory> {
    let byte = offset.saturating_add(1);
    Ok(format!(in alloc; "at byte {byte} of it: {told}")?)
}

/// Where the first `=` stands that is no part of `==`, `!=`, `<=` or `>=`.
fn single_equals(text: &str) -> Option<usize> {
    let mut before = ' ';
    for (offset, letter) in text.char_indices() {
        let is_alone = !text.get(offset..)?.starts_with("==");
        if letter == '=' && is_alone && !matches!(before, '=' | '!' | '<' | '>') {
            return Some(offset);
        }
        before = letter;
    }
    None
}

/// Where the first point stands between two digits.
fn fraction(text: &str) -> Option<usize> {
    text.as_bytes().windows(3).position(|three| match three {
        [a, b'.', c] => a.is_ascii_digit() && c.is_ascii_digit(),
        _ => false,
    })
}
