use json::{MAX_DEPTH, Reader, Scratch, Token};
use sc_base::NoMemory;
use std::alloc::Global;

/// The offset at which a reader of JSON cannot go on.
pub(crate) fn end_of_json(alloc: Global, text: &str) -> Result<usize, NoMemory> {
    let mut scratch = Scratch::new(alloc);
    let mut reader = Reader::new(text, &mut scratch)?;
    let _ = reader.skip_value(MAX_DEPTH);
    Ok(reader.offset())
}

/// The text from the element at a path on; `None` where there is none.
pub(crate) fn from_element<'t>(
    alloc: Global,
    text: &'t str,
    path: &[u32],
) -> Result<Option<&'t str>, NoMemory> {
    let mut rest = text.trim_start();
    for place in path {
        let Some(kids) = from_member(alloc, rest, "kids")? else {
            return Ok(None);
        };
        let Some(kid) = from_item(alloc, kids, *place)? else {
            return Ok(None);
        };
        rest = kid;
    }
    Ok(Some(rest))
}

/// The text from the value of a member on, in a text that begins with an object. Of two members with one name it is the
/// last.
pub(crate) fn from_member<'t>(
    alloc: Global,
    text: &'t str,
    name: &str,
) -> Result<Option<&'t str>, NoMemory> {
    let mut scratch = Scratch::new(alloc);
    let mut reader = Reader::new(text, &mut scratch)?;
    let mut found = None;
    if !matches!(reader.next(), Some(Token::BeginObject)) {
        return Ok(None);
    }
    for _ in 0..text.len() {
        match reader.next_key() {
            Ok(Some(key)) if key == name => found = text.get(reader.offset()..),
            Ok(Some(_)) => {}
            _ => return Ok(found),
        }
        if reader.skip_value(MAX_DEPTH).is_err() {
            return Ok(found);
        }
    }
    Ok(found)
}

/// The text from an item on, in a text that begins with an array.
fn from_item(alloc: Global, text: &str, place: u32) -> Result<Option<&str>, NoMemory> {
    let mut scratch = Scratch::new(alloc);
    let mut reader = Reader::new(text, &mut scratch)?;
    if !matches!(reader.next(), Some(Token::BeginArray)) {
        return Ok(None);
    }
    for _ in 0..place {
        if reader.skip_value(MAX_DEPTH).is_err() {
            return Ok(None);
        }
    }
    Ok(text.get(reader.offset()..))
}

/// The text of the value with which a text begins.
pub(crate) fn first_value(alloc: Global, text: &str) -> Result<&str, NoMemory> {
    let mut scratch = Scratch::new(alloc);
    let mut reader = Reader::new(text, &mut scratch)?;
    let _ = reader.skip_value(MAX_DEPTH);
    let value = text.get(..reader.offset()).unwrap_or(text);
    Ok(value.trim_end().trim_end_matches(',').trim_end())
}
