ghost use Rattle.std.specs.Prelude.{◌≡◌, ◌<◌, ◌++◌, IfOk, OnOk, IfSome, length, position};
ghost use Rattle.sc_types.specs.Descriptors.{is_white_space, pieces};
ghost use Rattle.sc_chart_json.specs.Pieces.{kept, is_tight};

use sc_types::{Bytes, NoMemory, Sequence};
use std::alloc::Global;

/// What stands between the white space of a text.
pub(crate) fn pieces(alloc: Global, text: &[u8]) -> Result<Sequence<Bytes>, NoMemory>
    ensures { IfOk result (λ ps. ps ≡ pieces text.now) }
{
    let mut pieces = Sequence::new(alloc);
    let mut rest = text;
    while let Some(place) = white_space_in(rest) {
        put_piece(alloc, &mut pieces, &rest[..place])?;
        rest = &rest[place + 1..];
    }
    put_piece(alloc, &mut pieces, rest)?;
    Ok(pieces)
}

/// The place of the first white space.
pub(crate) fn white_space_in(text: &[u8]) -> Option<usize>
    ensures value { result ≡ position is_white_space text.now }
    ensures within { IfSome result (λ place. place < length text.now) }
{
    text.iter().position(|b| is_white_space(*b))
}

/// Adds a piece; there is none between two spaces.
fn put_piece(alloc: Global, pieces: &mut Sequence<Bytes>, piece: &[u8]) -> Result<(), NoMemory>
    ensures { OnOk result (pieces.new ≡ pieces.old ++ kept piece.now) }
{
    if piece.is_empty() {
        return Ok(());
    }
    pieces.push(Bytes::from_slice(alloc, piece)?)
}

/// Whether a text has something in it, and no white space before or behind.
pub(crate) fn is_tight(text: &[u8]) -> bool
    ensures { result ≡ is_tight text.now }
{
    match text {
        [] => false,
        [first, ..] => { !is_white_space(*first) && !is_white_space(text[text.len() - 1]) }
    }
}

fn is_white_space(byte: u8) -> bool
    ensures { result ≡ is_white_space byte }
{
    matches!(byte, b' ' | b'\t' | b'\n' | b'\r')
}
