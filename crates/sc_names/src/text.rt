ghost use Rattle.std.specs.Prelude.{◌≡◌, ◌&&◌, nat_lt, length};
ghost use Rattle.sc_types.specs.Descriptors.{is_white_space, piece_matches, matches};

use crate::descriptor::piece_matches;

/// Whether one of the descriptors of a text, between white space, matches the name of an event. A text
/// without descriptors matches nothing.
pub fn matches(list: &[u8], name: &[u8]) -> bool
    ensures { result ≡ matches list.now name.now }
{
    let mut start = 0;
    for (i, byte) in list.iter().enumerate() {
        if is_white_space(*byte) {
            if is_match(&list[start..i], name) {
                return true;
            }
            start = i + 1;
        }
    }
    is_match(&list[start..], name)
}

fn is_white_space(byte: u8) -> bool
    ensures { result ≡ is_white_space byte }
{
    matches!(byte, b' ' | b'\t' | b'\n' | b'\r')
}

// The empty text between two spaces is no descriptor.
fn is_match(piece: &[u8], name: &[u8]) -> bool
    ensures { result ≡ nat_lt 0 (length piece.now) && piece_matches piece.now name.now }
{
    !piece.is_empty() && piece_matches(piece, name)
}
