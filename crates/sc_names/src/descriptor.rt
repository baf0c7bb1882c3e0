ghost use Rattle.std.specs.Prelude.{◌≡◌};
ghost use Rattle.sc_types.specs.Descriptors.{dropped, piece_matches};
ghost use Rattle.sc_names.specs.Bytes.{begins};

/// Whether one descriptor, a piece without white space, matches the name of an event.
#[tactic(auto, using(crate::proofs::BeginLemmas::starts_with_tokens), unfolding(sc_types::specs::Descriptors::piece_matches))]
pub fn piece_matches(piece: &[u8], name: &[u8]) -> bool
    ensures { result ≡ piece_matches piece.now name.now }
{
    piece == b"*".as_slice() || begins(without_end(piece), name)
}

fn without_end(piece: &[u8]) -> &[u8]
    ensures { result.now ≡ dropped piece.now }
{
    if piece.ends_with(b".*") {
        &piece[..piece.len() - 2]
    } else if piece.ends_with(b".") {
        &piece[..piece.len() - 1]
    } else {
        piece
    }
}

// The bytes of the descriptor begin the name, and the name ends there or goes on with a dot.
fn begins(piece: &[u8], name: &[u8]) -> bool
    ensures { result ≡ begins piece.now name.now }
{
    match name.strip_prefix(piece) {
        None => false,
        Some([]) => true,
        Some([first, ..]) => *first == b'.',
    }
}
