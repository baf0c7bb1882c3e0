ghost use Rattle.std.specs.Prelude.{◌≡◌, ◌<◌, ◌≤◌, ◌∷◌, length};
ghost use Rattle.std.specs.List.{prefix_len};
ghost use Rattle.sc_types.specs.Tokens.{is_quote};
ghost use Rattle.sc_script.specs.Pairs.{next_quote, next_in_list, next_place, is_gap, is_outside, start, pieces};
ghost use Rattle.sc_script.specs.Pieces.{is_inner, piece_len};

/// Whether a byte stands within a text, that is between two of one quotation mark.
#[derive(Clone, Copy, Debug, PartialEq, Eq)]
pub(crate) enum Quote {
    Outside,
    /// Within a text that this mark ends.
    Within(u8),
    /// Behind a backslash in such a text.
    Escaped(u8),
}

/// Where a byte of the pairs stands.
#[derive(Clone, Copy, Debug, PartialEq, Eq)]
pub(crate) struct Place {
    quote: Quote,
    /// Between the brackets of a list.
    in_list: bool,
}

const START: Place = Place {
    quote: Quote::Outside,
    in_list: false,
};

fn is_quote(byte: u8) -> bool
    ensures { result ≡ is_quote byte }
{
    byte == b'\'' || byte == b'"'
}

fn next_quote(quote: Quote, byte: u8) -> Quote
    ensures { result ≡ next_quote quote byte }
{
    match quote {
        Quote::Outside => {
            if is_quote(byte) {
                Quote::Within(byte)
            } else {
                Quote::Outside
            }
        }
        Quote::Within(mark) => within(mark, byte),
        Quote::Escaped(mark) => Quote::Within(mark),
    }
}

fn within(mark: u8, byte: u8) -> Quote
    ensures { result ≡ next_quote (Quote.Within mark) byte }
{
    if byte == mark {
        Quote::Outside
    } else if byte == b'\\' {
        Quote::Escaped(mark)
    } else {
        Quote::Within(mark)
    }
}

fn next_in_list(place: Place, byte: u8) -> bool
    ensures { result ≡ next_in_list place.quote place.in_list byte }
{
    match place.quote {
        Quote::Outside => byte == b'[' || (place.in_list && byte != b']'),
        _ => place.in_list,
    }
}

fn next_place(place: Place, byte: u8) -> Place
    ensures { result ≡ next_place place byte }
{
    Place {
        quote: next_quote(place.quote, byte),
        in_list: next_in_list(place, byte),
    }
}

fn is_outside(quote: Quote) -> bool
    ensures { result ≡ is_outside quote }
{
    matches!(quote, Quote::Outside)
}

/// Whether a pair ends before this byte.
fn is_gap(place: Place, byte: u8) -> bool
    ensures { result ≡ is_gap place byte }
{
    byte == b' ' && is_outside(place.quote) && !place.in_list
}

/// Whether nothing begins or ends with this byte, neither a pair nor a text nor a list.
fn is_inner(byte: u8) -> bool
    ensures { result ≡ is_inner byte }
{
    byte > b'\'' && byte != b'['
}

#[tactic(auto, using(sc_expr::proofs::RunLemmas::front))]
fn inner_len(text: &[u8]) -> usize
    ensures { result ≡ prefix_len is_inner text.now }
{
    text.iter().take_while(|b| is_inner(**b)).count()
}

/// How many bytes stand before the first space between pairs. Most of them are told quickly.
#[tactic(auto, using(sc_expr::proofs::RunLemmas::front, crate::proofs::PieceLemmas::past_inner))]
fn piece_len(text: &[u8]) -> usize
    ensures { result ≡ piece_len start text.now }
{
    let inner = inner_len(text);
    inner + outer_len(&text[inner..])
}

/// The same, byte by byte.
fn outer_len(text: &[u8]) -> usize
    ensures value { result ≡ piece_len start text.now }
    ensures within { result ≤ length text.now }
{
    let mut place = START;
    for (i, byte) in text.iter().enumerate() {
        if is_gap(place, *byte) {
            return i;
        }
        place = next_place(place, *byte);
    }
    text.len()
}

/// What stands before the first space between pairs, and what stands behind that space.
pub(crate) fn cut_piece(text: &[u8]) -> (&[u8], &[u8])
    requires { 0 < length text.now }
    ensures piece { pieces start text.entry.now ≡ result.0.now ∷ pieces start result.1.now }
    ensures shorter { length result.1.now < length text.entry.now }
{
    let length = piece_len(text);
    if length < text.len() {
        (&text[..length], &text[length + 1..])
    } else {
        (text, &[])
    }
}

/// How many pieces of a text are not empty. No contract needs this number: it is how much memory a list of them takes.
pub(crate) fn count_pieces(text: &[u8]) -> usize {
    let mut count = 0usize;
    let mut rest = text;
    while !rest.is_empty() {
        let (piece, behind) = cut_piece(rest);
        if !piece.is_empty() {
            count = count.saturating_add(1);
        }
        rest = behind;
    }
    count
}
