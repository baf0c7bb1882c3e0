ghost use Rattle.std.specs.Prelude.{◌≡◌, ◌<◌, ◌^◌, nat_lt, length, IsTrue};
ghost use Rattle.std.specs.List.{list_all};
ghost use Rattle.std.specs.Str.Parse.{digits_value};
ghost use Rattle.sc_types.specs.Delays.{are_digits};
ghost use Rattle.sc_types.specs.Descriptors.{pieces};
ghost use Rattle.sc_types.specs.Elements.{is_word_within, are_pieces, is_either, has_leading_zero, is_limit, has_form};
ghost use Rattle.sc_base.specs.Text.{is_word, is_plain_name};
ghost use Rattle.sc_chart_json.specs.Pieces.{kept, is_piece};

use crate::pieces::{is_tight, white_space_in};
use sc_expr::read_delay;
use sc_types::{
    EVENT_NAME_LIMIT, Form, ID_LIMIT, NAME_LIMIT, Profile, TYPE_NAME_LIMIT, is_plain_name, is_text,
    is_word,
};

/// Whether a text has this form. Expressions are left to their reader.
pub(crate) fn has_form(form: Form, text: &[u8]) -> bool
    ensures { result ≡ has_form form text.now }
{
    match form {
        Form::Id => is_word_within(ID_LIMIT, text),
        Form::Ids | Form::PlainNames | Form::Descriptors => are_pieces(form, text),
        Form::PlainName => is_plain_name(text),
        Form::EventName => is_word_within(EVENT_NAME_LIMIT, text),
        Form::SendTarget => text.len() <= 512,
        Form::TypeName => text.len() <= TYPE_NAME_LIMIT,
        Form::TransitionType => is_either("external", "internal", text),
        Form::HistoryType => is_either("shallow", "deep", text),
        Form::DataModel => is_either("whole", "null", text),
        Form::Binding => is_either("early", "late", text),
        Form::Truth => is_either("false", "true", text),
        Form::Limit => is_limit(text),
        Form::Profile => Profile::named(text).is_some(),
        Form::Version => text == "1.0".as_bytes(),
        Form::NameSpace => text == "http://www.w3.org/2005/07/scxml".as_bytes(),
        Form::ChartName => is_word_within(NAME_LIMIT, text),
        Form::Label => is_text(text),
        Form::Delay => read_delay(text).is_some(),
        Form::Code => true,
    }
}

fn is_word_within(limit: usize, text: &[u8]) -> bool
    ensures { result ≡ is_word_within limit text.now }
{
    text.len() <= limit && is_word(text)
}

fn is_either(a: &str, b: &str, text: &[u8]) -> bool
    ensures { result ≡ is_either a.now b.now text.now }
{
    text == a.as_bytes() || text == b.as_bytes()
}

/// Whether a text is one or more pieces of this form.
#[tactic(auto, unfolding(sc_types::specs::Elements::are_pieces))]
fn are_pieces(form: Form, text: &[u8]) -> bool
    ensures { result ≡ are_pieces (is_piece form) text.now }
{
    is_tight(text) && are_all_pieces(form, text)
}

fn are_all_pieces(form: Form, text: &[u8]) -> bool
    ensures { result ≡ list_all (is_piece form) (pieces text.now) }
{
    let mut rest = text;
    while let Some(place) = white_space_in(rest) {
        if !is_piece_or_empty(form, &rest[..place]) {
            return false;
        }
        rest = &rest[place + 1..];
    }
    is_piece_or_empty(form, rest)
}

/// There is no piece between two spaces.
fn is_piece_or_empty(form: Form, piece: &[u8]) -> bool
    ensures { result ≡ list_all (is_piece form) (kept piece.now) }
{
    piece.is_empty() || is_piece(form, piece)
}

fn is_piece(form: Form, piece: &[u8]) -> bool
    ensures { result ≡ is_piece form piece.now }
{
    match form {
        Form::Ids => is_word_within(ID_LIMIT, piece),
        Form::PlainNames => is_plain_name(piece),
        _ => is_word(piece),
    }
}

/// Decimal digits without a leading zero, of a number of 32 bits.
#[tactic(auto, unfolding(sc_types::specs::Elements::is_limit))]
fn is_limit(text: &[u8]) -> bool
    ensures { result ≡ is_limit text.now }
{
    !text.is_empty()
        && text.len() <= 10
        && are_digits(text)
        && !has_leading_zero(text)
        && is_of_32_bits(text)
}

fn has_leading_zero(text: &[u8]) -> bool
    ensures { result ≡ has_leading_zero text.now }
{
    text.len() > 1 && text[0] == b'0'
}

fn are_digits(text: &[u8]) -> bool
    ensures { result ≡ are_digits text.now }
{
    text.iter().all(u8::is_ascii_digit)
}

fn is_of_32_bits(digits: &[u8]) -> bool
    requires some { 0 < length digits.now }
    requires each { IsTrue (are_digits digits.now) }
    ensures { result ≡ nat_lt (digits_value 10 digits.now) (2 ^ 32) }
{
    match std::str::from_utf8(digits) {
        Ok(text) => text.parse::<u32>().is_ok(),
        Err(_) => false,
    }
}
