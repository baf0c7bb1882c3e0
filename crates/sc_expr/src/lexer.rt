ghost use Rattle.std.specs.Prelude.{◌≡◌, ◌<◌, ◌==◌, ◌&&◌, [], ◌∷◌, length, drop, slice_index, option_map, IfOk, OnErr, MatchOption};
ghost use Rattle.std.specs.List.{take_while, prefix_len};
ghost use Rattle.sc_types.specs.Descriptors.{is_white_space};
ghost use Rattle.sc_base.specs.Text.{is_digit};
ghost use Rattle.sc_types.specs.Tokens.{tokens, op_text, mark_text, op_at, mark_at, bad, read_sign, is_word_byte, run_token, read_token, read_run, read_negative, escape, is_quote, is_plain_byte, quoted, read_quoted, first_token, without_white};

use crate::number::{negative, positive};
use sc_base::{Bytes, NoMemory, is_text_within};
use sc_types::{Mark, Op, Profile, Token};
use std::alloc::Global;
use std::marker::Model;

/// Takes one token after the other from the front of a text. Contracts see it as the tokens that are ahead. Where
/// numbers may be signed, a `-` right before a digit belongs to the number.
#[derive(Drop)]
pub(crate) struct Lexer<'a> {
    rest: &'a [u8],
    profile: Profile,
    signed: bool,
}

impl<'a> Model for Lexer<'a> {
    ghost use Rattle.std.specs.Prelude.{List};
    ghost use Rattle.sc_types.specs.Tokens.{tokens};
    ghost use Rattle.sc_types.specs.declared.token.Token.{Token};

    ghost Value = { List Token };

    ghost view = { λ l. tokens l.profile l.signed l.rest.now };
}

impl<'a> Lexer<'a> {
    pub(crate) fn new(text: &'a [u8], profile: Profile, signed: bool) -> Lexer<'a>
        ensures { result ≡ tokens profile signed text.now }
    {
        Lexer {
            rest: text,
            profile,
            signed,
        }
    }

    /// The next token; `None` at the end. Behind a bad token nothing is read.
    pub(crate) fn next(&mut self, alloc: Global) -> Result<Option<Token>, NoMemory>
        ensures ok { IfOk result (λ token. MatchOption token ((self.old ≡ []) × (self.new ≡ []))
            (λ t. self.old ≡ t ∷ self.new)) }
        ensures err { OnErr result (self.new ≡ self.old) }
    {
        let text = without_white(self.rest);
        if text.is_empty() {
            self.rest = text;
            return Ok(None);
        }
        let (token, behind) = first_token(alloc, text, self.profile, self.signed)?;
        self.rest = behind;
        Ok(Some(token))
    }
}

pub(crate) fn is_white_space(byte: u8) -> bool
    ensures { result ≡ is_white_space byte }
{
    matches!(byte, b' ' | b'\t' | b'\n' | b'\r')
}

fn is_word_byte(byte: u8) -> bool
    ensures { result ≡ is_word_byte byte }
{
    byte.is_ascii_alphanumeric() || byte == b'_'
}

#[tactic(auto, using(crate::proofs::RunLemmas::front))]
fn white_len(text: &[u8]) -> usize
    ensures { result ≡ prefix_len is_white_space text.now }
{
    text.iter().take_while(|b| is_white_space(**b)).count()
}

#[tactic(auto, using(crate::proofs::RunLemmas::front))]
fn run_len(text: &[u8]) -> usize
    ensures { result ≡ prefix_len is_word_byte text.now }
{
    text.iter().take_while(|b| is_word_byte(**b)).count()
}

#[tactic(auto, using(crate::proofs::RunLemmas::front))]
fn without_white(text: &[u8]) -> &[u8]
    ensures { result.now ≡ without_white text.now }
{
    &text[white_len(text)..]
}

fn bad<'a>() -> (Token, &'a [u8])
    ensures { (result.0, result.1.now) ≡ bad }
{
    (Token::Bad, &[])
}

/// A token that was read with what stands behind it.
fn read_token(token: Token, behind: &[u8]) -> (Token, &[u8])
    ensures { (result.0, result.1.now) ≡ read_token token behind.entry.now }
{
    match token {
        Token::Bad => bad(),
        token => (token, behind),
    }
}

/// The token at the front of a text that does not begin with white space, and what stands behind it.
fn first_token(
    alloc: Global,
    text: &[u8],
    profile: Profile,
    signed: bool,
) -> Result<(Token, &[u8]), NoMemory>
    requires { 0 < length text.now }
    ensures { IfOk result (λ r. (r.0, r.1.now)
        ≡ first_token profile signed (slice_index text.entry.now 0) (drop 1 text.entry.now)) }
{
    let first = text[0];
    let behind = &text[1..];
    if is_quote(first) {
        return read_quoted(alloc, profile, first, behind);
    }
    if is_word_byte(first) {
        return read_run(alloc, text);
    }
    if begins_negative(signed, first, behind) {
        return Ok(read_negative(behind));
    }
    Ok(read_sign(text))
}

fn is_quote(byte: u8) -> bool
    ensures { result ≡ is_quote byte }
{
    byte == b'\'' || byte == b'"'
}

fn begins_with_digit(text: &[u8]) -> bool
    ensures { result ≡ is_digit (slice_index text.now 0) }
{
    match text {
        [first, ..] => first.is_ascii_digit(),
        [] => false,
    }
}

fn begins_negative(signed: bool, first: u8, behind: &[u8]) -> bool
    ensures { result ≡ signed && first == 45 && is_digit (slice_index behind.now 0) }
{
    signed && first == b'-' && begins_with_digit(behind)
}

fn run_token(alloc: Global, run: &[u8]) -> Result<Token, NoMemory>
    ensures { IfOk result (λ token. token ≡ run_token run.now) }
{
    if begins_with_digit(run) {
        return Ok(positive(run));
    }
    Ok(Token::Word(Bytes::from_slice(alloc, run)?))
}

#[tactic(auto, using(crate::proofs::RunLemmas::front))]
fn read_run(alloc: Global, text: &[u8]) -> Result<(Token, &[u8]), NoMemory>
    ensures { IfOk result (λ r. (r.0, r.1.now) ≡ read_run text.entry.now) }
{
    let length = run_len(text);
    let token = run_token(alloc, &text[..length])?;
    Ok(read_token(token, &text[length..]))
}

#[tactic(auto, using(crate::proofs::RunLemmas::front))]
fn read_negative(text: &[u8]) -> (Token, &[u8])
    ensures { (result.0, result.1.now) ≡ read_negative text.entry.now }
{
    let length = run_len(text);
    read_token(negative(&text[..length]), &text[length..])
}

fn op_at(text: &[u8]) -> Option<Op>
    ensures { result ≡ op_at text.now }
{
    OPS.iter()
        .copied()
        .find(|op| text.starts_with(op_text(*op)))
}

fn mark_at(text: &[u8]) -> Option<Mark>
    ensures { result ≡ mark_at text.now }
{
    MARKS
        .iter()
        .copied()
        .find(|mark| text.starts_with(mark_text(*mark)))
}

fn read_sign(text: &[u8]) -> (Token, &[u8])
    ensures { (result.0, result.1.now) ≡ read_sign text.entry.now (op_at text.entry.now) }
{
    if let Some(op) = op_at(text) {
        return (Token::Operator(op), &text[op_text(op).len()..]);
    }
    if let Some(mark) = mark_at(text) {
        return (Token::Mark(mark), &text[mark_text(mark).len()..]);
    }
    bad()
}

fn read_quoted(
    alloc: Global,
    profile: Profile,
    quote: u8,
    text: &[u8],
) -> Result<(Token, &[u8]), NoMemory>
    ensures { IfOk result (λ r. (r.0, r.1.now) ≡ read_quoted profile (quoted quote text.entry.now)) }
{
    match quoted(alloc, quote, text)? {
        Some((content, behind)) if is_text_within(content.slice(), profile.text_limit()) => {
            Ok((Token::Text(content), behind))
        }
        _ => Ok(bad()),
    }
}

/// What stands up to the closing quote, with the escapes read, and what stands behind that quote.
fn quoted(alloc: Global, quote: u8, text: &[u8]) -> Result<Option<(Bytes, &[u8])>, NoMemory>
    ensures { IfOk result (λ q. option_map (λ q. (q.0, q.1.now)) q ≡ quoted quote text.entry.now) }
{
    let mut content = Bytes::new(alloc);
    let mut rest = text;
    while let [byte, behind @ ..] = rest {
        if *byte == quote {
            return Ok(Some((content, behind)));
        }
        if *byte == b'\\' {
            let [escaped, behind @ ..] = behind else {
                return Ok(None);
            };
            let Some(meant) = escape(*escaped) else {
                return Ok(None);
            };
            content.push(meant)?;
            rest = behind;
        } else if is_plain_byte(*byte) {
            content.push(*byte)?;
            rest = behind;
        } else {
            return Ok(None);
        }
    }
    Ok(None)
}

fn is_plain_byte(byte: u8) -> bool
    ensures { result ≡ is_plain_byte byte }
{
    byte >= 0x20 && byte != 0x7f
}

/// What a backslash and this byte stand for.
fn escape(byte: u8) -> Option<u8>
    ensures { result ≡ escape byte }
{
    match byte {
        b'\\' => Some(b'\\'),
        b'\'' => Some(b'\''),
        b'"' => Some(b'"'),
        b'n' => Some(b'\n'),
        b't' => Some(b'\t'),
        _ => None,
    }
}

/// The longer ones first.
const OPS: [Op; 13] = [
    Op::Or,
    Op::And,
    Op::Eq,
    Op::Ne,
    Op::Le,
    Op::Ge,
    Op::Lt,
    Op::Gt,
    Op::Add,
    Op::Sub,
    Op::Mul,
    Op::Div,
    Op::Rem,
];

const MARKS: [Mark; 7] = [
    Mark::Not,
    Mark::Open,
    Mark::Close,
    Mark::OpenSquare,
    Mark::CloseSquare,
    Mark::Comma,
    Mark::Dot,
];

pub(crate) fn op_text(op: Op) -> &'static [u8]
    ensures { result.now ≡ op_text op }
{
    match op {
        Op::Or => b"||",
        Op::And => b"&&",
        Op::Eq => b"==",
        Op::Ne => b"!=",
        Op::Lt => b"<",
        Op::Le => b"<=",
        Op::Gt => b">",
        Op::Ge => b">=",
        Op::Add => b"+",
        Op::Sub => b"-",
        Op::Mul => b"*",
        Op::Div => b"/",
        Op::Rem => b"%",
    }
}

fn mark_text(mark: Mark) -> &'static [u8]
    ensures { result.now ≡ mark_text mark }
{
    match mark {
        Mark::Not => b"!",
        Mark::Open => b"(",
        Mark::Close => b")",
        Mark::OpenSquare => b"[",
        Mark::CloseSquare => b"]",
        Mark::Comma => b",",
        Mark::Dot => b".",
    }
}
