ghost use Rattle.std.specs.Prelude.{◌≡◌, ◌≢◌, ◌≤◌, ◌+◌, suc, length, drop, Some, false, [], ◌∷◌, ◌++◌, IsTrue, IfOk, OnOk};
ghost use Rattle.sc_types.specs.Values.{Open, behind, due, fits, literal_value, is_trimmed, single, truth_of, value_text, text_literal, truth_text, escaped};
ghost use Rattle.sc_types.specs.declared.limits.TheConstants.{LIST_DEPTH_LIMIT};
ghost use Rattle.sc_types.specs.declared.token.Mark.TheVariants.{OpenSquare};
ghost use Rattle.sc_types.specs.declared.token.Token.TheVariants.{Mark as Sign};
ghost use Rattle.sc_expr.specs.Literals.{Begins, BeginsNone, NoneNext, after_items, comma, is_close, is_open, separator};

use crate::fault::ExprFault;
use crate::lexer::{Lexer, is_white_space};
use sc_base::{Bytes, NoMemory, Sequence, TextWriter};
use sc_types::{LIST_DEPTH_LIMIT, Mark, Profile, Token, Value};
use std::alloc::Global;

/// Reads the literal of a value; `NotExpr` exactly where the text is none.
#[tactic(auto, using(crate::proofs::LiteralLemmas::literals))]
pub fn read_value(alloc: Global, text: &[u8]) -> Result<Value, ExprFault>
    ensures ok { IfOk result (λ v. literal_value text.now ≡ Some v) }
    ensures refused { result ≡ Err ExprFault.NotExpr → literal_value text.now ≡ None }
{
    if !is_trimmed(text) {
        return Err(ExprFault::NotExpr);
    }
    let mut lexer = Lexer::new(text, Profile::Nested, true);
    let value = whole_value(alloc, &mut lexer)?;
    if value.fits() {
        Ok(value)
    } else {
        Err(ExprFault::NotExpr)
    }
}

fn is_trimmed(text: &[u8]) -> bool
    ensures { result ≡ is_trimmed text.now }
{
    match text {
        [] => true,
        [first, ..] => !is_white_space(*first) && !is_white_space(text[text.len() - 1]),
    }
}

/// The value of all tokens that are ahead.
fn whole_value(alloc: Global, lexer: &mut Lexer) -> Result<Value, ExprFault>
    ensures ok { IfOk result (λ v. due [] lexer.old ≡ Some v) }
    ensures refused { result ≡ Err ExprFault.NotExpr → due [] lexer.old ≡ None }
{
    let value = next_value(alloc, lexer, LIST_DEPTH_LIMIT)?;
    end(alloc, lexer)?;
    Ok(value)
}

/// Whether nothing is ahead: else `NotExpr`.
fn end(alloc: Global, lexer: &mut Lexer) -> Result<(), ExprFault>
    ensures ok { OnOk result (lexer.old ≡ []) }
    ensures refused { result ≡ Err ExprFault.NotExpr → lexer.old ≢ [] }
{
    match lexer.next(alloc)? {
        None => Ok(()),
        Some(_) => Err(ExprFault::NotExpr),
    }
}

/// The value that comes next, where so many lists may yet be opened.
#[cycle(literal)]
fn next_value(alloc: Global, lexer: &mut Lexer, levels: u32) -> Result<Value, ExprFault>
    ensures ok { IfOk result (λ v. Begins levels lexer.old v lexer.new) }
    ensures refused { result ≡ Err ExprFault.NotExpr → NoneNext levels lexer.old }
    ensures shorter { IfOk result (λ _. length lexer.new ≤ length lexer.old) }
{
    match lexer.next(alloc)? {
        None => Err(ExprFault::NotExpr),
        Some(first) => {
            if is_close(&first) {
                return Err(ExprFault::NotExpr);
            }
            value_from(alloc, lexer, first, levels)
        }
    }
}

/// The value that this token begins.
#[cycle(literal)]
fn value_from(
    alloc: Global,
    lexer: &mut Lexer,
    first: Token,
    levels: u32,
) -> Result<Value, ExprFault>
    requires { is_close first ≡ false }
    ensures ok { IfOk result (λ v. Begins levels (first ∷ lexer.old) v lexer.new) }
    ensures refused { result ≡ Err ExprFault.NotExpr → BeginsNone levels (first ∷ lexer.old) }
    ensures shorter { IfOk result (λ _. length lexer.new ≤ length lexer.old) }
{
    if is_open(&first) {
        return list_from(alloc, lexer, levels);
    }
    match single(first) {
        Some(value) => Ok(value),
        None => Err(ExprFault::NotExpr),
    }
}

/// The list whose bracket has been read.
#[cycle(literal)]
fn list_from(alloc: Global, lexer: &mut Lexer, levels: u32) -> Result<Value, ExprFault>
    ensures ok { IfOk result (λ v. Begins levels (Sign OpenSquare ∷ lexer.old) v lexer.new) }
    ensures refused { result ≡ Err ExprFault.NotExpr → BeginsNone levels (Sign OpenSquare ∷ lexer.old) }
    ensures shorter { IfOk result (λ _. length lexer.new ≤ length lexer.old) }
{
    if levels == 0 {
        return Err(ExprFault::NotExpr);
    }
    match lexer.next(alloc)? {
        None => Err(ExprFault::NotExpr),
        Some(first) => {
            if is_close(&first) {
                return Ok(Value::List(Sequence::new(alloc)));
            }
            let first = value_from(alloc, lexer, first, levels - 1)?;
            further_items(alloc, lexer, first, levels - 1)
        }
    }
}

/// The list whose first item has been read.
#[cycle(literal)]
fn further_items(
    alloc: Global,
    lexer: &mut Lexer,
    first: Value,
    levels: u32,
) -> Result<Value, ExprFault>
    ensures ok { IfOk result (λ v. (lists : Open) → suc (length lists) + levels ≡ LIST_DEPTH_LIMIT
        → after_items (first ∷ []) lists lexer.old ≡ behind v lists lexer.new) }
    ensures refused { result ≡ Err ExprFault.NotExpr → (lists : Open)
        → suc (length lists) + levels ≡ LIST_DEPTH_LIMIT → after_items (first ∷ []) lists lexer.old ≡ None }
    ensures shorter { IfOk result (λ _. length lexer.new ≤ length lexer.old) }
{
    let mut items = Sequence::new(alloc);
    items.push(first)?;
    while goes_on(alloc, lexer)? {
        items.push(next_value(alloc, lexer, levels)?)?;
    }
    Ok(Value::List(items))
}

/// Whether a comma stands behind an item, or the bracket that ends the list.
fn goes_on(alloc: Global, lexer: &mut Lexer) -> Result<bool, ExprFault>
    ensures ok { IfOk result (λ more. (separator lexer.old ≡ Some more) × (lexer.new ≡ drop 1 lexer.old)) }
    ensures refused { result ≡ Err ExprFault.NotExpr → separator lexer.old ≡ None }
{
    match lexer.next(alloc)? {
        Some(Token::Mark(Mark::Comma)) => Ok(true),
        Some(Token::Mark(Mark::CloseSquare)) => Ok(false),
        _ => Err(ExprFault::NotExpr),
    }
}

fn is_open(token: &Token) -> bool
    ensures { result ≡ is_open token.now }
{
    match token {
        Token::Mark(mark) => *mark == Mark::OpenSquare,
        _ => false,
    }
}

fn is_close(token: &Token) -> bool
    ensures { result ≡ is_close token.now }
{
    match token {
        Token::Mark(mark) => *mark == Mark::CloseSquare,
        _ => false,
    }
}

fn truth_of(word: &[u8]) -> Option<Value>
    ensures { result ≡ truth_of word.now }
{
    if word == b"true".as_slice() {
        Some(Value::Bool(true))
    } else if word == b"false".as_slice() {
        Some(Value::Bool(false))
    } else {
        None
    }
}

/// The value that a token alone writes.
fn single(token: Token) -> Option<Value>
    ensures { result ≡ single token }
{
    match token {
        Token::Word(word) => truth_of(word.slice()),
        Token::Number(number) => Some(Value::Int(number)),
        Token::Text(text) => Some(Value::Text(text)),
        _ => None,
    }
}

/// Prints a value as its literal.
#[tactic(auto, using(crate::proofs::PrintedValues::printed_value))]
pub fn print_value(alloc: Global, value: &Value) -> Result<Bytes, NoMemory>
    ensures text { IfOk result (λ text. text ≡ value_text value.now) }
    ensures read_back { IsTrue (fits value.now) → IfOk result (λ text. literal_value text ≡ Some value.now) }
{
    let mut out = TextWriter::new(alloc);
    put_value(&mut out, value)?;
    Ok(out.into_bytes())
}

/// Puts a value as its literal behind what is there.
#[cycle(print)]
#[tactic(auto, using(crate::proofs::LiteralLemmas::texts))]
pub fn put_value(out: &mut TextWriter, value: &Value) -> Result<(), NoMemory>
    ensures { OnOk result (out.new ≡ out.old ++ value_text value.now) }
{
    match value {
        Value::Bool(truth) => put_truth(out, *truth),
        Value::Int(number) => out.signed(*number),
        Value::Text(text) => put_text(out, text.slice()),
        Value::List(items) => put_values(out, items.slice()),
    }
}

#[cycle(print)]
#[tactic(auto, using(crate::proofs::LiteralLemmas::texts))]
fn put_values(out: &mut TextWriter, items: &[Value]) -> Result<(), NoMemory>
    ensures { OnOk result (out.new ≡ out.old ++ value_text (Value.List items.now)) }
{
    out.text("[")?;
    for i in 0..items.len() {
        put_comma(out, i)?;
        put_value(out, &items[i])?;
    }
    out.text("]")
}

/// The comma before an item that is not the first.
fn put_comma(out: &mut TextWriter, place: usize) -> Result<(), NoMemory>
    ensures { OnOk result (out.new ≡ out.old ++ comma place) }
{
    if place > 0 { out.text(",") } else { Ok(()) }
}

pub(crate) fn put_truth(out: &mut TextWriter, truth: bool) -> Result<(), NoMemory>
    ensures { OnOk result (out.new ≡ out.old ++ truth_text truth) }
{
    if truth {
        out.text("true")
    } else {
        out.text("false")
    }
}

/// Puts a text as its literal behind what is there.
pub fn put_text(out: &mut TextWriter, text: &[u8]) -> Result<(), NoMemory>
    ensures { OnOk result (out.new ≡ out.old ++ text_literal text.now) }
{
    out.text("'")?;
    for byte in text {
        put_escaped(out, *byte)?;
    }
    out.text("'")
}

fn put_escaped(out: &mut TextWriter, byte: u8) -> Result<(), NoMemory>
    ensures { OnOk result (out.new ≡ out.old ++ escaped byte) }
{
    match byte {
        b'\\' => out.text("\\\\"),
        b'\'' => out.text("\\'"),
        b'\n' => out.text("\\n"),
        b'\t' => out.text("\\t"),
        _ => out.byte(byte),
    }
}
