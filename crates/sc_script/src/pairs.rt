ghost use Rattle.std.specs.Prelude.{◌≡◌, ◌<◌, ◌==◌, ◌∷◌, ◌++◌, [], Some, None, Ok, Err, IfOk, OnOk, IfSome, option_map, length};
ghost use Rattle.std.specs.List.{position};
ghost use Rattle.sc_script.specs.declared.fault.Cause.{Cause};
ghost use Rattle.sc_script.specs.Pairs.{named, pair_of, pairs_of, posted_value};

use crate::fault::Cause;
use crate::pieces::{count_pieces, cut_piece};
use crate::short_numbers::short_value;
use sc_base::{Failure, NoMemory, Unfit};
use sc_expr::{ExprFault, read_value};
use sc_types::{PairList, PlainName, Sequence, Value};
use std::alloc::Global;

/// The pairs of a `post`; `BadValue` exactly where the text lists none.
pub(crate) fn read_pairs(alloc: Global, text: &[u8]) -> Result<PairList, Failure<Cause>>
    ensures ok { IfOk result (λ ps. pairs_of text.now ≡ Some ps) }
    ensures fault { (cause : Cause) → result ≡ Err (Failure.Fault cause)
        → (cause ≡ Cause.BadValue) × (pairs_of text.now ≡ None) }
{
    let mut pairs = Sequence::new(alloc);
    let mut rest = text;
    while !rest.is_empty() {
        let (piece, behind) = cut_piece(rest);
        if !piece.is_empty() {
            pairs = with_room(alloc, pairs, behind)?;
            put_pair(alloc, &mut pairs, piece)?;
        }
        rest = behind;
    }
    Ok(pairs)
}

/// The same pairs. Before the first one, with just the memory for it and for those of the text behind it, so that none
/// is moved and none has memory to spare.
fn with_room(alloc: Global, pairs: PairList, behind: &[u8]) -> Result<PairList, NoMemory>
    ensures { IfOk result (λ ps. ps ≡ pairs) }
{
    if pairs.is_empty() {
        let count = count_pieces(behind).saturating_add(1);
        Ok(Sequence::from_vec(Vec::with_capacity(alloc, count)?))
    } else {
        Ok(pairs)
    }
}

/// Puts the pair that a piece is at the end.
fn put_pair(alloc: Global, pairs: &mut PairList, text: &[u8]) -> Result<(), Failure<Cause>>
    ensures ok { OnOk result (option_map (λ p. pairs.old ++ p ∷ []) (pair_of text.now) ≡ Some pairs.new) }
    ensures fault { (cause : Cause) → result ≡ Err (Failure.Fault cause)
        → (cause ≡ Cause.BadValue) × (pair_of text.now ≡ None) }
{
    match place_of(text, b'=') {
        None => Err(Failure::Fault(Cause::BadValue)),
        Some(place) => put_named(alloc, pairs, &text[..place], &text[place + 1..]),
    }
}

fn place_of(text: &[u8], byte: u8) -> Option<usize>
    ensures value { result ≡ position (λ b. b == byte) text.now }
    ensures within { IfSome result (λ place. place < length text.now) }
{
    text.iter().position(|b| *b == byte)
}

#[tactic(auto, using(sc_base::proofs::NameTests::plain_tests))]
fn put_named(
    alloc: Global,
    pairs: &mut PairList,
    name: &[u8],
    literal: &[u8],
) -> Result<(), Failure<Cause>>
    ensures ok { OnOk result
        (option_map (λ p. pairs.old ++ p ∷ []) (named name.now (posted_value literal.now)) ≡ Some pairs.new) }
    ensures fault { (cause : Cause) → result ≡ Err (Failure.Fault cause)
        → (cause ≡ Cause.BadValue) × (named name.now (posted_value literal.now) ≡ None) }
{
    match PlainName::of(alloc, name) {
        Ok(name) => {
            let value = read_literal(alloc, literal)?;
            pairs.push((name, value))?;
            Ok(())
        }
        Err(Unfit::Form) => Err(Failure::Fault(Cause::BadValue)),
        Err(Unfit::NoMemory) => Err(Failure::NoMemory),
    }
}

fn read_literal(alloc: Global, text: &[u8]) -> Result<Value, Failure<Cause>>
    ensures ok { IfOk result (λ v. posted_value text.now ≡ Some v) }
    ensures fault { (cause : Cause) → result ≡ Err (Failure.Fault cause)
        → (cause ≡ Cause.BadValue) × (posted_value text.now ≡ None) }
{
    if let Some(value) = short_value(text) {
        return Ok(value);
    }
    match read_value(alloc, text) {
        Ok(value) if value.fits_flat() => Ok(value),
        Ok(_) => Err(Failure::Fault(Cause::BadValue)),
        Err(ExprFault::NotExpr) => Err(Failure::Fault(Cause::BadValue)),
        Err(ExprFault::NoMemory) => Err(Failure::NoMemory),
    }
}
