// The pairs of a post, in their order: 2 bytes of count, and for each its name and its value.
ghost use Rattle.std.specs.Prelude.{◌≡◌, ◌++◌, OnOk};
ghost use Rattle.std.specs.List.{AllByRecursion};
ghost use Rattle.sc_base.specs.Text.{IsPlainName};
ghost use Rattle.sc_codec.specs.Bodies.{pairs_field, HasFittingPairs};
ghost use Rattle.sc_codec.specs.Reading.{Gives, many_from, pair_from, pairs_from};

use crate::fault::CodecFault;
use crate::field::u16_from;
use crate::name::{plain_name_from, put_plain_name};
use crate::value::{put_value, value_from};
use sc_base::{NoMemory, PlainName, Sequence};
use sc_frame::put_u16;
use sc_types::{PairList, Value};
use std::alloc::Global;

pub(crate) fn put_pairs(out: &mut Vec<u8>, pairs: &[(PlainName, Value)]) -> Result<(), NoMemory>
    requires { HasFittingPairs pairs.now }
    ensures field { OnOk result (out.new.items ≡ out.old.items ++ pairs_field pairs.now) }
    ensures form { OnOk result (AllByRecursion (λ p. IsPlainName p.0) pairs.now) }
{
    put_u16(out, pairs.len() as u16)?;
    for (name, value) in pairs {
        put_plain_name(out, name)?;
        put_value(out, value)?;
    }
    Ok(())
}

#[tactic(auto, unfolding(crate::specs::Reading::pairs_from))]
pub(crate) fn pairs_from(alloc: Global, bytes: &[u8]) -> Result<(PairList, &[u8]), CodecFault>
    ensures { Gives (λ x. (x.0, x.1.now)) result (pairs_from bytes.now) }
{
    match u16_from(bytes) {
        Some((count, rest)) => many_pairs(alloc, count, rest),
        None => Err(CodecFault::NotCommand),
    }
}

fn many_pairs(alloc: Global, count: u16, bytes: &[u8]) -> Result<(PairList, &[u8]), CodecFault>
    ensures { Gives (λ x. (x.0, x.1.now)) result (many_from pair_from count bytes.now) }
{
    let mut pairs = Sequence::new(alloc);
    let mut rest = bytes;
    for _ in 0..count {
        let (pair, behind) = pair_from(alloc, rest)?;
        pairs.push(pair)?;
        rest = behind;
    }
    Ok((pairs, rest))
}

#[tactic(auto, unfolding(crate::specs::Reading::pair_from))]
fn pair_from(alloc: Global, bytes: &[u8]) -> Result<((PlainName, Value), &[u8]), CodecFault>
    ensures { Gives (λ x. ((x.0.0, x.0.1), x.1.now)) result (pair_from bytes.now) }
{
    let (name, rest) = plain_name_from(alloc, bytes)?;
    let (value, rest) = value_from(alloc, rest)?;
    Ok(((name, value), rest))
}
