// The names of commands: 2 bytes of length, and the name.
ghost use Rattle.std.specs.Prelude.{◌≡◌, ◌++◌, OnOk};
ghost use Rattle.sc_base.specs.Text.{IsWord, IsPlainName};
ghost use Rattle.sc_codec.specs.Bodies.{name_field, IsShort};
ghost use Rattle.sc_codec.specs.Reading.{Gives, word_from, plain_name_from};

use crate::fault::CodecFault;
use crate::field::name_from;
use sc_base::{NoMemory, PlainName, Unfit, Word};
use sc_frame::put_u16;
use std::alloc::Global;

fn put_name(out: &mut Vec<u8>, name: &[u8]) -> Result<(), NoMemory>
    requires { IsShort name.now }
    ensures { OnOk result (out.new.items ≡ out.old.items ++ name_field name.now) }
{
    put_u16(out, name.len() as u16)?;
    out.extend_from_slice(name)?;
    Ok(())
}

pub(crate) fn put_word(out: &mut Vec<u8>, word: &Word) -> Result<(), NoMemory>
    requires { IsShort word.now }
    ensures field { OnOk result (out.new.items ≡ out.old.items ++ name_field word.now) }
    ensures form { IsWord word.now }
{
    put_name(out, word.bytes())
}

pub(crate) fn put_plain_name(out: &mut Vec<u8>, name: &PlainName) -> Result<(), NoMemory>
    ensures field { OnOk result (out.new.items ≡ out.old.items ++ name_field name.now) }
    ensures form { IsPlainName name.now }
{
    put_name(out, name.bytes())
}

#[tactic(auto, using(sc_base::proofs::NameTests::word_tests), unfolding(crate::specs::Reading::word_from))]
pub(crate) fn word_from(alloc: Global, bytes: &[u8]) -> Result<(Word, &[u8]), CodecFault>
    ensures { Gives (λ x. (x.0, x.1.now)) result (word_from bytes.now) }
{
    let Some((name, rest)) = name_from(bytes) else {
        return Err(CodecFault::NotCommand);
    };
    match Word::of(alloc, name) {
        Ok(word) => Ok((word, rest)),
        Err(Unfit::Form) => Err(CodecFault::NotCommand),
        Err(Unfit::NoMemory) => Err(CodecFault::NoMemory),
    }
}

#[tactic(auto, unfolding(crate::specs::Reading::plain_name_from))]
pub(crate) fn plain_name_from(alloc: Global, bytes: &[u8]) -> Result<(PlainName, &[u8]), CodecFault>
    ensures { Gives (λ x. (x.0, x.1.now)) result (plain_name_from bytes.now) }
{
    let Some((name, rest)) = name_from(bytes) else {
        return Err(CodecFault::NotCommand);
    };
    match PlainName::of(alloc, name) {
        Ok(name) => Ok((name, rest)),
        Err(Unfit::Form) => Err(CodecFault::NotCommand),
        Err(Unfit::NoMemory) => Err(CodecFault::NoMemory),
    }
}
