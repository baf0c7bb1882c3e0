ghost use Rattle.std.specs.Prelude.{◌≡◌, true, false, Err, IfOk};
ghost use Rattle.sc_base.specs.Text.{IsWord, is_word};
ghost use Rattle.sc_script.specs.declared.fault.Cause.{Cause};

use crate::fault::Cause;
use sc_base::{Failure, NoMemory, Unfit, Word};
use std::alloc::Global;

pub(crate) fn word(alloc: Global, text: &[u8]) -> Result<Word, NoMemory>
    requires { IsWord text.now }
    ensures { IfOk result (λ w. w ≡ text.now) }
{
    match Word::of(alloc, text) {
        Ok(word) => Ok(word),
        Err(Unfit::NoMemory) => Err(NoMemory),
        Err(Unfit::Form) => unreachable!(),
    }
}

/// The word that these bytes are; `BadWord` exactly where they are none.
#[tactic(auto, using(sc_base::proofs::NameTests::word_tests))]
pub(crate) fn read_word(alloc: Global, text: &[u8]) -> Result<Word, Failure<Cause>>
    ensures ok { IfOk result (λ w. (w ≡ text.now) × (is_word text.now ≡ true)) }
    ensures fault { (cause : Cause) → result ≡ Err (Failure.Fault cause)
        → (cause ≡ Cause.BadWord) × (is_word text.now ≡ false) }
{
    match Word::of(alloc, text) {
        Ok(word) => Ok(word),
        Err(Unfit::NoMemory) => Err(Failure::NoMemory),
        Err(Unfit::Form) => Err(Failure::Fault(Cause::BadWord)),
    }
}
