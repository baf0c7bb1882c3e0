ghost use Rattle.std.specs.Prelude.{◌≡◌, ◌+◌, ◌≤◌, length, take, IfOk, IfSome, OnOk, OnErr};
ghost use Rattle.std.specs.Io.KnownBytes.{Appends, Consumes};
ghost use Rattle.sc_dev.specs.declared.failed.Failed.{Failed};
ghost use Rattle.sc_dev.specs.Causes.{HasCause, Rose};
ghost use Rattle.sc_dev.specs.Transfer.{AppendsPart, ConsumesUpTo};

use crate::failed::Failed;
use crate::sink::Sink;
use crate::source::Source;
use sc_base::Failure;
use std::alloc::Global;

/// Reads a source to its end, or until one byte more than `limit` has come, so that the caller sees that the
/// source holds too much.
pub fn read_up_to<S: Source>(
    alloc: Global,
    source: &mut S,
    limit: usize,
) -> Result<Vec<u8>, Failure<Failed>>
    ensures bytes { IfOk result (λ v. IfSome (S.left source.old) (λ all. v.items ≡ take (limit + 1) all)) }
    ensures few { IfOk result (λ v. length v.items ≤ limit + 1) }
    ensures consumed { IfOk result (λ v. Consumes (S.left source.old) (S.left source.new) v.items) }
    ensures lost { OnErr result (ConsumesUpTo (limit + 1) (S.left source.old) (S.left source.new)) }
    ensures failed { (f : Failed) → result ≡ Err (Failure.Fault f) → Rose (S.faults source.old) (S.faults source.new) }
    ensures later { S.faults source.old ≤ S.faults source.new }
{
    let mut bytes = Vec::new(alloc);
    let mut buffer = [0u8; 4096];
    while bytes.len() <= limit {
        let room = (limit - bytes.len()).min(4095) + 1;
        let count = source.read(&mut buffer[..room])?;
        if count == 0 {
            return Ok(bytes);
        }
        bytes.extend_from_slice(&buffer[..count])?;
    }
    Ok(bytes)
}

/// Writes a whole text, in as many calls as it takes. It takes no memory.
pub fn write_all<K: Sink>(sink: &mut K, text: &[u8]) -> Result<(), Failed>
    ensures ok { OnOk result (Appends (K.taken sink.old) (K.taken sink.new) text.now) }
    ensures err { OnErr result (AppendsPart (K.taken sink.old) (K.taken sink.new) text.now) }
    ensures cause { HasCause (K.faults sink.old) (K.faults sink.new) result }
{
    let mut at = 0;
    while at < text.len() {
        at += sink.write(&text[at..])?;
    }
    Ok(())
}
