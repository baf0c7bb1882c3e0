ghost use Rattle.std.specs.Prelude.{◌≡◌, ◌++◌, IfOk, codes, decimal};
ghost use Rattle.sc_report.specs.Lines.{line};
ghost use Rattle.sc_top.specs.ScriptFaults.{script_fault_text};

use sc_base::{Bytes, NoMemory, TextWriter};
use sc_script::ScriptFault;
use std::alloc::Global;

/// A line of a word and a number.
pub(crate) fn counted_line(alloc: Global, word: &[u8], number: u64) -> Result<Bytes, NoMemory>
    ensures { IfOk result (λ text. text ≡ line (word.now ++ decimal number)) }
{
    let mut out = TextWriter::new(alloc);
    out.bytes(word)?;
    out.number(u128::from(number))?;
    out.end_line()?;
    Ok(out.into_bytes())
}

/// The line of a script's first fault.
pub(crate) fn script_fault_line(alloc: Global, fault: &ScriptFault) -> Result<Bytes, NoMemory>
    ensures { IfOk result (λ text. text ≡ line (codes "script " ++ script_fault_text fault.now)) }
{
    let mut out = TextWriter::new(alloc);
    out.text("script ")?;
    out.number(u128::from(fault.line))?;
    out.text(" ")?;
    out.number(u128::from(fault.cause.number()))?;
    out.end_line()?;
    Ok(out.into_bytes())
}
