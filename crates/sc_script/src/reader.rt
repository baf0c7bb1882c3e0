ghost use Rattle.std.specs.Prelude.{◌≡◌, ◌+◌, ◌<◌, [], ◌∷◌, ◌++◌, List, ℕ, suc, Ok, Err, IfOk, OnOk, IsTrue, length};
ghost use Rattle.std.specs.Str.{IsAscii};
ghost use Rattle.sc_script.specs.Joined.{joins, joined};
ghost use Rattle.sc_script.specs.Meanings.{meaning};
ghost use Rattle.sc_script.specs.OneWay.{IsCutInOneWay};
ghost use Rattle.sc_script.specs.Scripts.{Spelled, empty_script, line_script, script_from, script_of};
ghost use Rattle.sc_script.specs.declared.fault.ScriptFault.{ScriptFault};

use crate::fault::{Cause, ScriptFault, ScriptRefusal};
use crate::lines::{cut_line, is_ascii};
use crate::meaning::{Meaning, read_line};
use crate::script::Script;
use sc_base::Failure;
use sc_types::{CLIENT_LIMIT, Command, NoMemory, SCRIPT_TEXT_LIMIT, Sequence};
use std::alloc::Global;

/// Reads a script, of at most 67,108,864 bytes of text. The fault is that of the first faulty line.
#[tactic(auto, using(crate::proofs::CutInOneWay::cut_in_one_way))]
pub fn read_script(alloc: Global, text: &[u8]) -> Result<Script, ScriptRefusal>
    ensures script { IfOk result (λ script. script_of text.now ≡ Ok script) }
    ensures fault { (f : ScriptFault) → result ≡ Err (Failure.Fault f) → script_of text.now ≡ Err f }
    ensures pairs { IsCutInOneWay }
{
    if text.len() > SCRIPT_TEXT_LIMIT {
        return Err(fault(0, Cause::TooLarge));
    }
    let ascii = is_ascii(text);
    let mut reading = Reading::new(alloc);
    let mut rest = text;
    let mut number = 0;
    while !rest.is_empty() {
        let (line, behind) = cut_line(rest);
        number += 1;
        reading.take_line(alloc, number, line, ascii)?;
        rest = behind;
    }
    Ok(reading.into_script(alloc)?)
}

fn fault(line: u32, cause: Cause) -> ScriptRefusal
    ensures { result ≡ Failure.Fault (record { line = line; cause = cause }) }
{
    Failure::Fault(ScriptFault { line, cause })
}

/// What was read so far: the lists that a line `client` has closed, of which the first is the set-up, and the list that
/// is open.
#[derive(Drop)]
struct Reading {
    closed: Sequence<Sequence<Command>>,
    current: Sequence<Command>,
}

impl Reading {
    fn new(alloc: Global) -> Reading
        ensures closed { result.closed ≡ [] }
        ensures current { result.current ≡ [] }
    {
        Reading {
            closed: Sequence::new(alloc),
            current: Sequence::new(alloc),
        }
    }

    /// Reads the line of this number, which is ASCII where that is known.
    fn take_line(
        &mut self,
        alloc: Global,
        number: u32,
        line: &[u8],
        ascii: bool,
    ) -> Result<(), ScriptRefusal>
        requires { IsTrue ascii → IsAscii line.now }
        ensures ok { OnOk result ((more : List (List ℕ)) →
            joins self.old (script_from number (length self.old.closed) (line.now ∷ more))
            ≡ joins self.new (script_from (suc number) (length self.new.closed) more)) }
        ensures fault { (f : ScriptFault) → result ≡ Err (Failure.Fault f)
            → (more : List (List ℕ)) → script_from number (length self.old.closed) (line.now ∷ more) ≡ Err f }
    {
        match read_line(alloc, line, ascii) {
            Ok(meaning) => self.add(alloc, number, meaning),
            Err(Failure::Fault(cause)) => Err(fault(number, cause)),
            Err(Failure::NoMemory) => Err(Failure::NoMemory),
        }
    }

    /// Adds what the line of this number says.
    fn add(&mut self, alloc: Global, number: u32, meaning: Meaning) -> Result<(), ScriptRefusal>
        ensures ok { OnOk result ((behind : ℕ → Spelled) →
            joins self.old (line_script number (length self.old.closed) (Ok meaning) behind)
            ≡ joins self.new (behind (length self.new.closed))) }
        ensures fault { (f : ScriptFault) → result ≡ Err (Failure.Fault f)
            → (behind : ℕ → Spelled) → line_script number (length self.old.closed) (Ok meaning) behind ≡ Err f }
    {
        match meaning {
            Meaning::Blank => Ok(()),
            Meaning::Asks(command) => {
                self.current.push(command)?;
                Ok(())
            }
            Meaning::Client => {
                if self.closed.len() >= CLIENT_LIMIT as usize {
                    return Err(fault(number, Cause::TooManyClients));
                }
                self.close(alloc)?;
                Ok(())
            }
        }
    }

    /// Closes the open list, and opens an empty one.
    fn close(&mut self, alloc: Global) -> Result<(), NoMemory>
        ensures closed { OnOk result (self.new.closed ≡ self.old.closed ++ self.old.current ∷ []) }
        ensures current { OnOk result (self.new.current ≡ []) }
    {
        let list = std::mem::replace(&mut self.current, Sequence::new(alloc));
        self.closed.push(list)
    }

    fn into_script(self, alloc: Global) -> Result<Script, NoMemory>
        ensures { IfOk result (λ script. script ≡ joined self.closed self.current empty_script) }
    {
        let mut clients = self.closed.into_vec();
        if clients.is_empty() {
            return Ok(Script {
                setup: self.current,
                clients: Sequence::new(alloc),
            });
        }
        let setup = clients.remove(0);
        clients.push(self.current)?;
        Ok(Script {
            setup,
            clients: Sequence::from_vec(clients),
        })
    }
}
