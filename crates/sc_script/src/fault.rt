ghost use Rattle.std.specs.Prelude.{◌≡◌};
ghost use Rattle.sc_script.specs.Causes.{cause_number};

use sc_base::Failure;

/// What is wrong with a line. The causes stand in the order in which a line is judged: of several that a line has, the
/// first is told. This host's own rule.
#[derive(Clone, Copy, Debug, PartialEq, Eq)]
pub enum Cause {
    /// The line is not UTF-8.
    NotUtf8,
    /// Its first word is none of those that begin a line.
    UnknownWord,
    /// It has fewer words than its form.
    Missing,
    /// It has more words than its form.
    Extra,
    /// A name or an event does not have the form of a word.
    BadWord,
    /// What follows the event is no list of pairs.
    BadValue,
    /// The number of a `tick` is not written as a number of 64 bits.
    BadNumber,
    /// It is the 65th line `client`.
    TooManyClients,
    /// The text has more than 67,108,864 bytes. No line is read then.
    TooLarge,
}

impl Cause {
    /// The number of the cause in what programs print, from 1 to 9.
    pub fn number(self) -> u8
        ensures { result ≡ cause_number self }
    {
        match self {
            Cause::NotUtf8 => 1,
            Cause::UnknownWord => 2,
            Cause::Missing => 3,
            Cause::Extra => 4,
            Cause::BadWord => 5,
            Cause::BadValue => 6,
            Cause::BadNumber => 7,
            Cause::TooManyClients => 8,
            Cause::TooLarge => 9,
        }
    }
}

/// The first faulty line, counted from 1, and what is wrong with it. The line is 0 where the text is too large.
#[derive(Clone, Copy, Debug, PartialEq, Eq)]
pub struct ScriptFault {
    pub line: u32,
    pub cause: Cause,
}

/// Why a script was not read: its text has a fault, or the program was out of memory.
pub type ScriptRefusal = Failure<ScriptFault>;
