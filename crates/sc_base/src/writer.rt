ghost use Rattle.std.specs.Prelude.{◌≡◌, [], ◌∷◌, ◌++◌, OnOk, decimal};
ghost use Rattle.std.specs.Fmt.{signed_decimal};

use crate::bytes::Bytes;
use crate::memory::NoMemory;
use std::alloc::Global;
use std::marker::Model;

/// A text that is being written, which contracts see as the bytes so far.
#[derive(Debug, Drop)]
pub struct TextWriter {
    alloc: Global,
    written: Bytes,
}

impl Model for TextWriter {
    ghost use Rattle.std.specs.Prelude.{List, ℕ};

    ghost Value = { List ℕ };

    ghost view = { λ w. w.written };
}

impl TextWriter {
    pub fn new(alloc: Global) -> TextWriter
        ensures { result ≡ [] }
    {
        TextWriter {
            alloc,
            written: Bytes::new(alloc),
        }
    }

    pub fn text(&mut self, text: &str) -> Result<(), NoMemory>
        ensures { OnOk result (self.new ≡ self.old ++ text.now) }
    {
        self.written.extend(text.as_bytes())
    }

    pub fn bytes(&mut self, bytes: &[u8]) -> Result<(), NoMemory>
        ensures { OnOk result (self.new ≡ self.old ++ bytes.now) }
    {
        self.written.extend(bytes)
    }

    pub fn byte(&mut self, byte: u8) -> Result<(), NoMemory>
        ensures { OnOk result (self.new ≡ self.old ++ byte ∷ []) }
    {
        self.written.push(byte)
    }

    /// A number in decimal digits.
    pub fn number(&mut self, number: u128) -> Result<(), NoMemory>
        ensures { OnOk result (self.new ≡ self.old ++ decimal number) }
    {
        let digits = number.to_string(self.alloc)?;
        self.written.extend(digits.as_bytes())
    }

    /// A whole number in decimal digits, with `-` before a negative one.
    pub fn signed(&mut self, number: i64) -> Result<(), NoMemory>
        ensures { OnOk result (self.new ≡ self.old ++ signed_decimal number) }
    {
        let digits = number.to_string(self.alloc)?;
        self.written.extend(digits.as_bytes())
    }

    pub fn end_line(&mut self) -> Result<(), NoMemory>
        ensures { OnOk result (self.new ≡ self.old ++ 10 ∷ []) }
    {
        self.written.push(b'\n')
    }

    pub fn slice(&self) -> &[u8]
        ensures { result.now ≡ self.now }
    {
        self.written.slice()
    }

    pub fn into_bytes(self) -> Bytes
        ensures { result ≡ self }
    {
        self.written
    }
}
