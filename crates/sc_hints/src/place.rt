use std::fmt;

/// A place in a text. Lines and columns are counted from 1, and a column counts bytes.
#[derive(Clone, Copy, Debug, PartialEq, Eq)]
pub(crate) struct Place {
    line: u32,
    column: u32,
}

impl Place {
    /// Where a text begins.
    pub(crate) const START: Place = Place { line: 1, column: 1 };

    /// The place of an offset of a text that begins here.
    pub(crate) fn of(self, text: &[u8], offset: usize) -> Place {
        let mut place = self;
        for byte in &text[..offset.min(text.len())] {
            place = place.behind(*byte);
        }
        place
    }

    /// The place of an offset in a line.
    pub(crate) fn in_line(line: u32, offset: usize) -> Place {
        let column = u32::try_from(offset).unwrap_or(u32::MAX).saturating_add(1);
        Place { line, column }
    }

    fn behind(self, byte: u8) -> Place {
        if byte == b'\n' {
            Place {
                line: self.line.saturating_add(1),
                column: 1,
            }
        } else {
            Place {
                line: self.line,
                column: self.column.saturating_add(1),
            }
        }
    }
}

impl fmt::Display for Place {
    fn fmt<W: fmt::Write>(&self, f: &mut fmt::Formatter<W>) -> fmt::Result {
        let line = self.line;
        let column = self.column;
        write!(f, "line {line}, column {column}")
    }
}
