use sc_base::NoMemory;
use std::alloc::Global;

/// A bracket of a JSON text that is not closed by its partner.
#[derive(Clone, Copy)]
pub(crate) struct Unpaired {
    pub(crate) bracket: char,
    pub(crate) open: usize,
    /// Where it has to be closed: the bracket of another kind that stands there, or none at the end of the text.
    pub(crate) offset: usize,
    pub(crate) closing: Option<char>,
}

/// The first such bracket; `None` where there is none before a bracket that closes nothing.
pub(crate) fn first_unpaired(alloc: Global, text: &str) -> Result<Option<Unpaired>, NoMemory> {
    let mut opened = Vec::new(alloc);
    let mut state = State::Between;
    for (offset, letter) in text.char_indices() {
        if state == State::Between {
            match letter {
                '{' | '[' => opened.push((offset, letter))?,
                '}' | ']' => match opened.pop() {
                    Some((_, bracket)) if partner(bracket) == letter => {}
                    Some((open, bracket)) => {
                        return Ok(Some(Unpaired {
                            bracket,
                            open,
                            offset,
                            closing: Some(letter),
                        }));
                    }
                    None => return Ok(None),
                },
                _ => {}
            }
        }
        state = state.behind(letter);
    }
    match opened.pop() {
        Some((open, bracket)) => Ok(Some(Unpaired {
            bracket,
            open,
            offset: text.trim_end().len(),
            closing: None,
        })),
        None => Ok(None),
    }
}

fn partner(bracket: char) -> char {
    if bracket == '{' { '}' } else { ']' }
}

/// Where a letter of a JSON text stands.
#[derive(Clone, Copy, PartialEq, Eq)]
enum State {
    Between,
    Text,
    /// In a text, behind a backslash.
    Escape,
}

impl State {
    fn behind(self, letter: char) -> State {
        match (self, letter) {
            (State::Between, '"') | (State::Escape, _) => State::Text,
            (State::Text, '"') => State::Between,
            (State::Text, '\\') => State::Escape,
            _ => self,
        }
    }
}
