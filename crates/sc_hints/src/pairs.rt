use crate::script::{Found, Line};
use sc_base::{NoMemory, is_plain_name};
use sc_script::read_script;
use std::alloc::Global;

/// What is wrong with the first faulty pair of a post.
pub(crate) fn pair_hint(alloc: Global, line: Line<'_>) -> Result<String, NoMemory> {
    let found = faulty_pair(alloc, line)?;
    let place = line.place(found.offset);
    let pair = found.word;
    match pair.split_once('=') {
        None => Ok(format!(in alloc;
            "{place}: '{pair}' is no pair NAME=VALUE, which has no spaces before and behind the ="
        )?),
        Some((name, _)) if !is_plain_name(name.as_bytes()) => Ok(format!(in alloc;
            "{place}: '{name}' is no name of a pair, which has letters, digits and _ alone"
        )?),
        Some((name, value)) => Ok(format!(in alloc;
            "{place}: the value of '{name}' is {value}: a text stands in quotes, as in {name}='open', a number is whole, \
            true and false have small letters, and a list has numbers and texts alone, as [1, 2]"
        )?),
    }
}

/// The first pair of a post that the reader of scripts does not take, and where it begins.
fn faulty_pair<'a>(alloc: Global, line: Line<'a>) -> Result<Found<'a>, NoMemory> {
    let mut begin = line.word(3).offset;
    let mut within = Within::Nothing;
    for (offset, letter) in line.text.char_indices() {
        if offset >= begin {
            if letter == ' ' && within == Within::Nothing {
                let word = line.text.get(begin..offset).unwrap_or("");
                if !word.is_empty() && !is_pair(alloc, word)? {
                    return Ok(Found {
                        offset: begin,
                        word,
                    });
                }
                begin = offset.saturating_add(1);
            }
            within = within.behind(letter);
        }
    }
    let word = line.text.get(begin..).unwrap_or("");
    Ok(Found {
        offset: begin,
        word,
    })
}

fn is_pair(alloc: Global, word: &str) -> Result<bool, NoMemory> {
    let text = format!(in alloc; "post s e {word}")?;
    Ok(read_script(alloc, text.as_bytes()).is_ok())
}

/// Where a letter of the pairs stands.
#[derive(Clone, Copy, PartialEq, Eq)]
enum Within {
    Nothing,
    List,
    /// Between two of this mark, and whether that is in a list.
    Quotes(char, bool),
    /// Behind a backslash there.
    Escape(char, bool),
}

impl Within {
    fn behind(self, letter: char) -> Within {
        match (self, letter) {
            (Within::Nothing, '[') => Within::List,
            (Within::List, ']') => Within::Nothing,
            (Within::Nothing, '\'' | '"') => Within::Quotes(letter, false),
            (Within::List, '\'' | '"') => Within::Quotes(letter, true),
            (Within::Quotes(mark, in_list), '\\') => Within::Escape(mark, in_list),
            (Within::Escape(mark, in_list), _) => Within::Quotes(mark, in_list),
            (Within::Quotes(mark, false), _) if mark == letter => Within::Nothing,
            (Within::Quotes(mark, true), _) if mark == letter => Within::List,
            _ => self,
        }
    }
}
