use crate::nearest::nearest_told;
use crate::one_line::on_one_line;
use crate::pairs::pair_hint;
use crate::place::Place;
use sc_base::{Failure, NoMemory, is_word};
use sc_script::{Cause, ScriptFault, read_script};
use std::alloc::Global;

/// The forms of the lines, by their first words.
const FORMS: [(&str, &str); 6] = [
    ("chart", "chart NAME JSON"),
    ("start", "start SESSION NAME"),
    ("post", "post SESSION EVENT NAME=VALUE .."),
    ("tick", "tick NUMBER"),
    ("cancel", "cancel SESSION"),
    ("client", "client"),
];

/// The words that begin a line.
pub(crate) const FIRST_WORDS: [&str; 6] = ["chart", "start", "post", "tick", "cancel", "client"];

/// What is wrong with the first faulty line of a text that is no script, and where; `None` where it is one.
pub fn script_hint(alloc: Global, text: &[u8]) -> Result<Option<String>, NoMemory> {
    match read_script(alloc, text) {
        Ok(_) => Ok(None),
        Err(Failure::Fault(fault)) => {
            let sentence = fault_hint(alloc, text, fault)?;
            Ok(Some(on_one_line(alloc, sentence.as_str())?))
        }
        Err(Failure::NoMemory) => Err(NoMemory),
    }
}

fn fault_hint(alloc: Global, text: &[u8], fault: ScriptFault) -> Result<String, NoMemory> {
    if fault.cause == Cause::TooLarge {
        return Ok(String::from_str(
            alloc,
            "the script has more than 67,108,864 bytes: cut it in two",
        )?);
    }
    let bytes = bytes_of_line(text, fault.line);
    match std::str::from_utf8(bytes) {
        Ok(text) => line_hint(
            alloc,
            Line {
                number: fault.line,
                text,
            },
            fault.cause,
        ),
        Err(error) => {
            let place = Place::in_line(fault.line, error.valid_up_to());
            Ok(format!(in alloc; "{place}: here the text is not UTF-8: save it as UTF-8")?)
        }
    }
}

/// The bytes of a line, without its line feed and a carriage return.
fn bytes_of_line(text: &[u8], number: u32) -> &[u8] {
    let mut lines = text.split(|byte| *byte == b'\n');
    match lines.nth((number as usize).saturating_sub(1)) {
        Some(line) => line.strip_suffix(b"\r").unwrap_or(line),
        None => b"",
    }
}

/// A line of a script.
#[derive(Clone, Copy)]
pub(crate) struct Line<'a> {
    pub(crate) number: u32,
    pub(crate) text: &'a str,
}

/// A word of a line, and where it begins.
#[derive(Clone, Copy)]
pub(crate) struct Found<'a> {
    pub(crate) offset: usize,
    pub(crate) word: &'a str,
}

impl<'a> Line<'a> {
    /// The place of an offset.
    pub(crate) fn place(&self, offset: usize) -> Place {
        Place::in_line(self.number, offset)
    }

    /// The word of this number, counted from 0; behind the last an empty one at the line's end.
    pub(crate) fn word(&self, number: usize) -> Found<'a> {
        let mut offset = 0usize;
        let mut before = number;
        for word in self.text.split(' ') {
            if !word.is_empty() && before == 0 {
                return Found { offset, word };
            }
            before = before.saturating_sub(usize::from(!word.is_empty()));
            offset = offset.saturating_add(word.len()).saturating_add(1);
        }
        Found {
            offset: self.text.len(),
            word: "",
        }
    }

    /// The form of the line, by its first word.
    fn form(&self) -> &'static str {
        let first = self.word(0).word;
        match FORMS.iter().find(|form| form.0 == first) {
            Some((_, form)) => form,
            None => "",
        }
    }
}

fn line_hint(alloc: Global, line: Line<'_>, cause: Cause) -> Result<String, NoMemory> {
    match cause {
        Cause::UnknownWord => first_word_hint(alloc, line),
        Cause::Missing => {
            let place = line.place(line.text.len());
            Ok(format!(in alloc;
                "{place}: the line ends too early, its form is {}",
                line.form()
            )?)
        }
        Cause::Extra => extra_hint(alloc, line),
        Cause::BadWord => bad_word_hint(alloc, line),
        Cause::BadValue => pair_hint(alloc, line),
        Cause::BadNumber => number_hint(alloc, line),
        _ => {
            let place = line.place(0);
            Ok(format!(in alloc; "{place}: this is the 65th line client, and 64 are the most")?)
        }
    }
}

fn first_word_hint(alloc: Global, line: Line<'_>) -> Result<String, NoMemory> {
    let found = line.word(0);
    let place = line.place(found.offset);
    let word = found.word;
    match other_text(word) {
        Some(told) => Ok(format!(in alloc; "{place}: {told}")?),
        None => {
            let near = nearest_told(alloc, word, &FIRST_WORDS)?;
            Ok(format!(in alloc;
                "{place}: '{word}' begins no line{near}; a line begins with chart, start, post, tick, cancel or client"
            )?)
        }
    }
}

/// What a first word tells that is no word of a script at all.
fn other_text(word: &str) -> Option<&'static str> {
    if word.starts_with("{")
        || word.starts_with("[")
        || word.starts_with("}")
        || word.starts_with("]")
        || word.starts_with("\"")
    {
        Some(
            "JSON stands on its line chart NAME JSON alone, as one line: tr -d '\\n' < CHART joins the lines of a chart",
        )
    } else if word.starts_with("#") || word.starts_with("//") {
        Some("a script has no comments")
    } else if word.starts_with("\u{feff}") {
        Some("the text begins with a byte order mark: save it without one")
    } else if word.contains('\t') {
        Some("between words stands a space, and here is a tab")
    } else {
        None
    }
}

fn extra_hint(alloc: Global, line: Line<'_>) -> Result<String, NoMemory> {
    let form = line.form();
    let found = line.word(form.split(' ').count());
    let place = line.place(found.offset);
    Ok(format!(in alloc;
        "{place}: '{}' is one word too many, the line's form is {form}",
        found.word
    )?)
}

fn bad_word_hint(alloc: Global, line: Line<'_>) -> Result<String, NoMemory> {
    let first = line.word(1);
    let found = if is_word(first.word.as_bytes()) {
        line.word(2)
    } else {
        first
    };
    let place = line.place(found.offset);
    Ok(format!(in alloc;
        "{place}: '{}' is no name, which has no \", #, ' and \\ in it; the line's form is {}",
        found.word,
        line.form()
    )?)
}

fn number_hint(alloc: Global, line: Line<'_>) -> Result<String, NoMemory> {
    let found = line.word(1);
    let place = line.place(found.offset);
    Ok(format!(in alloc;
        "{place}: '{}' is no number of milliseconds, which has digits alone, as in tick 500",
        found.word
    )?)
}
