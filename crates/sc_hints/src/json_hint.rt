use crate::brackets::{Unpaired, first_unpaired};
use crate::chart::Placed;
use crate::json_text::end_of_json;
use sc_base::NoMemory;
use std::alloc::Global;

/// Why a text is no JSON.
pub(crate) fn json_hint(alloc: Global, chart: Placed<'_>) -> Result<String, NoMemory> {
    let text = chart.text;
    if text.trim().is_empty() {
        return Ok(String::from_str(
            alloc,
            "the text is empty: the chart is read from standard input, as in charthost check < CHART",
        )?);
    }
    let end = end_of_json(alloc, text)?;
    match first_unpaired(alloc, text)? {
        Some(found) if found.offset <= end => bracket_hint(alloc, chart, found),
        _ => {
            let place = chart.place(end);
            let before = text.get(..end).unwrap_or("").trim_end();
            let tip = json_tip(before, text.get(end..).unwrap_or(""));
            Ok(format!(in alloc; "{place}: here the text is no JSON: {tip}")?)
        }
    }
}

fn bracket_hint(alloc: Global, chart: Placed<'_>, found: Unpaired) -> Result<String, NoMemory> {
    let place = chart.place(found.offset);
    let open = chart.place(found.open);
    let bracket = found.bracket;
    match found.closing {
        Some(closing) => Ok(format!(in alloc;
            "{place}: here the text is no JSON: this {closing} stands where the {bracket} of {open} has to be closed"
        )?),
        None => Ok(format!(in alloc;
            "{place}: here the text is no JSON: it ends, and the {bracket} of {open} is not closed"
        )?),
    }
}

/// What to change in a text of which the first part is the front of a JSON value, and the rest does not go on with it.
fn json_tip(before: &str, rest: &str) -> &'static str {
    match rest.chars().next() {
        None => "it ends too early",
        Some(_) if is_whole(before) => "a chart is one JSON value, and nothing stands behind it",
        Some('<') => "XML is not read, tools/from-scxml makes JSON of it",
        Some('c') if before.is_empty() && rest.starts_with("chart ") => {
            "this is a line chart NAME JSON of a script, and check reads the JSON alone"
        }
        Some('\'') => "texts stand in double quotes",
        Some('/' | '#') => "JSON has no comments",
        Some('}' | ']') if before.ends_with(',') => "take out the comma in front of it",
        Some('"' | '{' | '[') if !before.is_empty() && !before.ends_with([',', ':', '{', '[']) => {
            "a comma is missing in front of it, or a : behind a name"
        }
        Some('"') => text_tip(rest).unwrap_or(FORM),
        Some(_) => FORM,
    }
}

const FORM: &str =
    "names and texts stand in double quotes, with a : behind a name and a comma between members";

/// Whether each bracket is closed.
fn is_whole(before: &str) -> bool {
    before.ends_with('}')
        && before.matches('{').count() == before.matches('}').count()
        && before.matches('[').count() == before.matches(']').count()
}

/// What is wrong with a text in quotes with which this one begins; `None` where it is not seen here.
fn text_tip(rest: &str) -> Option<&'static str> {
    let mut is_escaped = false;
    for letter in rest.chars().skip(1) {
        match letter {
            _ if is_escaped && !"\"\\/bfnrtu".contains(letter) => {
                return Some("in the text that begins here stands a \\, which is written \\\\");
            }
            _ if is_escaped => is_escaped = false,
            '\\' => is_escaped = true,
            '"' => return None,
            '\0'..='\x1f' => {
                return Some(
                    "in the text that begins here stands a line feed, a tab or another control character, \
                    which is written \\n, \\t or \\u and its number",
                );
            }
            _ => {}
        }
    }
    Some("the text that begins here has no quote at its end")
}
