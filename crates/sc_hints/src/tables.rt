use sc_base::NoMemory;
use std::alloc::Global;

/// The attributes that each element may have. A `!` marks one that it has to have.
const ATTRIBUTES: [(&str, &str); 18] = [
    (
        "scxml",
        "initial name datamodel binding limit values version xmlns",
    ),
    ("state", "id initial"),
    ("parallel", "id"),
    ("final", "id"),
    ("history", "id type"),
    ("transition", "event cond target type"),
    ("data", "id! expr"),
    ("content", "expr!"),
    ("param", "name! expr location"),
    ("invoke", "src! type id idlocation namelist autoforward"),
    ("raise", "event!"),
    ("if", "cond!"),
    ("elseif", "cond!"),
    ("foreach", "array! item! index"),
    ("log", "label expr"),
    ("assign", "location! expr!"),
    (
        "send",
        "event eventexpr target type id idlocation delay delayexpr namelist",
    ),
    ("cancel", "sendid sendidexpr"),
];

const CONTENT: &str = "raise if foreach log assign send cancel";

/// The child elements that each element may have.
const KIDS: [(&str, &str); 16] = [
    ("scxml", "datamodel state parallel final"),
    (
        "state",
        "datamodel onentry onexit transition initial state parallel final history invoke",
    ),
    (
        "parallel",
        "datamodel onentry onexit transition state parallel history invoke",
    ),
    ("final", "onentry onexit donedata"),
    ("history", "transition"),
    ("initial", "transition"),
    ("transition", CONTENT),
    ("onentry", CONTENT),
    ("onexit", CONTENT),
    ("finalize", "if foreach log assign cancel"),
    ("datamodel", "data"),
    ("donedata", "content param"),
    ("invoke", "param finalize"),
    ("if", "raise if foreach log assign send cancel elseif else"),
    ("foreach", CONTENT),
    ("send", "content param"),
];

/// The elements that have no child elements.
const CHILDLESS: &str = "data content param raise elseif else log assign cancel";

/// What the text of attributes has to be, at the elements of a tag or at all others.
const FORMS: [(&str, &str, &str); 23] = [
    ("data", "id", PLAIN_NAME),
    ("param", "name", PLAIN_NAME),
    ("", "location item index idlocation", PLAIN_NAME),
    ("", "id sendid", "a word of at most 128 bytes"),
    ("", "initial", SEVERAL),
    ("transition", "target event", SEVERAL),
    (
        "",
        "event",
        "the name of an event, a word of at most 256 bytes",
    ),
    ("", "target", "a text of at most 512 bytes"),
    ("transition", "type", "external or internal"),
    ("history", "type", "shallow or deep"),
    ("", "datamodel", "whole or null"),
    ("", "binding", "early or late"),
    ("", "autoforward", "false or true"),
    ("", "limit", "a number in digits, without a leading zero"),
    ("", "values", "1"),
    ("", "version", "1.0"),
    ("", "xmlns", "http://www.w3.org/2005/07/scxml"),
    (
        "",
        "name label",
        "a text of at most 4,096 bytes, without control characters but line feed and tab",
    ),
    ("", "type", "a text of at most 256 bytes"),
    (
        "",
        "cond expr array eventexpr delayexpr sendidexpr",
        "an expression",
    ),
    ("", "namelist", SEVERAL),
    ("", "src", "the name of a chart, a word of at most 64 bytes"),
    ("", "delay", "a number with s or ms, as in 500ms or 1.5s"),
];

const PLAIN_NAME: &str = "a name of letters, digits and _, and no word of expressions as len";

const SEVERAL: &str = "one word or more, with a space between each two and none around them";

/// An attribute that an element may have.
#[derive(Clone, Copy)]
pub(crate) struct Attribute {
    pub(crate) name: &'static str,
    pub(crate) is_required: bool,
}

/// The attributes that an element may have.
pub(crate) fn attributes(alloc: Global, tag: &str) -> Result<Vec<Attribute>, NoMemory> {
    let mut attributes = Vec::new(alloc);
    for marked in found(&ATTRIBUTES, tag).split_whitespace() {
        attributes.push(match marked.strip_suffix('!') {
            Some(name) => Attribute {
                name,
                is_required: true,
            },
            None => Attribute {
                name: marked,
                is_required: false,
            },
        })?;
    }
    Ok(attributes)
}

/// The child elements that an element may have.
pub(crate) fn kids(tag: &str) -> &'static str {
    found(&KIDS, tag)
}

fn found(table: &'static [(&'static str, &'static str)], name: &str) -> &'static str {
    match table.iter().find(|row| row.0 == name) {
        Some(row) => row.1,
        None => "",
    }
}

/// All tags.
pub(crate) fn tags(alloc: Global) -> Result<Vec<&'static str>, NoMemory> {
    let mut tags = Vec::new(alloc);
    for row in &KIDS {
        tags.push(row.0)?;
    }
    for tag in CHILDLESS.split(' ') {
        tags.push(tag)?;
    }
    Ok(tags)
}

/// What the text of an attribute has to be.
pub(crate) fn form(tag: &str, name: &str) -> &'static str {
    let row = FORMS.iter().find(|row| is_form_of(row, tag, name));
    match row {
        Some(row) => row.2,
        None => "as docs/FORMATS.md says",
    }
}

fn is_form_of(row: &(&str, &str, &str), tag: &str, name: &str) -> bool {
    (row.0 == tag || row.0.is_empty()) && row.1.split(' ').any(|other| other == name)
}

/// Names in quotes, with commas between them.
pub(crate) fn listed(alloc: Global, names: &[&str]) -> Result<String, NoMemory> {
    let mut list = String::new(alloc);
    for name in names {
        if !list.is_empty() {
            list.push_str(", ")?;
        }
        list.push_str("'")?;
        list.push_str(name)?;
        list.push_str("'")?;
    }
    Ok(list)
}
