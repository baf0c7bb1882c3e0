use crate::element::Element;
use crate::expression::expression_tip;
use crate::json_text::{first_value, from_member};
use crate::legality::law_told;
use crate::nearest::nearest_told;
use crate::tables::{attributes, form, listed, tags};
use json::Value;
use sc_base::NoMemory;
use sc_chart_json::read_chart;
use sc_types::faults::{
    BAD_EXPR, BAD_MEMBER, NOT_ELEMENT, TOO_DEEP, TOO_MANY, UNKNOWN_MEMBER, UNKNOWN_TAG,
};
use sc_types::{ChartFault, ChartRefusal};
use std::alloc::Global;

/// What the fault of an element is. The text begins with the element.
pub(crate) fn told(
    alloc: Global,
    fault: &ChartFault,
    root: &Value<'_>,
    element: &Element<'_, '_>,
    text: &str,
) -> Result<String, NoMemory> {
    match fault.number {
        NOT_ELEMENT => plain(
            alloc,
            "an element is an object with a member 'tag' that is a text in quotes",
        ),
        UNKNOWN_TAG => tag_told(alloc, element),
        UNKNOWN_MEMBER => member_told(alloc, element),
        BAD_MEMBER => form_told(alloc, element, text),
        BAD_EXPR => expression_told(alloc, fault, element),
        TOO_DEEP => plain(alloc, "it stands on the 41st level, and 40 are the most"),
        TOO_MANY => plain(
            alloc,
            "it is the 4,097th state, parallel, final or history, and 4,096 are the most",
        ),
        _ => law_told(alloc, fault.number, root, element),
    }
}

pub(crate) fn plain(alloc: Global, sentence: &str) -> Result<String, NoMemory> {
    Ok(String::from_str(alloc, sentence)?)
}

fn tag_told(alloc: Global, element: &Element<'_, '_>) -> Result<String, NoMemory> {
    let tag = element.tag();
    let tags = tags(alloc)?;
    let near = nearest_told(alloc, tag, tags.as_slice())?;
    Ok(format!(in alloc; "no element has the tag '{tag}'{near}")?)
}

/// The names of the members that an element may have.
fn member_names(alloc: Global, tag: &str) -> Result<Vec<&'static str>, NoMemory> {
    let mut names = Vec::new(alloc);
    names.push("tag")?;
    names.push("kids")?;
    for attribute in attributes(alloc, tag)? {
        names.push(attribute.name)?;
    }
    Ok(names)
}

fn member_told(alloc: Global, element: &Element<'_, '_>) -> Result<String, NoMemory> {
    let names = member_names(alloc, element.tag())?;
    let member = element.member_beside(names.as_slice()).unwrap_or("");
    let near = nearest_told(alloc, member, names.as_slice())?;
    let list = listed(alloc, names.as_slice())?;
    Ok(format!(in alloc; "it may not have '{member}'{near}; its members are {list}")?)
}

/// Which attribute has not its form, or is missing.
fn form_told(alloc: Global, element: &Element<'_, '_>, text: &str) -> Result<String, NoMemory> {
    let tag = element.tag();
    for attribute in attributes(alloc, tag)? {
        let name = attribute.name;
        match element.member(name) {
            None if attribute.is_required => return Ok(format!(in alloc; "'{name}' is missing")?),
            None => {}
            Some(Value::String(given)) if has_form(alloc, tag, name, text)? => {}
            Some(Value::String(given)) => {
                let form = form(tag, name);
                return Ok(format!(in alloc; "'{name}' is '{given}', and has to be {form}")?);
            }
            Some(_) => {
                let form = form(tag, name);
                return Ok(format!(in alloc; "'{name}' has to be a text in quotes: {form}")?);
            }
        }
    }
    match tag {
        "param" => plain(
            alloc,
            "exactly one of 'expr' and 'location' has to be there",
        ),
        "cancel" => plain(
            alloc,
            "exactly one of 'sendid' and 'sendidexpr' has to be there",
        ),
        _ => plain(alloc, "'kids' has to be an array of elements, as [ .. ]"),
    }
}

/// Whether the reader of charts takes an attribute: it is asked for an element with this one, and else with those that
/// are required.
fn has_form(alloc: Global, tag: &str, name: &str, text: &str) -> Result<bool, NoMemory> {
    let Some(rest) = from_member(alloc, text, name)? else {
        return Ok(true);
    };
    let value = first_value(alloc, rest)?;
    let others = others(alloc, tag, name)?;
    let element = format!(in alloc; "{{\"tag\":\"{tag}\",\"{name}\":{value}{others}}}")?;
    match read_chart(alloc, element.as_bytes()) {
        Err(ChartRefusal::Fault(fault)) => Ok(fault.number != BAD_MEMBER),
        Err(ChartRefusal::NoMemory) => Err(NoMemory),
        Ok(_) => Ok(true),
    }
}

/// The attributes that have to stand beside one. `a` has the form of each of them.
fn others(alloc: Global, tag: &str, name: &str) -> Result<String, NoMemory> {
    let mut others = String::new(alloc);
    for attribute in attributes(alloc, tag)? {
        let other = attribute.name;
        if attribute.is_required && other != name {
            others.push_str(format!(in alloc; ",\"{other}\":\"a\"")?.as_str())?;
        }
    }
    if tag == "param" && name == "name" {
        others.push_str(",\"expr\":\"a\"")?;
    }
    Ok(others)
}

fn expression_told(
    alloc: Global,
    fault: &ChartFault,
    element: &Element<'_, '_>,
) -> Result<String, NoMemory> {
    let name = std::str::from_utf8(fault.member.slice()).unwrap_or("");
    let text = element.text(name);
    let tip = expression_tip(alloc, text)?;
    Ok(format!(in alloc; "'{name}' is no expression: {text} .. {tip}")?)
}
