use crate::element::{Element, ids};
use crate::fault::plain;
use crate::nearest::nearest_told;
use crate::tables::{kids, listed};
use json::Value;
use sc_base::NoMemory;
use sc_types::faults::{
    BAD_CHILD, BAD_DATA, BAD_HISTORY, BAD_INITIAL, BAD_INVOKE, BAD_LIMIT, BAD_SEND, BAD_TARGETS,
    DOUBLE_ID, EMPTY_FINALIZE, EMPTY_TRANSITION, UNKNOWN_TARGET,
};
use std::alloc::Global;

/// What the fault of an element is in a chart that is not legal.
pub(crate) fn law_told(
    alloc: Global,
    number: u8,
    root: &Value<'_>,
    element: &Element<'_, '_>,
) -> Result<String, NoMemory> {
    match number {
        DOUBLE_ID => Ok(format!(in alloc;
            "the id '{}' is that of an earlier element",
            element.text("id")
        )?),
        UNKNOWN_TARGET => target_told(alloc, root, element),
        BAD_INITIAL => initial_told(alloc, element),
        BAD_HISTORY => plain(
            alloc,
            "a history has one transition, without event and cond, whose target lies below its \
            parent, directly below where it is shallow",
        ),
        BAD_TARGETS => targets_told(alloc, element),
        EMPTY_TRANSITION => plain(alloc, "it has none of 'event', 'cond' and 'target'"),
        BAD_CHILD => child_told(alloc, element),
        BAD_LIMIT => Ok(format!(in alloc;
            "'limit' is '{}', and has to be from 1 to 10000",
            element.text("limit")
        )?),
        BAD_SEND => plain(alloc, send_told(element)),
        BAD_INVOKE => plain(alloc, invoke_told(element)),
        BAD_DATA => data_told(alloc, element),
        EMPTY_FINALIZE => plain(alloc, "a finalize without child elements is left out"),
        _ => plain(alloc, "docs/FORMATS.md tells what its fault is"),
    }
}

/// Which target is the id of no state.
fn target_told(
    alloc: Global,
    root: &Value<'_>,
    element: &Element<'_, '_>,
) -> Result<String, NoMemory> {
    let name = if element.has("target") {
        "target"
    } else {
        "initial"
    };
    let ids = ids(alloc, root)?;
    for target in element.text(name).split_whitespace() {
        if !ids.as_slice().contains(&target) {
            let near = nearest_told(alloc, target, ids.as_slice())?;
            return Ok(format!(in alloc;
                "'{name}' has '{target}', which is the id of no state{near}"
            )?);
        }
    }
    plain(alloc, "a target is the id of no state")
}

fn targets_told(alloc: Global, element: &Element<'_, '_>) -> Result<String, NoMemory> {
    let targets = element
        .text("target")
        .split_whitespace()
        .collect::<Vec<&str>>(alloc)?;
    let list = listed(alloc, targets.as_slice())?;
    Ok(format!(in alloc;
        "{list} are never active together: name one, or one in each region of a parallel"
    )?)
}

fn initial_told(alloc: Global, element: &Element<'_, '_>) -> Result<String, NoMemory> {
    let has_states = element.has_kid("state")
        || element.has_kid("parallel")
        || element.has_kid("final");
    match element.tag() {
        _ if element.is_root() && !has_states => plain(alloc, "it has no state, parallel or final"),
        "initial" => plain(
            alloc,
            "it has one transition, with a target below the state and without event and cond; \
            a state without child states has no initial, and one with the attribute 'initial' neither",
        ),
        _ if !has_states => plain(alloc, "it has 'initial', and no child states"),
        _ => plain(
            alloc,
            "'initial' names states below it, one, or one in each region of a parallel",
        ),
    }
}

fn child_told(alloc: Global, element: &Element<'_, '_>) -> Result<String, NoMemory> {
    let tag = element.tag();
    match element.parent_tag() {
        None => plain(alloc, "the root of a chart is scxml"),
        Some(parent) if kids(parent).split(' ').any(|kid| kid == tag) => Ok(format!(in alloc;
            "there may be one {tag} less in {parent}, or not beside or within what is there"
        )?),
        Some(parent) if kids(parent).is_empty() => Ok(format!(in alloc;
            "it may not stand in {parent}, which has no child elements"
        )?),
        Some(parent) => Ok(format!(in alloc;
            "it may not stand in {parent}, in which may stand: {}",
            kids(parent)
        )?),
    }
}

fn send_told(element: &Element<'_, '_>) -> &'static str {
    if element.has("event") == element.has("eventexpr") {
        "exactly one of 'event' and 'eventexpr' has to be there"
    } else if element.has("id") && element.has("idlocation") {
        "'id' and 'idlocation' exclude each other"
    } else if element.has("delay") && element.has("delayexpr") {
        "'delay' and 'delayexpr' exclude each other"
    } else if element.has_kid("content") {
        "content excludes 'namelist' and param"
    } else {
        "the target '#_internal' excludes a delay"
    }
}

fn invoke_told(element: &Element<'_, '_>) -> &'static str {
    if element.has("idlocation") {
        "'id' and 'idlocation' exclude each other"
    } else {
        "its id is that of an earlier invoke"
    }
}

fn data_told(alloc: Global, element: &Element<'_, '_>) -> Result<String, NoMemory> {
    let id = element.text("id");
    if element.tag() == "data" && id.starts_with('_') {
        return Ok(format!(in alloc; "the id '{id}' begins with _, as the names of the system do")?);
    }
    if element.tag() == "data" {
        return Ok(format!(in alloc;
            "the id '{id}' is that of an earlier data, or the datamodel is null"
        )?);
    }
    plain(
        alloc,
        "the datamodel is null, which has no data and no expressions but In",
    )
}
