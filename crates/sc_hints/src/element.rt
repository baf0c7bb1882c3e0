use json::Value;
use sc_base::NoMemory;
use sc_types::LEVEL_LIMIT;
use std::alloc::Global;

/// An element of a chart, as its JSON value, with those above it that a sentence on it speaks of.
#[derive(Clone, Copy)]
pub(crate) struct Element<'v, 'a> {
    value: &'v Value<'a>,
    parent: Option<&'v Value<'a>>,
    /// The nearest above with an id.
    owner: Option<&'v Value<'a>>,
}

/// The element at a path.
pub(crate) fn element_at<'v, 'a>(root: &'v Value<'a>, path: &[u32]) -> Option<Element<'v, 'a>> {
    let mut element = Element {
        value: root,
        parent: None,
        owner: None,
    };
    for place in path {
        element = element.kid(*place)?;
    }
    Some(element)
}

impl<'v, 'a> Element<'v, 'a> {
    fn kid(&self, place: u32) -> Option<Element<'v, 'a>> {
        let value = self.value.get("kids")?.at(place as usize)?;
        let owner = match text_of(self.value, "id") {
            Some(_) => Some(self.value),
            None => self.owner,
        };
        Some(Element {
            value,
            parent: Some(self.value),
            owner,
        })
    }

    pub(crate) fn tag(&self) -> &'a str {
        text_of(self.value, "tag").unwrap_or("element")
    }

    pub(crate) fn is_root(&self) -> bool {
        self.parent.is_none()
    }

    /// The tag of the element that it stands in.
    pub(crate) fn parent_tag(&self) -> Option<&'a str> {
        text_of(self.parent?, "tag")
    }

    pub(crate) fn member(&self, name: &str) -> Option<&'v Value<'a>> {
        self.value.get(name)
    }

    pub(crate) fn has(&self, name: &str) -> bool {
        self.member(name).is_some()
    }

    /// The text of an attribute; an empty one where there is none.
    pub(crate) fn text(&self, name: &str) -> &'a str {
        text_of(self.value, name).unwrap_or("")
    }

    /// Whether it has a child element of this tag.
    pub(crate) fn has_kid(&self, tag: &str) -> bool {
        match self.value.get("kids") {
            Some(Value::Array(kids)) => kids.iter().any(|kid| is_tagged(kid, tag)),
            _ => false,
        }
    }

    /// The first member that is none of these.
    pub(crate) fn member_beside(&self, names: &[&str]) -> Option<&'a str> {
        match self.value {
            Value::Object(members) => {
                let found = members.iter().find(|member| !names.contains(&member.0))?;
                Some(found.0)
            }
            _ => None,
        }
    }

    /// The element by its tag and its id, or the id of the nearest above with one.
    pub(crate) fn name(&self, alloc: Global) -> Result<String, NoMemory> {
        let tag = self.tag();
        if let Some(id) = text_of(self.value, "id") {
            return Ok(format!(in alloc; "{tag} '{id}'")?);
        }
        match self.owner {
            Some(owner) => {
                let above = text_of(owner, "tag").unwrap_or("element");
                let id = text_of(owner, "id").unwrap_or("");
                Ok(format!(in alloc; "{tag} of {above} '{id}'")?)
            }
            None => Ok(String::from_str(alloc, tag)?),
        }
    }
}

fn text_of<'a>(value: &Value<'a>, name: &str) -> Option<&'a str> {
    value.get(name)?.as_str()
}

fn is_tagged(value: &Value<'_>, tag: &str) -> bool {
    is_text(value, "tag", tag)
}

fn is_text(value: &Value<'_>, name: &str, wanted: &str) -> bool {
    match text_of(value, name) {
        Some(text) => text == wanted,
        None => false,
    }
}

/// The ids of all states and histories of a chart.
pub(crate) fn ids<'a>(alloc: Global, root: &Value<'a>) -> Result<Vec<&'a str>, NoMemory> {
    let mut ids = Vec::new(alloc);
    for element in elements(alloc, root)? {
        if let Some("state" | "parallel" | "final" | "history") = text_of(element, "tag") {
            if let Some(id) = text_of(element, "id") {
                ids.push(id)?;
            }
        }
    }
    Ok(ids)
}

/// The event descriptors of all transitions of a chart.
pub(crate) fn descriptors<'a>(alloc: Global, root: &Value<'a>) -> Result<Vec<&'a str>, NoMemory> {
    let mut descriptors = Vec::new(alloc);
    for element in elements(alloc, root)? {
        if is_tagged(element, "transition") {
            for descriptor in text_of(element, "event").unwrap_or("").split_whitespace() {
                descriptors.push(descriptor)?;
            }
        }
    }
    Ok(descriptors)
}

/// Whether an event that no descriptor matches may still count: an invoke forwards it, or the condition of an eventless
/// transition looks at it.
pub(crate) fn heeds_all(alloc: Global, root: &Value<'_>) -> Result<bool, NoMemory> {
    let mut is_found = false;
    for element in elements(alloc, root)? {
        is_found = is_found || is_text(element, "autoforward", "true") || looks_at_events(element);
    }
    Ok(is_found)
}

fn looks_at_events(value: &Value<'_>) -> bool {
    is_tagged(value, "transition")
        && value.get("event").is_none()
        && text_of(value, "cond").unwrap_or("").contains("_event")
}

/// All elements of a chart, as deep as a chart may be.
fn elements<'v, 'a>(alloc: Global, root: &'v Value<'a>) -> Result<Vec<&'v Value<'a>>, NoMemory> {
    let mut elements = Vec::new(alloc);
    put_elements(root, LEVEL_LIMIT, &mut elements)?;
    Ok(elements)
}

fn put_elements<'v, 'a>(
    value: &'v Value<'a>,
    levels: usize,
    elements: &mut Vec<&'v Value<'a>>,
) -> Result<(), NoMemory> {
    if levels == 0 {
        return Ok(());
    }
    elements.push(value)?;
    if let Some(Value::Array(kids)) = value.get("kids") {
        for kid in kids {
            put_elements(kid, levels - 1, elements)?;
        }
    }
    Ok(())
}
