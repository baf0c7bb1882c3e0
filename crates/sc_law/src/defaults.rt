ghost use Rattle.std.specs.Prelude.{◌≡◌, filter, option_map};
ghost use Rattle.std.specs.Option.{option_copied};
ghost use Rattle.sc_types.specs.declared.chart.Tag.TheVariants as tag_name;
ghost use Rattle.sc_law.specs.Nodes.{is_tag, tag_of};
ghost use Rattle.sc_law.specs.Legality.{default_ids, is_default};
ghost use Rattle.sc_law.specs.Only.{only};

use sc_types::{Attribute, Bytes, Node, Tag};

/// What the only transition of an element names, where it only names targets.
pub fn default_ids(node: &Node) -> Option<&[Bytes]>
    ensures { option_map (λ ids. ids.now) result ≡ default_ids node.now }
{
    let transition = only_transition(node.kids.slice())?;
    if is_default(transition) {
        Some(transition.words(Attribute::Target))
    } else {
        None
    }
}

/// The only transition among elements.
fn only_transition(kids: &[Node]) -> Option<&Node>
    ensures { option_copied result ≡ only (filter (λ kid. is_tag tag_name.Transition (tag_of kid)) kids.now) }
{
    let mut found = None;
    for kid in kids {
        if is_transition_tag(kid.tag) {
            if found.is_some() {
                return None;
            }
            found = Some(kid);
        }
    }
    found
}

fn is_transition_tag(tag: Tag) -> bool
    ensures { result ≡ is_tag tag_name.Transition tag }
{
    matches!(tag, Tag::Transition)
}

fn is_default(transition: &Node) -> bool
    ensures { result ≡ is_default transition.now }
{
    !transition.has(Attribute::Event)
        && !transition.has(Attribute::Cond)
        && !transition.words(Attribute::Target).is_empty()
}
