ghost use Rattle.std.specs.Prelude.{◌≡◌, ◌≤◌, ℕ, List, length, map, codes, None, Ok, IfOk, IfSome, OnOk};
ghost use Rattle.std.specs.List.{join_with_byte};
ghost use Rattle.std.specs.Str.{IsUtf8};
ghost use Rattle.serde_json.specs.Data.{string, put};
ghost use Rattle.serde_json.specs.View.{view, items_of, items_view, members_view};
ghost use Rattle.sc_types.specs.ChartTexts.{chart_of};
ghost use Rattle.sc_types.specs.declared.limits.TheConstants.{CHART_TEXT_LIMIT};
ghost use Rattle.sc_types.specs.PrintedCharts.{member_text, put_members, put_kids, data_of, chart_text};
ghost use Rattle.sc_expr.specs.Reading.{expr_of};

use sc_base::{Bytes, NoMemory, Plain};
use sc_expr::print_expr;
use sc_types::{Chart, Member, Node};
use serde_json::{Map, Value};
use std::alloc::Global;

/// Prints a chart as compact JSON.
///
/// A JSON text is UTF-8, so a chart made with other bytes is answered as where memory runs out. None that was read
/// has such bytes.
#[tactic(auto, using(crate::proofs::Printed::ReadBack::printed_charts))]
pub fn print_chart(alloc: Global, chart: &Chart) -> Result<Bytes, NoMemory>
    ensures text { IfOk result (λ t. t ≡ chart_text chart.now) }
    ensures read_back { (text : List ℕ) → chart_of expr_of text ≡ Ok chart.now
        → IfOk result (λ t. length t ≤ CHART_TEXT_LIMIT → chart_of expr_of t ≡ Ok chart.now) }
{
    let text = node_value(alloc, &chart.root)?.to_vec(alloc)?;
    Ok(Bytes::from_vec(text))
}

/// An element as a JSON object.
#[cycle(print)]
#[tactic(auto, using(crate::proofs::Printed::Writing::layers))]
fn node_value(alloc: Global, node: &Node) -> Result<Value, NoMemory>
    ensures { IfOk result (λ v. view v ≡ data_of node.now) }
{
    let mut object = Map::new(alloc);
    insert_members(alloc, &mut object, node.members.slice())?;
    insert_kids(alloc, &mut object, node_values(alloc, node.kids.slice())?)?;
    let tag = text_value(alloc, node.tag.text().as_bytes())?;
    insert(alloc, &mut object, "tag", tag)?;
    Ok(Value::Object(object))
}

#[cycle(print)]
fn node_values(alloc: Global, nodes: &[Node]) -> Result<Vec<Value>, NoMemory>
    ensures { IfOk result (λ vs. items_view vs.items ≡ items_of (map data_of nodes.now)) }
{
    let mut values = Vec::new(alloc);
    for node in nodes {
        values.push(node_value(alloc, node)?)?;
    }
    Ok(values)
}

fn insert_members(
    alloc: Global,
    object: &mut Map<String, Value>,
    members: &[(Bytes, Member)],
) -> Result<(), NoMemory>
    ensures { OnOk result (members_view object.new.entries
        ≡ put_members members.now (members_view object.old.entries)) }
{
    for member in members {
        let text = member_text(alloc, &member.1)?;
        let value = text_value(alloc, text.slice())?;
        let Some(name) = as_text(member.0.slice()) else {
            return Err(NoMemory);
        };
        insert(alloc, object, name, value)?;
    }
    Ok(())
}

/// `kids`, where there are some.
fn insert_kids(
    alloc: Global,
    object: &mut Map<String, Value>,
    kids: Vec<Value>,
) -> Result<(), NoMemory>
    ensures { OnOk result (members_view object.new.entries
        ≡ put_kids (items_view kids.items) (members_view object.old.entries)) }
{
    if kids.is_empty() {
        return Ok(());
    }
    insert(alloc, object, "kids", Value::Array(kids))
}

fn insert(
    alloc: Global,
    object: &mut Map<String, Value>,
    name: &str,
    value: Value,
) -> Result<(), NoMemory>
    ensures { OnOk result (members_view object.new.entries
        ≡ put name.now (view value) (members_view object.old.entries)) }
{
    object.insert(String::from_str(alloc, name)?, value)?;
    Ok(())
}

fn text_value(alloc: Global, text: &[u8]) -> Result<Value, NoMemory>
    ensures { IfOk result (λ v. view v ≡ string text.now) }
{
    let Some(text) = as_text(text) else {
        return Err(NoMemory);
    };
    Ok(Value::String(String::from_str(alloc, text)?))
}

/// The bytes as a text, where they are one.
fn as_text(bytes: &[u8]) -> Option<&str>
    ensures text { IfSome result (λ text. text.now ≡ bytes.now) }
    ensures none { result ≡ None → ¬ IsUtf8 bytes.now }
{
    std::str::from_utf8(bytes).ok()
}

/// The text of an attribute.
fn member_text(alloc: Global, member: &Member) -> Result<Bytes, NoMemory>
    ensures { IfOk result (λ text. text ≡ member_text member.now) }
{
    match member {
        Member::Plain(text) => text.copy(),
        Member::Items(words) => join_words(alloc, words.slice()),
        Member::Code(code) => print_expr(alloc, code),
    }
}

/// The words with a space between each two.
fn join_words(alloc: Global, words: &[Bytes]) -> Result<Bytes, NoMemory>
    ensures { IfOk result (λ text. text ≡ join_with_byte 32 words.now) }
{
    let mut text = Vec::new(alloc);
    for i in 0..words.len() {
        if i > 0 {
            text.push(b' ')?;
        }
        text.extend_from_slice(words[i].slice())?;
    }
    Ok(Bytes::from_vec(text))
}
