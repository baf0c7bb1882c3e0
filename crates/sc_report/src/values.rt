ghost use Rattle.std.specs.Fmt.{signed_decimal};
ghost use Rattle.std.specs.List.{flat_map};
ghost use Rattle.sc_types.specs.Values.{escaped, text_literal, truth_text, value_text};
ghost use Rattle.sc_types.specs.declared.value.Value.{Value};
ghost use Rattle.sc_expr.specs.Literals.{comma};
ghost use Rattle.sc_report.specs.Outlets.{Writes};

use crate::outlet::Outlet;
use itoa::Buffer;
use sc_dev::Sink;
use sc_types::Value;

/// Puts a value as its literal.
#[cycle(print)]
#[tactic(auto, using(sc_expr::proofs::LiteralLemmas::texts))]
pub(crate) fn put_value<K: Sink>(out: &mut Outlet<'_, K>, value: &Value)
    ensures { Writes K.taken K.faults out.old out.new (value_text value.now) }
{
    match value {
        Value::Bool(truth) => put_truth(out, *truth),
        Value::Int(number) => put_signed(out, *number),
        Value::Text(text) => put_text(out, text.slice()),
        Value::List(items) => put_values(out, items.slice()),
    }
}

#[cycle(print)]
#[tactic(auto, using(sc_expr::proofs::LiteralLemmas::texts))]
fn put_values<K: Sink>(out: &mut Outlet<'_, K>, items: &[Value])
    ensures { Writes K.taken K.faults out.old out.new (value_text (Value.List items.now)) }
{
    out.bytes(b"[");
    for i in 0..items.len() {
        put_comma(out, i);
        put_value(out, &items[i]);
    }
    out.bytes(b"]");
}

/// The comma before an item that is not the first.
fn put_comma<K: Sink>(out: &mut Outlet<'_, K>, place: usize)
    ensures { Writes K.taken K.faults out.old out.new (comma place) }
{
    if place > 0 {
        out.bytes(b",");
    }
}

fn put_truth<K: Sink>(out: &mut Outlet<'_, K>, truth: bool)
    ensures { Writes K.taken K.faults out.old out.new (truth_text truth) }
{
    if truth {
        out.bytes(b"true");
    } else {
        out.bytes(b"false");
    }
}

fn put_signed<K: Sink>(out: &mut Outlet<'_, K>, number: i64)
    ensures { Writes K.taken K.faults out.old out.new (signed_decimal number) }
{
    let mut digits = Buffer::new();
    out.bytes(digits.format(number).as_bytes());
}

/// Puts a text as its literal.
pub(crate) fn put_text<K: Sink>(out: &mut Outlet<'_, K>, text: &[u8])
    ensures { Writes K.taken K.faults out.old out.new (text_literal text.now) }
{
    out.bytes(b"'");
    put_escaped(out, text);
    out.bytes(b"'");
}

fn put_escaped<K: Sink>(out: &mut Outlet<'_, K>, text: &[u8])
    ensures { Writes K.taken K.faults out.old out.new (flat_map escaped text.now) }
{
    for byte in text {
        put_byte(out, *byte);
    }
}

fn put_byte<K: Sink>(out: &mut Outlet<'_, K>, byte: u8)
    ensures { Writes K.taken K.faults out.old out.new (escaped byte) }
{
    match byte {
        b'\\' => out.bytes(b"\\\\"),
        b'\'' => out.bytes(b"\\'"),
        b'\n' => out.bytes(b"\\n"),
        b'\t' => out.bytes(b"\\t"),
        _ => out.bytes(&[byte]),
    }
}
