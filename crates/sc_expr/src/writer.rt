ghost use Rattle.std.specs.Prelude.{◌≡◌, ◌++◌, map, codes, IfOk, OnOk};
ghost use Rattle.sc_types.specs.Expressions.{expr_text, field_text, IsExpr, IsExpression};
ghost use Rattle.sc_types.specs.Values.{joined};
ghost use Rattle.sc_types.specs.declared.profile.Profile.{Profile};

use crate::lexer::op_text;
use crate::literal::{put_text, put_truth};
use sc_base::{Bytes, NoMemory, TextWriter};
use sc_types::{EventField, Expr};
use std::alloc::Global;

/// Prints an expression with a bracket round each operator, so that it is read again as itself.
#[tactic(auto, using(crate::proofs::Printed::printed_is_expression))]
pub fn print_expr(alloc: Global, e: &Expr) -> Result<Bytes, NoMemory>
    ensures text { IfOk result (λ text. text ≡ expr_text e.now) }
    ensures spelled { (profile : Profile) → IsExpr profile e.now
        → IfOk result (λ text. IsExpression profile text e.now) }
{
    let mut out = TextWriter::new(alloc);
    put_expr(&mut out, e)?;
    Ok(out.into_bytes())
}

#[cycle(print)]
#[tactic(auto, using(crate::proofs::WritingLemmas::expr_layers))]
fn put_expr(out: &mut TextWriter, e: &Expr) -> Result<(), NoMemory>
    ensures { OnOk result (out.new ≡ out.old ++ expr_text e.now) }
{
    match e {
        Expr::Bool(truth) => put_truth(out, *truth),
        Expr::Int(number) => out.signed(*number),
        Expr::Text(text) => put_text(out, text.slice()),
        Expr::List(items) => put_list(out, items.slice()),
        Expr::Datum(name) => out.bytes(name.bytes()),
        Expr::Field(field) => put_field(out, field),
        Expr::Active(id) => {
            out.text("In(")?;
            put_text(out, id.slice())?;
            out.text(")")
        }
        Expr::Not(a) => put_around(out, b"(!", a.get(), b")"),
        Expr::Neg(a) => put_around(out, b"(-", a.get(), b")"),
        Expr::Two(op, a, b) => {
            put_around(out, b"(", a.get(), b" ")?;
            out.bytes(op_text(*op))?;
            put_around(out, b" ", b.get(), b")")
        }
        Expr::Item(a, b) => {
            put_expr(out, a.get())?;
            put_around(out, b"[", b.get(), b"]")
        }
        Expr::Len(a) => put_around(out, b"len(", a.get(), b")"),
        Expr::AsText(a) => put_around(out, b"text(", a.get(), b")"),
    }
}

#[cycle(print)]
fn put_around(out: &mut TextWriter, before: &[u8], e: &Expr, after: &[u8]) -> Result<(), NoMemory>
    ensures { OnOk result (out.new ≡ out.old ++ (before.now ++ expr_text e.now ++ after.now)) }
{
    out.bytes(before)?;
    put_expr(out, e)?;
    out.bytes(after)
}

#[cycle(print)]
fn put_list(out: &mut TextWriter, items: &[Expr]) -> Result<(), NoMemory>
    ensures { OnOk result (out.new
        ≡ out.old ++ (codes "[" ++ joined (map expr_text items.now) ++ codes "]")) }
{
    out.text("[")?;
    for i in 0..items.len() {
        if i > 0 {
            out.text(",")?;
        }
        put_expr(out, &items[i])?;
    }
    out.text("]")
}

fn put_field(out: &mut TextWriter, field: &EventField) -> Result<(), NoMemory>
    ensures { OnOk result (out.new ≡ out.old ++ (codes "_event." ++ field_text field.now)) }
{
    out.text("_event.")?;
    match field {
        EventField::Name => out.text("name"),
        EventField::Kind => out.text("type"),
        EventField::SendId => out.text("sendid"),
        EventField::Origin => out.text("origin"),
        EventField::OriginType => out.text("origintype"),
        EventField::InvokeId => out.text("invokeid"),
        EventField::Payload => out.text("data"),
        EventField::PayloadOf(name) => {
            out.text("data.")?;
            out.bytes(name.bytes())
        }
    }
}
