ghost use Rattle.std.specs.Prelude.{◌≡◌, ◌↔◌, IsTrue};
ghost use Rattle.sc_types.specs.declared.chart.Node.{out-Node};

use crate::sameness::Same;
use sc_base::Boxed;
use sc_types::{Chart, Expr, Member, Node};

/// Whether two charts are the same.
pub(crate) fn same_chart(a: &Chart, b: &Chart) -> bool
    ensures { IsTrue result ↔ (a.now ≡ b.now) }
{
    same_node(&a.root, &b.root)
}

fn same_heads(a: &Node, b: &Node) -> bool
    ensures { IsTrue result ↔ (((out-Node a.now).tag ≡ (out-Node b.now).tag)
        × ((out-Node a.now).members ≡ (out-Node b.now).members)) }
{
    a.tag == b.tag && a.members.same(&b.members)
}

#[cycle(same_node)]
#[tactic(auto, using(crate::proofs::SamenessLemmas::same_parts))]
fn same_node(a: &Node, b: &Node) -> bool
    ensures { IsTrue result ↔ (a.now ≡ b.now) }
{
    same_heads(a, b) && same_nodes(a.kids.slice(), b.kids.slice())
}

#[cycle(same_node)]
fn same_nodes(a: &[Node], b: &[Node]) -> bool
    ensures { IsTrue result ↔ (a.now ≡ b.now) }
{
    if a.len() != b.len() {
        return false;
    }
    for i in 0..a.len() {
        if !same_node(&a[i], &b[i]) {
            return false;
        }
    }
    true
}

impl Same for Member {
    fn same(&self, other: &Self) -> bool {
        match (self, other) {
            (Member::Plain(x), Member::Plain(y)) => x.same(y),
            (Member::Items(x), Member::Items(y)) => x.same(y),
            (Member::Code(x), Member::Code(y)) => same_expr(x, y),
            _ => false,
        }
    }
}

#[cycle(same_expr)]
fn same_expr(a: &Expr, b: &Expr) -> bool
    ensures { IsTrue result ↔ (a.now ≡ b.now) }
{
    match (a, b) {
        (Expr::Bool(x), Expr::Bool(y)) => x == y,
        (Expr::Int(x), Expr::Int(y)) => x == y,
        (Expr::Text(x), Expr::Text(y)) => x == y,
        (Expr::List(x), Expr::List(y)) => same_exprs(x.slice(), y.slice()),
        (Expr::Datum(x), Expr::Datum(y)) => x == y,
        (Expr::Field(x), Expr::Field(y)) => x == y,
        (Expr::Active(x), Expr::Active(y)) => x == y,
        (Expr::Not(x), Expr::Not(y)) => same_boxed(x, y),
        (Expr::Neg(x), Expr::Neg(y)) => same_boxed(x, y),
        (Expr::Two(op, x, w), Expr::Two(other, y, z)) => {
            op == other && same_boxed(x, y) && same_boxed(w, z)
        }
        (Expr::Item(x, w), Expr::Item(y, z)) => same_boxed(x, y) && same_boxed(w, z),
        (Expr::Len(x), Expr::Len(y)) => same_boxed(x, y),
        (Expr::AsText(x), Expr::AsText(y)) => same_boxed(x, y),
        _ => false,
    }
}

#[cycle(same_expr)]
fn same_boxed(a: &Boxed<Expr>, b: &Boxed<Expr>) -> bool
    ensures { IsTrue result ↔ (a.now ≡ b.now) }
{
    same_expr(a.get(), b.get())
}

#[cycle(same_expr)]
fn same_exprs(a: &[Expr], b: &[Expr]) -> bool
    ensures { IsTrue result ↔ (a.now ≡ b.now) }
{
    if a.len() != b.len() {
        return false;
    }
    for i in 0..a.len() {
        if !same_expr(&a[i], &b[i]) {
            return false;
        }
    }
    true
}
