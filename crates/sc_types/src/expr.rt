ghost use Rattle.std.specs.Prelude.{◌≡◌, ◌↔◌, IsTrue, IfOk};
ghost use Rattle.std.proofs.Common.{rules};

use sc_base::{Boxed, Bytes, NoMemory, Plain, PlainName, Sequence};
use std::alloc::AllocError;

/// An operator between two expressions.
#[derive(Clone, Copy, Debug, PartialEq, Eq)]
pub enum Op {
    Or,
    And,
    Eq,
    Ne,
    Lt,
    Le,
    Gt,
    Ge,
    Add,
    Sub,
    Mul,
    Div,
    Rem,
}

/// A field of the event that is being processed, as `_event.name` and `_event.data.x`.
#[derive(Drop, PartialEq, Eq)]
pub enum EventField {
    Name,
    Kind,
    SendId,
    Origin,
    OriginType,
    InvokeId,
    /// `_event.data`.
    Payload,
    /// `_event.data.NAME`.
    PayloadOf(PlainName),
}

/// An expression of the data model: at most 256 levels deep, of which a leaf is one.
#[derive(Drop)]
pub enum Expr {
    Bool(bool),
    /// Not negative.
    Int(i64),
    Text(Bytes),
    List(Sequence<Expr>),
    /// A datum, or `_sessionid` or `_name`; never `_event`.
    Datum(PlainName),
    Field(EventField),
    /// `In(id)`: whether the state is active.
    Active(Bytes),
    Not(Boxed<Expr>),
    Neg(Boxed<Expr>),
    Two(Op, Boxed<Expr>, Boxed<Expr>),
    /// `list[place]`.
    Item(Boxed<Expr>, Boxed<Expr>),
    Len(Boxed<Expr>),
    AsText(Boxed<Expr>),
}

impl Plain for Op {
    ghost clone_equals = { Prim.search rules };
}

// By hand, since the proof of the derived one takes far longer.
impl Clone for EventField {
    ghost is_clone = { λ f copy. copy ≡ f };

    fn clone(&self) -> Result<Self, AllocError> {
        Ok(match self {
            EventField::Name => EventField::Name,
            EventField::Kind => EventField::Kind,
            EventField::SendId => EventField::SendId,
            EventField::Origin => EventField::Origin,
            EventField::OriginType => EventField::OriginType,
            EventField::InvokeId => EventField::InvokeId,
            EventField::Payload => EventField::Payload,
            EventField::PayloadOf(name) => EventField::PayloadOf(name.clone()?),
        })
    }
}

impl Plain for EventField {
    ghost clone_equals = { λ f copy same. same };
}

impl Clone for Expr {
    ghost is_clone = { λ e copy. copy ≡ e };

    fn clone(&self) -> Result<Self, AllocError> {
        match copy_expr(self) {
            Ok(expr) => Ok(expr),
            Err(NoMemory) => Err(AllocError),
        }
    }
}

impl Plain for Expr {
    ghost clone_equals = { λ e copy same. same };
}

#[cycle(copy)]
fn copy_expr(e: &Expr) -> Result<Expr, NoMemory>
    ensures { IfOk result (λ c. c ≡ e.now) }
{
    Ok(match e {
        Expr::Bool(value) => Expr::Bool(*value),
        Expr::Int(value) => Expr::Int(*value),
        Expr::Text(text) => Expr::Text(text.copy()?),
        Expr::List(items) => Expr::List(copy_exprs(items)?),
        Expr::Datum(name) => Expr::Datum(name.copy()?),
        Expr::Field(field) => Expr::Field(field.copy()?),
        Expr::Active(id) => Expr::Active(id.copy()?),
        Expr::Not(a) => Expr::Not(copy_boxed(a)?),
        Expr::Neg(a) => Expr::Neg(copy_boxed(a)?),
        Expr::Two(op, a, b) => Expr::Two(*op, copy_boxed(a)?, copy_boxed(b)?),
        Expr::Item(a, b) => Expr::Item(copy_boxed(a)?, copy_boxed(b)?),
        Expr::Len(a) => Expr::Len(copy_boxed(a)?),
        Expr::AsText(a) => Expr::AsText(copy_boxed(a)?),
    })
}

#[cycle(copy)]
fn copy_boxed(e: &Boxed<Expr>) -> Result<Boxed<Expr>, NoMemory>
    ensures { IfOk result (λ c. c ≡ e.now) }
{
    Boxed::new(e.allocator(), copy_expr(e.get())?)
}

#[cycle(copy)]
fn copy_exprs(items: &Sequence<Expr>) -> Result<Sequence<Expr>, NoMemory>
    ensures { IfOk result (λ c. c ≡ items.now) }
{
    let mut copy = Sequence::new(items.allocator());
    for item in items.slice() {
        copy.push(copy_expr(item)?)?;
    }
    Ok(copy)
}
