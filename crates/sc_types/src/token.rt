use crate::expr::Op;
use sc_base::Bytes;

/// A sign that is no operator between two expressions. `Dot` stands between `_event` and its field.
#[derive(Clone, Copy, Debug, PartialEq, Eq)]
pub enum Mark {
    Not,
    Open,
    Close,
    OpenSquare,
    CloseSquare,
    Comma,
    Dot,
}

/// A piece of an expression or of a value literal, with white space free before it.
#[derive(Drop, PartialEq, Eq)]
pub enum Token {
    /// Letters, digits and `_`, of which the first is no digit.
    Word(Bytes),
    Number(i64),
    /// What stands between two quotes, with the escapes read.
    Text(Bytes),
    Operator(Op),
    Mark(Mark),
    /// What begins no token.
    Bad,
}
