/// Why an expression has no value. SCXML 5.9 leaves this to the data model.
#[derive(Clone, Copy, Debug, PartialEq, Eq)]
pub enum EvalFault {
    /// An integer outside 64 bits.
    Overflow,
    /// A division, or a remainder, by zero.
    ZeroDivisor,
    /// An operand of another kind than the operator takes.
    WrongKind,
    /// A datum that is not declared or is unset, or a field that the current event has not.
    Unknown,
    /// A text above 4,096 bytes, or a list above 256 items.
    TooLong,
    /// A place that the list has not.
    BadIndex,
    /// Out of memory. No expression has this fault by its meaning.
    NoMemory,
}
