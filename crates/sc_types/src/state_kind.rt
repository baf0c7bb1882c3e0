/// What a state or a history is. SCXML 3.3, 3.4, 3.7 and 3.10.
#[derive(Clone, Copy, Debug, PartialEq, Eq)]
pub enum StateKind {
    /// A `<state>` without child states.
    Atomic,
    Final,
    /// A `<state>` with child states.
    Compound,
    Parallel,
    /// A history that records the active children of its parent.
    Shallow,
    /// A history that records the active atomic states below its parent.
    Deep,
}
