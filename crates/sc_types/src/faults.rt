//! The numbers of the faults of charts: 1 to 9 are those of a text that spells none, and 20 to 31 those of a chart
//! that is not legal.

/// The text is no JSON value.
pub const NOT_JSON: u8 = 1;

/// The value has no `tag` that is a text.
pub const NOT_ELEMENT: u8 = 2;

/// The tag is that of no element.
pub const UNKNOWN_TAG: u8 = 3;

/// The element has a member that its tag may not have.
pub const UNKNOWN_MEMBER: u8 = 4;

/// A member has another form than it must have, or one that must be there is missing.
pub const BAD_MEMBER: u8 = 5;

/// A member that is an expression is outside the grammar.
pub const BAD_EXPR: u8 = 6;

/// The element stands on a level past [`LEVEL_LIMIT`](crate::LEVEL_LIMIT).
pub const TOO_DEEP: u8 = 7;

/// The element is a state past [`STATE_LIMIT`](crate::STATE_LIMIT).
pub const TOO_MANY: u8 = 8;

/// The text is longer than [`CHART_TEXT_LIMIT`](crate::CHART_TEXT_LIMIT).
pub const TOO_LARGE: u8 = 9;

/// An earlier state has the same id.
pub const DOUBLE_ID: u8 = 20;

/// A target is the id of no state.
pub const UNKNOWN_TARGET: u8 = 21;

/// The default of the root or of a state is none that it may have.
pub const BAD_INITIAL: u8 = 22;

/// The default of a history is none that it may have.
pub const BAD_HISTORY: u8 = 23;

/// The targets of a transition can't be active at once.
pub const BAD_TARGETS: u8 = 24;

/// A transition has no event, no condition and no target.
pub const EMPTY_TRANSITION: u8 = 25;

/// The element stands where it may not.
pub const BAD_CHILD: u8 = 26;

/// `limit` is not from 1 to [`ROUND_LIMIT`](crate::ROUND_LIMIT).
pub const BAD_LIMIT: u8 = 27;

/// A `<send>` has attributes or children that exclude each other, or none of those it needs.
pub const BAD_SEND: u8 = 28;

/// An `<invoke>` has two names for its id, or that of an earlier one.
pub const BAD_INVOKE: u8 = 29;

/// Data that the data model does not have, a name of the system, or one that stands twice.
pub const BAD_DATA: u8 = 30;

/// A `<finalize>` has no content.
pub const EMPTY_FINALIZE: u8 = 31;
