//! The limits of the host that no chart sets.

/// The most bytes that the name of an invoked session has, which is its invoker's with a number behind it. This host's
/// own rule.
pub const CHILD_NAME_LIMIT: usize = 65_535;
