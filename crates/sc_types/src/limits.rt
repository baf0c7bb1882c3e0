/// The most bytes that the text of a chart may have.
pub const CHART_TEXT_LIMIT: usize = 1_048_576;

/// The most levels of elements that a chart may have, of which the root is one.
pub const LEVEL_LIMIT: usize = 40;

/// The most states and histories that a chart may have.
pub const STATE_LIMIT: u32 = 4_096;

/// The most bytes of an id.
pub const ID_LIMIT: usize = 128;

/// The most bytes of an event's name.
pub const EVENT_NAME_LIMIT: usize = 256;

/// The most bytes of the name of a chart or of a session, as the host takes them.
pub const NAME_LIMIT: usize = 64;

/// The most bytes of the `target` of a `<send>`.
pub const SEND_TARGET_LIMIT: usize = 512;

/// The most bytes of the `type` of a `<send>` or an `<invoke>`.
pub const TYPE_NAME_LIMIT: usize = 256;

/// The most rounds that a chart's `limit` may give a turn.
pub const ROUND_LIMIT: u32 = 10_000;

/// The rounds of a turn of a chart without `limit`.
pub const DEFAULT_ROUNDS: u32 = 1_000;

/// The most items of a list.
pub const ITEM_LIMIT: usize = 256;

/// The most lists that may stand in one another, the outermost counted.
pub const LIST_DEPTH_LIMIT: u32 = 8;

/// The most that a value may weigh: 16 for each value in it and itself, and the bytes of its texts.
pub const VALUE_WEIGHT_LIMIT: u64 = 2_097_152;

/// The most levels of an expression, of which a leaf is one, and the most brackets that may be open at a place of its
/// text.
pub const EXPRESSION_LEVEL_LIMIT: u32 = 256;

/// The longest delay, in milliseconds.
pub const DELAY_LIMIT: u64 = 1_000_000_000_000;

/// The last value of the host's clock, in milliseconds.
pub const CLOCK_LIMIT: u64 = 1_000_000_000_000_000;

/// The most pairs of a post.
pub const PAIR_LIMIT: usize = 64;

/// The most that the pairs of a post may weigh together, about their bytes in memory.
pub const POST_WEIGHT_LIMIT: u64 = 1_048_576;

/// The most sessions that invoke one another in a row.
pub const INVOKE_DEPTH_LIMIT: u32 = 16;

/// The most bytes of the text of a script.
pub const SCRIPT_TEXT_LIMIT: usize = 67_108_864;

/// The most clients of a script.
pub const CLIENT_LIMIT: u32 = 64;
