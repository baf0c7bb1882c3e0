//! Numbers and texts as fields of a text of bytes: what a `put_` call appends, the `get_` call of the same
//! name gives back, wherever the field stands and whatever follows.
//!
//! Numbers are big-endian. The `get_` calls take no memory.
#![tactic(auto)]

mod get;
mod put;

pub use get::{get_bytes, get_i64, get_u16, get_u32, get_u64};
pub use put::{put_bytes, put_i64, put_u16, put_u32, put_u64};
