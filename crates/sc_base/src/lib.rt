//! What every crate of the host stands on: lists, queues, bytes and names as contracts see them, and the one way
//! to say that memory is out.
#![tactic(auto)]

mod boxed;
mod boxed_sequence;
mod bytes;
mod counted;
mod failure;
mod memory;
mod plain;
mod queue;
mod remaining;
mod sequence;
mod shared;
mod shared_bytes;
mod small_bytes;
mod text;
mod writer;

pub use boxed::Boxed;
pub use boxed_sequence::BoxedSequence;
pub use bytes::Bytes;
pub use failure::Failure;
pub use memory::NoMemory;
pub use plain::Plain;
pub use queue::Queue;
pub use remaining::Remaining;
pub use sequence::Sequence;
pub use shared::Shared;
pub use shared_bytes::SharedBytes;
pub use text::{
    LONG_TEXT_LIMIT, Name, PLAIN_NAME_LIMIT, PlainName, TEXT_LIMIT, Unfit, Word, is_plain_name,
    is_text, is_text_within, is_utf8, is_word,
};
pub use writer::TextWriter;
