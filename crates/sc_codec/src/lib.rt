//! The bodies of commands: the bytes that stand in the journal for a command, and the command that such bytes spell.
//!
//! Each command within the limits has one body, and no body is that of two commands. Numbers are big-endian.
#![tactic(auto)]

mod command;
mod encodable;
mod fault;
mod field;
mod name;
mod pair;
mod value;

pub use command::{decode, encode, encode_in};
pub use encodable::is_encodable;
pub use fault::CodecFault;
