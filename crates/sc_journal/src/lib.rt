//! The journal: bodies on a disk whose machine may stop at any call. What was acknowledged is not lost.
//!
//! No checksum is trusted. A gate stands closed on the disk before anything is written behind it, and is opened
//! by a write of its own once what stands behind it was synced.
#![tactic(auto)]

mod bodies;
mod fault;
mod journal;
mod load;
mod making;
mod text;
mod write;

pub use bodies::Bodies;
pub use fault::{AppendFault, CreateFault, JournalFault};
pub use journal::{Journal, NotOpened, Opened};
pub use making::create;
