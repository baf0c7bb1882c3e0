//! What the host reads from and writes to, as traits, with the forms of them that stand in memory.
//!
//! Each object keeps a count of its faults. A call answers [`Failed`] only where that count rose in the call,
//! or stands at its last value, 2^64 - 1.
#![tactic(auto)]

mod calls;
mod disk;
mod failed;
mod gate;
mod mem_disk;
mod mem_part;
mod mem_parts;
mod mem_sink;
mod mem_source;
mod sink;
mod source;
mod sure;
mod transfer;
mod unread;

pub use disk::{Disk, Part};
pub use failed::Failed;
pub use gate::{Gate, HoldGate, OpenGate};
pub use mem_disk::MemDisk;
pub use mem_sink::MemSink;
pub use mem_source::MemSource;
pub use sink::Sink;
pub use source::Source;
pub use sure::{SureSink, SureSource};
pub use transfer::{read_up_to, write_all};
