//! The book: a host whose every accepted command stands in the journal before it is acknowledged.
//!
//! A command that the host refuses stands in the history and not in the journal. Where the disk fails, the command
//! may be left in doubt: a stop of the machine may leave it in the journal or not. The next call takes it back first.
#![tactic(auto)]

mod book;
mod call;
mod claims;
mod commit;
mod doubt;
mod fault;
mod log;
mod opening;
mod prepare;
mod receipt;
mod ticket;

pub use book::Book;
pub use doubt::Doubt;
pub use fault::{CallFault, OpenFault};
pub use opening::NotOpened;
pub use receipt::Receipt;
pub use ticket::Ticket;
