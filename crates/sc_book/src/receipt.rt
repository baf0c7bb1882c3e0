use sc_base::{BoxedSequence, Sequence};
use sc_types::{Delivery, LogLine, Reply};

/// What a command was answered: the entry of the history that it became, by its number from 1 on, and what stands
/// there beside the command.
#[derive(Drop)]
pub struct Receipt {
    pub number: u64,
    pub reply: Reply,
    pub logs: BoxedSequence<LogLine>,
    pub sent: Sequence<Delivery>,
}
