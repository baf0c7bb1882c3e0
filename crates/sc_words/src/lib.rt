//! What the words of a command line ask for: the table of commands, read by `clap`, and the numbers in them.
#![tactic(auto)]

mod asked;
mod numbers;
mod reader;
mod table;

pub use asked::{
    Asked, GEN_SIZE_LIMIT, RUN_BUDGET, RUN_BUDGET_LIMIT, RUN_WORKERS, RUN_WORKERS_LIMIT,
};
pub use reader::read_words;
