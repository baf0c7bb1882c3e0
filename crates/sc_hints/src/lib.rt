//! What is wrong with the input of a program, in sentences for the person who wrote it: the words of a command line,
//! the text of a script or of a chart, a journal that is damaged. The readers that the program asks are asked once more
//! here, so that a sentence speaks of the very fault that the program told.
#![tactic(auto)]

mod brackets;
mod chart;
mod commands;
mod element;
mod expression;
mod fault;
mod journal;
mod json_hint;
mod json_text;
mod legality;
mod nearest;
mod one_line;
mod pairs;
mod place;
mod refused;
mod run;
mod script;
mod tables;
mod unmatched;
mod words;

pub use chart::chart_hint;
pub use journal::journal_hint;
pub use run::run_hint;
pub use script::script_hint;
pub use words::{USAGE, words_hint};
