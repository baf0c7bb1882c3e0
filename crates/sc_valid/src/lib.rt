//! Whether a chart is legal, and else its first fault.
#![tactic(auto)]

mod child;
mod data;
mod first_kids;
mod firsts;
mod index;
mod initial;
mod invoke;
mod legal;
mod tags;
mod target;
mod validator;

pub use legal::LegalChart;
pub use validator::validate;
