//! The texts of expressions, values and delays, read and written exactly.
#![tactic(auto)]

mod delay;
mod fault;
mod lexer;
mod literal;
mod number;
mod reader;
mod sub;
mod writer;

pub use delay::read_delay;
pub use fault::ExprFault;
pub use literal::{print_value, put_text, put_value, read_value};
pub use number::number_of;
pub use reader::read_expr;
pub use writer::print_expr;
