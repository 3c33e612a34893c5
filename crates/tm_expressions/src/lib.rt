//! Parsing the tokens of an expression into a tree.
#![tactic(auto)]

mod applications;
mod cursor;
mod expressions;
mod lists;
mod operators;
mod primaries;
mod tables;

pub use cursor::{Cursor, refusal};
pub use expressions::chained;
pub use lists::{add_one, boxed, with_one};
pub use tables::{Link, POSTFIX_LEVEL};
