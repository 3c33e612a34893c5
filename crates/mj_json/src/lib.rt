//! Converting JSON to template values.
#![tactic(auto)]

mod decimals;
mod keys;
mod object;
mod rows;
mod values;

pub use object::members;
pub use rows::decimal_rows;
