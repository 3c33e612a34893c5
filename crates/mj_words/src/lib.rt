//! The command line of the program, and its messages on standard error.
#![tactic(auto)]

mod arguments;
mod tell;

pub use arguments::{Arguments, Refusal, parse};
pub use tell::{tell_error, tell_refusal};
