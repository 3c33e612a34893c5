//! The machine: a method for each instruction, and the main loop.
#![tactic(auto)]

mod at_once;
mod calls;
mod captures;
mod flow;
mod includes;
mod inheritance;
mod jumps;
mod leaf;
mod loops;
mod machine;
mod macros;
mod operands;
mod output;
mod scopes;
mod steps;
mod sums;

pub use flow::Flow;
pub use machine::Machine;
pub use tm_runs::run_value;
