//! The data of a machine's run: its place, operands, loops and caches; the runs of leaves; and the
//! results of a step.
#![tactic(auto)]

mod activation;
mod attempt;
mod caches;
mod leaf;
mod making;
mod operands;
mod sums;
mod text;

pub use activation::{Activation, Return};
pub use attempt::Attempt;
pub use leaf::Leaf;
pub use making::{makes, too_large};
pub use operands::{argument_names, closure_number, closure_operand};
pub use sums::{adds_up, summand};
pub use text::run_value;
