//! Definitions of the language's operations and of how values are written, and the enums that they
//! use.
#![tactic(auto)]

mod comparison;
mod loop_attribute;
mod output_format;

pub use comparison::ComparisonOperator;
pub use loop_attribute::LoopAttribute;
pub use output_format::OutputFormat;
