//! Scanning a source into tokens.
#![tactic(auto)]

mod expression;
mod name_pool;
mod names;
mod numbers;
mod pieces;
mod raw;
mod shared_source;
mod source;
mod texts;
mod tokens;

pub use expression::{one_parts, scan_expr};
pub use source::{one_list, scan};
pub use tm_delimiters::{SyntaxConfig, SyntaxConfigBuilder};
