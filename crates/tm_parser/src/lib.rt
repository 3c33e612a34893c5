//! Parsing the tokens of a template or an expression into a tree.
#![tactic(auto)]

mod assignments;
mod blocks;
mod distinct;
mod emissions;
mod filters;
mod imports;
mod loop_heads;
mod macros;
mod statements;
mod tags;
mod targets;
mod template;

pub use template::{one_expr, one_tree, parse_expr_tokens, parse_tokens};
