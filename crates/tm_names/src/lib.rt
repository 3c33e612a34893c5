//! The names that a tree reads.
#![tactic(auto, using(tm_syntax::proofs::Forms::boxes, crate::proofs::Forms::forms))]

mod chains;
mod expressions;
mod macros;
mod statements;
mod targets;
mod walker;

pub use macros::{MacroNames, macro_names};
pub use statements::undeclared;
