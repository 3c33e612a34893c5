//! Generates the instructions of statements and expressions. AllocError also if a count of
//! arguments or owners overflows.
#![tactic(auto, using(tm_syntax::proofs::Forms::boxes))]

mod builder;
mod caches;
mod calls;
mod enclosing;
mod evaluation;
mod expressions;
mod imports;
mod loops;
mod macros;
mod passing;
mod statements;
mod targets;

pub use evaluation::value;
pub use statements::stream;
