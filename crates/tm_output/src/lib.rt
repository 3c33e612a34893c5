//! Outputs: writers whose failures are counted, and targets that take a text piece by piece.
#![tactic(auto)]

mod bounded;
mod limited;
mod sink;
mod target;

pub use bounded::{BoundedString, BoundedText};
pub use limited::Limited;
pub use sink::{Counted, NullWriter, Sink, put_text, write_text};
pub use target::{Target, TargetFailed};
