//! Parts of the machine: the operand stack and the operators, the output and its escapes, and the
//! reasons why a run stops.
#![tactic(auto)]

mod escapes;
mod halt;
mod operators;
mod output;
mod stack;

pub use escapes::escape_for;
pub use halt::Halt;
pub use operators::{binary, paired, unary};
pub use output::{Captures, Output, WriteWrapper, captured_value};
pub use stack::Stack;
pub use tm_output::{Counted, Limited, NullWriter, Sink, write_text};
