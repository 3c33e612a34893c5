//! Compiling a source to its tree, and a tree to its streams.
#![tactic(auto)]

mod source;
mod streams;

pub use source::{one_expr, one_tree, parse, parse_expr};
pub use streams::{Streams, generate};
pub use tm_scanner::{SyntaxConfig, SyntaxConfigBuilder};
pub use tm_shapes::{BlockCode, Form, Verified, verify};
pub use tm_syntax::{
    Application, Argument, BinaryOperator, CallBlock, Comparison, Condition, Expr, ForLoop,
    Imported, Instruction, Keyword, Macro, Name, NameMap, Pair, Parameter, RawText, Step, Stmt,
    Tree, UnaryOperator,
};
