//! The parts of a template: names, raw texts, tokens, trees and instructions, each declared once.
#![tactic(auto)]

mod instruction;
mod jump;
mod name;
mod name_map;
mod opened;
mod raw_text;
mod token;
mod tree;

pub use instruction::{CACHES, CaptureMode, Instruction, LoopFlags, LoopPlace, NO_CACHE};
pub use jump::JumpKind;
pub use name::Name;
pub use name_map::NameMap;
pub use opened::Opened;
pub use raw_text::RawText;
pub use token::{Sign, Tag, Token};
pub use tree::{
    Application, Argument, Assignment, AssignmentTarget, BinaryOperator, CallBlock, CaptureUse,
    Comparison, Condition, Expr, ForLoop, Imported, Keyword, Macro, Pair, Parameter, Step, Stmt,
    Tree, UnaryOperator,
};
