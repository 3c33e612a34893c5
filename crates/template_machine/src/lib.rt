//! Templates in an environment, and how they are rendered. All public names of the project come
//! from here.
#![tactic(auto)]

mod cuts;
mod entries;
mod environment;
mod expression;
mod formatting;
mod ids;
pub mod machinery;
mod rendering;
mod sources;
mod state;
mod template;

pub use entries::{Globals, Templates, TemplatesOf};
pub use environment::{BoxedObjects, Environment, EnvironmentOf};
pub use expression::{Expression, ExpressionOf};
pub use formatting::escape_formatter;
pub use ids::StateIds;
pub use state::{Captured, CapturedOf, State, StateOf};
pub use template::{Template, TemplateOf};
pub use tm_compiler::{
    Application, Argument, BinaryOperator, CallBlock, Comparison, Condition, Expr, ForLoop,
    Imported, Instruction, Keyword, Macro, Name, NameMap, Pair, Parameter, RawText, Step, Stmt,
    Streams, SyntaxConfig, SyntaxConfigBuilder, Tree, UnaryOperator, generate, parse, parse_expr,
};
pub use tm_items::Items;
pub use tm_meaning::{Call, GlobalFunction, Reply};
pub use tm_names::undeclared;
pub use tm_operations as operations;
pub use tm_output::{Target, TargetFailed};
pub use tm_parts::{Counted, Limited, NullWriter, Output, Sink, WriteWrapper, write_text};
pub use tm_printing as printing;
pub use tm_shapes::{Form, Verified, verify};
pub use tm_syntax::{Assignment, AssignmentTarget, CaptureMode, CaptureUse};
pub use tm_tables::{
    Answering, BlockStack, Callable, CallableAnswer, Called, EscapeRule, Formatter, FuelTracker,
    MethodFallback, Objects, Parties, PathJoin, Plain, View,
};
pub use tm_templates::{
    CompiledTemplate, EscapeSetting, Source, TemplateConfig, default_auto_escape_callback,
};
pub use tm_values::{
    AutoEscape, Error, ErrorKind, LoopPosition, NoRecords, Node, Records, SharedText,
    UndefinedBehavior, UndefinedUse, Value, ValueMap, check_defined,
};
