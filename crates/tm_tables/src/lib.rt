//! The tables of a state: its fuel, and what the crates below export about scopes, loops, lists of
//! blocks and the caller's objects.
#![tactic(auto)]

mod fuel;

pub use fuel::{Exhausted, FuelTracker};
pub use tm_blocks::{BlockNames, BlockStack, Lists, TemplateEntry};
pub use tm_objects::{
    Answering, Callable, CallableAnswer, Called, EscapeRule, Formatter, Host, MethodFallback,
    Objects, Parties, PathJoin, Plain, View, language_globals,
};
pub use tm_scopes::{
    Closures, Context, Found, Frame, LoopState, NO_PLACE, NameTable, Pairs, following_at,
    position_at, previous_at,
};
