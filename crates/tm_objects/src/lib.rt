//! The objects of the caller: what they see of a state and answer, and what the machine asks of the
//! environment that owns them.
#![tactic(auto)]

mod callable;
mod escape_rule;
mod fallback;
mod formatter;
mod host;
mod language;
mod objects;
mod path_join;
mod plain;
mod view;

pub use callable::{Callable, CallableAnswer, Called};
pub use escape_rule::EscapeRule;
pub use fallback::MethodFallback;
pub use formatter::Formatter;
pub use host::Host;
pub use language::language_globals;
pub use objects::{Objects, Parties};
pub use path_join::PathJoin;
pub use plain::{Answering, Plain};
pub use view::View;
