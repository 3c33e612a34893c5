//! What names mean: tables of names, scopes with their loops, and the closures of macros.
#![tactic(auto)]

mod closures;
mod context;
mod frame;
mod loops;
mod mark;
mod name_table;
mod pairs;

pub use closures::Closures;
pub use context::Context;
pub use frame::{Found, Frame};
pub use loops::{LoopState, following_at, position_at, previous_at};
pub use name_table::{NO_PLACE, NameTable};
pub use pairs::Pairs;
