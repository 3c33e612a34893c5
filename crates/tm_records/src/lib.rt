//! What a state stores and what its runs need: the records of namespaces and loops, the streams
//! that declared macros, the results of calls, what a run replaces, the bound arguments of macros,
//! and memory that is used again.
#![tactic(auto)]

mod bound;
mod levels;
mod methods;
mod nested;
mod pool;
mod records;
mod results;
mod rooms;
mod saved;
mod streams;

pub use bound::{bind, caller_of};
pub use levels::{INCLUDE_DEPTH, include_cost};
pub use methods::method_of;
pub use nested::{NestedRun, RunOf};
pub use pool::ContextPool;
pub use records::{add_loop, changed_at, keep_each, leave_at, set_in, turn_at};
pub use results::{CallResult, Further, Recursion, because, is_macro, text_for};
pub use rooms::Rooms;
pub use saved::{Saved, SavedBlock, SavedInclude, SavedMacro, SavedSuper, shared_name};
pub use streams::Streams;
