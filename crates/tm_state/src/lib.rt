//! The data of a state: its start, names, functions, blocks, macros and fuel.
#![tactic(auto)]

mod applied;
mod calls;
mod formatting;
mod fuel;
mod further;
mod growth;
mod includes;
mod inheritance;
mod macros;
mod runs;
mod state;

pub use state::StateData;
pub use tm_records::{
    CallResult, NestedRun, Recursion, RunOf, Saved, SavedBlock, SavedInclude, SavedMacro,
    SavedSuper,
};
