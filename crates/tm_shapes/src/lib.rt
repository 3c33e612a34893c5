//! Checks streams that the compiler didn't write. The shape of a place says what is on the stacks
//! there, whatever ran before. A stream is accepted if a search finds shapes for it.
#![tactic(auto)]

mod before;
mod cells;
mod code;
mod flow;
mod kind;
mod pile;
mod placed;
mod refusal;
mod rows;
mod search;
mod shape;
mod site;
mod verifier;

pub use before::Before;
pub use code::{BlockCode, Verified};
pub use kind::{Form, Frame, Kind, Reading};
pub use rows::{end_rows, form_rows, group_rows, loop_rows, placed_rows, shape_rows, way_rows};
pub use verifier::verify;
