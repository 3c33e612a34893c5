//! The operations of the language on values.
#![tactic(auto, using(tm_values::proofs::Lists::round_trips))]

mod arithmetic;
mod comparisons;
mod condition;
mod containment;
mod iteration;
mod mapped;
mod maps;
mod members;
mod names;
mod ranges;
mod rows;
mod slices;
mod spread;

pub use arithmetic::{
    add, add_to, divide, floor_divide, grow, multiply, negate, power, remainder, subtract,
};
pub use comparisons::compare;
pub use condition::truth;
pub use containment::contains;
pub use iteration::{collection, iterate, unpack, unpack_law};
pub use mapped::{with_maps, within};
pub use maps::{dict, dict_law, namespace};
pub use members::{attribute, check_settable, is_callable, item};
pub use ranges::{range, range_law};
pub use rows::{dict_rows, mapped_rows, namespace_rows, order_rows, range_faults, range_rows};
pub use slices::slice;
pub use spread::{merge_maps, spread_items};
pub use tm_definitions::{ComparisonOperator, LoopAttribute};
