//! Lists that contracts see as those of their items, and boxes, as trees hold them.
#![tactic(auto)]

mod boxed;
mod items;

pub use boxed::Boxed;
pub use items::Items;
