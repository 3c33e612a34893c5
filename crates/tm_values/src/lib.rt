//! The values of templates, and the error type of all calls.
#![tactic(auto, using(crate::proofs::Lists::round_trips))]

mod comparing;
mod conversions;
mod defined;
mod dropping;
mod error;
mod escape;
mod macros;
mod map;
mod order;
mod parts;
mod records;
mod shared_text;
mod sharing;
mod undefined;
mod value;
mod writable;

pub use defined::check_defined;
pub use error::{Error, ErrorKind};
pub use escape::AutoEscape;
pub use macros::MacroValue;
pub use map::{ValueMap, put_law};
pub use order::{order_law, same_items};
pub use parts::{Parts, longest_text};
pub use records::{LoopPosition, NoRecords, Records, find_loop, find_namespace};
pub use shared_text::SharedText;
pub use sharing::share_all;
pub use undefined::{UndefinedBehavior, UndefinedUse};
pub use value::{Node, Value};
pub use writable::Writable;
