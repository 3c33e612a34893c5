//! The parts of trees, code and states, for programs that read or build them.
pub use tm_items::Boxed;
pub use tm_meaning::TemplateId;
pub use tm_shapes::BlockCode;
pub use tm_syntax::{LoopFlags, LoopPlace};
pub use tm_tables::{BlockNames, Closures, Context, Exhausted, LoopState, NameTable};
