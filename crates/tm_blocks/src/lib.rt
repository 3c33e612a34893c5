//! The blocks of a chain of templates: their lists by name, the places in these lists, and the
//! names of the loaded templates.
#![tactic(auto)]

mod block_names;
mod block_stack;
mod layer;
mod lists;
mod loaded;
mod loaded_names;
mod template_entry;

pub use block_names::BlockNames;
pub use block_stack::BlockStack;
pub use lists::Lists;
pub use template_entry::TemplateEntry;
