//! Compiled templates, how they are compiled, templates by name, and globals.
#![tactic(auto)]

mod compiled;
mod defaults;
mod global_map;
mod templates;

pub use compiled::{CompiledTemplate, Source, TemplateConfig};
pub use defaults::{EscapeSetting, default_auto_escape_callback};
pub use global_map::GlobalMap;
pub use templates::{Templates, TemplatesIter};
