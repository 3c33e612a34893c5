//! An entry of the environment's templates.
use crate::block_names::BlockNames;
use std::rc::Rc;
use tm_syntax::Name;
use tm_values::AutoEscape;

/// A template of the environment.
#[derive(Drop)]
pub struct TemplateEntry<'a> {
    /// Its name, which is shared.
    pub name: &'a Name,
    /// How its output is escaped.
    pub escape: AutoEscape,
    /// The names of its blocks, which states share.
    pub blocks: &'a Rc<BlockNames>,
    /// Its place, as a hint for the host's lookups.
    pub place: usize,
}
