//! Verifies the streams that `generate` writes as if a host had made them: `verify` accepts each.

use std::alloc::Global;
use std::mem;
use std::rc::RcStr;
use template_machine::*;

/// The greatest length of a source whose streams are verified: the streams of longer ones have many
/// instructions, but of few kinds.
const LONGEST: usize = 100_000;

/// Copies of the blocks' names.
fn names_of<T: Drop>(alloc: Global, blocks: &NameMap<T>) -> Result<Vec<String>, Error> {
    let mut names = Vec::new(alloc);
    for name in blocks.names(alloc)? {
        names.push(String::from_str(alloc, name)?)?;
    }
    Ok(names)
}

/// Verifies each stream of a tree, without anything that is proved about it. BadStream if one is
/// refused.
pub(crate) fn verify_tree(alloc: Global, tree: &Tree, form: Form) -> Result<(), Error> {
    let Streams { root, mut blocks } = generate(alloc, tree)?;
    let _root = verify(alloc, root.into_instructions(), form)?;
    for name in &names_of(alloc, &blocks)? {
        if let Some(mut block) = blocks.remove(name.as_str()) {
            let code = mem::replace(&mut block.code, Verified::empty(alloc));
            let _code = verify(alloc, code.into_instructions(), form)?;
        }
    }
    Ok(())
}

/// Verifies each stream of the template that a source spells with these delimiters, unless the
/// source is very long. BadStream if one is refused; a source that spells no template has none.
pub(crate) fn verify_source(
    alloc: Global,
    source: &str,
    syntax: &SyntaxConfig,
) -> Result<(), Error> {
    if source.len() > LONGEST {
        return Ok(());
    }
    let source = RcStr::from_str(alloc, source)?;
    match parse(alloc, &source, syntax) {
        Ok(tree) => verify_tree(alloc, &tree, Form::Template),
        Err(_error) => Ok(()),
    }
}
