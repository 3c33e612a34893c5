//! Flags and delimiters for the tests, each behind a pointer, so that the tests' proofs needn't
//! deal with the drop of six delimiters.
use std::alloc::{AllocError, Global};
use std::rc::Rc;
use tm_scanner::SyntaxConfig;
use tm_values::Error;

#[derive(Clone, Copy)]
pub(crate) struct Flags {
    pub(crate) trim_blocks: bool,
    pub(crate) lstrip_blocks: bool,
    pub(crate) keep_trailing_newline: bool,
}

pub(crate) const NO_FLAG: Flags = Flags {
    trim_blocks: false,
    lstrip_blocks: false,
    keep_trailing_newline: false,
};

pub(crate) fn usual(alloc: Global) -> Result<Rc<SyntaxConfig>, AllocError> {
    Ok(Rc::new(alloc, SyntaxConfig::default())?)
}

pub(crate) fn with_flags(alloc: Global, flags: Flags) -> Result<Rc<SyntaxConfig>, Error> {
    let syntax = SyntaxConfig::builder()
        .trim_blocks(flags.trim_blocks)
        .lstrip_blocks(flags.lstrip_blocks)
        .keep_trailing_newline(flags.keep_trailing_newline)
        .build()?;
    Ok(Rc::new(alloc, syntax)?)
}

/// A start and an end.
type Delimiters = (String, String);

fn owned(alloc: Global, start: &str, end: &str) -> Result<Delimiters, AllocError> {
    let start = String::from_str(alloc, start)?;
    let end = String::from_str(alloc, end)?;
    Ok((start, end))
}

fn built(
    block: Delimiters,
    variable: Delimiters,
    comment: Delimiters,
) -> Result<SyntaxConfig, Error> {
    SyntaxConfig::builder()
        .block_delimiters(block.0, block.1)
        .variable_delimiters(variable.0, variable.1)
        .comment_delimiters(comment.0, comment.1)
        .build()
}

/// A syntax with these starts and ends of blocks, variables and comments.
pub(crate) fn with_delimiters(alloc: Global, texts: &[&str; 6]) -> Result<Rc<SyntaxConfig>, Error> {
    let block = owned(alloc, texts[0], texts[1])?;
    let variable = owned(alloc, texts[2], texts[3])?;
    let comment = owned(alloc, texts[4], texts[5])?;
    Ok(Rc::new(alloc, built(block, variable, comment)?)?)
}
