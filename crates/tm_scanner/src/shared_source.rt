//! A source whose raw texts share it.
ghost use Rattle.std.specs.Prelude.{◌≡◌, [], ◌∷◌, IfOk, IfErr};
ghost use Rattle.tm_values.specs.declared.error.ErrorKind.TheVariants.{OutOfMemory};

use std::alloc::Global;
use std::rc::RcStr;
use tm_delimiters::Part;
use tm_syntax::RawText;
use tm_values::Error;

/// A source whose raw texts share it, and the number of its bytes that are read.
#[derive(Clone, Copy)]
pub(crate) struct SharedSource<'s> {
    text: &'s RcStr,
    length: usize,
}

impl<'s> SharedSource<'s> {
    /// A source of which the prefix `read` is read.
    pub(crate) fn new(text: &'s RcStr, read: &str) -> SharedSource<'s> {
        SharedSource {
            text,
            length: read.len(),
        }
    }

    /// The part at the start of `rest`, the bytes that are left to read.
    pub(crate) fn part<'t>(&self, rest: &str, text: &'t str) -> Part<'t>
        ensures { result.text.now ≡ text.now }
    {
        Part {
            start: self.length.saturating_sub(rest.len()),
            text,
        }
    }

    /// The raw text of a part. It needs no memory if it is found in this source. OutOfMemory if
    /// memory runs out.
    #[inline(always)]
    pub(crate) fn raw_text(&self, alloc: Global, part: Part<'_>) -> Result<RawText, Error>
        ensures found { IfOk result (λ raw. raw ≡ part.entry.text.now) }
        ensures refused { IfErr result (λ e. e ≡ OutOfMemory ∷ []) }
    {
        Ok(RawText::within(alloc, self.text, part.start, part.text)?)
    }
}
