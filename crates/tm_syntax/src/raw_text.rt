//! Raw texts that share their source.
ghost use Rattle.std.specs.Prelude.{◌≡◌, IfOk, IfSome};
ghost use Rattle.std.specs.Rc.{rc_str_bytes};
ghost use Rattle.tm_syntax.specs.RawText.{IsSlice};

use std::alloc::{AllocError, Global};
use std::marker::Model;
use std::rc::RcStr;

/// A raw text: a range of a shared source. A contract sees its bytes.
#[derive(Drop)]
pub struct RawText {
    source: RcStr,
    start: usize,
    end: usize,
}

impl Model for RawText {
    ghost use Rattle.std.specs.Prelude.{List, ℕ, slice_range};
    ghost use Rattle.std.specs.Rc.{rc_str_bytes};
    ghost use Rattle.tm_syntax.specs.RawText.{IsRange};

    ghost Value = { List ℕ };

    ghost view = { λ a. slice_range (rc_str_bytes a.source) a.start a.end };

    ghost invariant = { λ a. IsRange (rc_str_bytes a.source) a.start a.end };
}

/// The end of `text` in `source`, if it is found at `start`.
fn end_within(source: &str, start: usize, text: &str) -> Option<usize>
    ensures { IfSome result (λ end. IsSlice source.now start end text.now) }
{
    let end = start.checked_add(text.len())?;
    if source.is_char_boundary(start)
        && source.is_char_boundary(end)
        && &source[start..end] == text
    {
        Some(end)
    } else {
        None
    }
}

impl RawText {
    /// The text `text`. It shares `source` if it is found there at `start`, and is a copy
    /// otherwise. AllocError if memory runs out.
    pub fn within(
        alloc: Global,
        source: &RcStr,
        start: usize,
        text: &str,
    ) -> Result<RawText, AllocError>
        ensures { IfOk result (λ raw. raw ≡ text.now) }
    {
        match end_within(source.as_str(), start, text) {
            Some(end) => Ok(RawText {
                source: source.clone()?,
                start,
                end,
            }),
            None => Ok(RawText {
                source: RcStr::from_str(alloc, text)?,
                start: 0,
                end: text.len(),
            }),
        }
    }

    /// A second owner of the same text. AllocError only if the count of owners overflows.
    pub fn share(&self) -> Result<RawText, AllocError>
        ensures { IfOk result (λ raw. raw ≡ self.now) }
    {
        Ok(RawText {
            source: self.source.clone()?,
            start: self.start,
            end: self.end,
        })
    }

    /// The text.
    pub fn as_str(&self) -> &str
        ensures { result.now ≡ self.now }
    {
        &self.source.as_str()[self.start..self.end]
    }
}
