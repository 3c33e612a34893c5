//! Texts with a greatest length, so that what a template writes into memory is bounded.
ghost use Rattle.std.specs.Prelude.{◌≡◌, ◌≤◌, ◌++◌, [], length, string_bytes, OnErr, OnOk, IfOk, IsOk};
ghost use Rattle.tm_output.specs.Targets.{Grows, GrowsInPart};
ghost use Rattle.tm_output.specs.Laws.{string_laws};

use crate::target::{Target, TargetFailed};
use std::alloc::AllocError;
use std::marker::Model;
use tm_values::SharedText;

/// A string with a greatest length. A contract sees its bytes.
#[derive(Drop)]
pub struct BoundedString {
    content: String,
    most: usize,
}

impl Model for BoundedString {
    ghost use Rattle.std.specs.Prelude.{ℕ, List, ◌≤◌, length, string_bytes};

    ghost Value = { List ℕ };

    ghost view = { λ s. string_bytes s.content };

    // It is never longer than that.
    ghost invariant = { λ s. length (string_bytes s.content) ≤ s.most };
}

impl BoundedString {
    /// An empty string of at most `most` bytes. It reuses the capacity of `content`.
    pub fn emptied(content: String, most: usize) -> BoundedString
        ensures { result ≡ [] }
    {
        let mut content = content;
        content.clear();
        BoundedString { content, most }
    }

    /// The string, without the limit.
    pub fn into_string(self) -> String
        ensures { string_bytes result ≡ self }
    {
        let BoundedString { content, .. } = self;
        content
    }

    /// Appends `text`. AllocError if the string would be too long or memory runs out; then nothing
    /// changes. An empty text needs nothing.
    #[inline(always)]
    pub fn push_str(&mut self, text: &str) -> Result<(), AllocError>
        ensures ok { OnOk result (self.new ≡ self.old ++ text.now) }
        ensures err { OnErr result (self.new ≡ self.old) }
        ensures empty { text.now ≡ [] → IsOk result }
    {
        if text.len() > self.most - self.content.len() {
            return Err(AllocError);
        }
        self.content.push_str(text)
    }
}

impl Target for BoundedString {
    ghost took = { λ old text new. Grows old text new };

    ghost stopped = { λ old text new. GrowsInPart old text new };

    /// TargetFailed if the string would be too long or memory runs out.
    fn take_text(&mut self, text: &str) -> Result<(), TargetFailed> {
        self.push_str(text).map_err(|_| TargetFailed)
    }

    ghost laws = { string_laws (λ bytes. bytes) };
}

/// A shared text with a greatest length. A contract sees its bytes.
#[derive(Drop)]
pub struct BoundedText {
    content: SharedText,
    most: usize,
}

impl Model for BoundedText {
    ghost use Rattle.std.specs.Prelude.{ℕ, List, ◌≤◌, length};

    ghost Value = { List ℕ };

    ghost view = { λ s. s.content };

    // It is never longer than that.
    ghost invariant = { λ s. length s.content ≤ s.most };
}

impl BoundedText {
    /// `content`, which may grow up to `most` bytes. AllocError if it is longer.
    pub fn new(content: SharedText, most: usize) -> Result<BoundedText, AllocError>
        ensures { IfOk result (λ text. text ≡ content) }
    {
        if content.as_str().len() > most {
            return Err(AllocError);
        }
        Ok(BoundedText { content, most })
    }

    /// The text, without the limit.
    pub fn into_text(self) -> SharedText
        ensures { result ≡ self }
    {
        let BoundedText { content, .. } = self;
        content
    }
}

impl Target for BoundedText {
    ghost took = { λ old text new. Grows old text new };

    ghost stopped = { λ old text new. GrowsInPart old text new };

    /// TargetFailed if the text would be too long or memory runs out.
    fn take_text(&mut self, text: &str) -> Result<(), TargetFailed> {
        if text.len() > self.most - self.content.as_str().len() {
            return Err(TargetFailed);
        }
        self.content.append(text).map_err(|_| TargetFailed)
    }

    ghost laws = { string_laws (λ bytes. bytes) };
}
