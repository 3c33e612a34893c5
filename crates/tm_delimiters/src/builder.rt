//! A builder for delimiters and flags.
ghost use Rattle.std.specs.Prelude.{◌≡◌, [], ◌∷◌, IfOk, IfErr, string_bytes};
ghost use Rattle.tm_delimiters.specs.Syntax.{IsUsable, default_syntax};
ghost use Rattle.tm_values.specs.declared.error.ErrorKind.TheVariants.{InvalidDelimiter};

use crate::delimiter::Delimiter;
use crate::syntax::{SyntaxConfig, UncheckedSyntax};
use std::marker::Model;
use tm_values::{Error, ErrorKind};

/// Delimiters and flags that are being set.
#[derive(Drop)]
pub struct SyntaxConfigBuilder {
    parts: UncheckedSyntax,
}

impl Model for SyntaxConfigBuilder {
    ghost use Rattle.tm_delimiters.specs.Syntax.{Syntax};

    ghost Value = { Syntax };

    ghost view = { λ a. a.parts };
}

impl SyntaxConfigBuilder {
    /// The usual delimiters, with no flag set.
    pub(crate) fn new() -> SyntaxConfigBuilder
        ensures { result ≡ default_syntax }
    {
        SyntaxConfigBuilder {
            parts: UncheckedSyntax::usual(),
        }
    }

    /// Sets the start and the end of block tags.
    pub fn block_delimiters(self, start: String, end: String) -> SyntaxConfigBuilder
        ensures { result
            ≡ record self { block_start = string_bytes start; block_end = string_bytes end } }
    {
        let mut parts = self.parts;
        parts.block_start = Delimiter::owned(start);
        parts.block_end = Delimiter::owned(end);
        SyntaxConfigBuilder { parts }
    }

    /// Sets the start and the end of emissions.
    pub fn variable_delimiters(self, start: String, end: String) -> SyntaxConfigBuilder
        ensures { result
            ≡ record self { variable_start = string_bytes start; variable_end = string_bytes end } }
    {
        let mut parts = self.parts;
        parts.variable_start = Delimiter::owned(start);
        parts.variable_end = Delimiter::owned(end);
        SyntaxConfigBuilder { parts }
    }

    /// Sets the start and the end of comments.
    pub fn comment_delimiters(self, start: String, end: String) -> SyntaxConfigBuilder
        ensures { result
            ≡ record self { comment_start = string_bytes start; comment_end = string_bytes end } }
    {
        let mut parts = self.parts;
        parts.comment_start = Delimiter::owned(start);
        parts.comment_end = Delimiter::owned(end);
        SyntaxConfigBuilder { parts }
    }

    /// Sets whether one newline after a block tag or a comment is removed.
    pub fn trim_blocks(mut self, yes: bool) -> SyntaxConfigBuilder
        ensures { result ≡ record self { trim_blocks = yes } }
    {
        self.parts.trim_blocks = yes;
        self
    }

    /// Sets whether the spaces and tabs from the start of a line to a block tag or a comment are
    /// removed.
    pub fn lstrip_blocks(mut self, yes: bool) -> SyntaxConfigBuilder
        ensures { result ≡ record self { lstrip_blocks = yes } }
    {
        self.parts.lstrip_blocks = yes;
        self
    }

    /// Sets whether the final newline of a source is kept.
    pub fn keep_trailing_newline(mut self, yes: bool) -> SyntaxConfigBuilder
        ensures { result ≡ record self { keep_trailing_newline = yes } }
    {
        self.parts.keep_trailing_newline = yes;
        self
    }

    /// The finished configuration. InvalidDelimiter if a delimiter is empty or two start delimiters
    /// are equal.
    pub fn build(self) -> Result<SyntaxConfig, Error>
        ensures built { IfOk result (λ config. (config ≡ self) × IsUsable self) }
        ensures refused { IfErr result (λ e. (e ≡ InvalidDelimiter ∷ []) × (IsUsable self → ⊥)) }
    {
        if self.parts.is_usable() {
            Ok(SyntaxConfig { parts: self.parts })
        } else {
            Err(Error::from(ErrorKind::InvalidDelimiter))
        }
    }
}
