//! Delimiters and flags of templates.
ghost use Rattle.std.specs.Prelude.{◌≡◌, Decides};
ghost use Rattle.tm_delimiters.specs.Starts as starts;
ghost use Rattle.tm_delimiters.specs.Syntax.{HasAll, StartsDiffer, IsUsable, default_syntax};

use crate::builder::SyntaxConfigBuilder;
use crate::delimiter::Delimiter;
use std::marker::Model;

/// The kind of a tag, by its delimiters.
#[derive(Clone, Copy)]
pub enum Kind {
    Block,
    Variable,
    Comment,
}

/// Delimiters and flags, usable or not.
pub(crate) struct UncheckedSyntax {
    pub(crate) block_start: Delimiter,
    pub(crate) block_end: Delimiter,
    pub(crate) variable_start: Delimiter,
    pub(crate) variable_end: Delimiter,
    pub(crate) comment_start: Delimiter,
    pub(crate) comment_end: Delimiter,
    pub(crate) trim_blocks: bool,
    pub(crate) lstrip_blocks: bool,
    pub(crate) keep_trailing_newline: bool,
}

// By hand: one call for each owner, instead of a drop of each part.
impl Drop for UncheckedSyntax {
    fn drop(self) {
        let UncheckedSyntax {
            block_start: _block_start,
            block_end: _block_end,
            variable_start: _variable_start,
            variable_end: _variable_end,
            comment_start: _comment_start,
            comment_end: _comment_end,
            trim_blocks: _trim_blocks,
            lstrip_blocks: _lstrip_blocks,
            keep_trailing_newline: _keep_trailing_newline,
        } = self;
    }
}

impl Model for UncheckedSyntax {
    ghost use Rattle.tm_delimiters.specs.Syntax.{Syntax};

    ghost Value = { Syntax };

    ghost view = { λ a. record {
      block_start = a.block_start;
      block_end = a.block_end;
      variable_start = a.variable_start;
      variable_end = a.variable_end;
      comment_start = a.comment_start;
      comment_end = a.comment_end;
      trim_blocks = a.trim_blocks;
      lstrip_blocks = a.lstrip_blocks;
      keep_trailing_newline = a.keep_trailing_newline;
    } };
}

impl UncheckedSyntax {
    /// `{% %}`, `{{ }}` and `{# #}`, with no flag set.
    pub(crate) fn usual() -> UncheckedSyntax
        ensures { result ≡ default_syntax }
    {
        UncheckedSyntax {
            block_start: Delimiter::literal("{%"),
            block_end: Delimiter::literal("%}"),
            variable_start: Delimiter::literal("{{"),
            variable_end: Delimiter::literal("}}"),
            comment_start: Delimiter::literal("{#"),
            comment_end: Delimiter::literal("#}"),
            trim_blocks: false,
            lstrip_blocks: false,
            keep_trailing_newline: false,
        }
    }

    /// Whether no delimiter is empty.
    fn has_all(&self) -> bool
        ensures { Decides result (HasAll self.now) }
    {
        !self.block_start.as_str().is_empty()
            && !self.block_end.as_str().is_empty()
            && !self.variable_start.as_str().is_empty()
            && !self.variable_end.as_str().is_empty()
            && !self.comment_start.as_str().is_empty()
            && !self.comment_end.as_str().is_empty()
    }

    /// Whether no two start delimiters are equal.
    fn starts_differ(&self) -> bool
        ensures { Decides result (StartsDiffer self.now) }
    {
        let block = self.block_start.as_str();
        let variable = self.variable_start.as_str();
        let comment = self.comment_start.as_str();
        block != variable && block != comment && variable != comment
    }

    /// Whether tags can be told apart.
    pub(crate) fn is_usable(&self) -> bool
        ensures { Decides result (IsUsable self.now) }
    {
        self.has_all() && self.starts_differ()
    }
}

/// The delimiters of templates, and how newlines and indents next to them are treated. A contract
/// sees each delimiter as its bytes.
#[derive(Drop)]
pub struct SyntaxConfig {
    pub(crate) parts: UncheckedSyntax,
}

impl Model for SyntaxConfig {
    ghost use Rattle.tm_delimiters.specs.Syntax.{Syntax, IsUsable};

    ghost Value = { Syntax };

    ghost view = { λ a. a.parts };

    ghost invariant = { λ a. IsUsable a.parts };
}

impl Default for SyntaxConfig {
    /// `{% %}`, `{{ }}` and `{# #}`, with no flag set.
    fn default() -> SyntaxConfig
        ensures { result ≡ default_syntax }
    {
        SyntaxConfig {
            parts: UncheckedSyntax::usual(),
        }
    }
}

impl SyntaxConfig {
    /// A builder that starts with the usual delimiters.
    pub fn builder() -> SyntaxConfigBuilder
        ensures { result ≡ default_syntax }
    {
        SyntaxConfigBuilder::new()
    }

    /// Tells a proof that no delimiter is empty. This call does nothing.
    pub fn note_usable(&self)
        ensures { HasAll self.now }
    {
        let _ = &self.parts;
    }

    /// The start delimiter of a kind of tag.
    #[inline(always)]
    pub fn start(&self, kind: Kind) -> &str
        ensures { result.now ≡ starts.start_delimiter self.now kind }
    {
        match kind {
            Kind::Block => self.parts.block_start.as_str(),
            Kind::Variable => self.parts.variable_start.as_str(),
            Kind::Comment => self.parts.comment_start.as_str(),
        }
    }

    /// The end delimiter of a kind of tag.
    pub fn end(&self, kind: Kind) -> &str
        ensures { result.now ≡ starts.end_delimiter self.now kind }
    {
        match kind {
            Kind::Block => self.parts.block_end.as_str(),
            Kind::Variable => self.parts.variable_end.as_str(),
            Kind::Comment => self.parts.comment_end.as_str(),
        }
    }

    /// Whether one newline after a block tag or a comment is removed.
    pub(crate) fn trims_blocks(&self) -> bool
        ensures { result ≡ self.now.trim_blocks }
    {
        self.parts.trim_blocks
    }

    /// Whether the indent before a block tag or a comment is removed.
    pub(crate) fn strips_blocks(&self) -> bool
        ensures { result ≡ self.now.lstrip_blocks }
    {
        self.parts.lstrip_blocks
    }

    /// Whether the final newline of a source is kept.
    pub fn keeps_newline(&self) -> bool
        ensures { result ≡ self.now.keep_trailing_newline }
    {
        self.parts.keep_trailing_newline
    }
}
