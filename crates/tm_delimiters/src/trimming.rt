//! How the tags next to a raw text trim it.
ghost use Rattle.std.specs.Prelude.{◌≡◌, ◌≤◌, ◌<◌, ◌-◌, true, false, length, drop, slice_index};
ghost use Rattle.tm_delimiters.specs.Trimming as spec;

use crate::front::strip;
use crate::syntax::{Kind, SyntaxConfig};
use crate::whitespace::Whitespace;

/// A tag on one side of a raw text, and the mark on that side of the tag.
#[derive(Clone, Copy)]
pub struct Side {
    pub kind: Kind,
    pub whitespace: Whitespace,
}

/// A part of a source: its start, and its text.
#[derive(Clone, Copy)]
pub struct Part<'s> {
    /// Its start in the source, in bytes.
    pub start: usize,
    /// Its text.
    pub text: &'s str,
}

/// Whether the flags apply to tags of this kind.
fn is_block(kind: Kind) -> bool
    ensures { result ≡ spec.is_block kind }
{
    match kind {
        Kind::Block | Kind::Comment => true,
        Kind::Variable => false,
    }
}

/// The text without one newline at its start.
fn past_newline(text: &str) -> &str
    ensures { result.now ≡ spec.past_newline text.now }
{
    if let Some(rest) = strip(text, "\n") {
        return rest;
    }
    strip(text, "\r\n").unwrap_or(text)
}

/// The start of the spaces and tabs at the end.
fn indent_start(bytes: &[u8]) -> usize
    ensures fits { result ≤ length bytes.now }
    ensures indent { spec.is_indent (drop result bytes.now) ≡ true }
    ensures longest { 0 < result → spec.is_space (slice_index bytes.now (result - 1)) ≡ false }
{
    let mut start = bytes.len();
    while start > 0 {
        if !matches!(bytes[start - 1], b' ' | b'\t') {
            return start;
        }
        start -= 1;
    }
    0
}

/// The text without the spaces and tabs at its end, if they are the whole last line. `starts_line`
/// says whether the text starts a line.
fn without_indent(starts_line: bool, text: &str) -> &str
    ensures { result.now ≡ spec.without_indent starts_line text.now }
{
    let bytes = text.as_bytes();
    let start = indent_start(bytes);
    if start == 0 {
        return if starts_line { "" } else { text };
    }
    if bytes[start - 1] == b'\n' {
        &text[..start]
    } else {
        text
    }
}

/// The text, trimmed by the tag before it.
#[inline(always)]
fn by_before<'t>(syntax: &SyntaxConfig, before: Option<Side>, text: &'t str) -> &'t str
    ensures { result.now ≡ spec.by_before syntax.now before text.now }
{
    let Some(side) = before else {
        return text;
    };
    match side.whitespace {
        Whitespace::Remove => text.trim_start(),
        Whitespace::Preserve => text,
        Whitespace::Default => {
            if syntax.trims_blocks() && is_block(side.kind) {
                past_newline(text)
            } else {
                text
            }
        }
    }
}

/// What the tag after a text leaves of it.
#[inline(always)]
fn by_after<'t>(
    syntax: &SyntaxConfig,
    starts_line: bool,
    after: Option<Side>,
    text: &'t str,
) -> &'t str
    ensures { result.now ≡ spec.by_after syntax.now starts_line after text.now }
{
    let Some(side) = after else {
        return text;
    };
    match side.whitespace {
        Whitespace::Remove => text.trim_end(),
        Whitespace::Preserve => text,
        Whitespace::Default => {
            if syntax.strips_blocks() && is_block(side.kind) {
                without_indent(starts_line, text)
            } else {
                text
            }
        }
    }
}

/// What is left of a raw text between two tags, of which the source's start and end have none.
#[inline(always)]
pub fn trimmed<'s>(
    syntax: &SyntaxConfig,
    before: Option<Side>,
    after: Option<Side>,
    part: Part<'s>,
) -> Part<'s>
    ensures { result.text.now ≡ spec.trimmed syntax.now before after part.entry.text.now }
{
    let kept = by_after(syntax, before.is_none(), after, part.text);
    let text = by_before(syntax, before, kept);
    let skipped = kept.len().saturating_sub(text.len());
    Part {
        start: part.start.saturating_add(skipped),
        text,
    }
}
