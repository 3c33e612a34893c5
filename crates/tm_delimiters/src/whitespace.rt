//! The marks `-` and `+` next to delimiters.
ghost use Rattle.std.specs.Prelude.{◌≡◌, ◌≤◌, ◌<◌, length, IfSome, None};
ghost use Rattle.tm_delimiters.specs.Views.{IsBeforeMark, IsKnown, step_of};
ghost use Rattle.tm_delimiters.specs.Whitespace as spec;

use crate::front::{ascii, cut, is_blank, strip};

/// How the mark next to a delimiter, if any, trims the raw text on that side.
#[derive(Clone, Copy)]
pub enum Whitespace {
    /// No mark: the flags decide.
    Default,
    /// `-`: all blanks are removed.
    Remove,
    /// `+`: nothing is removed.
    Preserve,
}

/// The mark at the start, and the rest after it.
pub fn whitespace_at(text: &str) -> (Whitespace, &str)
    ensures value { (result.0, result.1.now) ≡ spec.whitespace_at text.now }
    ensures no_longer { length result.1.now ≤ length text.now }
{
    match ascii(text) {
        Some((b'-', rest)) => (Whitespace::Remove, rest),
        Some((b'+', rest)) => (Whitespace::Preserve, rest),
        _ => (Whitespace::Default, text),
    }
}

/// The end delimiter at the start, with an optional mark before it, and the rest after it.
#[inline(always)]
pub fn ending<'t>(end: &str, text: &'t str) -> Option<(Whitespace, &'t str)>
    ensures value { step_of result ≡ spec.ending end.now text.now }
    ensures no_longer { IfSome result (λ x. length x.1.now ≤ length text.now) }
{
    if let Some(rest) = strip(text, end) {
        return Some((Whitespace::Default, rest));
    }
    match ascii(text) {
        Some((b'-', rest)) => Some((Whitespace::Remove, strip(rest, end)?)),
        Some((b'+', rest)) => Some((Whitespace::Preserve, strip(rest, end)?)),
        _ => None,
    }
}

/// The text without a mark at its end.
fn before_mark(text: &str) -> &str
    ensures { IsBeforeMark text.now result.now }
{
    if let Some(front) = text.strip_suffix("-") {
        return front;
    }
    match text.strip_suffix("+") {
        Some(front) => front,
        None => text,
    }
}

/// The text before the first end delimiter, with an optional mark before that, and the rest from
/// there on.
pub fn to_end<'t>(end: &str, text: &'t str) -> (&'t str, &'t str)
    ensures { (result.0.now, result.1.now) ≡ spec.to_end end.now text.now }
{
    match text.split_once(end) {
        Some((inside, _)) => text.split_at(before_mark(inside).len()),
        None => (text, ""),
    }
}

/// The same. `known` is the rest from that place on, if an earlier search found it, so a source is
/// searched only once, however many tokens it has.
pub fn next_end<'t>(end: &str, text: &'t str, known: &str) -> (&'t str, &'t str)
    requires { IsKnown end.now text.now known.now }
    ensures { (result.0.now, result.1.now) ≡ spec.to_end end.now text.now }
{
    if text.len() < known.len() {
        return to_end(end, text);
    }
    text.split_at(text.len() - known.len())
}

/// The rest after the blanks before an end delimiter.
pub fn past_blanks_to<'t>(end: &str, text: &'t str) -> &'t str
    ensures value { result.now ≡ spec.past_blanks_to end.now text.now }
    ensures no_longer { length result.now ≤ length text.now }
{
    let mut rest = text;
    while let Some((byte, after)) = ascii(rest) {
        if !is_blank(byte) {
            break;
        }
        if ending(end, rest).is_some() {
            break;
        }
        rest = after;
    }
    rest
}

/// The mark at the end of the text.
fn last_whitespace(text: &str) -> Whitespace
    ensures { result ≡ spec.last_whitespace text.now }
{
    let bytes = text.as_bytes();
    if bytes.ends_with(b"-") {
        Whitespace::Remove
    } else if bytes.ends_with(b"+") {
        Whitespace::Preserve
    } else {
        Whitespace::Default
    }
}

/// The mark before the first end delimiter of a comment, and the rest after that delimiter.
pub fn comment_end<'t>(end: &str, text: &'t str) -> Option<(Whitespace, &'t str)>
    ensures value { step_of result ≡ spec.comment_end end.now text.now }
    ensures no_longer { IfSome result (λ x. length x.1.now ≤ length text.now) }
{
    let (inside, rest) = cut(text, end)?;
    Some((last_whitespace(inside), rest))
}
