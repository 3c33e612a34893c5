//! Raw blocks, whose content is all text.
ghost use Rattle.std.specs.Prelude.{◌≡◌, ◌<◌, ◌≤◌, length, IfSome};
ghost use Rattle.tm_delimiters.specs.Front.{first_of};
ghost use Rattle.tm_scanner.specs.Pieces as spec;
ghost use Rattle.tm_delimiters.specs.Syntax.{HasAll};
ghost use Rattle.tm_delimiters.specs.Views.{place_of};
ghost use Rattle.tm_scanner.specs.Views.{closing_of, closed_of, block_of};

use crate::names::leaves_name;
use crate::shared_source::SharedSource;
use tm_delimiters::front::{ascii, strip};
use tm_delimiters::{
    Kind, Part, Side, SyntaxConfig, Whitespace, ending, next_start, past_blanks_to, trimmed,
    whitespace_at,
};

/// The rest after these letters, if the tag doesn't end before or between them.
fn past_letters<'t>(by: &str, letters: &[u8], text: &'t str) -> Option<&'t str>
    ensures value { place_of result ≡ spec.past_letters by.now letters.now text.now }
    ensures no_longer { IfSome result (λ rest. length rest.now ≤ length text.now) }
{
    let mut rest = text;
    for letter in letters {
        let (byte, after) = ascii(rest)?;
        if byte != *letter || ending(by, rest).is_some() {
            return None;
        }
        rest = after;
    }
    Some(rest)
}

/// The rest after blanks and a word, if the tag or the name ends there.
pub(crate) fn past_word<'t>(by: &str, word: &str, text: &'t str) -> Option<&'t str>
    ensures value { place_of result ≡ spec.past_word by.now word.now text.now }
    ensures no_longer { IfSome result (λ rest. length rest.now ≤ length text.now) }
{
    let rest = past_letters(by, word.as_bytes(), past_blanks_to(by, text))?;
    if ending(by, rest).is_some() || leaves_name(rest) {
        Some(rest)
    } else {
        None
    }
}

/// An `endraw` tag at the start: the mark at its start, and its end.
fn endraw<'s>(syntax: &SyntaxConfig, text: &'s str) -> Option<(Whitespace, (Whitespace, &'s str))>
    ensures value { closing_of result ≡ spec.endraw syntax.now text.now }
    ensures no_longer { IfSome result (λ x. length x.1.1.now ≤ length text.now) }
{
    let after = strip(text, syntax.start(Kind::Block))?;
    let (whitespace, inside) = whitespace_at(after);
    let by = syntax.end(Kind::Block);
    let rest = past_word(by, "endraw", inside)?;
    let end = ending(by, past_blanks_to(by, rest))?;
    Some((whitespace, end))
}

/// The text before the first `endraw` tag, and that tag.
fn to_endraw<'s>(
    syntax: &SyntaxConfig,
    text: &'s str,
) -> Option<(&'s str, (Whitespace, (Whitespace, &'s str)))>
    requires usable { HasAll syntax.now }
    ensures value { closed_of result ≡ first_of (spec.endraw syntax.now) text.now }
    ensures no_longer { IfSome result (λ x. length x.1.1.1.now ≤ length text.now) }
{
    let bytes = text.as_bytes();
    let mut from = 0;
    while let Some(at) = next_start(syntax, &bytes[from..]) {
        let place = from + at;
        let (front, tag) = text.split_at(place);
        if let Some(end) = endraw(syntax, tag) {
            return Some((front, end));
        }
        from = place + 1;
    }
    None
}

/// After the word `raw`: the text before the first `endraw` tag, trimmed, and the end of that tag.
pub(crate) fn raw_block<'s>(
    syntax: &SyntaxConfig,
    source: &SharedSource<'_>,
    text: &'s str,
) -> Option<(Part<'s>, Whitespace, &'s str)>
    requires usable { HasAll syntax.now }
    ensures value { block_of result ≡ spec.raw_block syntax.now text.now }
    ensures no_longer { IfSome result (λ x. length x.2.now ≤ length text.now) }
{
    let kind = Kind::Block;
    let by = syntax.end(kind);
    let (opened, body) = ending(by, past_blanks_to(by, text))?;
    let (inside, (closed, (end, rest))) = to_endraw(syntax, body)?;
    let before = Some(Side {
        kind,
        whitespace: opened,
    });
    let after = Some(Side {
        kind,
        whitespace: closed,
    });
    let part = source.part(body, inside);
    Some((trimmed(syntax, before, after, part), end, rest))
}
