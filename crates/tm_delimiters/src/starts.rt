//! Where tags start.
ghost use Rattle.std.specs.Prelude.{◌≡◌, ◌<◌, ◌≤◌, ℕ, List, length, IfSome};
ghost use Rattle.std.specs.Str.{IsCharBoundary};
ghost use Rattle.memchr.specs.Find.{IsFirst};
ghost use Rattle.tm_delimiters.specs.Front.{first_of};
ghost use Rattle.tm_delimiters.specs.Starts as spec;
ghost use Rattle.tm_delimiters.specs.Syntax.{HasAll};
ghost use Rattle.tm_delimiters.specs.Views.{Shortens, step_of, parts_of};

use crate::front::strip;
use crate::syntax::{Kind, SyntaxConfig};
use crate::trimming::Side;
use crate::whitespace::whitespace_at;
use memchr::memchr3;

/// The start delimiter of a kind, if the text begins with it, and the rest after it.
#[inline(always)]
fn opens<'s>(syntax: &SyntaxConfig, kind: Kind, text: &'s str) -> Option<(Kind, &'s str)>
    requires { HasAll syntax.now }
    ensures value { step_of result ≡ spec.opens syntax.now kind text.now }
    ensures shorter { Shortens result text.now }
{
    let rest = strip(text, syntax.start(kind))?;
    Some((kind, rest))
}

/// The longer of two start delimiters at the same place.
#[inline(always)]
fn longer<'s>(
    syntax: &SyntaxConfig,
    one: Option<(Kind, &'s str)>,
    other: Option<(Kind, &'s str)>,
) -> Option<(Kind, &'s str)>
    ensures value { step_of result
        ≡ spec.longer syntax.now (step_of one.entry) (step_of other.entry) }
    ensures shorter { (cs : List ℕ) →
        Shortens one.entry cs → Shortens other.entry cs → Shortens result cs }
{
    match (one, other) {
        (None, other) => other,
        (one, None) => one,
        (Some(one), Some(other)) => {
            if strip(syntax.start(other.0), syntax.start(one.0)).is_some() {
                Some(other)
            } else {
                Some(one)
            }
        }
    }
}

/// The start delimiter at the front, and what is left after it.
#[inline(always)]
fn opening<'s>(syntax: &SyntaxConfig, text: &'s str) -> Option<(Kind, &'s str)>
    requires { HasAll syntax.now }
    ensures value { step_of result ≡ spec.opening syntax.now text.now }
    ensures shorter { Shortens result text.now }
{
    let block = opens(syntax, Kind::Block, text);
    let variable = opens(syntax, Kind::Variable, text);
    let comment = opens(syntax, Kind::Comment, text);
    longer(syntax, longer(syntax, block, variable), comment)
}

/// Whether the bytes begin with a start delimiter.
fn begins(syntax: &SyntaxConfig, bytes: &[u8]) -> bool
    ensures { result ≡ spec.begins syntax.now bytes.now }
{
    bytes.starts_with(syntax.start(Kind::Block).as_bytes())
        || bytes.starts_with(syntax.start(Kind::Variable).as_bytes())
        || bytes.starts_with(syntax.start(Kind::Comment).as_bytes())
}

/// The first place of a start delimiter.
pub fn next_start(syntax: &SyntaxConfig, bytes: &[u8]) -> Option<usize>
    requires usable { HasAll syntax.now }
    ensures first { IsFirst (spec.BeginsAt syntax.now bytes.now) 0 (length bytes.now) result }
    ensures boundary { IfSome result (λ k. IsCharBoundary bytes.now k) }
{
    let block = syntax.start(Kind::Block).as_bytes()[0];
    let variable = syntax.start(Kind::Variable).as_bytes()[0];
    let comment = syntax.start(Kind::Comment).as_bytes()[0];
    let mut from = 0;
    while let Some(at) = memchr3(block, variable, comment, &bytes[from..]) {
        let place = from + at;
        if begins(syntax, &bytes[place..]) {
            return Some(place);
        }
        from = place + 1;
    }
    None
}

/// The start of a tag, if the text begins with one, and the rest after it.
#[inline(always)]
fn tag_start<'s>(syntax: &SyntaxConfig, text: &'s str) -> Option<(Side, &'s str)>
    requires usable { HasAll syntax.now }
    ensures value { step_of result ≡ spec.tag_start syntax.now text.now }
    ensures shorter { Shortens result text.now }
{
    let (kind, after) = opening(syntax, text)?;
    let (whitespace, rest) = whitespace_at(after);
    Some((Side { kind, whitespace }, rest))
}

/// The text before the next tag, the start of that tag, and the rest after it.
#[inline(always)]
pub fn next_tag<'s>(syntax: &SyntaxConfig, text: &'s str) -> Option<(&'s str, Side, &'s str)>
    requires usable { HasAll syntax.now }
    ensures value { parts_of result ≡ first_of (spec.tag_start syntax.now) text.now }
    ensures shorter { IfSome result (λ x. length x.2.now < length text.now) }
{
    let bytes = text.as_bytes();
    let block = syntax.start(Kind::Block).as_bytes()[0];
    let variable = syntax.start(Kind::Variable).as_bytes()[0];
    let comment = syntax.start(Kind::Comment).as_bytes()[0];
    let mut from = 0;
    while let Some(at) = memchr3(block, variable, comment, &bytes[from..]) {
        let place = from + at;
        let (front, tag) = text.split_at(place);
        if let Some((side, rest)) = tag_start(syntax, tag) {
            return Some((front, side, rest));
        }
        from = place + 1;
    }
    None
}
