//! The pieces of a source: a raw text and the tag after it.
ghost use Rattle.std.specs.Prelude.{◌≡◌, ◌<◌, ◌≤◌, ◌++◌, ℕ, List, [], ◌∷◌, length, IfOk, IfErr, IfSome};
ghost use Rattle.tm_scanner.specs.Pieces as spec;
ghost use Rattle.tm_scanner.specs.Refuses.{Refuses};
ghost use Rattle.tm_delimiters.specs.Syntax.{HasAll};
ghost use Rattle.tm_delimiters.specs.Views.{IsRest, step_of, place_of};
ghost use Rattle.tm_scanner.specs.Views.{Adds, IsNoLonger};
ghost use Rattle.tm_values.specs.declared.error.ErrorKind.TheVariants.{OutOfMemory};

use crate::name_pool::NamePool;
use crate::names::{name_at, tag_of};
use crate::raw::{past_word, raw_block};
use crate::shared_source::SharedSource;
use crate::tokens::{content, last_parts};
use std::alloc::Global;
use tm_delimiters::front::past_blanks;
use tm_delimiters::{Kind, Part, SyntaxConfig, Whitespace, comment_end, to_end};
use tm_syntax::{Sign, Tag, Token};
use tm_values::{Error, ErrorKind};

/// Pushes the token of a raw text, unless it is empty. OutOfMemory if memory runs out.
#[inline(always)]
pub(crate) fn raw(
    alloc: Global,
    source: &SharedSource<'_>,
    part: Part<'_>,
    tokens: &mut Vec<Token>,
) -> Result<(), Error>
    ensures added { IfOk result
        (λ _. tokens.new.items ≡ tokens.old.items ++ spec.raw part.entry.text.now) }
    ensures refused { IfErr result (λ e. e ≡ OutOfMemory ∷ []) }
{
    if part.text.is_empty() {
        return Ok(());
    }
    tokens.push(Token::Raw(source.raw_text(alloc, part)?))?;
    Ok(())
}

/// Pushes the tokens of an emission after its start delimiter, and returns its end.
///
/// SyntaxError if its content isn't tokens, or it has no end. OutOfMemory if memory runs out.
fn emission<'s>(
    alloc: Global,
    names: &mut NamePool,
    by: &str,
    text: &'s str,
    tokens: &mut Vec<Token>,
) -> Result<(Whitespace, &'s str), Error>
    ensures found { Adds result tokens.old.items tokens.new.items
        (spec.IsEmission by.now text.now) }
    ensures no_longer { IsNoLonger result text.now }
    ensures refused { Refuses result (spec.IsEmission by.now text.now) }
{
    tokens.push(Token::Sign(Sign::VariableStart))?;
    let (_, back) = to_end(by, text);
    let end = content(alloc, names, by, text, back, tokens)?;
    tokens.push(Token::Sign(Sign::VariableEnd))?;
    Ok(end)
}

/// The word of a block tag, and the rest after it.
fn tag_word(text: &str) -> Option<(Tag, &str)>
    ensures value { step_of result ≡ spec.tag_word text.now }
    ensures rest { IfSome result (λ x. IsRest x.1.now text.now) }
{
    let (name, rest) = name_at(past_blanks(text))?;
    Some((tag_of(name)?, rest))
}

/// Pushes the tokens of a block tag after its start delimiter, and returns its end.
///
/// SyntaxError if it doesn't begin with the word of a tag, if its content isn't tokens, or if it
/// has no end. OutOfMemory if memory runs out.
fn block_tag<'s>(
    alloc: Global,
    names: &mut NamePool,
    by: &str,
    text: &'s str,
    tokens: &mut Vec<Token>,
) -> Result<(Whitespace, &'s str), Error>
    ensures found { Adds result tokens.old.items tokens.new.items
        (spec.IsBlockTag by.now text.now) }
    ensures no_longer { IsNoLonger result text.now }
    ensures refused { Refuses result (spec.IsBlockTag by.now text.now) }
{
    let (front, back) = to_end(by, text);
    let Some((tag, left)) = tag_word(front) else {
        return Err(Error::from(ErrorKind::SyntaxError));
    };
    tokens.push(Token::Tag(tag))?;
    let end = content(alloc, names, by, last_parts(text, left, back), back, tokens)?;
    tokens.push(Token::Sign(Sign::BlockEnd))?;
    Ok(end)
}

/// Pushes the text of a raw block after its first word, and returns its end.
///
/// SyntaxError if its first tag has no end or its `endraw` tag is missing. OutOfMemory if memory
/// runs out.
fn raw_text<'s>(
    alloc: Global,
    syntax: &SyntaxConfig,
    source: &SharedSource<'_>,
    text: &'s str,
    tokens: &mut Vec<Token>,
) -> Result<(Whitespace, &'s str), Error>
    requires usable { HasAll syntax.now }
    ensures found { Adds result tokens.old.items tokens.new.items
        (spec.IsRawBlock syntax.now text.now) }
    ensures no_longer { IsNoLonger result text.now }
    ensures refused { Refuses result (spec.IsRawBlock syntax.now text.now) }
{
    let Some((inside, whitespace, rest)) = raw_block(syntax, source, text) else {
        return Err(Error::from(ErrorKind::SyntaxError));
    };
    raw(alloc, source, inside, tokens)?;
    Ok((whitespace, rest))
}

/// Pushes the tokens of a raw block or a block tag after its start delimiter, and returns its end.
///
/// SyntaxError if it is neither. OutOfMemory if memory runs out.
fn block<'s>(
    alloc: Global,
    names: &mut NamePool,
    syntax: &SyntaxConfig,
    source: &SharedSource<'_>,
    text: &'s str,
    tokens: &mut Vec<Token>,
) -> Result<(Whitespace, &'s str), Error>
    requires usable { HasAll syntax.now }
    ensures found { Adds result tokens.old.items tokens.new.items
        (spec.IsBlock syntax.now text.now) }
    ensures no_longer { IsNoLonger result text.now }
    ensures refused { Refuses result (spec.IsBlock syntax.now text.now) }
{
    let by = syntax.end(Kind::Block);
    match past_word(by, "raw", text) {
        Some(rest) => raw_text(alloc, syntax, source, rest, tokens),
        None => block_tag(alloc, names, by, text, tokens),
    }
}

/// Pushes the tokens of a tag after its start, and returns its end.
///
/// SyntaxError if it isn't a valid tag. OutOfMemory if memory runs out.
pub(crate) fn tag<'s>(
    alloc: Global,
    names: &mut NamePool,
    syntax: &SyntaxConfig,
    source: &SharedSource<'_>,
    kind: Kind,
    text: &'s str,
    tokens: &mut Vec<Token>,
) -> Result<(Whitespace, &'s str), Error>
    requires usable { HasAll syntax.now }
    ensures found { Adds result tokens.old.items tokens.new.items
        (spec.IsTag syntax.now kind text.now) }
    ensures no_longer { IsNoLonger result text.now }
    ensures refused { Refuses result (spec.IsTag syntax.now kind text.now) }
{
    match kind {
        Kind::Block => block(alloc, names, syntax, source, text, tokens),
        Kind::Variable => emission(alloc, names, syntax.end(Kind::Variable), text, tokens),
        Kind::Comment => match comment_end(syntax.end(Kind::Comment), text) {
            Some(end) => Ok(end),
            None => Err(Error::from(ErrorKind::SyntaxError)),
        },
    }
}
