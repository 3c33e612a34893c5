//! The tokens in a tag.
ghost use Rattle.std.specs.Prelude.{◌≡◌, ◌<◌, ◌≤◌, ◌++◌, ℕ, List, length, IfOk, IfErr, IfSome, None, Some};
ghost use Rattle.tm_scanner.specs.Refuses.{Refuses};
ghost use Rattle.tm_values.specs.Answer.{Refused};
ghost use Rattle.tm_scanner.specs.Tokens as spec;
ghost use Rattle.tm_delimiters.specs.Views.{IsKnown, IsRest, Shortens, step_of, place_of};
ghost use Rattle.tm_scanner.specs.Views.{Adds, IsNoLonger};

use crate::name_pool::NamePool;
use crate::names::{name_at, reserved};
use crate::numbers::{number, starts_number};
use crate::texts::{literal, quote_at};
use std::alloc::Global;
use tm_delimiters::front::{ascii, past_blanks, strip};
use tm_delimiters::{Whitespace, ending, next_end, past_blanks_to};
use tm_syntax::{Sign, Token};
use tm_values::{Error, ErrorKind, Value};

/// The maximal number of open brackets.
const DEEPEST: usize = 150;

/// The longer mark if the word follows the shorter one, and the rest after it.
fn longer<'t>(text: &'t str, word: &str, longer: Sign, shorter: Sign) -> (Sign, &'t str)
    ensures value { (result.0, result.1.now)
        ≡ spec.longer_mark text.now word.now longer shorter }
    ensures no_longer { length result.1.now ≤ length text.now }
{
    match strip(text, word) {
        Some(rest) => (longer, rest),
        None => (shorter, text),
    }
}

/// The mark at the start, and the rest after it.
fn mark(text: &str) -> Option<(Sign, &str)>
    ensures value { step_of result ≡ spec.mark text.now }
    ensures shorter { Shortens result text.now }
{
    let (byte, rest) = ascii(text)?;
    match byte {
        b'(' => Some((Sign::OpenRound, rest)),
        b')' => Some((Sign::CloseRound, rest)),
        b'[' => Some((Sign::OpenSquare, rest)),
        b']' => Some((Sign::CloseSquare, rest)),
        b'{' => Some((Sign::OpenCurly, rest)),
        b'}' => Some((Sign::CloseCurly, rest)),
        b',' => Some((Sign::Comma, rest)),
        b'.' => Some((Sign::Dot, rest)),
        b':' => Some((Sign::Colon, rest)),
        b'+' => Some((Sign::Plus, rest)),
        b'-' => Some((Sign::Minus, rest)),
        b'~' => Some((Sign::Tilde, rest)),
        b'|' => Some((Sign::Bar, rest)),
        b'%' => Some((Sign::Percent, rest)),
        b'=' => Some(longer(rest, "=", Sign::Equal, Sign::Assign)),
        b'!' => Some((Sign::NotEqual, strip(rest, "=")?)),
        b'<' => Some(longer(rest, "=", Sign::LessOrEqual, Sign::Less)),
        b'>' => Some(longer(rest, "=", Sign::GreaterOrEqual, Sign::Greater)),
        b'*' => Some(longer(rest, "*", Sign::DoubleStar, Sign::Star)),
        b'/' => Some(longer(rest, "/", Sign::DoubleSlash, Sign::Slash)),
        _ => None,
    }
}

/// The name or reserved word at the start, and the rest after it.
///
/// SyntaxError if there is none. OutOfMemory if memory runs out.
fn word<'t>(alloc: Global, names: &mut NamePool, text: &'t str) -> Result<(Token, &'t str), Error>
    ensures found { IfOk result (λ x. spec.word text.now ≡ Some (x.0, x.1.now)) }
    ensures shorter { IfOk result (λ x. length x.1.now < length text.now) }
    ensures refused { IfErr result (λ e. Refused e (spec.word text.now ≡ None)) }
{
    let Some((name, rest)) = name_at(text) else {
        return Err(Error::from(ErrorKind::SyntaxError));
    };
    match reserved(name) {
        Some(sign) => Ok((Token::Sign(sign), rest)),
        None => Ok((Token::Name(names.name(alloc, name)?), rest)),
    }
}

/// The number, mark, name or reserved word at the start, and the rest after it.
///
/// SyntaxError if there is none. OutOfMemory if memory runs out.
fn plain<'t>(alloc: Global, names: &mut NamePool, text: &'t str) -> Result<(Token, &'t str), Error>
    ensures found { IfOk result (λ x. spec.plain text.now ≡ Some (x.0, x.1.now)) }
    ensures shorter { IfOk result (λ x. length x.1.now < length text.now) }
    ensures refused { IfErr result (λ e. Refused e (spec.plain text.now ≡ None)) }
{
    if starts_number(text) {
        return match number(text) {
            Some((number, rest)) => Ok((Token::Literal(Value::number(number as i128)), rest)),
            None => Err(Error::from(ErrorKind::SyntaxError)),
        };
    }
    match mark(text) {
        Some((sign, rest)) => Ok((Token::Sign(sign), rest)),
        None => word(alloc, names, text),
    }
}

/// The last two parts of a text, by their lengths.
#[inline(always)]
pub(crate) fn last_parts<'t>(text: &'t str, left: &str, back: &str) -> &'t str
    requires { IsRest (left.now ++ back.now) text.now }
    ensures { result.now ≡ left.now ++ back.now }
{
    &text[text.len() - (left.len() + back.len())..]
}

/// The token at the start of a text in two parts, and the rest after it. Only a string literal may
/// continue in the second part.
///
/// SyntaxError if there is none. OutOfMemory if memory runs out.
pub(crate) fn token<'t>(
    alloc: Global,
    names: &mut NamePool,
    text: &'t str,
    front: &str,
    back: &str,
) -> Result<(Token, &'t str), Error>
    requires { text.now ≡ front.now ++ back.now }
    ensures found { IfOk result (λ x. spec.IsToken (front.now, back.now) x.0 x.1.now) }
    ensures rest { IfOk result (λ x. IsRest x.1.now text.now) }
    ensures shorter { IfOk result (λ x. length x.1.now < length text.now) }
    ensures refused { Refuses result (spec.IsToken (front.now, back.now)) }
{
    match quote_at(text) {
        Some((quote, after)) => {
            let (value, rest) = literal(alloc, quote, after)?;
            Ok((Token::Literal(value), rest))
        }
        None => {
            let (token, left) = plain(alloc, names, front)?;
            Ok((token, last_parts(text, left, back)))
        }
    }
}

/// The number of open brackets after a token. None if there are too many.
fn depth_after(token: &Token, depth: usize) -> Option<usize>
    ensures { result ≡ spec.depth_after token.now depth }
{
    match token {
        Token::Sign(Sign::OpenRound | Sign::OpenSquare | Sign::OpenCurly) => {
            if depth < DEEPEST {
                Some(depth + 1)
            } else {
                None
            }
        }
        Token::Sign(Sign::CloseRound | Sign::CloseSquare | Sign::CloseCurly) => {
            Some(depth.saturating_sub(1))
        }
        Token::Sign(
            Sign::VariableStart
            | Sign::VariableEnd
            | Sign::BlockEnd
            | Sign::Comma
            | Sign::Dot
            | Sign::Colon
            | Sign::Assign
            | Sign::Equal
            | Sign::NotEqual
            | Sign::Less
            | Sign::LessOrEqual
            | Sign::Greater
            | Sign::GreaterOrEqual
            | Sign::Plus
            | Sign::Minus
            | Sign::Tilde
            | Sign::Bar
            | Sign::Star
            | Sign::Slash
            | Sign::DoubleSlash
            | Sign::Percent
            | Sign::DoubleStar
            | Sign::And
            | Sign::Or
            | Sign::Not
            | Sign::If
            | Sign::Else
            | Sign::In
            | Sign::Is
            | Sign::True
            | Sign::False
            | Sign::None,
        )
        | Token::Raw(_)
        | Token::Tag(_)
        | Token::Name(_)
        | Token::Literal(_) => Some(depth),
    }
}

/// The end of the tag, if the text begins with it and no bracket is open.
fn past_end<'t>(by: &str, depth: usize, rest: &'t str) -> Option<(Whitespace, &'t str)>
    ensures value { step_of result ≡ spec.past_end by.now rest.now depth }
    ensures no_longer { IfSome result (λ x. length x.1.now ≤ length rest.now) }
{
    if depth == 0 { ending(by, rest) } else { None }
}

/// The text before the tag's end, the rest from there on, and what is known about the tag's end
/// after that. The end counts only if no bracket is open.
fn split_at_end<'t>(
    by: &str,
    depth: usize,
    rest: &'t str,
    known: &'t str,
) -> (&'t str, &'t str, &'t str)
    requires { IsKnown by.now rest.now known.now }
    ensures value { (result.0.now, result.1.now) ≡ spec.split_at_end by.now depth rest.now }
    ensures parts { rest.now ≡ result.0.now ++ result.1.now }
    ensures known { IsKnown by.now rest.now result.2.now }
{
    if depth == 0 {
        let (front, back) = next_end(by, rest, known);
        (front, back, back)
    } else {
        (rest, "", known)
    }
}

/// The rest after the blanks before that place.
fn past_blanks_at<'t>(by: &str, depth: usize, text: &'t str) -> &'t str
    ensures value { result.now ≡ spec.past_blanks_at by.now depth text.now }
    ensures rest { IsRest result.now text.now }
    ensures no_longer { length result.now ≤ length text.now }
{
    if depth == 0 {
        past_blanks_to(by, text)
    } else {
        past_blanks(text)
    }
}

/// Pushes the tokens of a tag's content, and returns the tag's end. `known` is the end, if it was
/// found before.
///
/// SyntaxError if the content isn't tokens, or there is no end. OutOfMemory if memory runs out.
pub(crate) fn content<'t>(
    alloc: Global,
    names: &mut NamePool,
    by: &str,
    text: &'t str,
    known: &'t str,
    tokens: &mut Vec<Token>,
) -> Result<(Whitespace, &'t str), Error>
    requires { IsKnown by.now text.now known.now }
    ensures found { Adds result tokens.old.items tokens.new.items (spec.Content by.now text.now) }
    ensures no_longer { IsNoLonger result text.now }
    ensures refused { Refuses result (spec.Content by.now text.now) }
{
    let mut depth = 0;
    let mut known = known;
    let mut rest = past_blanks_at(by, depth, text);
    'next: loop {
        if let Some(end) = past_end(by, depth, rest) {
            return Ok(end);
        }
        let (front, back, end) = split_at_end(by, depth, rest, known);
        let (token, after) = token(alloc, names, rest, front, back)?;
        let Some(deeper) = depth_after(&token, depth) else {
            return Err(Error::from(ErrorKind::SyntaxError));
        };
        tokens.push(token)?;
        depth = deeper;
        known = end;
        rest = past_blanks_at(by, depth, after);
    }
}
