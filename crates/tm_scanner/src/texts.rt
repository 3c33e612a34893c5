//! String literals.
ghost use Rattle.std.specs.Prelude.{◌≡◌, ◌<◌, ◌≤◌, ℕ, List, length, IfOk, IfErr, IfSome};
ghost use Rattle.tm_scanner.specs.Refuses.{Refuses};
ghost use Rattle.tm_scanner.specs.Texts as spec;
ghost use Rattle.tm_delimiters.specs.Views.{Shortens, step_of, place_of};

use memchr::memchr2;
use std::alloc::Global;
use tm_delimiters::front::{ascii, strip};
use tm_values::{Error, ErrorKind, Value};

/// The quote that begins and ends a string literal.
#[derive(Clone, Copy)]
pub(crate) enum Quote {
    Double,
    Single,
}

impl Quote {
    /// Its byte.
    fn byte(self) -> u8
        ensures value { result ≡ spec.byte_of self }
        ensures ascii { result < 128 }
    {
        match self {
            Quote::Double => b'"',
            Quote::Single => b'\'',
        }
    }
}

/// The quote at the start, and the rest after it.
pub(crate) fn quote_at(text: &str) -> Option<(Quote, &str)>
    ensures value { step_of result ≡ spec.quote_at text.now }
    ensures shorter { Shortens result text.now }
{
    let (byte, rest) = ascii(text)?;
    match byte {
        b'"' => Some((Quote::Double, rest)),
        b'\'' => Some((Quote::Single, rest)),
        _ => None,
    }
}

/// The text before the next quote or backslash, and the rest from there on.
fn run(quote: Quote, text: &str) -> (&str, &str)
    ensures value { (result.0.now, result.1.now) ≡ spec.run quote text.now }
    ensures no_longer { length result.1.now ≤ length text.now }
{
    match memchr2(quote.byte(), b'\\', text.as_bytes()) {
        Some(place) => text.split_at(place),
        None => (text, ""),
    }
}

/// The rest after the quote, if the text begins with it.
fn past_quote(quote: Quote, text: &str) -> Option<&str>
    ensures value { place_of result ≡ spec.past_quote quote text.now }
    ensures shorter { IfSome result (λ rest. length rest.now < length text.now) }
{
    match quote {
        Quote::Double => strip(text, "\""),
        Quote::Single => strip(text, "'"),
    }
}

/// A hexadecimal digit, and the rest after it.
fn hex_digit(text: &str) -> Option<(u32, &str)>
    ensures value { step_of result ≡ spec.hex_digit text.now }
    ensures small { IfSome result (λ x. x.0 < 16) }
    ensures shorter { Shortens result text.now }
{
    let (byte, rest) = ascii(text)?;
    Some((char::from(byte).to_digit(16)?, rest))
}

/// The code of four hexadecimal digits, and the rest after them.
fn hex(text: &str) -> Option<(u32, &str)>
    ensures value { step_of result ≡ spec.hex text.now }
    ensures small { IfSome result (λ x. x.0 < 65536) }
    ensures shorter { Shortens result text.now }
{
    let (a, text) = hex_digit(text)?;
    let (b, text) = hex_digit(text)?;
    let (c, text) = hex_digit(text)?;
    let (d, text) = hex_digit(text)?;
    Some((4096 * a + 256 * b + 16 * c + d, text))
}

/// The second half of a surrogate pair, and the rest after it.
fn low_surrogate(text: &str) -> Option<(u32, &str)>
    ensures value { step_of result ≡ spec.low_surrogate text.now }
    ensures small { IfSome result (λ x. x.0 < 1024) }
    ensures shorter { Shortens result text.now }
{
    let (code, rest) = hex(strip(text, "\\u")?)?;
    if (0xDC00..0xE000).contains(&code) {
        Some((code - 0xDC00, rest))
    } else {
        None
    }
}

/// The character of a code, or of two codes that are a surrogate pair, and the rest after it.
fn unicode(text: &str) -> Option<(char, &str)>
    ensures value { step_of result ≡ spec.unicode text.now }
    ensures shorter { Shortens result text.now }
{
    let (code, rest) = hex(text)?;
    if (0xD800..0xDC00).contains(&code) {
        let (low, rest) = low_surrogate(rest)?;
        let character = char::from_u32(0x10000 + 1024 * (code - 0xD800) + low)?;
        Some((character, rest))
    } else {
        Some((char::from_u32(code)?, rest))
    }
}

/// The character of a byte after a backslash.
fn letter(byte: u8) -> Option<char>
    ensures { result ≡ spec.letter byte }
{
    match byte {
        b'\\' => Some('\\'),
        b'"' => Some('"'),
        b'\'' => Some('\''),
        b'/' => Some('/'),
        b'b' => Some('\u{8}'),
        b'f' => Some('\u{c}'),
        b'n' => Some('\n'),
        b'r' => Some('\r'),
        b't' => Some('\t'),
        _ => None,
    }
}

/// The character of an escape sequence, and the rest after it.
fn escape(text: &str) -> Option<(char, &str)>
    ensures value { step_of result ≡ spec.escape text.now }
    ensures shorter { Shortens result text.now }
{
    let (byte, rest) = ascii(strip(text, "\\")?)?;
    if byte == b'u' {
        unicode(rest)
    } else {
        Some((letter(byte)?, rest))
    }
}

/// The string literal after its opening quote, and the rest after its closing quote.
///
/// SyntaxError if an escape sequence is invalid, or there is no closing quote. OutOfMemory if
/// memory runs out.
pub(crate) fn literal(alloc: Global, quote: Quote, text: &str) -> Result<(Value, &str), Error>
    ensures found { IfOk result (λ x. spec.IsLiteral quote text.now x.0 x.1.now) }
    ensures shorter { IfOk result (λ x. length x.1.now < length text.now) }
    ensures refused { Refuses result (spec.IsLiteral quote text.now) }
{
    let (front, mut rest) = run(quote, text);
    if let Some(after) = past_quote(quote, rest) {
        return Ok((Value::text(alloc, front)?, after));
    }
    let mut content = String::from_str(alloc, front)?;
    while let Some((character, after)) = escape(rest) {
        let (more, after) = run(quote, after);
        content.push(character)?;
        content.push_str(more)?;
        rest = after;
    }
    match past_quote(quote, rest) {
        Some(after) => { Ok((Value::text(alloc, &content)?, after)) }
        None => Err(Error::from(ErrorKind::SyntaxError)),
    }
}
