//! Texts by their characters.
ghost use Rattle.std.specs.Prelude.{◌≡◌, ◌≢◌, pos, ◌<◌, ◌≤◌, length, take, drop, IfSome, IfNone, IfOk, All};
ghost use Rattle.std.specs.Str.{chars, IsAscii};
ghost use Rattle.std.specs.String.{string_bytes};
ghost use Rattle.tm_primitives.specs.Characters.{starts_character, IsCharacterAt, picked, sliced};

use crate::places::Places;
use std::alloc::{AllocError, Global};

/// How many characters the text has.
pub fn count(text: &str) -> usize
    ensures { result ≡ length (chars text.now) }
{
    if text.is_ascii() {
        return text.len();
    }
    let mut count = 0;
    for byte in text.as_bytes() {
        count += starts_character(*byte) as usize;
    }
    count
}

fn starts_character(byte: u8) -> bool
    ensures { result ≡ starts_character byte }
{
    byte < 128 || byte >= 192
}

/// The text from its character at `place` on; nothing where it has no more characters.
pub fn skip(text: &str, place: usize) -> &str
    ensures { chars result.now ≡ drop place (chars text.now) }
{
    if place <= text.len() && text.as_bytes()[..place].is_ascii() {
        &text[place..]
    } else {
        skip_each(text, place)
    }
}

fn skip_each(text: &str, place: usize) -> &str
    ensures { chars result.now ≡ drop place (chars text.now) }
{
    let mut rest = text.chars();
    let mut left = place;
    while left > 0 && rest.next().is_some() {
        left -= 1;
    }
    rest.as_str()
}

/// The first `count` characters of the text, or all that it has.
pub fn first(text: &str, count: usize) -> &str
    ensures { chars result.now ≡ take count (chars text.now) }
{
    &text[..text.len() - skip(text, count).len()]
}

/// The character at the place, as a piece of the text; none past the end.
pub fn character(text: &str, place: usize) -> Option<&str>
    ensures some { IfSome result (λ piece. IsCharacterAt place text.now piece.now) }
    ensures none { IfNone result (length (chars text.now) ≤ place) }
{
    let rest = skip(text, place);
    let character = rest.chars().next()?;
    Some(&rest[..character.len_utf8()])
}

/// The characters of the text at these places, in their order. Each place must have a character.
/// Fails where no memory is found, and only so.
pub fn pick(alloc: Global, text: &str, places: Places) -> Result<String, AllocError>
    requires inside { All (λ p. p < length (chars text.now)) places }
    ensures { IfOk result (λ s. string_bytes s ≡ picked (chars text.now) places) }
{
    if let Some((start, count)) = places.run() {
        return String::from_str(alloc, first(skip(text, start), count));
    }
    if text.is_ascii() {
        return pick_bytes(alloc, text.as_bytes(), places);
    }
    let table = table_of(alloc, text)?;
    pick_chars(alloc, &table, places)
}

// The characters of the text, for reading at any place.
fn table_of(alloc: Global, text: &str) -> Result<Vec<char>, AllocError>
    ensures { IfOk result (λ table. table.items ≡ chars text.now) }
{
    text.chars().collect(alloc)
}

/// The characters that the slice `start:stop:step` takes of the text; places and bounds are as in
/// `Places::of`. The step is not 0. Fails where no memory is found, and only so.
pub fn slice(
    alloc: Global,
    text: &str,
    start: Option<i128>,
    stop: Option<i128>,
    step: i128,
) -> Result<String, AllocError>
    requires nonzero { step ≢ pos 0 }
    ensures { IfOk result (λ s. string_bytes s ≡ sliced (chars text.now) start stop step) }
{
    pick(alloc, text, Places::of(count(text), start, stop, step))
}

// The characters of a table at these places.
fn pick_chars(alloc: Global, table: &[char], mut places: Places) -> Result<String, AllocError>
    requires inside { All (λ p. p < length table.now) places }
    ensures { IfOk result (λ s. string_bytes s ≡ picked table.now places) }
{
    let mut out = String::with_capacity(alloc, places.len())?;
    while let Some(place) = places.next() {
        out.push(table[place])?;
    }
    Ok(out)
}

// The same of a text of ASCII, whose bytes are its characters.
fn pick_bytes(alloc: Global, text: &[u8], mut places: Places) -> Result<String, AllocError>
    requires ascii { IsAscii text.now }
    requires inside { All (λ p. p < length text.now) places }
    ensures { IfOk result (λ s. string_bytes s ≡ picked text.now places) }
{
    let mut out = String::with_capacity(alloc, places.len())?;
    while let Some(place) = places.next() {
        out.push(text[place] as char)?;
    }
    Ok(out)
}
