//! Looking at the start of a text.
ghost use Rattle.std.specs.Prelude.{◌≡◌, ◌+◌, ◌<◌, ◌≤◌, length, IfSome, is_some};
ghost use Rattle.tm_delimiters.specs.Front as spec;
ghost use Rattle.tm_delimiters.specs.Views.{IsFirst, Shortens, cut_of, place_of, step_of};

/// Whether the bytes begin with a word. The last byte of the word is compared first, since that is
/// where delimiters differ.
#[inline(always)]
fn is_front(bytes: &[u8], word: &[u8]) -> bool
    ensures { result ≡ is_some (spec.after word.now bytes.now) }
{
    if bytes.len() < word.len() {
        return false;
    }
    let mut place = word.len();
    while place > 0 {
        place -= 1;
        if bytes[place] != word[place] {
            return false;
        }
    }
    true
}

/// The rest after the word, if the text begins with it.
#[inline(always)]
pub fn strip<'t>(text: &'t str, word: &str) -> Option<&'t str>
    ensures value { place_of result ≡ spec.after word.now text.now }
    ensures len { IfSome result (λ rest. length word.now + length rest.now ≡ length text.now) }
{
    if is_front(text.as_bytes(), word.as_bytes()) {
        Some(&text[word.len()..])
    } else {
        None
    }
}

/// The text before the first occurrence of the word, and the rest after it.
pub(crate) fn cut<'t>(text: &'t str, word: &str) -> Option<(&'t str, &'t str)>
    ensures value { cut_of result ≡ spec.first_of (spec.after word.now) text.now }
    ensures no_longer { IfSome result (λ x. length x.1.now ≤ length text.now) }
{
    text.split_once(word)
}

/// The first byte, if it is ASCII, and the rest after it.
#[inline(always)]
pub fn ascii(text: &str) -> Option<(u8, &str)>
    ensures value { step_of result ≡ spec.ascii text.now }
    ensures shorter { Shortens result text.now }
{
    let bytes = text.as_bytes();
    if bytes.is_empty() {
        return None;
    }
    let byte = bytes[0];
    if byte < 128 {
        Some((byte, &text[1..]))
    } else {
        None
    }
}

/// The first character, and the rest after it.
#[inline(always)]
pub fn first(text: &str) -> Option<(char, &str)>
    ensures value { IsFirst result text.now }
    ensures shorter { Shortens result text.now }
{
    if let Some((byte, rest)) = ascii(text) {
        return Some((char::from(byte), rest));
    }
    decoded(text)
}

/// The first character, decoded, and the rest after it.
fn decoded(text: &str) -> Option<(char, &str)>
    ensures value { IsFirst result text.now }
    ensures shorter { Shortens result text.now }
{
    match text.chars().next() {
        Some(c) => Some((c, &text[c.len_utf8()..])),
        None => None,
    }
}

/// Whether the byte is a blank.
#[inline(always)]
pub(crate) fn is_blank(byte: u8) -> bool
    ensures { result ≡ spec.is_blank byte }
{
    matches!(byte, b' ' | b'\t' | b'\n' | b'\r' | b'\x0c')
}

/// The rest after the blanks at the start.
pub fn past_blanks(text: &str) -> &str
    ensures value { result.now ≡ spec.past_blanks text.now }
    ensures no_longer { length result.now ≤ length text.now }
{
    let mut rest = text;
    while let Some((byte, after)) = ascii(rest) {
        if !is_blank(byte) {
            break;
        }
        rest = after;
    }
    rest
}
