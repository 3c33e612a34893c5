//! Whole numbers.
ghost use Rattle.std.specs.Prelude.{◌≡◌, ◌<◌, ◌≤◌, ◌^◌, length, IfSome};
ghost use Rattle.tm_scanner.specs.Numbers as spec;
ghost use Rattle.tm_delimiters.specs.Views.{Shortens, step_of};

use tm_delimiters::front::{ascii, strip};

/// The digit of a base at the start, and the rest after it.
fn digit_at(base: u32, text: &str) -> Option<(u128, &str)>
    requires low { 2 ≤ base }
    requires high { base ≤ 16 }
    ensures value { step_of result ≡ spec.digit base text.now }
    ensures small { IfSome result (λ x. x.0 < 16) }
    ensures shorter { Shortens result text.now }
{
    let (byte, rest) = ascii(text)?;
    let digit = char::from(byte).to_digit(base)?;
    Some((u128::from(digit), rest))
}

/// Whether the text begins with a decimal digit.
pub(crate) fn starts_number(text: &str) -> bool
    ensures { result ≡ spec.starts_number text.now }
{
    digit_at(10, text).is_some()
}

/// The number with one more digit. None if it exceeds the largest number.
fn with_digit(base: u32, number: u128, digit: u128) -> Option<u128>
    ensures value { result ≡ spec.with_digit base number digit }
    ensures small { IfSome result (λ n. n < 2 ^ 127) }
{
    let larger = number.checked_mul(u128::from(base))?.checked_add(digit)?;
    if larger < 170141183460469231731687303715884105728 {
        Some(larger)
    } else {
        None
    }
}

/// The digit at the start, with an optional `_` before it, and the rest after it.
fn next_digit(base: u32, text: &str) -> Option<(u128, &str)>
    requires low { 2 ≤ base }
    requires high { base ≤ 16 }
    ensures value { step_of result ≡ spec.next_digit base text.now }
    ensures shorter { Shortens result text.now }
{
    match digit_at(base, text) {
        Some(digit) => Some(digit),
        None => digit_at(base, strip(text, "_")?),
    }
}

/// The number with the digits at the start, and the rest after them. None if it exceeds the largest
/// number.
fn digits(base: u32, first: u128, text: &str) -> Option<(u128, &str)>
    requires low { 2 ≤ base }
    requires high { base ≤ 16 }
    requires small { first < 2 ^ 127 }
    ensures value { step_of result ≡ spec.digits base first text.now }
    ensures small { IfSome result (λ x. x.0 < 2 ^ 127) }
    ensures no_longer { IfSome result (λ x. length x.1.now ≤ length text.now) }
{
    let mut number = first;
    let mut rest = text;
    while let Some((digit, after)) = next_digit(base, rest) {
        number = with_digit(base, number, digit)?;
        rest = after;
    }
    Some((number, rest))
}

/// The digits after the prefix of a base, if the text begins with it.
fn based<'t>(prefix: &str, base: u32, text: &'t str) -> Option<(u32, &'t str)>
    requires low { 2 ≤ base }
    requires high { base ≤ 16 }
    ensures value { step_of result ≡ spec.based prefix.now base text.now }
    ensures low { IfSome result (λ x. 2 ≤ x.0) }
    ensures high { IfSome result (λ x. x.0 ≤ 16) }
    ensures no_longer { IfSome result (λ x. length x.1.now ≤ length text.now) }
{
    let rest = strip(text, prefix)?;
    let _ = digit_at(base, rest)?;
    Some((base, rest))
}

/// The base of a number, and its digits.
fn base_of(text: &str) -> (u32, &str)
    ensures value { (result.0, result.1.now) ≡ spec.base_of text.now }
    ensures low { 2 ≤ result.0 }
    ensures high { result.0 ≤ 16 }
    ensures no_longer { length result.1.now ≤ length text.now }
{
    if let Some(hexadecimal) = based("0x", 16, text) {
        return hexadecimal;
    }
    if let Some(octal) = based("0o", 8, text) {
        return octal;
    }
    match based("0b", 2, text) {
        Some(binary) => binary,
        None => (10, text),
    }
}

/// Whether the text begins with a point or an `e`, and a digit.
fn starts_fraction(text: &str) -> bool
    ensures { result ≡ spec.starts_fraction text.now }
{
    match ascii(text) {
        Some((byte, rest)) => matches!(byte, b'.' | b'e' | b'E') && starts_number(rest),
        None => false,
    }
}

/// The whole number at the start, and the rest after it. None if it exceeds the largest number.
pub(crate) fn number(text: &str) -> Option<(u128, &str)>
    ensures value { step_of result ≡ spec.number text.now }
    ensures small { IfSome result (λ x. x.0 < 2 ^ 127) }
    ensures shorter { Shortens result text.now }
{
    let (base, text) = base_of(text);
    let (first, rest) = digit_at(base, text)?;
    let (number, rest) = digits(base, first, rest)?;
    if base == 10 && starts_fraction(rest) {
        None
    } else {
        Some((number, rest))
    }
}
