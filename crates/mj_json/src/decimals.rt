//! Numbers with a fraction or an exponent in JSON text.
ghost use Rattle.std.specs.Prelude.{◌&&◌, ◌+◌, ◌≡◌, ◌≤◌, drop, false, length, true};
ghost use Rattle.std.specs.Bool.{OnFalse};
ghost use Rattle.std.specs.Char.{is_ascii_digit};
ghost use Rattle.std.specs.Simd.Lanes.{chunk, mask_l, zip2};
ghost use Rattle.mj_json.specs.Json as spec;

use std::simd::prelude::*;

/// Whether the text contains a number with a fraction or an exponent, even under a key that is
/// repeated later.
pub(crate) fn has_decimal(bytes: &[u8]) -> bool
    ensures { result ≡ spec.has_decimal bytes.now }
{
    if !may_have_decimal(bytes) {
        return false;
    }
    let mut place = 0;
    while place < bytes.len() {
        match bytes[place] {
            b'"' => place = after_string(bytes, place + 1),
            b'0'..=b'9' => {
                place = after_digits(bytes, place + 1);
                if place < bytes.len() && begins_decimal(bytes[place]) {
                    return true;
                }
            }
            _ => place += 1,
        }
    }
    false
}

/// Whether the text may contain such a number. It doesn't if no digit is directly before a `.`, an
/// `e` or an `E`. Texts of less than 33 bytes aren't examined. The last block ends with the text,
/// so it may overlap the one before it.
fn may_have_decimal(bytes: &[u8]) -> bool
    ensures { OnFalse result (spec.has_decimal bytes.now ≡ false) }
{
    if bytes.len() < 33 {
        return true;
    }
    let last = bytes.len() - 33;
    let mut at = 0;
    while at < last {
        if decimal_lanes(bytes, at) != 0 {
            return true;
        }
        at += 32;
    }
    decimal_lanes(bytes, last) != 0
}

/// A bit for each of the 32 bytes from `at` on: whether it is a digit and the next byte begins a
/// fraction or an exponent.
#[inline(always)]
fn decimal_lanes(bytes: &[u8], at: usize) -> u64
    requires { at + 33 ≤ length bytes.now }
    ensures { result ≡ mask_l (zip2 (λ x y. is_ascii_digit x && spec.begins_decimal y)
        (chunk at 32 bytes.now) (chunk (at + 1) 32 bytes.now)) }
{
    let byte = u8x32::from_slice(&bytes[at..]);
    let next = u8x32::from_slice(&bytes[at + 1..]);
    let digit = (byte - u8x32::splat(b'0')).simd_lt(u8x32::splat(10));
    let point = next.simd_eq(u8x32::splat(b'.'));
    let exponent = (next | u8x32::splat(0x20)).simd_eq(u8x32::splat(b'e'));
    (digit & (point | exponent)).to_bitmask()
}

/// Whether the byte, after a digit, begins a fraction or an exponent.
#[inline(always)]
fn begins_decimal(byte: u8) -> bool
    ensures { result ≡ spec.begins_decimal byte }
{
    byte == b'.' || byte == b'e' || byte == b'E'
}

/// The place after the digits from `start` on.
#[inline(always)]
fn after_digits(bytes: &[u8], start: usize) -> usize
    ensures value { spec.decimal_outside true (drop result bytes.now)
        ≡ spec.decimal_outside true (drop start bytes.now) }
    ensures forward { start ≤ result }
{
    let mut place = start;
    while place < bytes.len() && bytes[place].is_ascii_digit() {
        place += 1;
    }
    place
}

/// The place after a string whose content begins at `start`.
#[inline(always)]
fn after_string(bytes: &[u8], start: usize) -> usize
    ensures value { spec.decimal_outside false (drop result bytes.now)
        ≡ spec.decimal_inside false (drop start bytes.now) }
    ensures forward { start ≤ result }
{
    let mut place = start;
    while place < bytes.len() {
        match bytes[place] {
            b'"' => return place + 1,
            b'\\' => place += 2,
            _ => place += 1,
        }
    }
    place
}
