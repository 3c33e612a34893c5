//! Writes texts as HTML. Long ones are searched sixteen bytes at a time.
ghost use Rattle.std.specs.Prelude.{◌≡◌, ◌+◌, ◌≤◌, length, map, flat_map};
ghost use Rattle.std.specs.Simd.Lanes.{mask_l};
ghost use Rattle.tm_definitions.specs.Texts.{in_html};
ghost use Rattle.tm_output.specs.Targets.{Takes};
ghost use Rattle.tm_printing.specs.Plain.{is_special, PlainBetween};

use crate::spelling::{Html, Spelling};
use crate::text::write_spelled;
use std::simd::prelude::*;
use tm_output::{Target, TargetFailed};

/// The number of bytes that are looked at together.
const LANES: usize = 16;

/// Writes the text, escaped for HTML. TargetFailed if the target fails.
#[inline(always)]
pub fn write_html_text<T: Target>(text: &str, target: &mut T) -> Result<(), TargetFailed>
    ensures { Takes T.took T.stopped result target.old (flat_map in_html text.now) target.new }
{
    if text.len() < LANES {
        write_spelled::<Html, T>(text, target)
    } else {
        write_long_text::<T>(text, target)
    }
}

/// Writes the text, escaped for HTML. TargetFailed if the target fails. A search for the next escape
/// passes over many bytes at once, but costs more than a look at one. As escapes often stand close
/// together, it begins only after the first byte of a run.
#[inline(never)]
fn write_long_text<T: Target>(text: &str, target: &mut T) -> Result<(), TargetFailed>
    ensures { Takes T.took T.stopped result target.old (flat_map in_html text.now) target.new }
{
    let bytes = text.as_bytes();
    let mut start = 0;
    let mut place = 0;
    while place < bytes.len() {
        match Html::spelling(bytes[place]) {
            Some(spelling) => {
                target.take_text(&text[start..place])?;
                target.take_text(spelling)?;
                place += 1;
                start = place;
            }
            None if place == start => place += 1,
            None => place = past_plain(bytes, place + 1),
        }
    }
    target.take_text(&text[start..])
}

/// A place from `from` on. All bytes before it, from there on, are spelled as themselves.
#[inline(always)]
fn past_plain(bytes: &[u8], from: usize) -> usize
    requires { from ≤ length bytes.now }
    ensures ahead { from ≤ result }
    ensures within { result ≤ length bytes.now }
    ensures plain { PlainBetween in_html bytes.now from result }
{
    let mut place = from;
    while bytes.len() - place >= LANES {
        let run = plain_run(bytes, place);
        place += run;
        if run < LANES {
            return place;
        }
    }
    place
}

/// How many of the bytes from `at` on, up to `LANES`, come before the first one that is spelled
/// another way.
#[inline(always)]
fn plain_run(bytes: &[u8], at: usize) -> usize
    requires { at + LANES ≤ length bytes.now }
    ensures short { result ≤ LANES }
    ensures plain { PlainBetween in_html bytes.now at (at + result) }
{
    let marks = special_lanes(u8x16::from_slice(&bytes[at..]));
    if marks == 0 {
        LANES
    } else {
        marks.trailing_zeros() as usize
    }
}

/// A bit for each lane, the lowest for the first: whether HTML spells its byte another way.
#[inline(always)]
fn special_lanes(lanes: u8x16) -> u64
    ensures { result ≡ mask_l (map is_special lanes) }
{
    let special = lanes.simd_eq(u8x16::splat(b'<'))
        | lanes.simd_eq(u8x16::splat(b'>'))
        | lanes.simd_eq(u8x16::splat(b'&'))
        | lanes.simd_eq(u8x16::splat(b'"'))
        | lanes.simd_eq(u8x16::splat(b'\''))
        | lanes.simd_eq(u8x16::splat(b'/'));
    special.to_bitmask()
}
