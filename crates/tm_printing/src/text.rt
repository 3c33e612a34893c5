//! Writes texts and numbers to any target.
ghost use Rattle.std.specs.Prelude.{flat_map};
ghost use Rattle.std.specs.Fmt.{signed_decimal};
ghost use Rattle.json.specs.Print as json;
ghost use Rattle.tm_output.specs.Targets.{Takes};
ghost use Rattle.tm_definitions.specs.Texts.{quoted};

use crate::spelling::{Escape, Json, Spelling};
use tm_output::{Target, TargetFailed};

/// Writes the spelling of each byte of the text. Runs of bytes that are spelled as themselves are
/// written whole. TargetFailed if the target fails.
pub fn write_spelled<S: Spelling, T: Target>(text: &str, target: &mut T) -> Result<(), TargetFailed>
    ensures { Takes T.took T.stopped result target.old (flat_map S.spelled text.now) target.new }
{
    let mut start = 0;
    for (i, byte) in text.as_bytes().iter().enumerate() {
        if let Some(spelling) = S::spelling(*byte) {
            target.take_text(&text[start..i])?;
            target.take_text(spelling)?;
            start = i + 1;
        }
    }
    target.take_text(&text[start..])
}

/// Writes the text in quotes, escaped as a whole. TargetFailed if the target fails.
pub fn write_quoted<E: Escape, T: Target>(text: &str, target: &mut T) -> Result<(), TargetFailed>
    ensures { Takes T.took T.stopped result target.old
        (flat_map E.spelled (quoted text.now)) target.new }
{
    write_spelled::<E, T>("\"", target)?;
    write_spelled::<E::Within, T>(text, target)?;
    write_spelled::<E, T>("\"", target)
}

/// Writes the text as a JSON string, as `serde_json` does. TargetFailed if the target fails.
pub fn write_json_text<T: Target>(text: &str, target: &mut T) -> Result<(), TargetFailed>
    ensures { Takes T.took T.stopped result target.old (json.quoted text.now) target.new }
{
    target.take_text("\"")?;
    write_spelled::<Json, T>(text, target)?;
    target.take_text("\"")
}

/// Writes the number in decimal, escaped: no escape changes it. TargetFailed if the target fails.
pub fn write_number<E: Escape, T: Target>(number: i128, target: &mut T) -> Result<(), TargetFailed>
    ensures { Takes T.took T.stopped result target.old
        (flat_map E.spelled (signed_decimal number)) target.new }
{
    let mut buffer = itoa::Buffer::new();
    target.take_text(buffer.format(number))
}
