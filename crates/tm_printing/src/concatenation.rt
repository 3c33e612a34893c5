//! Concatenation of printed texts.
ghost use Rattle.std.specs.Prelude.{◌≡◌, ◌++◌, ◌∷◌, [], OnOk, IfErr, MatchResult};
ghost use Rattle.tm_definitions.specs.Concatenation.{joined, concatenated};
ghost use Rattle.tm_definitions.specs.Printed.{printed};
ghost use Rattle.tm_values.specs.Answer.{IsAnswer};

use crate::check::check_print;
use crate::printing::print;
use std::alloc::Global;
use tm_output::BoundedText;
use tm_values::{
    Error, ErrorKind, Records, SharedText, UndefinedBehavior, UndefinedUse, Value, check_defined,
};

/// `left ~ right`: the printed texts of both, concatenated, not marked safe. UndefinedError if a
/// side is undefined and the behaviour refuses that. InvalidOperation if a side can't be printed.
/// OutOfMemory if memory runs out.
pub fn concatenate<R: Records>(
    alloc: Global,
    left: &Value,
    right: &Value,
    records: &R,
    behavior: UndefinedBehavior,
) -> Result<Value, Error>
    ensures { IsAnswer result (concatenated behavior (R.records records.now) left.now right.now) }
{
    concatenate_to(alloc, left.share()?, right, usize::MAX, records, behavior)
}

/// The same, but takes the left value: a text that has no other owner is appended to in place.
/// OutOfMemory also if the text would be longer than `most` bytes; no more of it is printed.
pub fn concatenate_to<R: Records>(
    alloc: Global,
    left: Value,
    right: &Value,
    most: usize,
    records: &R,
    behavior: UndefinedBehavior,
) -> Result<Value, Error>
    ensures { IsAnswer result (concatenated behavior (R.records records.now) left right.now) }
{
    check_defined(&left, behavior, UndefinedUse::Comparison)?;
    check_defined(right, behavior, UndefinedUse::Comparison)?;
    join(alloc, left, right, most, records)
}

fn join<R: Records>(
    alloc: Global,
    left: Value,
    right: &Value,
    most: usize,
    records: &R,
) -> Result<Value, Error>
    ensures { IsAnswer result (joined (R.records records.now) left right.now) }
{
    check_print(alloc, &left, records)?;
    check_print(alloc, right, records)?;
    let mut text = into_printed(alloc, left, most, records)?;
    print_after(alloc, right, records, &mut text)?;
    Ok(Value::shared_text(text.into_text(), false))
}

// The printed text of the value; a text is its own.
fn into_printed<R: Records>(
    alloc: Global,
    value: Value,
    most: usize,
    records: &R,
) -> Result<BoundedText, Error>
    ensures { MatchResult result (λ text. text ≡ printed (R.records records.now) value)
        (λ e. e ≡ ErrorKind.OutOfMemory ∷ []) }
{
    match value.into_text() {
        Ok((content, _safe)) => Ok(BoundedText::new(content, most)?),
        Err(value) => {
            let empty = SharedText::from_string(String::new(alloc))?;
            let mut text = BoundedText::new(empty, most)?;
            print_after(alloc, &value, records, &mut text)?;
            Ok(text)
        }
    }
}

// Appends the printed text.
fn print_after<R: Records>(
    alloc: Global,
    value: &Value,
    records: &R,
    text: &mut BoundedText,
) -> Result<(), Error>
    ensures { MatchResult result
        (λ _. text.new ≡ text.old ++ printed (R.records records.now) value.now)
        (λ e. e ≡ ErrorKind.OutOfMemory ∷ []) }
{
    match print(alloc, value, records, text) {
        Ok(()) => Ok(()),
        Err(_) => Err(Error::from(ErrorKind::OutOfMemory)),
    }
}
