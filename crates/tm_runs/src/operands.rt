//! Operands that the machine itself makes and reads: counts of operands, closures, and names of
//! arguments.
ghost use Rattle.std.specs.Prelude.{◌≡◌, ◌<◌, ℕ, pos, Some, IfSome, IfNone, Option};
ghost use Rattle.tm_meaning.specs.Instructions.{closure_in, closure_value, count_in, names_in, texts_in};
ghost use Rattle.tm_runs.specs.Runs.{AreTexts};
ghost use Rattle.tm_values.specs.Answer.{OkOrOutOfMemory};

use std::alloc::Global;
use std::rc::RcStr;
use tm_values::{Error, ErrorKind, Node, Value};

/// The count that `value` is, if it is a whole number from 0 to `most`.
pub(crate) fn counted(value: &Value, most: usize) -> Option<usize>
    ensures some { IfSome result (λ n. count_in value.now ≡ Some n) }
    ensures none { IfNone result ((n : ℕ) → count_in value.now ≡ Some n → most < n) }
{
    match &value.node {
        Node::Number(whole) => counted_whole(*whole, most),
        _ => None,
    }
}

/// The count that `whole` is, if it is from 0 to `most`.
fn counted_whole(whole: i128, most: usize) -> Option<usize>
    ensures some { IfSome result (λ n. whole ≡ pos n) }
    ensures none { IfNone result ((n : ℕ) → whole ≡ pos n → most < n) }
{
    match usize::try_from(whole) {
        Ok(count) if count <= most => Some(count),
        _ => None,
    }
}

/// A closure as an operand: its number, or none.
pub fn closure_operand(closure: Option<usize>) -> Value
    ensures { result ≡ closure_value closure }
{
    match closure {
        Some(number) => Value::number(number as i128),
        None => Value::none(),
    }
}

/// The closure that an operand means, if it is one. OutOfMemory for a number greater than
/// `usize::MAX`.
pub fn closure_number(value: &Value) -> Result<Option<Option<usize>>, Error>
    ensures { OkOrOutOfMemory result (λ found. found ≡ closure_in value.now) }
{
    match &value.node {
        Node::None => Ok(Some(None)),
        Node::Number(whole) if *whole >= 0 => match usize::try_from(*whole) {
            Ok(number) => Ok(Some(Some(number))),
            Err(_) => Err(Error::from(ErrorKind::OutOfMemory)),
        },
        _ => Ok(None),
    }
}

/// The texts of a list, if the value is a list of texts. Fails only with OutOfMemory.
pub fn argument_names(alloc: Global, value: &Value) -> Result<Option<Vec<RcStr>>, Error>
    ensures { OkOrOutOfMemory result (λ found. AreTexts found (names_in value.now)) }
{
    match value.as_list() {
        Some(items) => texts_of(alloc, items),
        None => Ok(None),
    }
}

/// The texts in `values`, if all are texts. Fails only with OutOfMemory.
fn texts_of(alloc: Global, values: &[Value]) -> Result<Option<Vec<RcStr>>, Error>
    ensures { OkOrOutOfMemory result (λ found. AreTexts found (texts_in values.now)) }
{
    let mut texts = Vec::with_capacity(alloc, values.len())?;
    for value in values {
        let Some(text) = value.as_str() else {
            return Ok(None);
        };
        texts.push(RcStr::from_str(alloc, text)?)?;
    }
    Ok(Some(texts))
}
