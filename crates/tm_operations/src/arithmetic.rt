//! Arithmetic.
ghost use Rattle.std.specs.Prelude.{◌≡◌, ◌∷◌, [], None, Ok, MatchOption, MatchResult};
ghost use Rattle.tm_definitions.specs.Arithmetic.{both, number_answer, added, subtracted, multiplied, floor_divided, remaining, raised};
ghost use Rattle.tm_definitions.specs.Arithmetic.{negated, divided, text_added};
ghost use Rattle.tm_values.specs.Answer.{IsAnswer};
ghost use Rattle.tm_values.specs.Val.{list, whole_in, text_in, vals_in};

use std::alloc::Global;
use tm_primitives::whole;
use tm_values::{Error, ErrorKind, Node, SharedText, Value};

/// The sum of two numbers, where truth values count as 0 and 1, or the concatenation of two texts
/// or two lists, not marked safe. InvalidOperation for other values and if a sum is out of range.
/// OutOfMemory if memory runs out.
pub fn add(alloc: Global, left: &Value, right: &Value) -> Result<Value, Error>
    ensures { IsAnswer result (added left.now right.now) }
{
    add_to(alloc, left.share()?, right)
}

/// The same, but takes the left value: a text or a list that has no other owner is appended to in
/// place.
pub fn add_to(alloc: Global, left: Value, right: &Value) -> Result<Value, Error>
    ensures { IsAnswer result (added left right.now) }
{
    match left.into_text() {
        Ok((content, _safe)) => add_text(alloc, content, right),
        Err(left) => add_others(alloc, left, right),
    }
}

// The sum, if the left value isn't a text.
fn add_others(alloc: Global, left: Value, right: &Value) -> Result<Value, Error>
    requires { text_in left ≡ None }
    ensures { IsAnswer result (added left right.now) }
{
    if let Node::List(_, _) = &left.node {
        return add_list(alloc, left, right);
    }
    match whole_operands(&left, right) {
        Some((a, b)) => number_or_invalid(alloc, whole::add(a, b)),
        None => Err(not_numbers(alloc)),
    }
}

/// The sum of two texts or two lists, in place if the left one has no other owner. Returns the left
/// value as it was if memory runs out, and for other values.
pub fn grow(alloc: Global, left: Value, right: &Value) -> Result<Value, Value>
    ensures { MatchResult result (λ sum. added left right.now ≡ Ok sum) (λ same. same ≡ left) }
{
    if let (Some(_), Some(more)) = (left.as_list(), right.as_list()) {
        return left.extended(alloc, more);
    }
    let Some(after) = right.as_str() else {
        return Err(left);
    };
    let (mut content, safe) = left.into_text()?;
    match content.append(after) {
        Ok(()) => Ok(Value::shared_text(content, false)),
        Err(_) => Err(Value::shared_text(content, safe)),
    }
}

/// The difference of two numbers. InvalidOperation for other values and if the result is out of
/// range. OutOfMemory if memory runs out.
pub fn subtract(alloc: Global, left: &Value, right: &Value) -> Result<Value, Error>
    ensures { IsAnswer result (subtracted left.now right.now) }
{
    match whole_operands(left, right) {
        Some((a, b)) => number_or_invalid(alloc, whole::subtract(a, b)),
        None => Err(not_numbers(alloc)),
    }
}

/// The product of two numbers. InvalidOperation for other values and if the result is out of range.
/// OutOfMemory if memory runs out.
pub fn multiply(alloc: Global, left: &Value, right: &Value) -> Result<Value, Error>
    ensures { IsAnswer result (multiplied left.now right.now) }
{
    match whole_operands(left, right) {
        Some((a, b)) => number_or_invalid(alloc, whole::multiply(a, b)),
        None => Err(not_numbers(alloc)),
    }
}

/// The quotient `//` of two numbers, rounded so that the remainder isn't negative. InvalidOperation
/// for other values, for a zero divisor and if the result is out of range. OutOfMemory if memory
/// runs out.
pub fn floor_divide(alloc: Global, left: &Value, right: &Value) -> Result<Value, Error>
    ensures { IsAnswer result (floor_divided left.now right.now) }
{
    match whole_operands(left, right) {
        Some((a, b)) => number_or_invalid(alloc, whole::divide(a, b)),
        None => Err(not_numbers(alloc)),
    }
}

/// The remainder `%` of two numbers, which is never negative. InvalidOperation for other values and
/// for a zero divisor. OutOfMemory if memory runs out.
pub fn remainder(alloc: Global, left: &Value, right: &Value) -> Result<Value, Error>
    ensures { IsAnswer result (remaining left.now right.now) }
{
    match whole_operands(left, right) {
        Some((a, b)) => number_or_invalid(alloc, whole::remainder(a, b)),
        None => Err(not_numbers(alloc)),
    }
}

/// A number raised to the power of another. InvalidOperation for other values, for a negative
/// exponent and if the result is out of range. OutOfMemory if memory runs out.
pub fn power(alloc: Global, left: &Value, right: &Value) -> Result<Value, Error>
    ensures { IsAnswer result (raised left.now right.now) }
{
    match whole_operands(left, right) {
        Some((a, b)) => number_or_invalid(alloc, whole::power(a, b)),
        None => Err(not_numbers(alloc)),
    }
}

/// The negated number. InvalidOperation for other values and for the least number. OutOfMemory if
/// memory runs out.
pub fn negate(alloc: Global, value: &Value) -> Result<Value, Error>
    ensures { IsAnswer result (negated value.now) }
{
    match value.as_i128() {
        Some(whole) => number_or_invalid(alloc, whole::negate(whole)),
        None => Err(not_numbers(alloc)),
    }
}

/// `/` always fails, since there are no fractions: InvalidOperation, or OutOfMemory if memory runs
/// out.
pub fn divide(alloc: Global, _left: &Value, _right: &Value) -> Result<Value, Error>
    ensures { IsAnswer result (divided _left.now _right.now) }
{
    Err(no_fractions(alloc))
}

#[cold]
#[inline(never)]
fn no_fractions(alloc: Global) -> Error
    ensures { result ≡ ErrorKind.InvalidOperation ∷ [] }
{
    Error::new(
        alloc,
        ErrorKind::InvalidOperation,
        "there are no fractions; // gives the whole quotient",
    )
}

// The two numbers, if both values are numbers.
fn whole_operands(left: &Value, right: &Value) -> Option<(i128, i128)>
    ensures { result ≡ both (whole_in left.now) (whole_in right.now) }
{
    match (left.as_i128(), right.as_i128()) {
        (Some(a), Some(b)) => Some((a, b)),
        _ => None,
    }
}

fn number_or_invalid(alloc: Global, whole: Option<i128>) -> Result<Value, Error>
    ensures { IsAnswer result (number_answer whole) }
{
    match whole {
        Some(whole) => Ok(Value::number(whole)),
        None => Err(Error::new(
            alloc,
            ErrorKind::InvalidOperation,
            "the result is out of range, or there is none",
        )),
    }
}

#[cold]
#[inline(never)]
fn not_numbers(alloc: Global) -> Error
    ensures { result ≡ ErrorKind.InvalidOperation ∷ [] }
{
    Error::new(
        alloc,
        ErrorKind::InvalidOperation,
        "arithmetic needs two numbers; + also takes two texts or two lists",
    )
}

fn add_text(alloc: Global, mut content: SharedText, right: &Value) -> Result<Value, Error>
    ensures { IsAnswer result (text_added content (text_in right.now)) }
{
    let Some(after) = right.as_str() else {
        return Err(not_numbers(alloc));
    };
    content.append(after)?;
    Ok(Value::shared_text(content, false))
}

// The sum, if the left value is a list.
fn add_list(alloc: Global, left: Value, right: &Value) -> Result<Value, Error>
    requires { left ≡ list (vals_in left) }
    ensures { IsAnswer result (added left right.now) }
{
    let Some(more) = right.as_list() else {
        return Err(not_numbers(alloc));
    };
    match left.extended(alloc, more) {
        Ok(sum) => Ok(sum),
        Err(_) => Err(Error::from(ErrorKind::OutOfMemory)),
    }
}
