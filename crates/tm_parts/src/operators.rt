//! The operators.
ghost use Rattle.std.specs.Prelude.{◌≡◌, IfErr, IfOk, IfSome, [], ◌∷◌};
ghost use Rattle.tm_parts.specs.Operate.{Calculates};
ghost use Rattle.tm_values.specs.Val.{boolean, number};
ghost use Rattle.tm_meaning.specs.Instructions as instructions;
ghost use Rattle.tm_meaning.specs.Operators.{result_of, result_of_unary};
ghost use Rattle.tm_values.specs.Answer.{IsAnswer};
ghost use Rattle.tm_values.specs.declared.error.ErrorKind.TheVariants.{OutOfMemory};

use std::alloc::Global;
use tm_operations::{
    ComparisonOperator, add_to, compare, contains, divide, floor_divide, multiply, negate, power,
    remainder, subtract, truth,
};
use tm_primitives::whole;
use tm_printing::concatenate_to;
use tm_syntax::{BinaryOperator, UnaryOperator};
use tm_values::{Error, Node, Records, UndefinedBehavior, Value, longest_text};

/// The result of a prefix operator, or its error.
pub fn unary(
    alloc: Global,
    operator: UnaryOperator,
    value: &Value,
    undefined: UndefinedBehavior,
) -> Result<Value, Error>
    ensures { IsAnswer result (result_of_unary operator undefined value.now) }
{
    match operator {
        UnaryOperator::Not => Ok(Value::boolean(!truth(value, undefined)?)),
        UnaryOperator::Negate => negate(alloc, value),
    }
}

/// The result of a binary operator, or its error. Takes the left value. OutOfMemory also if the
/// value of a concatenated text would be larger than `most`.
pub fn binary<R: Records>(
    alloc: Global,
    operator: BinaryOperator,
    left: Value,
    right: &Value,
    most: usize,
    records: &R,
    undefined: UndefinedBehavior,
) -> Result<Value, Error>
    ensures { IsAnswer result
        (result_of operator undefined (R.records records.now) left right.now) }
{
    let comparison = match operator {
        BinaryOperator::Equal => ComparisonOperator::Equal,
        BinaryOperator::NotEqual => ComparisonOperator::NotEqual,
        BinaryOperator::Less => ComparisonOperator::Less,
        BinaryOperator::LessOrEqual => ComparisonOperator::LessOrEqual,
        BinaryOperator::Greater => ComparisonOperator::Greater,
        BinaryOperator::GreaterOrEqual => ComparisonOperator::GreaterOrEqual,
        BinaryOperator::In => {
            return Ok(Value::boolean(contains(alloc, right, &left, records, undefined)?));
        }
        BinaryOperator::NotIn => {
            return Ok(Value::boolean(!contains(alloc, right, &left, records, undefined)?));
        }
        BinaryOperator::Add => return add_to(alloc, left, right),
        BinaryOperator::Subtract => return subtract(alloc, &left, right),
        BinaryOperator::Concatenate => return concatenate_to(
            alloc,
            left,
            right,
            longest_text(most),
            records,
            undefined,
        ),
        BinaryOperator::Multiply => return multiply(alloc, &left, right),
        BinaryOperator::Divide => return divide(alloc, &left, right),
        BinaryOperator::FloorDivide => return floor_divide(alloc, &left, right),
        BinaryOperator::Remainder => return remainder(alloc, &left, right),
        BinaryOperator::Power => return power(alloc, &left, right),
    };
    Ok(Value::boolean(compare(comparison, &left, right, undefined)?))
}

/// The result of an operator on two numbers, if it depends on nothing else.
#[inline(always)]
pub(crate) fn binary_at_once(operator: BinaryOperator, left: &Value, right: &Value) -> Option<Value>
    ensures { IfSome result (λ v. Calculates operator left.now right.now v) }
{
    match (&left.node, &right.node) {
        (Node::Number(left), Node::Number(right)) => of_numbers(operator, *left, *right),
        _ => None,
    }
}

/// The result of a comparison of two texts.
pub(crate) fn compared_texts(operator: BinaryOperator, left: &Value, right: &Value) -> Option<bool>
    ensures { IfSome result (λ b. Calculates operator left.now right.now (boolean b)) }
{
    let (Node::Text(_, _), Node::Text(_, _)) = (&left.node, &right.node) else {
        return None;
    };
    let comparison = match operator {
        BinaryOperator::Equal => ComparisonOperator::Equal,
        BinaryOperator::NotEqual => ComparisonOperator::NotEqual,
        BinaryOperator::Less => ComparisonOperator::Less,
        BinaryOperator::LessOrEqual => ComparisonOperator::LessOrEqual,
        BinaryOperator::Greater => ComparisonOperator::Greater,
        BinaryOperator::GreaterOrEqual => ComparisonOperator::GreaterOrEqual,
        _ => return None,
    };
    compare(comparison, left, right, UndefinedBehavior::Lenient).ok()
}

#[inline(always)]
fn of_numbers(operator: BinaryOperator, left: i128, right: i128) -> Option<Value>
    ensures { IfSome result (λ v. Calculates operator (number left) (number right) v) }
{
    let comparison = match operator {
        BinaryOperator::Equal => ComparisonOperator::Equal,
        BinaryOperator::NotEqual => ComparisonOperator::NotEqual,
        BinaryOperator::Less => ComparisonOperator::Less,
        BinaryOperator::LessOrEqual => ComparisonOperator::LessOrEqual,
        BinaryOperator::Greater => ComparisonOperator::Greater,
        BinaryOperator::GreaterOrEqual => ComparisonOperator::GreaterOrEqual,
        BinaryOperator::Add => return Some(Value::number(whole::add(left, right)?)),
        BinaryOperator::Subtract => return Some(Value::number(whole::subtract(left, right)?)),
        BinaryOperator::Multiply => return Some(Value::number(whole::multiply(left, right)?)),
        BinaryOperator::FloorDivide => return Some(Value::number(whole::divide(left, right)?)),
        BinaryOperator::Remainder => return Some(Value::number(whole::remainder(left, right)?)),
        BinaryOperator::In
        | BinaryOperator::NotIn
        | BinaryOperator::Concatenate
        | BinaryOperator::Divide
        | BinaryOperator::Power => return None,
    };
    Some(Value::boolean(comparison.is_met(left.cmp(&right))))
}

/// Keys, each with the value after it. A last key without a value is dropped. OutOfMemory is the
/// only error.
pub fn paired(alloc: Global, values: Vec<Value>) -> Result<Vec<(Value, Value)>, Error>
    ensures ok { IfOk result (λ pairs. pairs.items ≡ instructions.paired values.items) }
    ensures kind { IfErr result (λ e. e ≡ OutOfMemory ∷ []) }
{
    let mut pairs = Vec::with_capacity(alloc, values.len() / 2)?;
    let mut left = values.into_iter();
    while let Some(key) = left.next() {
        let Some(value) = left.next() else {
            break;
        };
        pairs.push((key, value))?;
    }
    Ok(pairs)
}
