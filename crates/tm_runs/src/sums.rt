//! Operators that add two values up.
ghost use Rattle.std.specs.Prelude.{◌≡◌, IsTrue, Ok};
ghost use Rattle.tm_runs.specs.Sums.{IsSumOf, summand_of};
ghost use Rattle.tm_values.specs.Answer.{IsAnswer};

use std::alloc::Global;
use tm_printing::concatenate;
use tm_syntax::BinaryOperator;
use tm_values::{Error, NoRecords, Node, UndefinedBehavior, Value};

/// Whether `operator` adds these two values up: two texts, a text and a number with `~`, or two lists
/// with `+`.
pub fn adds_up(operator: BinaryOperator, left: &Value, right: &Value) -> bool
    ensures { IsTrue result → IsSumOf operator left.now right.now }
{
    match (&left.node, &right.node) {
        (Node::Text(_, _), Node::Text(_, _)) => match operator {
            BinaryOperator::Add | BinaryOperator::Concatenate => true,
            _ => false,
        },
        (Node::Text(_, _), Node::Number(_)) => operator == BinaryOperator::Concatenate,
        (Node::List(_, _), Node::List(_, _)) => operator == BinaryOperator::Add,
        _ => false,
    }
}

/// What is added for `right`: the text of a number, else the value itself. OutOfMemory if memory runs
/// out.
pub fn summand(alloc: Global, right: Value) -> Result<Value, Error>
    ensures { IsAnswer result (Ok (summand_of right)) }
{
    match &right.node {
        Node::Number(_) => {
            let none = Value::text(alloc, "")?;
            concatenate(alloc, &none, &right, &NoRecords, UndefinedBehavior::Lenient)
        }
        _ => Ok(right),
    }
}
