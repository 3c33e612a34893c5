//! The meaning of signs in expressions: the tables of the grammar.
ghost use Rattle.std.specs.Prelude.{◌≡◌, IfSome, MatchOption, Some, None, is_some, nat_lt};
ghost use Rattle.tm_expressions.specs.Tokens as tokens;
ghost use Rattle.tm_expressions.specs.Waiting.{role_of};

use tm_syntax::{BinaryOperator, Sign, UnaryOperator};
use tm_values::Value;

/// What continues a value.
#[derive(Clone, Copy)]
pub enum Link {
    /// The name of an attribute or a method.
    Member,
    /// An item or a slice in square brackets.
    Item,
    /// The arguments of a call.
    Call,
    /// A filter.
    Filter,
    /// A test.
    Test,
    /// The right operand of an operator.
    Operator(BinaryOperator),
    /// The right operand of a comparison.
    Comparison(BinaryOperator),
    /// The right operand of `and`.
    And,
    /// The right operand of `or`.
    Or,
}

// The levels of operators, from the tightest to the loosest.
/// The level of steps after a value.
pub const POSTFIX_LEVEL: u8 = 0;
/// The level of powers.
pub const POWER_LEVEL: u8 = 1;
/// The level of products.
pub const PRODUCT_LEVEL: u8 = 2;
/// The level of `~`.
pub const CONCATENATION_LEVEL: u8 = 3;
/// The level of sums.
pub const SUM_LEVEL: u8 = 4;
/// The level of comparisons.
pub const COMPARISON_LEVEL: u8 = 5;
/// The level of `and`.
pub const AND_LEVEL: u8 = 6;
/// The level of `or`.
pub const OR_LEVEL: u8 = 7;

/// The level at which a sign continues a value, and how.
pub fn link_of(sign: Sign) -> Option<(u8, Link)>
    ensures at { result ≡ tokens.link_of sign }
    ensures operator { IfSome result (λ x. is_some (role_of x.1) ≡ nat_lt 0 x.0) }
{
    Some(match sign {
        Sign::Dot => (POSTFIX_LEVEL, Link::Member),
        Sign::OpenSquare => (POSTFIX_LEVEL, Link::Item),
        Sign::OpenRound => (POSTFIX_LEVEL, Link::Call),
        Sign::Bar => (POSTFIX_LEVEL, Link::Filter),
        Sign::Is => (POSTFIX_LEVEL, Link::Test),
        Sign::DoubleStar => (POWER_LEVEL, Link::Operator(BinaryOperator::Power)),
        Sign::Star => (PRODUCT_LEVEL, Link::Operator(BinaryOperator::Multiply)),
        Sign::Slash => (PRODUCT_LEVEL, Link::Operator(BinaryOperator::Divide)),
        Sign::DoubleSlash => (PRODUCT_LEVEL, Link::Operator(BinaryOperator::FloorDivide)),
        Sign::Percent => (PRODUCT_LEVEL, Link::Operator(BinaryOperator::Remainder)),
        Sign::Tilde => (
            CONCATENATION_LEVEL,
            Link::Operator(BinaryOperator::Concatenate),
        ),
        Sign::Plus => (SUM_LEVEL, Link::Operator(BinaryOperator::Add)),
        Sign::Minus => (SUM_LEVEL, Link::Operator(BinaryOperator::Subtract)),
        Sign::Equal => (COMPARISON_LEVEL, Link::Comparison(BinaryOperator::Equal)),
        Sign::NotEqual => (COMPARISON_LEVEL, Link::Comparison(BinaryOperator::NotEqual)),
        Sign::Less => (COMPARISON_LEVEL, Link::Comparison(BinaryOperator::Less)),
        Sign::LessOrEqual => (
            COMPARISON_LEVEL,
            Link::Comparison(BinaryOperator::LessOrEqual),
        ),
        Sign::Greater => (COMPARISON_LEVEL, Link::Comparison(BinaryOperator::Greater)),
        Sign::GreaterOrEqual => (
            COMPARISON_LEVEL,
            Link::Comparison(BinaryOperator::GreaterOrEqual),
        ),
        Sign::In => (COMPARISON_LEVEL, Link::Comparison(BinaryOperator::In)),
        Sign::And => (AND_LEVEL, Link::And),
        Sign::Or => (OR_LEVEL, Link::Or),
        _ => return None,
    })
}

/// The level at which a sign after `not` continues a value, and how.
pub fn negated_link_of(sign: Sign) -> Option<(u8, Link)>
    ensures at { result ≡ tokens.negated_link_of sign }
    ensures operator { IfSome result (λ x. is_some (role_of x.1) ≡ nat_lt 0 x.0) }
{
    Some(match sign {
        Sign::In => (COMPARISON_LEVEL, Link::Comparison(BinaryOperator::NotIn)),
        _ => return None,
    })
}

/// The level of the operand of a prefix sign, and its operator.
pub fn prefix_of(sign: Sign) -> Option<(u8, UnaryOperator)>
    ensures { result ≡ tokens.prefix_of sign }
{
    Some(match sign {
        Sign::Minus => (POWER_LEVEL, UnaryOperator::Negate),
        Sign::Not => (AND_LEVEL, UnaryOperator::Not),
        _ => return None,
    })
}

/// The value of a reserved word.
pub fn constant_of(sign: Sign) -> Option<Value>
    ensures { result ≡ tokens.constant_of sign }
{
    Some(match sign {
        Sign::False => Value::boolean(false),
        Sign::True => Value::boolean(true),
        Sign::None => Value::none(),
        _ => return None,
    })
}

/// The reserved word as the name of a test.
pub fn test_word(sign: Sign) -> Option<&'static str>
    ensures { MatchOption result (tokens.test_word sign ≡ None)
        (λ word. tokens.test_word sign ≡ Some word.now) }
{
    Some(match sign {
        Sign::And => "and",
        Sign::Or => "or",
        Sign::Not => "not",
        Sign::If => "if",
        Sign::Else => "else",
        Sign::In => "in",
        Sign::Is => "is",
        Sign::True => "true",
        Sign::False => "false",
        Sign::None => "none",
        _ => return None,
    })
}
