//! Comparing two values.
ghost use Rattle.std.specs.Prelude.{◌≡◌};
ghost use Rattle.tm_definitions.specs.Comparison.{compared};

use tm_definitions::ComparisonOperator;
use tm_values::{Error, UndefinedBehavior, UndefinedUse, Value, check_defined};

/// Whether the comparison holds: `==` and `!=` use equality, the others the order. UndefinedError
/// if a value is undefined and the behaviour refuses that.
pub fn compare(
    comparison: ComparisonOperator,
    left: &Value,
    right: &Value,
    behavior: UndefinedBehavior,
) -> Result<bool, Error>
    ensures { result ≡ compared comparison behavior left.now right.now }
{
    check_defined(left, behavior, UndefinedUse::Comparison)?;
    check_defined(right, behavior, UndefinedUse::Comparison)?;
    Ok(comparison.is_met(left.compare(right)))
}
