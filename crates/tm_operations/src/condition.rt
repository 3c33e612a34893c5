//! The truth of conditions.
ghost use Rattle.std.specs.Prelude.{◌≡◌};
ghost use Rattle.tm_definitions.specs.Truth.{truth_of};

use tm_values::{Error, UndefinedBehavior, UndefinedUse, Value, check_defined};

/// The truth of a condition's value. UndefinedError if it is undefined and the behaviour refuses
/// that.
pub fn truth(value: &Value, behavior: UndefinedBehavior) -> Result<bool, Error>
    ensures { result ≡ truth_of behavior value.now }
{
    check_defined(value, behavior, UndefinedUse::Truth)?;
    Ok(value.is_true())
}
