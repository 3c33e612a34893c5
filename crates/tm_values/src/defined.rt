//! Checks of undefined operands.
ghost use Rattle.std.specs.Prelude.{◌≡◌, Ok};
ghost use Rattle.tm_values.specs.Defined.{refusal_of, unless};

use crate::error::Error;
use crate::undefined::{UndefinedBehavior, UndefinedUse};
use crate::value::{Node, Value};

/// Checks whether the value may be used for `purpose`. UndefinedError or InvalidOperation if the
/// value is undefined and `behavior` refuses that use.
pub fn check_defined(
    value: &Value,
    behavior: UndefinedBehavior,
    purpose: UndefinedUse,
) -> Result<(), Error>
    ensures { result ≡ unless (refusal_of behavior purpose value.now) (Ok tt) }
{
    match &value.node {
        Node::Undefined(silent) => match behavior.refusal(purpose, *silent) {
            Some(kind) => Err(Error::from(kind)),
            None => Ok(()),
        },
        _ => Ok(()),
    }
}
