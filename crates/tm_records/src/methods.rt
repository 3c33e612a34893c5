//! The methods of values.
ghost use Rattle.std.specs.Prelude.{◌≡◌};
ghost use Rattle.std.specs.Option.{option_copied};
ghost use Rattle.tm_meaning.specs.Calls.{is_macro_attribute, method_in};
ghost use Rattle.tm_values.specs.Answer.{IsAnswer, OkOrOutOfMemory};

use std::alloc::Global;
use tm_operations::attribute;
use tm_values::{Error, ErrorKind, Node, Records, UndefinedBehavior, Value, find_namespace};

/// The callable that is the method `name` of `value`, or None if it has none; `value` is no loop.
/// InvalidOperation for a namespace whose record isn't in `records`; OutOfMemory.
pub fn method_of<R: Records>(
    alloc: Global,
    value: &Value,
    name: &str,
    records: &R,
) -> Result<Option<Value>, Error>
    ensures { IsAnswer result (method_in (R.records records.now) name.now value.now) }
{
    match &value.node {
        Node::Macro(_) => {
            if !is_macro_attribute(name) {
                return Ok(None);
            }
            let found = attribute(alloc, value, name, records, UndefinedBehavior::Lenient)?;
            Ok(Some(found))
        }
        Node::Namespace(state, index) => match find_namespace(records, *state, *index) {
            Some(pairs) => shared(pairs.member(name)),
            None => Err(Error::from(ErrorKind::InvalidOperation)),
        },
        _ => shared(value.member(name)),
    }
}

/// Whether macros have the attribute `name`.
fn is_macro_attribute(name: &str) -> bool
    ensures { result ≡ is_macro_attribute name.now }
{
    name == "name" || name == "arguments" || name == "caller"
}

/// A shared copy of `value`, if there is one. Fails only with OutOfMemory.
fn shared(value: Option<&Value>) -> Result<Option<Value>, Error>
    ensures { OkOrOutOfMemory result (λ copy. copy ≡ option_copied value.entry) }
{
    match value {
        Some(value) => Ok(Some(value.share()?)),
        None => Ok(None),
    }
}
