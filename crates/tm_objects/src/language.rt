//! The functions of the language: their names and numbers.
ghost use Rattle.std.specs.Prelude.{◌≡◌, ◌<◌, Some, length, map, slice_get};
ghost use Rattle.tm_objects.specs.Language.{language, language_globals};
ghost use Rattle.tm_values.specs.Answer.{OkOrOutOfMemory};

use std::alloc::Global;
use tm_meaning::GlobalFunction;
use tm_syntax::{Name, NameMap};
use tm_values::{Error, Value};

/// The language's functions with their names; the index is the function's number.
pub(crate) const LANGUAGE: [(&str, GlobalFunction); 3] = [
    ("range", GlobalFunction::Range),
    ("dict", GlobalFunction::Dict),
    ("namespace", GlobalFunction::Namespace),
];

/// The language's function with this number.
pub(crate) fn language_function(number: usize) -> GlobalFunction
    requires { number < length language }
    ensures { slice_get (map (λ f. f.1) language) number ≡ Some result }
{
    LANGUAGE[number].1
}

/// The name of the language's function with this number.
fn language_name(number: usize) -> &'static str
    requires { number < length language }
    ensures { slice_get (map (λ f. f.0) language) number ≡ Some result.now }
{
    LANGUAGE[number].0
}

/// Globals that bind the names of the language's functions to their numbers. Fails only with
/// OutOfMemory.
pub fn language_globals(alloc: Global) -> Result<NameMap<Value>, Error>
    ensures { OkOrOutOfMemory result (λ globals. globals ≡ language_globals) }
{
    let mut globals = NameMap::new(alloc);
    for number in 0..LANGUAGE.len() {
        let name = Name::new(alloc, language_name(number))?;
        globals.insert(name, Value::function(number))?;
    }
    Ok(globals)
}
