//! The escapes that `autoescape` sets.
ghost use Rattle.std.specs.Prelude.{◌≡◌};
ghost use Rattle.tm_meaning.specs.World as spec;

use tm_values::{AutoEscape, Error, ErrorKind, Value};

/// The escape of that name. InvalidOperation if there is none.
fn named(name: &str) -> Result<AutoEscape, Error>
    ensures { result ≡ spec.escape_named name.now }
{
    match name {
        "html" => Ok(AutoEscape::Html),
        "json" => Ok(AutoEscape::Json),
        "none" => Ok(AutoEscape::None),
        _ => Err(Error::from(ErrorKind::InvalidOperation)),
    }
}

/// The escape at a run's start, or Html if there was none.
fn switched_on(first: AutoEscape) -> AutoEscape
    ensures { result ≡ spec.switched_on first }
{
    match first {
        AutoEscape::None => AutoEscape::Html,
        first => first,
    }
}

/// The escape that a value of `autoescape` selects, in a run that began with `first`. A text names
/// it; a value equal to true switches it on; any other value switches it off. InvalidOperation if
/// no escape has that name.
pub fn escape_for(first: AutoEscape, value: &Value) -> Result<AutoEscape, Error>
    ensures { result ≡ spec.escape_for first value.now }
{
    if let Some(name) = value.as_str() {
        return named(name);
    }
    if *value == Value::boolean(true) {
        Ok(switched_on(first))
    } else {
        Ok(AutoEscape::None)
    }
}
