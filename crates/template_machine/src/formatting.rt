//! How values are written by default.
ghost use Rattle.std.specs.Prelude.{None};
ghost use Rattle.tm_meaning.specs.World.{formatted};
ghost use Rattle.tm_objects.specs.Stated.{IsFormatted};

use std::alloc::Global;
use tm_printing::emission_text;
use tm_tables::View;
use tm_values::{Error, Value};

/// The text of an emitted value without a formatter, under the escape of `view`. InvalidOperation
/// or BadSerialization if the escape refuses the value; OutOfMemory.
#[tactic(auto, using(tm_state::proofs::Formatted::by_escape))]
pub fn escape_formatter(alloc: Global, value: &Value, view: &View<'_>) -> Result<String, Error>
    ensures { IsFormatted result (formatted None value.now view.now) }
{
    emission_text(alloc, value, view.auto_escape(), view)
}
