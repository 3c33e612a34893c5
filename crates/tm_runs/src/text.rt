//! The text of a run.
ghost use Rattle.std.specs.Prelude.{◌≡◌, IfOk, IfErr, true};
ghost use Rattle.tm_meaning.specs.Memory.{is_want_of_memory};
ghost use Rattle.tm_meaning.specs.Calls.{run_value};
ghost use Rattle.tm_meaning.specs.World.{World};

use std::alloc::Global;
use tm_meaning::RunText;
use tm_parts::captured_value;
use tm_values::{AutoEscape, Error, Value};

/// The text of a run as a value of the form `kind`, in a state with this escape. Fails only with
/// OutOfMemory.
pub fn run_value(
    alloc: Global,
    kind: RunText,
    text: &str,
    escape: AutoEscape,
) -> Result<Value, Error>
    ensures ok { IfOk result (λ value. (w : World) → w.escape ≡ escape →
        value ≡ run_value kind text.now w) }
    ensures kind { IfErr result (λ e. is_want_of_memory e ≡ true) }
{
    match kind {
        RunText::Captured => captured_value(alloc, text, escape),
        RunText::Plain => Value::text(alloc, text),
        RunText::Truth => Ok(Value::boolean(!text.is_empty())),
    }
}
