//! What replaces the default formatter.
ghost use Rattle.std.specs.Prelude.{List};
ghost use Rattle.tm_meaning.specs.World.{Format};
ghost use Rattle.tm_objects.specs.Stated.{IsFormatted};

use crate::view::View;
use std::alloc::Global;
use tm_values::{Error, Value};

/// An object of the caller that turns an emitted value into text. Its meaning is a function of the
/// value and of the view.
pub trait Formatter: Drop {
    ghost formats: { Self → Format };

    /// The stated text or fault for `value`; OutOfMemory if memory runs out, alone or as the cause
    /// of EvalBlock, BadInclude or InvalidOperation.
    fn format(&self, alloc: Global, value: &Value, view: &View<'_>) -> Result<String, Error>
        ensures { IsFormatted result (formats self.now value.now view.now) };
}

impl Formatter for Box<dyn Formatter> {
    ghost formats = { λ b. (Formatter-box b).formats b.value };

    fn format(&self, alloc: Global, value: &Value, view: &View<'_>) -> Result<String, Error> {
        (**self).format(alloc, value, view)
    }
}
