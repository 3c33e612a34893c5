//! What answers for methods that a value lacks.
ghost use Rattle.std.specs.Prelude.{List};
ghost use Rattle.tm_meaning.specs.World.{Fallback};
ghost use Rattle.tm_objects.specs.Stated.{IsStated};

use crate::callable::CallableAnswer;
use crate::view::View;
use std::alloc::Global;
use tm_values::Value;

/// An object of the caller that answers if a value lacks a method. Its meaning is a function of the
/// value, the method's name, the arguments and the view.
pub trait MethodFallback: Drop {
    ghost answers: { Self → Fallback };

    /// The stated answer for the method `name` of `value` with `args`; OutOfMemory if memory runs
    /// out, alone or as the cause of EvalBlock, BadInclude or InvalidOperation.
    fn call(
        &self,
        alloc: Global,
        value: &Value,
        name: &str,
        args: &[Value],
        view: &View<'_>,
    ) -> CallableAnswer
        ensures { IsStated result (answers self.now value.now name.now args.now view.now) };
}

impl MethodFallback for Box<dyn MethodFallback> {
    ghost answers = { λ b. (MethodFallback-box b).answers b.value };

    fn call(
        &self,
        alloc: Global,
        value: &Value,
        name: &str,
        args: &[Value],
        view: &View<'_>,
    ) -> CallableAnswer {
        (**self).call(alloc, value, name, args, view)
    }
}
