//! Callables that see only their arguments.
ghost use Rattle.std.specs.Prelude.{◌≡◌, List};
ghost use Rattle.tm_values.specs.Val.{Val};
ghost use Rattle.tm_meaning.specs.World.{Stated};
ghost use Rattle.tm_objects.specs.Stated.{IsStated};

use crate::callable::{Callable, CallableAnswer};
use crate::view::View;
use std::alloc::Global;
use tm_values::Value;

/// An object whose answer depends only on the arguments.
pub trait Answering: Drop {
    ghost answers: { Self → List Val → Stated };

    /// The stated answer for `args`; OutOfMemory if memory runs out, alone or as the cause of
    /// EvalBlock, BadInclude or InvalidOperation.
    fn answer(&self, alloc: Global, args: &[Value]) -> CallableAnswer
        ensures { IsStated result (answers self.now args.now) };
}

/// A callable made of an object whose answer depends only on the arguments.
#[derive(Drop)]
pub struct Plain<F: Drop> {
    answering: F,
}

impl<F: Drop> Plain<F> {
    /// Makes a callable of `answering`.
    pub fn new(answering: F) -> Plain<F>
        ensures { result ≡ record { answering = answering } }
    {
        Plain { answering }
    }
}

impl<F: Answering> Callable for Plain<F> {
    ghost answers = { λ p args view. F.answers p.answering args };

    fn call(&self, alloc: Global, args: &[Value], _view: &View<'_>) -> CallableAnswer {
        self.answering.answer(alloc, args)
    }
}
