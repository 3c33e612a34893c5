//! A caller's functions, filters and test.
ghost use Rattle.std.specs.Prelude.{[], codes, option_copied, slice_get};
ghost use Rattle.tm_definitions.specs.Members.{or_undefined};
ghost use Rattle.tm_meaning.specs.declared.reply.Reply.TheVariants.{Value as gives};
ghost use Rattle.tm_meaning.specs.declared.reply.Reply.TheVariants.{Further as asks_for};
ghost use Rattle.tm_meaning.specs.declared.reply.Call.TheVariants as further;
ghost use Rattle.tm_tables.specs.Stated.{IsStated, just};
ghost use Rattle.fault_tests.specs.declared.objects.Asking.TheVariants.{First, Filter, Macro, Block};

use std::alloc::Global;
use template_machine::*;

/// Returns an argument, or asks for a further call.
#[derive(Clone, Copy)]
pub(crate) enum Asking {
    /// Returns its first argument; undefined without an argument.
    First,
    /// Asks for the filter `same` without arguments.
    Filter,
    /// Asks for the macro `m` without arguments.
    Macro,
    /// Asks for the block `b`.
    Block,
}

impl Callable for Asking {
    ghost answers = { elim [
      | First ↦ λ args view. just (gives (or_undefined (slice_get args 0)))
      | Filter ↦ λ args view. just (asks_for (further.Filter (codes "same") []))
      | Macro ↦ λ args view. just (asks_for (further.Macro (codes "m") []))
      | Block ↦ λ args view. just (asks_for (further.Block (codes "b")))
    ] };

    fn call(&self, alloc: Global, args: &[Value], _view: &View<'_>) -> CallableAnswer {
        match self {
            Asking::First => shared(alloc, args.get(0)),
            Asking::Filter => CallableAnswer::further_filter(alloc, "same", Vec::new(alloc)),
            Asking::Macro => CallableAnswer::further_macro(alloc, "m", Vec::new(alloc)),
            Asking::Block => CallableAnswer::further_block(alloc, "b"),
        }
    }
}

/// Returns a shared copy of a value; undefined if there is none.
fn shared(alloc: Global, found: Option<&Value>) -> CallableAnswer
    ensures { IsStated result (just (gives (or_undefined (option_copied found.entry)))) }
{
    match found {
        Some(value) => match value.share() {
            Ok(value) => CallableAnswer::value(alloc, value),
            Err(error) => CallableAnswer::fault(alloc, error),
        },
        None => CallableAnswer::value(alloc, Value::undefined()),
    }
}

/// The objects by name; each is a function and a filter.
static OBJECTS: &[(&str, Asking)] = &[
    ("same", Asking::First),
    ("by_filter", Asking::Filter),
    ("by_macro", Asking::Macro),
    ("by_block", Asking::Block),
];

/// Adds the objects as functions and filters, and the test `same`.
pub(crate) fn add_objects(alloc: Global, environment: &mut Environment<'_>) -> Result<(), Error> {
    for &(name, asking) in OBJECTS {
        environment.add_function(name, Box::new(alloc, asking)?)?;
        environment.add_filter(name, Box::new(alloc, asking)?)?;
    }
    environment.add_test("same", Box::new(alloc, Asking::First)?)
}
