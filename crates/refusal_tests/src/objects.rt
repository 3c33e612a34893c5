//! The caller's objects in these tests.
ghost use Rattle.std.specs.Prelude.{pos};
ghost use Rattle.tm_values.specs.Val.{number};
ghost use Rattle.tm_values.specs.declared.escape.AutoEscape.TheVariants.{Html};
ghost use Rattle.tm_meaning.specs.declared.reply.Reply.TheVariants.{Value as gives};
ghost use Rattle.tm_tables.specs.Stated.{just};

use std::alloc::Global;
use template_machine::*;

/// Returns 7.
#[derive(Drop)]
pub(crate) struct Seven;

impl Answering for Seven {
    ghost answers = { λ _ args. just (gives (number (pos 7))) };

    fn answer(&self, alloc: Global, _args: &[Value]) -> CallableAnswer {
        CallableAnswer::value(alloc, Value::number(7))
    }
}

/// Escapes each template as HTML.
#[derive(Drop)]
pub(crate) struct Escapes;

impl EscapeRule for Escapes {
    ghost escapes = { λ _ name. Html };

    fn escape(&self, _name: &str) -> AutoEscape {
        AutoEscape::Html
    }
}

/// Adds a function, a filter and a test, each named `f`.
pub(crate) fn add_seven(
    alloc: Global,
    environment: &mut Environment<'static>,
) -> Result<(), Error> {
    environment.add_function("f", Box::new(alloc, Plain::new(Seven))?)?;
    environment.add_filter("f", Box::new(alloc, Plain::new(Seven))?)?;
    environment.add_test("f", Box::new(alloc, Plain::new(Seven))?)
}
