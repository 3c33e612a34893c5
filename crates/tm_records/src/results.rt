//! The results of calls: a value, the call of a loop, a run that must come first, or a fault.
ghost use Rattle.std.specs.Prelude.{◌≡◌};
ghost use Rattle.tm_records.specs.Results.{IsBecause, is_macro, text_for};

use crate::nested::NestedRun;
use std::alloc::Global;
use std::rc::Rc;
use tm_meaning::{Call, RunText};
use tm_tables::CallableAnswer;
use tm_values::{Error, ErrorKind, Value};

/// The result of a call that isn't refused.
#[derive(Drop)]
pub enum CallResult {
    /// A value.
    Value(Value),
    /// The call of a loop of the running stream, which the machine performs.
    Recursion(Recursion),
    /// A run that must come first, which the machine performs. Boxed because this result is passed
    /// on at every call.
    Run(Box<NestedRun>),
}

/// The call of a loop.
#[derive(Drop)]
pub struct Recursion {
    /// The loop's number in the running stream.
    pub number: usize,
    /// The items to iterate over.
    pub items: Rc<Vec<Value>>,
}

/// The result of a further call of a caller's object that isn't refused.
#[derive(Drop)]
pub enum Further {
    /// The answer to it.
    Answered(CallableAnswer),
    /// A run that must come first.
    Run(Box<NestedRun>),
}

/// InvalidOperation with `cause` as its cause; OutOfMemory if memory runs out.
#[cold]
pub fn because(alloc: Global, cause: Error) -> Error
    ensures { IsBecause cause result }
{
    match Error::from(ErrorKind::InvalidOperation).with_source(alloc, cause) {
        Ok(error) => error,
        Err(error) => error,
    }
}

/// Whether `call` is a further call of a macro.
pub fn is_macro(call: &Call) -> bool
    ensures { result ≡ is_macro call.now }
{
    match call {
        Call::Macro(_name, _args) => true,
        Call::Filter(_name, _args) => false,
        Call::Block(_name) => false,
    }
}

/// How the text of a further call's run becomes a value: its truth if a test asked for it,
/// otherwise the plain text.
pub fn text_for(test: bool) -> RunText
    ensures { result ≡ text_for test }
{
    if test { RunText::Truth } else { RunText::Plain }
}
