//! The results of calling the caller's objects.
use tm_items::Items;
use tm_syntax::Name;
use tm_values::{Error, Value};

/// The result of calling one of the caller's objects: a value, a fault, or a further call.
#[derive(Drop)]
pub enum Reply {
    /// The value of the call.
    Value(Value),
    /// The error, if there is no value.
    Fault(Error),
    /// A call that is made instead.
    Further(Call),
}

/// A further call. It is one level deeper than the call that asks for it.
#[derive(Drop)]
pub enum Call {
    /// Applies the filter of that name to these values. The name isn't changed before the look-up.
    Filter(Name, Items<Value>),
    /// Looks up the name where the call is made, and calls the macro or function with these values.
    /// The value is the printed text of the result, not marked safe.
    Macro(Name, Items<Value>),
    /// Runs the block of that name. The value is its text, not marked safe.
    Block(Name),
}
