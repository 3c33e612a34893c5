//! What the caller's callables answer.
ghost use Rattle.std.specs.Prelude.{◌≡◌, ◌++◌, [], ◌∷◌, List, OnOk, IfErr};
ghost use Rattle.tm_values.specs.Val.{Val};
ghost use Rattle.tm_meaning.specs.World.{View as Seen, Stated};
ghost use Rattle.tm_meaning.specs.declared.reply.Reply.TheVariants.{Value as gives, Fault as faults};
ghost use Rattle.tm_meaning.specs.declared.reply.Reply.TheVariants.{Further as asks_for};
ghost use Rattle.tm_meaning.specs.declared.reply.Call.TheVariants as further;
ghost use Rattle.tm_objects.specs.Stated.{IsStated, just, keeping};

use crate::view::View;
use std::alloc::Global;
use std::marker::Model;
use tm_items::Items;
use tm_meaning::{Call, GlobalFunction, Reply};
use tm_syntax::Name;
use tm_values::{Error, Value};

/// The answer of a callable: values for the state to keep by name, in order, and a reply. The state
/// keeps the values first, even if the reply is a fault or a further call.
#[derive(Drop)]
pub struct CallableAnswer {
    /// The values to keep, by name.
    pub temps: Vec<(Name, Value)>,
    /// The reply.
    pub result: Reply,
}

impl Model for CallableAnswer {
    ghost use Rattle.std.specs.Coded.{codes};
    ghost use Rattle.tm_values.specs.Code.{coded_Val};
    ghost use Rattle.tm_meaning.specs.World.{Stated};

    ghost Value = { Stated };

    ghost coded = { Prim.hlevel (codes, coded_Val) };

    ghost view = { λ a. record { temps = a.temps.items; reply = a.result } };
}

impl CallableAnswer {
    /// Replies with a value and keeps nothing.
    pub fn value(alloc: Global, value: Value) -> CallableAnswer
        ensures { result ≡ just (gives value) }
    {
        CallableAnswer {
            temps: Vec::new(alloc),
            result: Reply::Value(value),
        }
    }

    /// Replies with a fault and keeps nothing.
    pub fn fault(alloc: Global, error: Error) -> CallableAnswer
        ensures { result ≡ just (faults error) }
    {
        CallableAnswer {
            temps: Vec::new(alloc),
            result: Reply::Fault(error),
        }
    }

    /// Asks for a further call of the filter `name` with `args` and keeps nothing; a fault of
    /// OutOfMemory if there is no memory for the name. The machine makes the call one level deeper
    /// than the answered call, whose result is that of the further call.
    pub fn further_filter(alloc: Global, name: &str, args: Vec<Value>) -> CallableAnswer
        ensures { IsStated result (just (asks_for (further.Filter name.now args.items))) }
    {
        match Name::new(alloc, name) {
            Ok(name) => CallableAnswer::further(alloc, Call::Filter(name, Items::from_vec(args))),
            Err(error) => CallableAnswer::fault(alloc, Error::from(error)),
        }
    }

    /// Asks for a further call of the macro or function that `name` is bound to, as
    /// `further_filter` does for a filter. The value of the call is its result as text, not marked
    /// safe.
    pub fn further_macro(alloc: Global, name: &str, args: Vec<Value>) -> CallableAnswer
        ensures { IsStated result (just (asks_for (further.Macro name.now args.items))) }
    {
        match Name::new(alloc, name) {
            Ok(name) => CallableAnswer::further(alloc, Call::Macro(name, Items::from_vec(args))),
            Err(error) => CallableAnswer::fault(alloc, Error::from(error)),
        }
    }

    /// Asks for a further call of the block `name`, as `further_filter` does for a filter. The
    /// value of the call is the block's text, not marked safe.
    pub fn further_block(alloc: Global, name: &str) -> CallableAnswer
        ensures { IsStated result (just (asks_for (further.Block name.now))) }
    {
        match Name::new(alloc, name) {
            Ok(name) => CallableAnswer::further(alloc, Call::Block(name)),
            Err(error) => CallableAnswer::fault(alloc, Error::from(error)),
        }
    }

    /// Asks for a further call and keeps nothing.
    fn further(alloc: Global, call: Call) -> CallableAnswer
        ensures { result ≡ just (asks_for call) }
    {
        CallableAnswer {
            temps: Vec::new(alloc),
            result: Reply::Further(call),
        }
    }

    /// Adds a value to keep under `name`, after the others. The answer becomes a fault of
    /// OutOfMemory if memory runs out.
    pub fn keep(self, alloc: Global, name: &str, value: Value) -> CallableAnswer
        ensures { IsStated result (keeping name.now value self) }
    {
        let CallableAnswer { mut temps, result } = self;
        match Name::new(alloc, name) {
            Ok(name) => match temps.push((name, value)) {
                Ok(()) => CallableAnswer { temps, result },
                Err(error) => CallableAnswer::fault(alloc, Error::from(error)),
            },
            Err(error) => CallableAnswer::fault(alloc, Error::from(error)),
        }
    }
}

/// What a call of a function by number finds.
#[derive(Drop)]
pub enum Called {
    /// An object of the caller, with its answer.
    Answered(CallableAnswer),
    /// A function of the language, for the machine to run.
    Language(GlobalFunction),
}

/// An object of the caller that templates call. Its meaning is a function of the arguments and of
/// the view.
pub trait Callable: Drop {
    ghost answers: { Self → List Val → Seen → Stated };

    /// The stated answer for `args`; OutOfMemory if memory runs out, alone or as the cause of
    /// EvalBlock, BadInclude or InvalidOperation.
    fn call(&self, alloc: Global, args: &[Value], view: &View<'_>) -> CallableAnswer
        ensures { IsStated result (answers self.now args.now view.now) };
}

impl Callable for Box<dyn Callable> {
    ghost answers = { λ b. (Callable-box b).answers b.value };

    fn call(&self, alloc: Global, args: &[Value], view: &View<'_>) -> CallableAnswer {
        (**self).call(alloc, args, view)
    }
}
