//! Macros as values.
ghost use Rattle.std.specs.Prelude.{◌≡◌, ◌∷◌, [], map as each, length, MatchResult, IfOk};
ghost use Rattle.std.specs.Rc.{rc_str_bytes};
ghost use Rattle.std.specs.Cmp.Lexicographic.{slice_cmp};
ghost use Rattle.std.specs.Ordering.{nat_cmp};
ghost use Rattle.tm_values.specs.Order.{macro_cmp};

use std::cmp::Ordering;
use std::marker::Model;
use std::rc::RcStr;

/// A macro as a value: its declaration, and where its code is.
#[derive(Drop)]
pub struct MacroValue {
    name: RcStr,
    arguments: Vec<RcStr>,
    takes_caller: bool,
    state: u64,
    stream: usize,
    entry: usize,
    closure: Option<usize>,
}

impl Model for MacroValue {
    ghost use Rattle.tm_values.specs.Val.{MacroData};

    ghost Value = { MacroData };

    ghost use Rattle.tm_values.specs.MacroView.{macro_view};

    ghost view = { macro_view };
}

impl MacroValue {
    /// A macro with this name and these arguments, declared by the state with the id `state`.
    /// `stream` is the number of its stream in that state, `entry` its entry in the stream, and
    /// `closure` the number of its closure, if it has one.
    pub fn new(
        name: RcStr,
        arguments: Vec<RcStr>,
        takes_caller: bool,
        state: u64,
        stream: usize,
        entry: usize,
        closure: Option<usize>,
    ) -> MacroValue
        ensures { result ≡ record {
          state = state;
          stream = stream;
          entry = entry;
          closure = closure;
          name = rc_str_bytes name;
          arguments = each rc_str_bytes arguments.items;
          caller = takes_caller;
        } }
    {
        MacroValue {
            name,
            arguments,
            takes_caller,
            state,
            stream,
            entry,
            closure,
        }
    }

    /// The name that it was declared with.
    pub fn name(&self) -> &str
        ensures { result.now ≡ self.now.name }
    {
        self.name.as_str()
    }

    /// The names of its arguments, in order.
    pub fn arguments(&self) -> &[RcStr]
        ensures { each rc_str_bytes result.now ≡ self.now.arguments }
    {
        self.arguments.as_slice()
    }

    /// Whether it uses or takes `caller`.
    pub fn takes_caller(&self) -> bool
        ensures { result ≡ self.now.caller }
    {
        self.takes_caller
    }

    /// The id of the state that declared it.
    pub fn state(&self) -> u64
        ensures { result ≡ self.now.state }
    {
        self.state
    }

    /// The number of its stream in that state.
    pub fn stream(&self) -> usize
        ensures { result ≡ self.now.stream }
    {
        self.stream
    }

    /// Its entry in the stream.
    pub fn entry(&self) -> usize
        ensures { result ≡ self.now.entry }
    {
        self.entry
    }

    /// The number of its closure in that state, if it has one.
    pub fn closure(&self) -> Option<usize>
        ensures { result ≡ self.now.closure }
    {
        self.closure
    }

    // Compares by state, stream, entry, closure, name, arguments, and then `takes_caller`.
    pub(crate) fn compare(&self, other: &MacroValue) -> Ordering
        ensures { result ≡ macro_cmp self.now other.now }
    {
        self.state
            .cmp(&other.state)
            .then(self.stream.cmp(&other.stream))
            .then(self.entry.cmp(&other.entry))
            .then(self.closure.cmp(&other.closure))
            .then(self.name.cmp(&other.name))
            .then(compare_texts(&self.arguments, &other.arguments))
            .then(self.takes_caller.cmp(&other.takes_caller))
    }
}

// Compares text by text; a prefix comes first.
fn compare_texts(left: &[RcStr], right: &[RcStr]) -> Ordering
    ensures { result
        ≡ slice_cmp (slice_cmp nat_cmp) (each rc_str_bytes left.now) (each rc_str_bytes right.now) }
{
    left.cmp(right)
}
