//! The surroundings of an instruction.
ghost use Rattle.std.specs.Prelude.{◌≡◌};
ghost use Rattle.tm_shapes.specs.Flows.{builds, builds_after, is_one, is_zero};
ghost use Rattle.tm_shapes.specs.Sites.{is_between, is_marked, is_number, is_row};

use crate::kind::Reading;
use tm_syntax::Instruction;
use tm_values::{Node, Value};

/// The surroundings of an instruction that a flow depends on.
#[derive(Clone, Copy)]
pub(crate) struct Site<'a> {
    /// Its place.
    pub(crate) place: usize,
    /// The instructions after it.
    pub(crate) rest: &'a [Instruction],
    /// For its place and those after it: whether a jump or a macro's entry leads there.
    pub(crate) entered: &'a [bool],
    /// Whether the instruction before it is `Swap`.
    pub(crate) is_after_swap: bool,
    /// How a 0 is read.
    pub(crate) reading: Reading,
    /// How many operands a `Return` leaves, if that is required.
    pub(crate) returned: Option<usize>,
    /// Whether the entry of a macro is followed when the macro is built.
    pub(crate) enters: bool,
}

/// Whether a place is marked.
pub(crate) fn is_marked(marks: &[bool], place: usize) -> bool
    ensures { result ≡ is_marked marks.now place }
{
    match marks.get(place) {
        Some(mark) => *mark,
        None => false,
    }
}

/// Whether the value is this number.
fn is_number(value: &Value, number: i128) -> bool
    ensures { result ≡ is_number value.now number }
{
    match &value.node {
        Node::Number(found) => *found == number,
        _ => false,
    }
}

/// Whether the value is 1.
#[tactic(auto, using(crate::proofs::Zeros::one_is))]
pub(crate) fn is_one(value: &Value) -> bool
    ensures { result ≡ is_one value.now }
{
    is_number(value, 1)
}

/// Whether the value is 0.
#[tactic(auto, using(crate::proofs::Zeros::zero_is))]
pub(crate) fn is_zero(value: &Value) -> bool
    ensures { result ≡ is_zero value.now }
{
    is_number(value, 0)
}

impl<'a> Site<'a> {
    /// Whether the next instruction builds a macro.
    pub(crate) fn builds(&self) -> bool
        ensures { result ≡ builds self.now.rest.now }
    {
        match self.rest {
            [Instruction::BuildMacro(_, _, _), ..] => true,
            _ => false,
        }
    }

    /// Whether the instruction after the next one, a `LoadConst`, builds a macro.
    pub(crate) fn builds_after(&self) -> bool
        ensures { result ≡ builds_after self.now.rest.now }
    {
        match self.rest {
            [
                Instruction::LoadConst(_),
                Instruction::BuildMacro(_, _, _),
                ..
            ] => true,
            _ => false,
        }
    }

    /// Whether `LoadConst 1` and `Add` come next, and nothing jumps to them.
    pub(crate) fn is_row(&self) -> bool
        ensures { result ≡ is_row self.now }
    {
        match self.rest {
            [Instruction::LoadConst(value), Instruction::Add, ..] => {
                is_one(value) && !(is_marked(self.entered, 1) || is_marked(self.entered, 2))
            }
            _ => false,
        }
    }

    /// Whether it is between `Swap` and `Add`, and nothing jumps to it or to the `Add`.
    pub(crate) fn is_between(&self) -> bool
        ensures { result ≡ is_between self.now }
    {
        match self.rest {
            [Instruction::Add, ..] => {
                self.is_after_swap && !(is_marked(self.entered, 0) || is_marked(self.entered, 1))
            }
            _ => false,
        }
    }
}
