//! Conditional jumps out of a piece of code.
ghost use Rattle.std.specs.Prelude.{◌≡◌};
ghost use Rattle.tm_syntax.specs.Fragments.{jump};

use crate::instruction::Instruction;

/// When a jump is taken, depending on the topmost value.
#[derive(Clone, Copy)]
pub enum JumpKind {
    /// If it is false. The value is popped either way.
    IfFalse,
    /// If it is false; the value is popped only if the jump isn't taken.
    IfFalseOrPop,
    /// If it is true; the value is popped only if the jump isn't taken.
    IfTrueOrPop,
}

impl JumpKind {
    /// The instruction that jumps to a place.
    pub fn to(self, place: usize) -> Instruction
        ensures { result ≡ jump self place }
    {
        match self {
            JumpKind::IfFalse => Instruction::JumpIfFalse(place),
            JumpKind::IfFalseOrPop => Instruction::JumpIfFalseOrPop(place),
            JumpKind::IfTrueOrPop => Instruction::JumpIfTrueOrPop(place),
        }
    }
}
