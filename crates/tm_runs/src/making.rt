//! Values that a run makes, which the host's limit bounds.
ghost use Rattle.std.specs.Prelude.{◌≡◌, [], ◌∷◌};
ghost use Rattle.tm_parts.specs.declared.halt.Halt.TheVariants.{Fault};
ghost use Rattle.tm_runs.specs.Making.{makes};
ghost use Rattle.tm_values.specs.declared.error.ErrorKind.TheVariants.{OutOfMemory};

use tm_parts::Halt;
use tm_syntax::Instruction;
use tm_values::{Error, ErrorKind};

/// Whether the value that `instruction` leaves on top is one that it, or what it calls, made.
#[inline(always)]
pub fn makes(instruction: &Instruction) -> bool
    ensures { result ≡ makes instruction.now }
{
    match instruction {
        Instruction::Slice
        | Instruction::BuildList(_)
        | Instruction::BuildTuple(_)
        | Instruction::BuildMap(_)
        | Instruction::BuildKwargs(_)
        | Instruction::MergeKwargs(_)
        | Instruction::Add
        | Instruction::StringConcat
        | Instruction::CallFunction(_, _)
        | Instruction::CallMethod(_, _)
        | Instruction::CallObject(_)
        | Instruction::ApplyFilter(_, _, _)
        | Instruction::PerformTest(_, _, _)
        | Instruction::ExportLocals
        | Instruction::EndCapture => true,
        _ => false,
    }
}

/// The halt for a value that is larger than the host allows.
#[cold]
#[inline(never)]
pub fn too_large() -> Halt
    ensures { result ≡ Fault (OutOfMemory ∷ []) }
{
    Halt::Fault(Error::from(ErrorKind::OutOfMemory))
}
