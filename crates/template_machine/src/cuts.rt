//! Runs that are cut short because the writer fails or memory runs out. Which loops they leave open
//! isn't known.
ghost use Rattle.std.specs.Prelude.{◌≡◌};
ghost use Rattle.tm_meaning.specs.Memory.{is_want_of_memory, is_wrapping};
ghost use Rattle.template_machine.specs.Renders.{forgetting, is_cut};

use tm_parts::Halt;
use tm_state::StateData;
use tm_values::{Error, ErrorKind};

/// Whether errors of this kind can wrap another fault.
fn is_wrapping(kind: ErrorKind) -> bool
    ensures { result ≡ is_wrapping kind }
{
    matches!(
        kind,
        ErrorKind::EvalBlock | ErrorKind::BadInclude | ErrorKind::InvalidOperation
    )
}

/// Whether an error is OutOfMemory, directly or as the cause of kinds that only wrap.
fn is_want_of_memory(error: &Error) -> bool
    ensures { result ≡ is_want_of_memory error.now }
{
    let mut kind = error.kind();
    let mut next = error.cause();
    while let Some(cause) = next {
        let before = kind;
        kind = cause.kind();
        if !is_wrapping(before) {
            return false;
        }
        next = cause.cause();
    }
    matches!(kind, ErrorKind::OutOfMemory)
}

/// Passes on the fault of a call. If memory ran out, the state forgets its loops.
pub(crate) fn faulted(state: &mut StateData, error: Error) -> Error
    ensures same { result ≡ error }
    ensures state { state.new ≡ forgetting (is_want_of_memory error) state.old }
{
    if is_want_of_memory(&error) {
        state.forget_loops();
    }
    error
}

/// Passes on why a run halted. If it was cut short, the state forgets its loops.
pub(crate) fn halted(state: &mut StateData, halt: Halt) -> Halt
    ensures same { result ≡ halt }
    ensures state { state.new ≡ forgetting (is_cut halt) state.old }
{
    match halt {
        Halt::Fault(error) => Halt::Fault(faulted(state, error)),
        Halt::Writer => {
            state.forget_loops();
            Halt::Writer
        }
        Halt::Stuck => Halt::Stuck,
    }
}
