//! Why a run stops before its end.
use tm_values::{Error, ErrorKind};

/// Why a run stops before its end.
#[derive(Drop)]
pub enum Halt {
    /// The writer failed, or accepted no bytes.
    Writer,
    /// The stream got stuck: the compiler didn't write it.
    Stuck,
    /// A fault, or memory ran out.
    Fault(Error),
}

impl From<Error> for Halt {
    ghost use Rattle.std.specs.Prelude.{◌≡◌};
    ghost use Rattle.tm_parts.specs.declared.halt.Halt.TheVariants.{Fault};

    ghost from_gives = { λ error halt. halt ≡ Fault error };

    fn from(error: Error) -> Halt {
        Halt::Fault(error)
    }
}

impl From<Halt> for Error {
    ghost use Rattle.std.specs.Prelude.{◌≡◌};
    ghost use Rattle.tm_parts.specs.Halts.{error_of};

    ghost from_gives = { λ halt error. error ≡ error_of halt };

    /// The error for the caller: WriteFailure without a cause, BadStream, or the fault itself.
    fn from(halt: Halt) -> Error {
        match halt {
            Halt::Writer => Error::from(ErrorKind::WriteFailure),
            Halt::Stuck => Error::from(ErrorKind::BadStream),
            Halt::Fault(error) => error,
        }
    }
}
