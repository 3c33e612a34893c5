//! Kinds that wrap the fault of a nested run.
ghost use Rattle.std.specs.Prelude.{◌≡◌};
ghost use Rattle.tm_meaning.specs.Memory.{kind_of_wrapping};

use tm_values::ErrorKind;

/// The kind that wraps the fault of a nested run.
#[derive(Clone, Copy, PartialEq, Eq)]
pub enum Wrapping {
    /// A block called by `super()` failed.
    EvalBlock,
    /// An included template failed.
    BadInclude,
}

impl Wrapping {
    /// The kind.
    pub fn kind(self) -> ErrorKind
        ensures { result ≡ kind_of_wrapping self }
    {
        match self {
            Wrapping::EvalBlock => ErrorKind::EvalBlock,
            Wrapping::BadInclude => ErrorKind::BadInclude,
        }
    }
}
