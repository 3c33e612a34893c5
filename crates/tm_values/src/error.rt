//! Errors: a kind, and the error that caused it.
ghost use Rattle.std.specs.Prelude.{◌≡◌, ◌<◌, [], ◌∷◌, length, Some, MatchResult, MatchOption};
ghost use Rattle.tm_values.specs.Answer.{OkOrOutOfMemory};
ghost use Rattle.tm_values.specs.Chain.{kind_of, causes_of};
ghost use Rattle.tm_values.specs.Name.{kind_name};

use std::alloc::{AllocError, AllocFailed, Global};
use std::fmt;
use std::marker::Model;

/// What went wrong.
#[derive(Clone, Copy, PartialEq, Eq, Debug)]
pub enum ErrorKind {
    /// The operands, or the state, don't allow the operation.
    InvalidOperation,
    /// The source isn't a valid template.
    SyntaxError,
    /// A delimiter is empty, or two start delimiters are equal.
    InvalidDelimiter,
    /// No template has that name.
    TemplateNotFound,
    /// A callable got more arguments than it takes.
    TooManyArguments,
    /// A callable didn't get an argument that it needs.
    MissingArgument,
    /// No filter has that name.
    UnknownFilter,
    /// No test has that name.
    UnknownTest,
    /// No function has that name.
    UnknownFunction,
    /// The value has no method of that name.
    UnknownMethod,
    /// No block has that name.
    UnknownBlock,
    /// A defined value is needed, but the value is undefined.
    UndefinedError,
    /// The value doesn't unpack into the targets.
    CannotUnpack,
    /// The value can't be written as JSON.
    BadSerialization,
    /// A block that `super()` ran failed.
    EvalBlock,
    /// An included template failed.
    BadInclude,
    /// The writer failed, or accepted no bytes.
    WriteFailure,
    /// The fuel of the state is spent.
    OutOfFuel,
    /// Memory ran out.
    OutOfMemory,
    /// The stream of instructions isn't one that the compiler writes.
    BadStream,
}

impl ErrorKind {
    /// The name of the kind, such as `OutOfFuel`.
    pub fn name(self) -> &'static str
        ensures { result.now ≡ kind_name self }
    {
        match self {
            ErrorKind::InvalidOperation => "InvalidOperation",
            ErrorKind::SyntaxError => "SyntaxError",
            ErrorKind::InvalidDelimiter => "InvalidDelimiter",
            ErrorKind::TemplateNotFound => "TemplateNotFound",
            ErrorKind::TooManyArguments => "TooManyArguments",
            ErrorKind::MissingArgument => "MissingArgument",
            ErrorKind::UnknownFilter => "UnknownFilter",
            ErrorKind::UnknownTest => "UnknownTest",
            ErrorKind::UnknownFunction => "UnknownFunction",
            ErrorKind::UnknownMethod => "UnknownMethod",
            ErrorKind::UnknownBlock => "UnknownBlock",
            ErrorKind::UndefinedError => "UndefinedError",
            ErrorKind::CannotUnpack => "CannotUnpack",
            ErrorKind::BadSerialization => "BadSerialization",
            ErrorKind::EvalBlock => "EvalBlock",
            ErrorKind::BadInclude => "BadInclude",
            ErrorKind::WriteFailure => "WriteFailure",
            ErrorKind::OutOfFuel => "OutOfFuel",
            ErrorKind::OutOfMemory => "OutOfMemory",
            ErrorKind::BadStream => "BadStream",
        }
    }
}

impl fmt::Display for ErrorKind {
    ghost output = { λ kind. Some (kind_name kind) };

    /// The name of the kind.
    fn fmt<W: fmt::Write>(&self, f: &mut fmt::Formatter<W>) -> fmt::Result {
        f.write_str(self.name())
    }
}

/// An error. A contract sees it as its chain of kinds: its own, and then the kind of each cause.
#[derive(Debug)]
#[cycle(error)]
pub struct Error {
    kind: ErrorKind,
    more: Option<Box<More>>,
}

// A loop, so that dropping a long chain of causes needs no deep stack.
impl Drop for Error {
    fn drop(mut self) {
        loop {
            let Error { kind: _kind, more } = self;
            let Some(more) = more else {
                return;
            };
            let More {
                detail: _detail,
                cause,
            } = Box::into_inner(more);
            let Some(cause) = cause else {
                return;
            };
            self = cause;
        }
    }
}

// What few errors have; it stands apart, so that an error is small.
#[derive(Debug, Drop)]
#[cycle(error)]
struct More {
    detail: Option<String>,
    cause: Option<Error>,
}

impl Model for Error {
    ghost use Rattle.std.specs.Prelude.{List, ◌∷◌, length};
    ghost use Rattle.tm_values.specs.declared.error.ErrorKind.{ErrorKind};

    ghost Value = { List ErrorKind };

    ghost use Rattle.tm_values.specs.Cause.{chain_of};
    ghost use Rattle.std.proofs.Common.{arith};

    ghost view = { λ a. a.kind ∷ chain_of a.more };

    ghost size = { length };

    ghost size_decreases = { λ a h. Prim.grind arith };
}

impl From<ErrorKind> for Error {
    ghost use Rattle.std.specs.Prelude.{◌≡◌, [], ◌∷◌};

    ghost from_gives = { λ kind e. e ≡ kind ∷ [] };

    /// An error of this kind, without detail or cause.
    fn from(kind: ErrorKind) -> Error {
        Error { kind, more: None }
    }
}

impl From<AllocError> for Error {
    ghost use Rattle.std.specs.Prelude.{◌≡◌, [], ◌∷◌};
    ghost use Rattle.tm_values.specs.declared.error.ErrorKind.TheVariants.{OutOfMemory};

    ghost from_gives = { λ _ e. e ≡ OutOfMemory ∷ [] };

    /// OutOfMemory, without detail or cause.
    fn from(_error: AllocError) -> Error {
        Error::from(ErrorKind::OutOfMemory)
    }
}

impl<T: Drop> From<AllocFailed<T>> for Error {
    ghost use Rattle.std.specs.Prelude.{◌≡◌, [], ◌∷◌};
    ghost use Rattle.tm_values.specs.declared.error.ErrorKind.TheVariants.{OutOfMemory};

    ghost from_gives = { λ _ e. e ≡ OutOfMemory ∷ [] };

    /// OutOfMemory, without detail or cause. The value that wasn't stored is dropped.
    fn from(_error: AllocFailed<T>) -> Error {
        Error::from(ErrorKind::OutOfMemory)
    }
}

impl Error {
    /// An error of this kind with a detail and no cause. If memory runs out, the detail is left
    /// out.
    pub fn new(alloc: Global, kind: ErrorKind, detail: &str) -> Error
        ensures { result ≡ kind ∷ [] }
    {
        let Ok(detail) = String::from_str(alloc, detail) else {
            return Error::from(kind);
        };
        let more = More {
            detail: Some(detail),
            cause: None,
        };
        Error {
            kind,
            more: Box::new(alloc, more).ok(),
        }
    }

    /// The kind of this error.
    pub fn kind(&self) -> ErrorKind
        ensures { self.now ≡ result ∷ causes_of self.now }
    {
        self.kind
    }

    /// The detail, if there is one.
    pub fn detail(&self) -> Option<&str> {
        match &self.more {
            Some(more) => match &more.detail {
                Some(detail) => Some(detail.as_str()),
                None => None,
            },
            None => None,
        }
    }

    /// The error that caused this one, if there is one. Its chain is shorter, so a loop over causes
    /// ends.
    pub fn cause(&self) -> Option<&Error>
        ensures { MatchOption result (causes_of self.now ≡ [])
            (λ e. (e.now ≡ causes_of self.now) × (length e.now < length self.now)) }
    {
        match &self.more {
            Some(more) => match &more.cause {
                Some(cause) => Some(cause),
                None => None,
            },
            None => None,
        }
    }

    /// This error with the cause in place of its own; OutOfMemory where there is no memory for it.
    pub fn with_source(self, alloc: Global, cause: Error) -> Result<Error, Error>
        ensures { OkOrOutOfMemory result (λ e. e ≡ kind_of self ∷ cause) }
    {
        let Error { kind, more } = self;
        let detail = match more {
            Some(more) => {
                let More {
                    detail,
                    cause: _old,
                } = Box::into_inner(more);
                detail
            }
            None => None,
        };
        let more = More {
            detail,
            cause: Some(cause),
        };
        match Box::new(alloc, more) {
            Ok(more) => Ok(Error {
                kind,
                more: Some(more),
            }),
            Err(_lost) => Err(Error::from(ErrorKind::OutOfMemory)),
        }
    }
}

impl fmt::Display for Error {
    ghost output = { λ e. Some (kind_name (kind_of e)) };

    /// Writes the name of the error's own kind, without its detail and causes.
    fn fmt<W: fmt::Write>(&self, f: &mut fmt::Formatter<W>) -> fmt::Result {
        fmt::Display::fmt(&self.kind, f)
    }
}

impl std::error::Error for Error {}
