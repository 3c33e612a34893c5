//! How calls end if any of their growths may be refused.

use crate::rows::last_kind;
use template_machine::*;

/// How a call ended.
#[derive(Clone, Copy, PartialEq, Eq)]
pub(crate) enum End {
    /// As with enough memory.
    Same,
    /// Memory ran out, and what the call works on is unchanged.
    Refused,
    /// In another way.
    Wrong,
}

/// Whether two calls of the same kind ended correctly if at most one growth is refused.
pub(crate) fn holds(first: End, second: End) -> bool {
    match (first, second) {
        (End::Same, End::Same) | (End::Same, End::Refused) | (End::Refused, End::Same) => true,
        _ => false,
    }
}

/// How a call ended with this error if it ends as `wanted` with enough memory.
pub(crate) fn refused_or(error: &Error, wanted: &str) -> End {
    if last_kind(error) == ErrorKind::OutOfMemory {
        return End::Refused;
    }
    match wanted.strip_prefix('!') {
        Some(kind) => if error.kind().name() == kind {
            End::Same
        } else {
            End::Wrong
        },
        None => End::Wrong,
    }
}

/// How a call that returns a text ended.
pub(crate) fn end_of(answer: Result<String, Error>, wanted: &str) -> End {
    match answer {
        Ok(text) => if text.as_str() == wanted {
            End::Same
        } else {
            End::Wrong
        },
        Err(error) => refused_or(&error, wanted),
    }
}

/// How a render into a writer ended; the writer's own growth may be refused.
pub(crate) fn written_end(
    answer: Result<(), Error>,
    writer: &Counted<Vec<u8>>,
    wanted: &str,
) -> End {
    let written = writer.inner().as_slice();
    match answer {
        Ok(()) => if written == wanted.as_bytes() && writer.failures() == 0 {
            End::Same
        } else {
            End::Wrong
        },
        Err(error) => {
            if writer.failures() == 1
                && error.kind() == ErrorKind::WriteFailure
                && error.cause().is_none()
                && wanted.as_bytes().starts_with(written)
            {
                return End::Refused;
            }
            let end = refused_or(&error, wanted);
            if end == End::Refused
                && !(wanted.as_bytes().starts_with(written) || wanted.starts_with('!'))
            {
                return End::Wrong;
            }
            end
        }
    }
}

/// How a call ended that returns whether it did its work.
pub(crate) fn told(answer: Result<bool, Error>) -> End {
    match answer {
        Ok(true) => End::Same,
        Ok(false) => End::Wrong,
        Err(error) => refused_or(&error, ""),
    }
}

/// Whether a call failed with the expected kind; an error if memory ran out.
pub(crate) fn is_fault<T: Drop>(
    answer: Result<T, Error>,
    wanted: ErrorKind,
) -> Result<bool, Error> {
    match answer {
        Ok(_given) => Ok(false),
        Err(error) => if last_kind(&error) == ErrorKind::OutOfMemory {
            Err(error)
        } else {
            Ok(error.kind() == wanted)
        },
    }
}
