//! The messages on standard error.
ghost use Rattle.std.specs.Prelude.{◌≡◌, List, ◌∷◌};
ghost use Rattle.tm_values.specs.declared.error.ErrorKind.{ErrorKind as Kind};
ghost use Rattle.mj_words.specs.Told.{IsTold, IsWritten, line, message, refusal_message, refusal_status};

use crate::arguments::Refusal;
use std::io::{self, Write};
use tm_parts::{Counted, write_text};
use tm_values::{Error, ErrorKind};

/// The usage line.
const USAGE: &str = "usage: mj [-D name=text].. [--json FILE] [--fuel N] [--limit N] FILE..\n";

/// The exit status of a fault in a template, in a render or in writing the output.
const FAULT: u8 = 1;

/// The exit status of wrong arguments, and of a file that can't be used.
const WRONG_USE: u8 = 2;

/// Writes the message for a refusal, and returns the exit status. A failure of standard error can't
/// be reported.
pub fn tell_refusal<E: Write + Drop>(err: &mut Counted<E>, refusal: Refusal) -> u8
    ensures status { result ≡ refusal_status refusal }
    ensures told { IsTold E.contents err.old err.new (refusal_message refusal) }
{
    match refusal {
        Refusal::Usage => {
            let _ = write_text(err, USAGE.as_bytes());
            WRONG_USE
        }
        Refusal::OutOfMemory => tell_error(err, &Error::from(ErrorKind::OutOfMemory)),
    }
}

/// Writes an error and its causes, one per line, and returns the exit status. A failure of standard
/// error can't be reported.
pub fn tell_error<E: Write + Drop>(err: &mut Counted<E>, error: &Error) -> u8
    ensures status { result ≡ 1 }
    ensures told { (kind : Kind) × (kinds : List Kind) × (error.now ≡ kind ∷ kinds)
        × IsTold E.contents err.old err.new (message kind kinds) }
{
    let _ = write_error(err, error);
    FAULT
}

/// Writes an error and its causes, one per line; or returns the writer's error.
fn write_error<E: Write + Drop>(err: &mut Counted<E>, error: &Error) -> io::Result<()>
    ensures { (kind : Kind) × (kinds : List Kind) × (error.now ≡ kind ∷ kinds)
        × IsWritten E.contents result err.old err.new (message kind kinds) }
{
    write_line(err, "error: ", error.kind())?;
    let mut next = error.cause();
    while let Some(cause) = next {
        write_line(err, "cause: ", cause.kind())?;
        next = cause.cause();
    }
    Ok(())
}

/// Writes a word and a kind as a line; or returns the writer's error.
fn write_line<E: Write + Drop>(err: &mut Counted<E>, word: &str, kind: ErrorKind) -> io::Result<()>
    ensures { IsWritten E.contents result err.old err.new (line word.now kind) }
{
    write_text(err, word.as_bytes())?;
    write_text(err, kind.name().as_bytes())?;
    write_text(err, b"\n")
}
