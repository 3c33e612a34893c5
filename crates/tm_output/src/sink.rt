//! Writers that know what was written to them, and count their failures.
ghost use Rattle.std.specs.Prelude.{◌≡◌, ◌<◌, ℕ, List, [], length, Option, None, Ok, IsOk, OnOk, OnErr};
ghost use Rattle.std.specs.Bool.{OnTrue, OnFalse};
ghost use Rattle.std.specs.Io.{WritesAtMost};
ghost use Rattle.std.specs.Io.KnownBytes.{Keeps, WriteAppends, Appends};
ghost use Rattle.tm_output.specs.Counts.{failure_count, saturating_increment, told_of, untold, AppendsBeginning, NoFailure, OneFailure, Told};

use crate::target::TargetFailed;
use std::io::{self, Write};
use std::marker::Model;
use tm_values::Error;

/// A writer that knows the bytes written to it, and counts the calls that failed or accepted no
/// bytes.
pub trait Sink {
    // The bytes that it was given so far, if they are known, and how many of its calls failed or took nothing.
    ghost told: { Self → Told };

    /// Writes a beginning of the bytes, of which there is at least one, and returns its length; or
    /// the writer's error.
    fn write(&mut self, bytes: &[u8]) -> io::Result<usize>
        requires { 0 < length bytes.now }
        ensures bound { WritesAtMost result bytes.now }
        ensures bytes { WriteAppends (told self.old).bytes (told self.new).bytes result bytes.now }
        ensures failures { (told self.new).failures
            ≡ failure_count result (told self.old).failures };

    /// Writes all of the bytes, of which there is at least one, each once. False if the writer fails
    /// or accepts no bytes. Its error isn't returned, which is faster.
    fn put(&mut self, bytes: &[u8]) -> bool
        requires { 0 < length bytes.now }
        ensures written { OnTrue result
            (Appends (told self.old).bytes (told self.new).bytes bytes.now) }
        ensures no_fault { OnTrue result (NoFailure (told self.old) (told self.new)) }
        ensures beginning { AppendsBeginning (told self.old).bytes (told self.new).bytes
            bytes.now }
        ensures fault { OnFalse result (OneFailure (told self.old) (told self.new)) }
    {
        let mut done = 0;
        while done < bytes.len() {
            match self.write(&bytes[done..]) {
                Ok(0) | Err(_) => return false,
                Ok(taken) => done += taken,
            }
        }
        true
    }
}

/// Any writer, with a count of the calls that failed or accepted no bytes.
#[derive(Drop)]
pub struct Counted<W: Write + Drop> {
    inner: W,
    failures: u64,
}

impl<W: Write + Drop> Model for Counted<W> {
    ghost use Rattle.tm_output.specs.Counts.{Tally};

    ghost Value = { Tally W };

    ghost view = { λ counted. record { writer = counted.inner; failures = counted.failures } };
}

impl<W: Write + Drop> Counted<W> {
    /// Wraps a writer, with no failures.
    pub fn new(inner: W) -> Counted<W>
        ensures { result ≡ record { writer = inner; failures = 0 } }
    {
        Counted { inner, failures: 0 }
    }

    /// The writer.
    pub fn inner(&self) -> &W
        ensures { result.now ≡ self.now.writer }
    {
        &self.inner
    }

    /// The writer, without the count.
    pub fn into_inner(self) -> W
        ensures { result ≡ self.writer }
    {
        let Counted { inner, .. } = self;
        inner
    }

    /// Flushes the writer. Returns the writer's error if that fails; it doesn't count as a failed
    /// write.
    pub fn flush(&mut self) -> io::Result<()>
        ensures bytes { Keeps (W.contents self.old.writer) (W.contents self.new.writer) }
        ensures count { self.new.failures ≡ self.old.failures }
    {
        self.inner.flush()
    }

    /// Writes what a call has left of the bytes. False if the writer fails or accepts no bytes.
    #[inline(never)]
    fn put_rest(&mut self, bytes: &[u8]) -> bool
        ensures written { OnTrue result
            (Appends (W.contents self.old.writer) (W.contents self.new.writer) bytes.now) }
        ensures no_fault { OnTrue result (self.new.failures ≡ self.old.failures) }
        ensures beginning { AppendsBeginning (W.contents self.old.writer)
            (W.contents self.new.writer) bytes.now }
        ensures fault { OnFalse result
            (self.new.failures ≡ saturating_increment self.old.failures) }
    {
        let mut done = 0;
        while done < bytes.len() {
            match self.inner.write(&bytes[done..]) {
                Ok(0) | Err(_) => {
                    self.failures = self.failures.saturating_add(1);
                    return false;
                }
                Ok(taken) => done += taken,
            }
        }
        true
    }

    /// The number of calls that failed or accepted no bytes; it saturates at the largest u64.
    pub fn failures(&self) -> u64
        ensures { result ≡ self.now.failures }
    {
        self.failures
    }
}

impl<W: Write + Drop> Sink for Counted<W> {
    ghost told = { told_of W.contents };

    fn write(&mut self, bytes: &[u8]) -> io::Result<usize> {
        let answer = self.inner.write(bytes);
        match &answer {
            Ok(0) | Err(_) => self.failures = self.failures.saturating_add(1),
            Ok(_) => {}
        }
        answer
    }

    /// The first call mostly accepts all of the bytes, so it alone is inlined.
    #[inline(always)]
    fn put(&mut self, bytes: &[u8]) -> bool {
        match self.inner.write(bytes) {
            Ok(0) | Err(_) => {
                self.failures = self.failures.saturating_add(1);
                false
            }
            Ok(taken) => taken == bytes.len() || self.put_rest(&bytes[taken..]),
        }
    }
}

/// A writer that accepts everything and keeps nothing.
#[derive(Clone, Copy, Debug)]
pub struct NullWriter;

impl Sink for NullWriter {
    ghost told = { λ _. untold };

    /// Accepts all of the bytes.
    fn write(&mut self, bytes: &[u8]) -> io::Result<usize>
        requires { 0 < length bytes.now }
        ensures bound { WritesAtMost result bytes.now }
        ensures bytes { WriteAppends None None result bytes.now }
        ensures failures { 0 ≡ failure_count result 0 }
        ensures all { result ≡ Ok (length bytes.now) }
    {
        Ok(bytes.len())
    }
}

impl NullWriter {
    /// Accepts all of the text.
    pub fn write_str(&mut self, text: &str) -> Result<(), Error>
        ensures { result ≡ Ok tt }
    {
        let _taken = text;
        Ok(())
    }
}

/// Writes a whole text, each byte once. TargetFailed if the writer fails or accepts no bytes. The
/// writer's error isn't returned, which is faster.
#[inline(always)]
pub fn put_text<W: Sink>(sink: &mut W, text: &[u8]) -> Result<(), TargetFailed>
    ensures written { OnOk result
        (Appends (W.told sink.old).bytes (W.told sink.new).bytes text.now) }
    ensures no_fault { OnOk result (NoFailure (W.told sink.old) (W.told sink.new)) }
    ensures beginning { AppendsBeginning (W.told sink.old).bytes (W.told sink.new).bytes text.now }
    ensures fault { OnErr result (OneFailure (W.told sink.old) (W.told sink.new)) }
    ensures empty { text.now ≡ [] → IsOk result }
{
    if text.is_empty() || sink.put(text) {
        Ok(())
    } else {
        Err(TargetFailed)
    }
}

/// Writes a whole text, each byte once. Returns the writer's error if it fails, or WriteZero if it
/// accepts no bytes.
pub fn write_text<W: Sink>(sink: &mut W, text: &[u8]) -> Result<(), io::Error>
    ensures written { OnOk result
        (Appends (W.told sink.old).bytes (W.told sink.new).bytes text.now) }
    ensures no_fault { OnOk result (NoFailure (W.told sink.old) (W.told sink.new)) }
    ensures beginning { AppendsBeginning (W.told sink.old).bytes (W.told sink.new).bytes text.now }
    ensures fault { OnErr result (OneFailure (W.told sink.old) (W.told sink.new)) }
    ensures empty { text.now ≡ [] → IsOk result }
{
    let mut done = 0;
    while done < text.len() {
        match sink.write(&text[done..]) {
            Ok(taken) => {
                if taken == 0 {
                    return Err(io::Error::from(io::ErrorKind::WriteZero));
                }
                done += taken;
            }
            Err(error) => return Err(error),
        }
    }
    Ok(())
}
