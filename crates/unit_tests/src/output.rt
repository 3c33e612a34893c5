//! What no contract says: that calls succeed, and what happens if a target fails.
ghost use Rattle.std.specs.Prelude.{◌++◌};
ghost use Rattle.tm_output.specs.Targets.{Takes};

use std::alloc::{AllocError, Global};
use std::io::{self, Write};
use std::test::Fail;
use tm_output::{Counted, Limited, NullWriter, Target, TargetFailed, write_text};
use tm_printing::{Html, Unwritten, check_emission, emit, write_spelled};
use tm_values::{AutoEscape, Error, ErrorKind, NoRecords, Value};

/// A writer that accepts at most `step` bytes per call until `room` is used up. After that it
/// fails, even on a flush, or accepts no bytes if it has no error.
#[derive(Drop)]
struct Fake {
    bytes: Vec<u8>,
    calls: u64,
    step: usize,
    room: usize,
    error: Option<io::ErrorKind>,
}

impl Fake {
    fn new(alloc: Global, step: usize, room: usize, error: Option<io::ErrorKind>) -> Fake {
        Fake {
            bytes: Vec::new(alloc),
            calls: 0,
            step,
            room,
            error,
        }
    }
}

impl Write for Fake {
    fn write(&mut self, bytes: &[u8]) -> io::Result<usize> {
        self.calls = self.calls.saturating_add(1);
        let taken = bytes.len().min(self.step).min(self.room);
        if taken == 0 {
            return match self.error {
                None => Ok(0),
                Some(kind) => Err(io::Error::from(kind)),
            };
        }
        self.bytes.extend_from_slice(&bytes[..taken])?;
        self.room -= taken;
        Ok(taken)
    }

    fn flush(&mut self) -> io::Result<()> {
        match self.error {
            Some(kind) if self.room == 0 => Err(io::Error::from(kind)),
            _ => Ok(()),
        }
    }
}

/// Writes two texts, one after the other.
fn take_both<T: Target>(target: &mut T, first: &str, second: &str) -> Result<(), TargetFailed>
    ensures { Takes T.took T.stopped result target.old (first.now ++ second.now) target.new }
{
    target.take_text(first)?;
    target.take_text(second)
}

/// The result of writing texts to a writer: the answer, the text, the calls and the failures.
type Told = (Result<(), TargetFailed>, &'static str, u64, u64);

fn is_told(answer: Result<(), TargetFailed>, writer: &Counted<Fake>, told: Told) -> bool {
    let fake = writer.inner();
    answer == told.0
        && fake.bytes.as_slice() == told.1.as_bytes()
        && fake.calls == told.2
        && writer.failures() == told.3
}

/// Whether writing two texts to the fake has this result.
fn tells(fake: Fake, texts: (&str, &str), told: Told) -> bool {
    let mut writer = Counted::new(fake);
    let answer = take_both(&mut writer, texts.0, texts.1);
    is_told(answer, &writer, told)
}

/// Whether writing a text, escaped for HTML, to the fake has this result.
fn spells(fake: Fake, text: &str, told: Told) -> bool {
    let mut writer = Counted::new(fake);
    let answer = write_spelled::<Html, Counted<Fake>>(text, &mut writer);
    is_told(answer, &writer, told)
}

/// The bytes that a fake accepts per call and in total, its error, and the result for `Hello!`.
type Failing = (usize, usize, Option<io::ErrorKind>, Told);

static FAILING: [Failing; 4] = [
    (
        3,
        3,
        Some(io::ErrorKind::BrokenPipe),
        (Err(TargetFailed), "Hel", 2, 1),
    ),
    (9, 0, None, (Err(TargetFailed), "", 1, 1)),
    (
        9,
        0,
        Some(io::ErrorKind::Interrupted),
        (Err(TargetFailed), "", 1, 1),
    ),
    (
        1,
        9,
        Some(io::ErrorKind::BrokenPipe),
        (Ok(()), "Hello!", 6, 0),
    ),
];

fn fails(alloc: Global, failing: &Failing) -> bool {
    let (step, room, error, told) = *failing;
    tells(Fake::new(alloc, step, room, error), ("Hello", "!"), told)
}

#[test]
fn failing_writers(rt: HostRuntime) {
    let alloc = rt.alloc();
    for failing in &FAILING {
        assert!(rt; fails(alloc, failing));
    }
    let nothing = (Ok(()), "", 0, 0);
    let broken = Some(io::ErrorKind::BrokenPipe);
    assert!(rt; tells(Fake::new(alloc, 9, 0, broken), ("", ""), nothing));
    let beginning = (Err(TargetFailed), "a&lt;b", 7, 1);
    assert!(rt; spells(Fake::new(alloc, 1, 6, None), "a<b>", beginning));
}

fn takes_texts(alloc: Global) -> Result<bool, AllocError> {
    let mut text = String::from_str(alloc, "a")?;
    let answer = take_both(&mut text, "b", "cd");
    Ok(answer.is_ok() && text.as_str() == "abcd")
}

#[test]
fn a_string_takes_texts(rt: HostRuntime) -> Result<(), Fail> {
    assert!(rt; takes_texts(rt.alloc())?);
    assert!(rt; take_both(&mut NullWriter, "b", "cd").is_ok());
    Ok(())
}

/// The kind of error that a flush fails with.
fn flush_refused(writer: &mut Counted<Fake>) -> Option<io::ErrorKind> {
    match writer.flush() {
        Ok(()) => None,
        Err(error) => Some(error.kind()),
    }
}

#[test]
fn a_flush_is_no_write(rt: HostRuntime) {
    let full = Some(io::ErrorKind::StorageFull);
    let mut writer = Counted::new(Fake::new(rt.alloc(), 9, 1, full));
    assert!(rt; flush_refused(&mut writer).is_none());
    assert!(rt; write_text(&mut writer, b"a").is_ok());
    assert!(rt; flush_refused(&mut writer) == full);
    assert!(rt; is_told(Ok(()), &writer, (Ok(()), "a", 1, 0)));
}

/// The error of writing a text to a writer that fails with this error, or accepts no bytes if there
/// is none.
fn fault_of(alloc: Global, error: Option<io::ErrorKind>) -> Option<io::ErrorKind> {
    let mut sink = Counted::new(Fake::new(alloc, 9, 0, error));
    match write_text(&mut sink, b"a") {
        Ok(()) => None,
        Err(error) => Some(error.kind()),
    }
}

#[test]
fn the_error_of_a_fault(rt: HostRuntime) {
    let interrupted = Some(io::ErrorKind::Interrupted);
    assert!(rt; fault_of(rt.alloc(), None) == Some(io::ErrorKind::WriteZero));
    assert!(rt; fault_of(rt.alloc(), interrupted) == interrupted);
}

// The number 1 inside `depth` lists, each of which holds the same item `items` times.
fn nested(alloc: Global, depth: usize, items: usize) -> Result<Value, Error> {
    let mut value = Value::number(1);
    for _ in 0..depth {
        value = repeated(alloc, value, items)?;
    }
    Ok(value)
}

fn repeated(alloc: Global, value: Value, count: usize) -> Result<Value, Error> {
    let mut items = Vec::new(alloc);
    for _ in 0..count {
        items.push(value.share()?)?;
    }
    Value::list(alloc, items)
}

/// A writer that only counts the bytes that it accepts.
#[derive(Drop)]
struct Length {
    taken: usize,
}

impl Write for Length {
    fn write(&mut self, bytes: &[u8]) -> io::Result<usize> {
        self.taken = self.taken.saturating_add(bytes.len());
        Ok(bytes.len())
    }

    fn flush(&mut self) -> io::Result<()> {
        Ok(())
    }
}

// Whether the value is written, with `length` bytes.
fn is_written(alloc: Global, value: &Value, escape: AutoEscape, length: usize) -> bool {
    let mut writer = Counted::new(Length { taken: 0 });
    check_emission(alloc, value, escape, &NoRecords).is_ok()
        && emit(alloc, value, escape, &NoRecords, &mut writer) == Ok(())
        && writer.inner().taken == length
}

// Whether a value that is too long for the writer is written up to the limit in few calls.
fn is_cut_off(alloc: Global, value: &Value, escape: AutoEscape) -> bool {
    let writer = Counted::new(Fake::new(alloc, usize::MAX, usize::MAX, None));
    let mut limited = Limited::new(writer, 1000);
    check_emission(alloc, value, escape, &NoRecords).is_ok()
        && emit(alloc, value, escape, &NoRecords, &mut limited) == Err(Unwritten::Target)
        && limited.inner().inner().bytes.len() == 1000
        && limited.inner().inner().calls < 2000
}

#[test]
fn deep_values_take_no_deep_stack(rt: HostRuntime) -> Result<(), Fail> {
    let value = nested(rt.alloc(), 1_000_000, 1)?;
    assert!(rt; is_written(rt.alloc(), &value, AutoEscape::None, 2_000_001));
    assert!(rt; is_written(rt.alloc(), &value, AutoEscape::Html, 2_000_001));
    assert!(rt; is_written(rt.alloc(), &value, AutoEscape::Json, 2_000_001));
    assert!(rt; value == nested(rt.alloc(), 1_000_000, 1)?);
    Ok(())
}

#[test]
fn doubled_values_are_checked_at_once(rt: HostRuntime) -> Result<(), Fail> {
    let value = nested(rt.alloc(), 30, 2)?;
    assert!(rt; is_cut_off(rt.alloc(), &value, AutoEscape::None));
    assert!(rt; is_cut_off(rt.alloc(), &value, AutoEscape::Html));
    assert!(rt; is_cut_off(rt.alloc(), &value, AutoEscape::Json));
    Ok(())
}

// Why a list of a number can't be doubled `levels` times; None if it can.
fn refusal_of_doubled(alloc: Global, levels: usize) -> Option<ErrorKind> {
    match nested(alloc, levels, 2) {
        Ok(_value) => None,
        Err(error) => Some(error.kind()),
    }
}

#[test]
fn too_large_values_find_no_memory(rt: HostRuntime) {
    assert!(rt; refusal_of_doubled(rt.alloc(), 30) == None);
    assert!(rt; refusal_of_doubled(rt.alloc(), 31) == Some(ErrorKind::OutOfMemory));
    assert!(rt; refusal_of_doubled(rt.alloc(), 100) == Some(ErrorKind::OutOfMemory));
}
