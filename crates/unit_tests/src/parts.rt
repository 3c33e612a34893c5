//! Separate parts of a render: fuel, the blocks of one name, and what wraps a writer.
use std::alloc::{AllocError, Global};
use std::io::{self, Write};
use std::test::Fail;
use tm_compiler::Instruction;
use tm_meaning::TemplateId;
use tm_output::{Counted, NullWriter};
use tm_parts::{Output, Sink, WriteWrapper};
use tm_syntax::{CaptureMode, Name};
use tm_tables::{BlockStack, FuelTracker};
use tm_values::{AutoEscape, Error, ErrorKind, Value};

/// An amount of fuel, how often a charge is paid from it, whether the last one is refused, and then
/// the fuel consumed and the fuel left.
type Charges = (u64, u64, bool, u64, u64);

static CHARGES: [Charges; 4] = [
    (2, 1, false, 1, 1),
    (2, 2, false, 2, 0),
    (2, 3, true, 2, 0),
    (0, 1, true, 0, 0),
];

fn are_charged(charges: &Charges) -> bool {
    let mut tracker = FuelTracker::new(charges.0);
    let mut is_refused = false;
    for _ in 0..charges.1 {
        is_refused = tracker.track(&Instruction::Emit).is_err();
    }
    is_refused == charges.2
        && tracker.consumed() == charges.3
        && tracker.remaining() == charges.4
        && tracker.initial() == charges.0
}

#[test]
fn fuel_is_charged(rt: HostRuntime) {
    for charges in &CHARGES {
        assert!(rt; are_charged(charges));
    }
}

/// A template of an environment.
fn entry(alloc: Global, name: &str) -> Result<TemplateId, AllocError> {
    Ok(TemplateId::Entry(Name::new(alloc, name)?))
}

/// Whether the stack has `len` templates, and the current one is at `place` and is the expected
/// one.
fn means(stack: &BlockStack, len: usize, place: usize, wanted: &TemplateId) -> bool {
    let is_meant = match stack.template() {
        Some(template) => template.is(wanted),
        None => false,
    };
    is_meant && stack.len() == len && stack.place() == place
}

/// Whether this template is current and has no next one.
fn is_last(stack: &mut BlockStack, len: usize, place: usize, wanted: &TemplateId) -> bool {
    let is_meant = means(stack, len, place, wanted);
    let is_moved = stack.push();
    is_meant && !is_moved && means(stack, len, place, wanted)
}

/// Whether the first template is current and has no previous one.
fn is_first(stack: &mut BlockStack, len: usize) -> bool {
    let is_meant = means(stack, len, 0, &TemplateId::Own);
    stack.pop();
    is_meant && means(stack, len, 0, &TemplateId::Own)
}

/// Whether a stack moves forward up to the last template, and back to the first one.
fn moves(stack: &mut BlockStack, parent: &TemplateId, root: &TemplateId) -> bool {
    let is_before = is_first(stack, 3);
    let is_next = stack.push() && means(stack, 3, 1, parent);
    let is_after = stack.push() && is_last(stack, 3, 2, root);
    stack.pop();
    let is_back = means(stack, 3, 1, parent);
    stack.pop();
    is_before && is_next && is_after && is_back && is_first(stack, 3)
}

/// Whether the template is alone at first, and comes before its parents once these are added.
fn grows(alloc: Global, stack: &mut BlockStack) -> Result<bool, Error> {
    let is_alone = is_last(stack, 1, 0, &TemplateId::Own) && is_first(stack, 1);
    let (parent, root) = (entry(alloc, "parent")?, entry(alloc, "root")?);
    stack.append(parent.share()?)?;
    stack.append(root.share()?)?;
    Ok(is_alone && moves(stack, &parent, &root))
}

#[test]
fn blocks_are_moved_along(rt: HostRuntime) -> Result<(), Fail> {
    let mut stack = BlockStack::new(rt.alloc(), TemplateId::Own)?;
    assert!(rt; grows(rt.alloc(), &mut stack)?);
    Ok(())
}

/// A writer that fails; without an error it accepts no bytes.
#[derive(Drop)]
struct Broken(Option<io::ErrorKind>);

impl Write for Broken {
    fn write(&mut self, _bytes: &[u8]) -> io::Result<usize> {
        match self.0 {
            Some(kind) => Err(io::Error::from(kind)),
            None => Ok(0),
        }
    }

    fn flush(&mut self) -> io::Result<()> {
        Ok(())
    }
}

/// The kind of error that a write fails with.
fn refused<W: Sink>(wrapper: &mut WriteWrapper<W>) -> Option<ErrorKind> {
    match wrapper.write_str("Hello!") {
        Ok(()) => None,
        Err(error) => Some(error.kind()),
    }
}

/// The kind of the error that is taken out if InvalidOperation is passed in.
fn taken_out<W: Sink>(wrapper: &mut WriteWrapper<W>) -> ErrorKind {
    wrapper
        .take_err(Error::from(ErrorKind::InvalidOperation))
        .kind()
}

/// Whether a wrapper keeps the writer's error and returns it once.
fn keeps_the_error(error: Option<io::ErrorKind>, kept: io::ErrorKind) -> bool {
    let mut wrapper = WriteWrapper::new(Counted::new(Broken(error)));
    let is_refused = refused(&mut wrapper) == Some(ErrorKind::WriteFailure);
    let is_kept = match &wrapper.err {
        Some(error) => error.kind() == kept,
        None => false,
    };
    is_refused
        && is_kept
        && taken_out(&mut wrapper) == ErrorKind::WriteFailure
        && taken_out(&mut wrapper) == ErrorKind::InvalidOperation
}

#[test]
fn a_wrapper_keeps_the_error(rt: HostRuntime) {
    let broken = io::ErrorKind::BrokenPipe;
    assert!(rt; keeps_the_error(Some(broken), broken));
    assert!(rt; keeps_the_error(None, io::ErrorKind::WriteZero));
}

/// Whether an output over a vector writes the texts.
fn writes(output: &mut Output<Counted<Vec<u8>>>) -> Result<bool, Error> {
    output.write_str("Hello ")?;
    output.write_str("Ada!")?;
    Ok(output.writer().inner().as_slice() == b"Hello Ada!".as_slice())
}

#[test]
fn an_output_over_a_vector(rt: HostRuntime) -> Result<(), Fail> {
    let mut output = Output::new(rt.alloc(), Counted::new(Vec::<u8>::new(rt.alloc())));
    assert!(rt; writes(&mut output)?);
    Ok(())
}

/// Whether a capture returns its text, marked safe under an escape.
fn captures(output: &mut Output<Counted<Vec<u8>>>) -> Result<bool, Error> {
    output.begin_capture(CaptureMode::Capture)?;
    output.write_str("<b>")?;
    let is_heard = !output.is_discarding();
    let text = output.end_capture(AutoEscape::Html)?;
    Ok(is_heard && text.is_safe() && text.as_str() == Some("<b>"))
}

/// Whether the end of a capture returns undefined.
fn gives_nothing(output: &mut Output<Counted<Vec<u8>>>) -> Result<bool, Error> {
    Ok(output.end_capture(AutoEscape::None)? == Value::undefined())
}

/// Whether a capture that drops its text returns undefined, and so does an end without an open
/// capture.
fn discards(output: &mut Output<Counted<Vec<u8>>>) -> Result<bool, Error> {
    output.begin_capture(CaptureMode::Discard)?;
    output.write_str("lost")?;
    Ok(output.is_discarding() && gives_nothing(output)? && gives_nothing(output)?)
}

#[test]
fn an_output_captures(rt: HostRuntime) -> Result<(), Fail> {
    let mut output = Output::new(rt.alloc(), Counted::new(Vec::<u8>::new(rt.alloc())));
    assert!(rt; captures(&mut output)? && discards(&mut output)?);
    assert!(rt; output.writer().inner().is_empty());
    assert!(rt; NullWriter.write_str("lost").is_ok());
    Ok(())
}
