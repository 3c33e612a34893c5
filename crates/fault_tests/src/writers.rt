//! Writers that fail after any number of bytes.

use std::alloc::Global;
use std::io::{self, Write};
use std::test::Fail;
use template_machine::*;

const BASE: &str = "B:{% block a %}x{% endblock %}";

const PAGE: &str =
    "{% extends \"base\" %}{% set y = 1 %}ignored{% block a %}[{{ super() }}{{ y }}]{% endblock %}";

const TEXT: &str = "B:[x1]";

/// Other ways to write the text: with an include, a loop, a macro with a caller, a called loop, and
/// captures.
static PAGES: [&str; 6] = [
    PAGE,
    "B:{% include \"part\" %}",
    "B:[{% for x in [\"x\", 1] %}{{ x }}{% endfor %}]",
    "{% macro m(x) %}[{{ x }}{{ caller() }}]{% endmacro %}B:{% call m(\"x\") %}1{% endcall %}",
    "B:{% for x in [[]] recursive %}[x{{ loop(x) }}1]{% endfor %}",
    "B:{% set y %}[{{ \"x\" }}{% endset %}{{ y }}{{ 1 }}]",
];

/// A writer that accepts at most `step` bytes per call and `room` bytes in total. After that it
/// fails, or accepts no bytes if it has no error.
#[derive(Drop)]
struct Fake {
    bytes: Vec<u8>,
    step: usize,
    room: usize,
    error: Option<io::ErrorKind>,
}

impl Write for Fake {
    fn write(&mut self, bytes: &[u8]) -> io::Result<usize> {
        let taken = bytes.len().min(self.step).min(self.room);
        if taken == 0 {
            return match self.error {
                None => Ok(0),
                Some(kind) => Err(io::Error::from(kind)),
            };
        }
        self.bytes.extend_from_slice(&bytes[..taken])?;
        self.room -= taken;
        Ok(taken)
    }

    fn flush(&mut self) -> io::Result<()> {
        Ok(())
    }
}

static ERRORS: [Option<io::ErrorKind>; 3] = [
    None,
    Some(io::ErrorKind::BrokenPipe),
    Some(io::ErrorKind::Interrupted),
];

/// Whether a render failed with WriteFailure without a cause.
fn is_failure<T: Drop>(answer: Result<T, Error>) -> bool {
    match answer {
        Ok(_done) => false,
        Err(error) => error.kind() == ErrorKind::WriteFailure && error.cause().is_none(),
    }
}

/// Whether a render stops at a writer that fails, and so does another one after it, which writes
/// nothing.
fn stops<P: Parties>(
    template: &TemplateOf<'_, '_, P>,
    mut writer: Counted<Fake>,
    room: usize,
) -> bool {
    let mut ids = StateIds::new();
    let answer = template.render_captured_to(&mut ids, Value::undefined(), &mut writer);
    let is_stopped = is_failure(answer) && holds_beginning(&writer, TEXT, room, 1);
    let answer = template.render_captured_to(&mut ids, Value::undefined(), &mut writer);
    is_stopped && is_failure(answer) && holds_beginning(&writer, TEXT, room, 2)
}

/// Whether writers with `room` bytes stop a render there, both when they accept whole texts and
/// single bytes.
fn stops_at<P: Parties>(
    alloc: Global,
    template: &TemplateOf<'_, '_, P>,
    room: usize,
    error: Option<io::ErrorKind>,
) -> bool {
    stops(template, writer_of(alloc, room, error), room)
        && stops(template, slow_writer(alloc, room, error), room)
}

/// Whether a writer that accepts one byte per call receives the whole page.
fn gets_whole<P: Parties>(alloc: Global, template: &TemplateOf<'_, '_, P>) -> bool {
    let mut writer = slow_writer(alloc, usize::MAX, None);
    let answer = template.render_captured_to(&mut StateIds::new(), Value::undefined(), &mut writer);
    answer.is_ok() && is_whole(&writer, TEXT)
}

/// Whether a page stops at each writer that fails, and is complete otherwise.
fn stops_anywhere<P: Parties>(
    alloc: Global,
    environment: &EnvironmentOf<'static, P>,
    page: &'static str,
) -> Result<bool, Error> {
    let template = environment.template_from_str(page)?;
    for error in &ERRORS {
        for room in 0..6 {
            if !stops_at(alloc, &template, room, *error) {
                return Ok(false);
            }
        }
    }
    Ok(gets_whole(alloc, &template))
}

fn stop_anywhere<P: Parties>(
    alloc: Global,
    environment: &EnvironmentOf<'static, P>,
) -> Result<bool, Error> {
    for page in &PAGES {
        if !stops_anywhere(alloc, environment, page)? {
            return Ok(false);
        }
    }
    Ok(true)
}

#[test]
fn writers_fail_anywhere(rt: HostRuntime) -> Result<(), Fail> {
    let mut environment = Environment::new(rt.alloc())?;
    environment.add_template("base", BASE)?;
    environment.add_template("part", "[{{ \"x\" }}1]")?;
    assert!(rt; stop_anywhere(rt.alloc(), &environment)?);
    Ok(())
}

/// A block with the page's text.
const BLOCK: &str = "{% block b %}B:[{{ \"x\" }}{{ 1 }}]{% endblock %}";

/// A writer that accepts `room` bytes in total.
fn writer_of(alloc: Global, room: usize, error: Option<io::ErrorKind>) -> Counted<Fake> {
    Counted::new(Fake {
        bytes: Vec::new(alloc),
        step: usize::MAX,
        room,
        error,
    })
}

/// The same, with one byte per call.
fn slow_writer(alloc: Global, room: usize, error: Option<io::ErrorKind>) -> Counted<Fake> {
    Counted::new(Fake {
        bytes: Vec::new(alloc),
        step: 1,
        room,
        error,
    })
}

/// Whether a writer failed `failures` times and holds exactly the first `room` bytes of the text.
fn holds_beginning(writer: &Counted<Fake>, text: &str, room: usize, failures: u64) -> bool {
    let bytes = writer.inner().bytes.as_slice();
    writer.failures() == failures && bytes.len() == room && text.as_bytes().starts_with(bytes)
}

/// Whether a writer holds the text and never failed.
fn is_whole(writer: &Counted<Fake>, text: &str) -> bool {
    writer.failures() == 0 && writer.inner().bytes.as_slice() == text.as_bytes()
}

/// A block's name and its text.
#[derive(Clone, Copy)]
struct Part {
    name: &'static str,
    text: &'static str,
}

/// Whether a block stops at a writer that fails, and is complete when it is rendered again.
fn block_stops<P: Parties>(
    state: &mut StateOf<'_, P>,
    part: Part,
    mut writer: Counted<Fake>,
    room: usize,
) -> Result<bool, Error> {
    let answer = state.render_block_to_write(part.name, &mut writer);
    Ok(
        is_failure(answer)
            && holds_beginning(&writer, part.text, room, 1)
            && state.render_block(part.name)?.as_str() == part.text,
    )
}

/// Whether a writer that accepts one byte per call receives the whole block.
fn block_is_whole<P: Parties>(alloc: Global, state: &mut StateOf<'_, P>, part: Part) -> bool {
    let mut writer = slow_writer(alloc, usize::MAX, None);
    let answer = state.render_block_to_write(part.name, &mut writer);
    answer.is_ok() && is_whole(&writer, part.text)
}

/// Whether a block of the state after a render stops at each writer that fails, and is complete
/// otherwise.
fn blocks_stop<P: Parties>(
    alloc: Global,
    environment: &EnvironmentOf<'static, P>,
    source: &'static str,
    part: Part,
) -> Result<bool, Error> {
    let template = environment.template_from_str(source)?;
    let captured = template.render_captured(&mut StateIds::new(), Value::undefined())?;
    let (_output, mut state) = captured.into_parts();
    for error in &ERRORS {
        for room in 0..part.text.len() {
            let (writer, slow) = (
                writer_of(alloc, room, *error),
                slow_writer(alloc, room, *error),
            );
            if !block_stops(&mut state, part, writer, room)?
                || !block_stops(&mut state, part, slow, room)?
            {
                return Ok(false);
            }
        }
    }
    Ok(block_is_whole(alloc, &mut state, part))
}

/// Whether a limit of `room` bytes stops the page there, with a failure of its own.
fn limit_stops<P: Parties>(alloc: Global, template: &TemplateOf<'_, '_, P>, room: usize) -> bool {
    let mut limited = Limited::new(writer_of(alloc, usize::MAX, None), room);
    let answer = template.render_captured_to(
        &mut StateIds::new(),
        Value::undefined(),
        &mut limited,
    );
    let is_failure = is_failure(answer);
    let bytes = limited.inner().inner().bytes.as_slice();
    is_failure
        && limited.failures() == 1
        && limited.inner().failures() == 0
        && bytes.len() == room
        && TEXT.as_bytes().starts_with(bytes)
}

fn limits_stop<P: Parties>(
    alloc: Global,
    environment: &EnvironmentOf<'static, P>,
) -> Result<bool, Error> {
    let template = environment.template_from_str(PAGE)?;
    for room in 0..6 {
        if !limit_stops(alloc, &template, room) {
            return Ok(false);
        }
    }
    Ok(true)
}

/// Whether the page stops at a writer that fails before the limit is reached; both count the
/// failure.
fn limited_writer_stops<P: Parties>(
    alloc: Global,
    template: &TemplateOf<'_, '_, P>,
    room: usize,
    error: Option<io::ErrorKind>,
) -> bool {
    let mut limited = Limited::new(slow_writer(alloc, room, error), 6);
    let answer = template.render_captured_to(
        &mut StateIds::new(),
        Value::undefined(),
        &mut limited,
    );
    is_failure(answer)
        && limited.failures() == 1
        && limited.left().checked_add(room) == Some(6)
        && holds_beginning(limited.inner(), TEXT, room, 1)
}

fn limited_writers_stop<P: Parties>(
    alloc: Global,
    environment: &EnvironmentOf<'static, P>,
) -> Result<bool, Error> {
    let template = environment.template_from_str(PAGE)?;
    for error in &ERRORS {
        for room in 0..6 {
            if !limited_writer_stops(alloc, &template, room, *error) {
                return Ok(false);
            }
        }
    }
    let mut limited = Limited::new(slow_writer(alloc, usize::MAX, None), 6);
    let answer = template.render_captured_to(
        &mut StateIds::new(),
        Value::undefined(),
        &mut limited,
    );
    let is_rendered = answer.is_ok();
    Ok(is_rendered && limited.failures() == 0 && is_whole(limited.inner(), TEXT))
}

/// Whether a wrapper's writer that fails stops a text, and its error is returned once.
fn wrapper_stops(writer: Counted<Fake>, room: usize) -> bool {
    let mut wrapper = WriteWrapper::new(writer);
    let answer = wrapper.write_str(TEXT);
    let is_kept = is_failure(answer) && wrapper.err.is_some();
    let taken = wrapper.take_err(Error::from(ErrorKind::OutOfFuel));
    let is_taken = taken.kind() == ErrorKind::WriteFailure && taken.cause().is_none();
    let other = wrapper.take_err(Error::from(ErrorKind::OutOfFuel));
    is_kept
        && is_taken
        && wrapper.err.is_none()
        && other.kind() == ErrorKind::OutOfFuel
        && holds_beginning(&wrapper.w, TEXT, room, 1)
}

fn wrappers_stop(alloc: Global) -> bool {
    for error in &ERRORS {
        for room in 0..6 {
            if !wrapper_stops(writer_of(alloc, room, *error), room)
                || !wrapper_stops(slow_writer(alloc, room, *error), room)
            {
                return false;
            }
        }
    }
    let mut wrapper = WriteWrapper::new(slow_writer(alloc, usize::MAX, None));
    let is_written = wrapper.write_str(TEXT).is_ok();
    is_written && wrapper.err.is_none() && is_whole(&wrapper.w, TEXT)
}

/// Whether an output stops at a writer with `room` bytes, while its captures don't.
fn output_stops(alloc: Global, writer: Counted<Fake>, room: usize) -> Result<bool, Error> {
    let mut output = Output::new(alloc, writer);
    output.begin_capture(CaptureMode::Capture)?;
    output.write_str(TEXT)?;
    let value = output.end_capture(AutoEscape::None)?;
    let answer = output.write_str(TEXT);
    let is_failure = is_failure(answer);
    Ok(
        value.as_str() == Some(TEXT)
            && is_failure
            && holds_beginning(output.writer(), TEXT, room, 1),
    )
}

fn outputs_stop(alloc: Global) -> Result<bool, Error> {
    for error in &ERRORS {
        for room in 0..6 {
            if !output_stops(alloc, writer_of(alloc, room, *error), room)?
                || !output_stops(alloc, slow_writer(alloc, room, *error), room)?
            {
                return Ok(false);
            }
        }
    }
    let mut output = Output::new(alloc, slow_writer(alloc, usize::MAX, None));
    output.write_str(TEXT)?;
    Ok(is_whole(output.writer(), TEXT))
}

#[test]
fn blocks_stop_anywhere(rt: HostRuntime) -> Result<(), Fail> {
    let mut environment = Environment::new(rt.alloc())?;
    environment.add_template("base", BASE)?;
    let own = Part {
        name: "b",
        text: TEXT,
    };
    assert!(rt; blocks_stop(rt.alloc(), &environment, BLOCK, own)?);
    let over = Part {
        name: "a",
        text: "[x1]",
    };
    assert!(rt; blocks_stop(rt.alloc(), &environment, PAGE, over)?);
    Ok(())
}

#[test]
fn limits_stop_anywhere(rt: HostRuntime) -> Result<(), Fail> {
    let mut environment = Environment::new(rt.alloc())?;
    environment.add_template("base", BASE)?;
    assert!(rt; limits_stop(rt.alloc(), &environment)?);
    assert!(rt; limited_writers_stop(rt.alloc(), &environment)?);
    Ok(())
}

#[test]
fn outputs_stop_anywhere(rt: HostRuntime) -> Result<(), Fail> {
    assert!(rt; outputs_stop(rt.alloc())?);
    assert!(rt; wrappers_stop(rt.alloc()));
    Ok(())
}
