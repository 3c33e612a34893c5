//! How rows are rendered and compared.

use crate::party::context;
use crate::verifying::verify_source;
use std::alloc::Global;
use std::io::{self, Write};
use std::test::Fail;
use template_machine::*;

/// A writer that accepts at most `width` bytes at a time and fails if it has no room for more.
#[derive(Drop)]
struct Narrow {
    bytes: Vec<u8>,
    width: usize,
    room: usize,
}

impl Write for Narrow {
    fn write(&mut self, bytes: &[u8]) -> io::Result<usize> {
        if self.room == 0 {
            return Err(io::Error::from(io::ErrorKind::BrokenPipe));
        }
        let taken = bytes.len().min(self.width).min(self.room);
        self.bytes.extend_from_slice(&bytes[..taken])?;
        self.room -= taken;
        Ok(taken)
    }

    fn flush(&mut self) -> io::Result<()> {
        Ok(())
    }
}

/// How rows are rendered, apart from their environment's settings.
#[derive(Clone, Copy)]
pub(crate) struct Setup<'a> {
    /// The name of their templates.
    pub(crate) name: &'a str,
    /// How many bytes their writer accepts at a time.
    pub(crate) width: usize,
    /// How many bytes it accepts before it fails.
    pub(crate) room: usize,
    /// Their context value.
    pub(crate) given: Given,
    /// How often their states are asked.
    pub(crate) times: usize,
}

/// A context value.
#[derive(Clone, Copy)]
pub(crate) enum Given {
    /// That of the rows.
    Names,
    Undefined,
    /// A namespace whose record no state of a row has.
    Lost,
}

/// The usual setup: whole texts at a time, with the names of the rows.
pub(crate) fn usual<'a>() -> Setup<'a> {
    Setup {
        name: "<string>",
        width: usize::MAX,
        room: usize::MAX,
        given: Given::Names,
        times: 1,
    }
}

fn made(alloc: Global, given: Given) -> Result<Value, Error> {
    match given {
        Given::Names => context(alloc),
        Given::Undefined => Ok(Value::undefined()),
        Given::Lost => Ok(Value::namespace(9, 0)),
    }
}

/// A source, or the name of a stored template after `&`; what it writes; how it ends: with a number
/// of charges, with `ok` for any number, or with a kind of error, followed by the kinds of its
/// causes after `>`; and a question to the state after it.
/// Four ends are those under each undefined behavior, from the loosest to the strictest.
#[derive(Clone, Copy)]
pub(crate) struct Row<'a> {
    pub(crate) source: &'a str,
    pub(crate) text: &'a str,
    pub(crate) end: &'a str,
    pub(crate) left: &'a str,
}

/// The fields of a row, separated by ` => `.
pub(crate) fn row_of(line: &str) -> Row<'_> {
    let mut fields = line.split(" => ");
    Row {
        source: fields.next().unwrap_or(""),
        text: fields.next().unwrap_or(""),
        end: fields.next().unwrap_or(""),
        left: fields.next().unwrap_or(""),
    }
}

/// Whether these are the names, in this order.
pub(crate) fn are(names: &[&str], wanted: &str) -> bool {
    let mut rest = names.iter();
    for name in wanted.split_whitespace() {
        match rest.next() {
            Some(found) if *found == name => {}
            _ => return false,
        }
    }
    rest.next().is_none()
}

/// Whether the names are the wanted ones, or the error has the wanted kind.
pub(crate) fn lists(found: &Result<Vec<&str>, Error>, wanted: &str) -> bool {
    match found {
        Ok(names) => are(names, wanted),
        Err(error) => error.kind().name() == wanted,
    }
}

/// Whether 1 is kept under a name that isn't bound, and no name is exported.
fn keeps_apart<P: Parties>(state: &StateOf<'_, P>, name: &str) -> Result<bool, Error> {
    let is_kept = match state.get_temp(name) {
        Some(kept) => *kept == Value::number(1),
        None => false,
    };
    Ok(is_kept && state.lookup(name)?.is_none() && state.exports()?.is_empty())
}

fn keeps<P: Parties>(state: &StateOf<'_, P>, name: &str) -> bool {
    keeps_apart(state, name).unwrap_or(false)
}

fn knows<P: Parties>(state: &StateOf<'_, P>, names: &str) -> bool {
    lists(&state.known_variables(), names)
}

fn exports<P: Parties>(state: &StateOf<'_, P>, names: &str) -> bool {
    lists(&state.exports(), names)
}

/// Whether `fuel` is left.
fn remains<P: Parties>(state: &StateOf<'_, P>, fuel: &str) -> bool {
    match state.fuel_levels() {
        Some((_, remaining)) => fuel.parse() == Ok(remaining),
        None => false,
    }
}

/// Whether the state's template for the first word has the name in the second, or is an error of
/// that kind.
fn gets<P: Parties>(state: &StateOf<'_, P>, wanted: &str) -> bool {
    let (name, found) = wanted.split_once(' ').unwrap_or((wanted, ""));
    match state.get_template(name) {
        Ok(template) => template.name() == found,
        Err(error) => error.kind().name() == found,
    }
}

/// Whether a name is bound to the environment's first function.
fn is_first<P: Parties>(state: &StateOf<'_, P>, name: &str) -> bool {
    match state.lookup(name) {
        Ok(found) => found == Some(Value::function(3)),
        Err(_) => false,
    }
}

/// Whether a state is as a row asks.
pub(crate) fn is_left<P: Parties>(state: &StateOf<'_, P>, wanted: &str) -> bool {
    match wanted.split_once(' ').unwrap_or((wanted, "")) {
        ("known", names) => knows(state, names),
        ("exports", names) => exports(state, names),
        ("keeps", name) => keeps(state, name),
        ("fuel", fuel) => remains(state, fuel),
        ("gets", found) => gets(state, found),
        ("name", name) => state.name() == name && state.auto_escape() == AutoEscape::None,
        ("first", name) => is_first(state, name),
        _ => wanted.is_empty(),
    }
}

/// The charges of a render, or 0 if none are counted.
fn charges<P: Parties>(state: &StateOf<'_, P>) -> u64 {
    match state.fuel_levels() {
        Some((consumed, _)) => consumed,
        None => 0,
    }
}

/// Whether an error and its causes are of these kinds, from the outermost one.
pub(crate) fn is_chain(error: &Error, kinds: &str) -> bool {
    let mut rest = Some(error);
    for kind in kinds.split('>') {
        match rest {
            Some(found) if found.kind().name() == kind => rest = found.cause(),
            _ => return false,
        }
    }
    rest.is_none()
}

/// Whether an error of this kind wraps the fault of a run.
fn is_wrapping(kind: ErrorKind) -> bool {
    kind == ErrorKind::EvalBlock || kind == ErrorKind::BadInclude
}

/// The number of block runs and includes that an error came through, and the error inside them.
pub(crate) fn fault_of(error: &Error) -> (usize, &Error) {
    let mut fault = error;
    for depth in 0..usize::MAX {
        match fault.cause() {
            Some(cause) if is_wrapping(fault.kind()) => fault = cause,
            _ => return (depth, fault),
        }
    }
    (usize::MAX, fault)
}

/// How a render ends: with its charges and whether its state is as a row asks, or with an error.
type End = Result<(u64, bool), Error>;

fn end_of<P: Parties>(
    template: &TemplateOf<'_, '_, P>,
    given: Value,
    writer: &mut Counted<Narrow>,
    left: &str,
) -> End {
    match template.render_captured_to(&mut StateIds::new(), given, writer) {
        Ok(captured) => {
            let state = captured.state();
            Ok((charges(state), is_left(state, left)))
        }
        Err(error) => Err(error),
    }
}

/// The template of a source under a name, or the stored one. BadStream if a stream of the source is
/// refused.
pub(crate) fn template_of<'env, 'source, P: Parties>(
    alloc: Global,
    environment: &'env EnvironmentOf<'source, P>,
    name: &'env str,
    source: &'source str,
) -> Result<TemplateOf<'env, 'source, P>, Error> {
    match source.strip_prefix('&') {
        Some(kept) => environment.get_template(kept),
        None => {
            verify_source(alloc, source, environment.syntax())?;
            environment.template_from_named_str(name, source)
        }
    }
}

fn ended<'source, P: Parties>(
    alloc: Global,
    environment: &EnvironmentOf<'source, P>,
    setup: &Setup<'_>,
    source: &'source str,
    left: &str,
    given: Value,
    writer: &mut Counted<Narrow>,
) -> End {
    match template_of(alloc, environment, setup.name, source) {
        Ok(template) => end_of(&template, given, writer, left),
        Err(error) => Err(error),
    }
}

/// The end that is expected under a behavior.
fn wanted(end: &str, behavior: UndefinedBehavior) -> &str {
    let place = match behavior {
        UndefinedBehavior::Lenient => 0,
        UndefinedBehavior::Chainable => 1,
        UndefinedBehavior::SemiStrict => 2,
        UndefinedBehavior::Strict => 3,
    };
    end.split(' ').nth(place).unwrap_or(end)
}

fn is_end(end: &End, wanted: &str) -> bool {
    match end {
        Ok((charges, is_left)) => *is_left
            && (wanted == "ok" || wanted.parse().ok() == Some(*charges)),
        // A single kind says nothing about causes.
        Err(error) => error.kind().name() == wanted || is_chain(error, wanted),
    }
}

/// Renders the source of a row and compares what it writes, how it ends and its state.
pub(crate) fn expect_row<P: Parties>(
    alloc: Global,
    environment: &EnvironmentOf<'_, P>,
    setup: &Setup<'_>,
    row: &Row<'_>,
) -> Result<(), Fail> {
    let mut writer = Counted::new(Narrow {
        bytes: Vec::new(alloc),
        width: setup.width,
        room: setup.room,
    });
    let given = made(alloc, setup.given)?;
    let end = ended(
        alloc,
        environment,
        setup,
        row.source,
        row.left,
        given,
        &mut writer,
    );
    let is_ended = is_end(&end, wanted(row.end, environment.undefined_behavior()));
    let written = writer.inner().bytes.as_slice();
    // A row doesn't state the text before a use that only some behaviors refuse.
    let is_written = written == row.text.as_bytes() || end.is_err() && row.end.contains(' ');
    let fails = setup.width == 0 || setup.room < usize::MAX;
    let failures = (row.end == "WriteFailure" && fails) as u64;
    if is_ended && is_written && writer.failures() == failures {
        return Ok(());
    }
    Err(Fail::new(row.source))
}
