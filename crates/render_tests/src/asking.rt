//! Questions that rows ask of states, and the states' answers.

use crate::renders::{Row, Setup, is_chain, is_left, lists, template_of};
use std::alloc::Global;
use std::test::Fail;
use template_machine::*;

/// A number, an undefined value, or otherwise a text.
fn value_of(alloc: Global, word: &str) -> Result<Value, Error> {
    if word == "undefined" {
        return Ok(Value::undefined());
    }
    match word.parse() {
        Ok(number) => Ok(Value::number(number)),
        Err(_) => Value::text(alloc, word),
    }
}

/// The values of words that are separated by blanks.
fn values_of(alloc: Global, words: &str) -> Result<Vec<Value>, Error> {
    let mut values = Vec::new(alloc);
    for word in words.split_whitespace() {
        values.push(value_of(alloc, word)?)?;
    }
    Ok(values)
}

/// The text of a value, or `nothing` if there is none.
fn text_of(alloc: Global, found: Option<&Value>) -> Result<String, Error> {
    match found {
        Some(value) => printing::to_text(alloc, value, &NoRecords),
        None => Ok(String::from_str(alloc, "nothing")?),
    }
}

/// The text of a value, or the error.
fn printed(alloc: Global, answer: Result<Value, Error>) -> Result<String, Error> {
    printing::to_text(alloc, &answer?, &NoRecords)
}

/// The text of a test's result.
fn decided(alloc: Global, answer: Result<bool, Error>) -> Result<String, Error> {
    printed(alloc, answer.map(Value::boolean))
}

/// Keeps a value under `k` and returns the value that was kept there.
fn replaced<P: Parties>(
    alloc: Global,
    state: &mut StateOf<'_, P>,
    value: Value,
) -> Result<String, Error> {
    text_of(alloc, state.set_temp("k", value)?.as_ref())
}

/// Calls a block, a macro, a filter or a test and returns its text.
fn called<P: Parties>(
    alloc: Global,
    state: &mut StateOf<'_, P>,
    word: &str,
    name: &str,
    args: &[Value],
) -> Result<String, Error> {
    match word {
        "block" => state.render_block(name),
        "call" => state.call_macro(name, args),
        "filter" => printed(alloc, state.apply_filter(name, args)),
        "test" => decided(alloc, state.perform_test(name, args)),
        _ => Err(Error::from(ErrorKind::UnknownMethod)),
    }
}

/// The text of the value that `name` is bound to.
fn meant<P: Parties>(alloc: Global, state: &StateOf<'_, P>, name: &str) -> Result<String, Error> {
    text_of(alloc, state.lookup(name)?.as_ref())
}

fn formatted<P: Parties>(
    alloc: Global,
    state: &StateOf<'_, P>,
    word: &str,
) -> Result<String, Error> {
    state.format(&value_of(alloc, word)?)
}

/// Calls the name at the start of `rest` with the values after it.
fn called_so<P: Parties>(
    alloc: Global,
    state: &mut StateOf<'_, P>,
    word: &str,
    rest: &str,
) -> Result<String, Error> {
    let (name, args) = rest.split_once(' ').unwrap_or((rest, ""));
    called(alloc, state, word, name, &values_of(alloc, args)?)
}

/// The state's answer to a question.
fn answer<P: Parties>(
    alloc: Global,
    state: &mut StateOf<'_, P>,
    words: &str,
) -> Result<String, Error> {
    let (word, rest) = words.split_once(' ').unwrap_or((words, ""));
    match word {
        "keep" => replaced(alloc, state, value_of(alloc, rest)?),
        "kept" => text_of(alloc, state.get_temp("k")),
        "find" => meant(alloc, state, rest),
        "format" => formatted(alloc, state, rest),
        _ => called_so(alloc, state, word, rest),
    }
}

/// Whether a block leaves this text in a writer that accepts only so many bytes, and ends without a
/// fault or with one of the given kind. `words` are the block's name, the number of bytes, the text
/// and the kind.
fn is_written<P: Parties>(alloc: Global, state: &mut StateOf<'_, P>, words: &str) -> bool {
    let mut words = words.split(' ');
    let block = words.next().unwrap_or("");
    let room = words.next().unwrap_or("").parse().unwrap_or(0);
    let mut writer = Limited::new(Counted::new(Vec::new(alloc)), room);
    let end = match state.render_block_to_write(block, &mut writer) {
        Ok(()) => "",
        Err(error) => error.kind().name(),
    };
    let text = words.next().unwrap_or("");
    writer.inner().inner().as_slice() == text.as_bytes() && end == words.next().unwrap_or("")
}

/// Whether a question has its answer. `words -> text` expects a text, and `words ! kinds` a fault
/// of these kinds. Anything else is a property of the state.
fn is_answered<P: Parties>(alloc: Global, state: &mut StateOf<'_, P>, call: &str) -> bool {
    if let Some((words, text)) = call.split_once(" -> ") {
        return match answer(alloc, state, words) {
            Ok(found) => found.as_str() == text,
            Err(_) => false,
        };
    }
    if let Some((words, kinds)) = call.split_once(" ! ") {
        return match answer(alloc, state, words) {
            Ok(_) => false,
            Err(error) => is_chain(&error, kinds),
        };
    }
    match call.strip_prefix("write ") {
        Some(words) => is_written(alloc, state, words),
        None => is_left(state, call),
    }
}

/// Whether the state is in the template that its row names, in no block, and exports the names that
/// the row lists.
fn stands<P: Parties>(state: &StateOf<'_, P>, row: &Row<'_>) -> bool {
    state.name() == row.text
        && state.current_block().is_none()
        && state.auto_escape() == AutoEscape::None
        && lists(&state.exports(), row.end)
}

/// Whether a state answers `times` times as its row says and is unchanged after each answer.
fn are_answered<P: Parties>(
    alloc: Global,
    state: &mut StateOf<'_, P>,
    row: &Row<'_>,
    times: usize,
) -> bool {
    if !stands(state, row) {
        return false;
    }
    for _ in 0..times {
        for call in row.left.split("; ") {
            if !is_answered(alloc, state, call) || !stands(state, row) {
                return false;
            }
        }
    }
    true
}

/// Asks the state of a render.
fn is_rendered<'source, P: Parties>(
    alloc: Global,
    environment: &EnvironmentOf<'source, P>,
    setup: &Setup<'_>,
    row: &Row<'source>,
) -> Result<bool, Error> {
    let template = template_of(alloc, environment, setup.name, row.source)?;
    let mut ids = StateIds::new();
    let captured = template.render_captured_to(&mut ids, Value::undefined(), &mut NullWriter)?;
    let (_output, mut state) = captured.into_parts();
    Ok(are_answered(alloc, &mut state, row, setup.times))
}

/// Asks the state of a template that hasn't run.
fn is_unrun<'source, P: Parties>(
    alloc: Global,
    environment: &EnvironmentOf<'source, P>,
    setup: &Setup<'_>,
    source: &'source str,
    row: &Row<'_>,
) -> Result<bool, Error> {
    let template = template_of(alloc, environment, setup.name, source)?;
    let mut state = template.new_state(&mut StateIds::new())?;
    Ok(are_answered(alloc, &mut state, row, setup.times))
}

/// Asks a state without a template.
fn is_empty<P: Parties>(
    alloc: Global,
    environment: &EnvironmentOf<'_, P>,
    setup: &Setup<'_>,
    row: &Row<'_>,
) -> Result<bool, Error> {
    let mut state = environment.empty_state(&mut StateIds::new())?;
    Ok(are_answered(alloc, &mut state, row, setup.times))
}

/// Asks a state: that of a render of the row's source; with `+` before the source, that of a
/// template that hasn't run; with `-` as the source, one without a template. The fields after the
/// source are the name of the state's template, the names that it exports, and the questions,
/// separated by `; `.
pub(crate) fn expect_state<'source, P: Parties>(
    alloc: Global,
    environment: &EnvironmentOf<'source, P>,
    setup: &Setup<'_>,
    row: &Row<'source>,
) -> Result<(), Fail> {
    let is_well = match (row.source, row.source.strip_prefix('+')) {
        ("-", _) => is_empty(alloc, environment, setup, row)?,
        (_, Some(source)) => is_unrun(alloc, environment, setup, source, row)?,
        _ => is_rendered(alloc, environment, setup, row)?,
    };
    if is_well {
        return Ok(());
    }
    Err(Fail::new(row.source))
}
