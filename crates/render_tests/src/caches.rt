//! More filters than a run has caches for.
use crate::party::{Party, Rows};
use std::alloc::Global;
use template_machine::*;

static FIRST: &str = "abcdef";

/// The second letters of filters that return their last argument, and of those that return their
/// second one.
static ENDS: [(&str, Party); 2] = [("ghijk", Party::Last), ("lmnop", Party::Second)];

/// Adds a filter for each pair of letters.
fn add_filters(alloc: Global, environment: &mut Rows<'_>) -> Result<(), Error> {
    for first in FIRST.chars() {
        for &(seconds, party) in &ENDS {
            for second in seconds.chars() {
                let name = format!(in alloc; "{first}{second}")?;
                environment.add_filter(name.as_str(), party)?;
            }
        }
    }
    Ok(())
}

/// Writes one use of each filter.
fn write_uses(alloc: Global, out: &mut String) -> Result<(), Error> {
    for first in FIRST.chars() {
        for &(seconds, _) in &ENDS {
            for second in seconds.chars() {
                let used = format!(in alloc; "{{{{ 0|{first}{second}(1, 2) }}}}")?;
                out.push_str(used.as_str())?;
            }
        }
    }
    Ok(())
}

/// A loop of two rounds that uses each filter twice.
fn source(alloc: Global) -> Result<String, Error> {
    let mut text = String::from_str(alloc, "{% for x in [1, 2] %}")?;
    write_uses(alloc, &mut text)?;
    write_uses(alloc, &mut text)?;
    text.push_str("{% endfor %}")?;
    Ok(text)
}

/// Whether the text is the answers of each first letter's filters, `times` times.
fn is_answered(text: &str, times: usize) -> bool {
    let mut rest = text;
    for _ in 0..times {
        match rest.strip_prefix("2222211111") {
            Some(after) => rest = after,
            None => return false,
        }
    }
    rest.is_empty()
}

/// Whether all filters give their own answers.
pub(crate) fn all_answer(alloc: Global, environment: &mut Rows<'_>) -> Result<bool, Error> {
    add_filters(alloc, environment)?;
    let source = source(alloc)?;
    let text = environment.render_str(&mut StateIds::new(), source.as_str(), Value::undefined())?;
    Ok(is_answered(text.as_str(), 24))
}
