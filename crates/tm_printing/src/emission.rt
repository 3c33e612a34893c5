//! Writing values as templates emit them, and as texts of their own.
ghost use Rattle.std.specs.Prelude.{◌≡◌, MatchOption, string_bytes};
ghost use Rattle.tm_values.specs.Records.{RecordData};
ghost use Rattle.tm_values.specs.Val.{number};
ghost use Rattle.tm_printing.specs.Emits.{Emits, emission_answer};
ghost use Rattle.tm_output.specs.Targets.{Takes};
ghost use Rattle.tm_values.specs.Answer.{IsAnswer};
ghost use Rattle.tm_printing.specs.Left.{Writes};
ghost use Rattle.tm_definitions.specs.Emitted.{emission_verdict, emitted_text, map_ok, text_answer};

use crate::check::{check_json, check_print};
use crate::compact::write_json;
use crate::html::write_html_text;
use crate::printing::{print, write_html};
use crate::rest::Unwritten;
use std::alloc::Global;
use tm_output::{Target, TargetFailed};
use tm_values::{AutoEscape, Error, ErrorKind, Node, Records, Value};

/// Checks whether the value can be emitted under the escape. A safe text always can. Other values:
/// InvalidOperation under a custom escape, the errors of `check_json` under JSON, and those of
/// `check_print` under the other escapes.
pub fn check_emission<R: Records>(
    alloc: Global,
    value: &Value,
    escape: AutoEscape,
    records: &R,
) -> Result<(), Error>
    ensures { IsAnswer result (emission_verdict escape (R.records records.now) value.now) }
{
    if let Node::Text(_, true) = &value.node {
        return Ok(());
    }
    match escape {
        AutoEscape::None | AutoEscape::Html => check_print(alloc, value, records),
        AutoEscape::Json => check_json(alloc, value, records),
        AutoEscape::Custom(_) => Err(Error::from(ErrorKind::InvalidOperation)),
    }
}

/// Emits the value under the escape: a safe text unchanged, and other values printed, printed and
/// escaped for HTML, or as JSON. Call `check_emission` first: the output for a value that it
/// refuses is meaningless. `Target` if the target fails, `Memory` if memory runs out for the work
/// list.
pub fn emit<R: Records, T: Target>(
    alloc: Global,
    value: &Value,
    escape: AutoEscape,
    records: &R,
    target: &mut T,
) -> Result<(), Unwritten>
    ensures { Writes T.took T.stopped result target.old
        (emitted_text escape (R.records records.now) value.now) target.new }
{
    if let Node::Text(content, true) = &value.node {
        return Ok(target.take_text(content.as_str())?);
    }
    match escape {
        AutoEscape::None => print(alloc, value, records, target),
        AutoEscape::Html => write_html(alloc, value, records, target),
        AutoEscape::Json => write_json(alloc, value, records, target),
        AutoEscape::Custom(_) => Ok(target.take_text("")?),
    }
}

/// Emits a number or a text under an escape that never refuses it. For other values and escapes it
/// writes nothing and returns None. TargetFailed if the target fails.
#[inline(always)]
pub fn emit_at_once<T: Target>(
    value: &Value,
    escape: AutoEscape,
    target: &mut T,
) -> Option<Result<(), TargetFailed>>
    ensures { MatchOption result (target.new ≡ target.old)
        (λ answer. (r : RecordData) → Emits T.took T.stopped answer escape r value.now
        target.old target.new) }
{
    match &value.node {
        Node::Text(content, true) => Some(target.take_text(content.as_str())),
        Node::Text(content, false) => match escape {
            AutoEscape::None => Some(target.take_text(content.as_str())),
            AutoEscape::Html => Some(write_html_text(content.as_str(), target)),
            AutoEscape::Json | AutoEscape::Custom(_) => None,
        },
        Node::Number(number) => emit_number_at_once(*number, escape, target),
        _ => None,
    }
}

#[inline(always)]
fn emit_number_at_once<T: Target>(
    whole: i128,
    escape: AutoEscape,
    target: &mut T,
) -> Option<Result<(), TargetFailed>>
    ensures { MatchOption result (target.new ≡ target.old)
        (λ answer. (r : RecordData) → Emits T.took T.stopped answer escape r (number whole)
        target.old target.new) }
{
    match escape {
        AutoEscape::None | AutoEscape::Html => {
            let mut buffer = itoa::Buffer::new();
            Some(target.take_text(buffer.format(whole)))
        }
        AutoEscape::Json | AutoEscape::Custom(_) => None,
    }
}

/// The printed text of the value. An error of `check_print`, or OutOfMemory.
pub fn to_text<R: Records>(alloc: Global, value: &Value, records: &R) -> Result<String, Error>
    ensures { IsAnswer (map_ok string_bytes result)
        (text_answer (R.records records.now) value.now) }
{
    check_print(alloc, value, records)?;
    let mut text = String::new(alloc);
    match print(alloc, value, records, &mut text) {
        Ok(()) => Ok(text),
        Err(_) => Err(Error::from(ErrorKind::OutOfMemory)),
    }
}

/// The text that is emitted for the value under the escape. An error of `check_emission`, or
/// OutOfMemory.
pub fn emission_text<R: Records>(
    alloc: Global,
    value: &Value,
    escape: AutoEscape,
    records: &R,
) -> Result<String, Error>
    ensures { IsAnswer (map_ok string_bytes result)
        (emission_answer escape (R.records records.now) value.now) }
{
    check_emission(alloc, value, escape, records)?;
    let mut text = String::new(alloc);
    match emit(alloc, value, escape, records, &mut text) {
        Ok(()) => Ok(text),
        Err(_) => Err(Error::from(ErrorKind::OutOfMemory)),
    }
}
