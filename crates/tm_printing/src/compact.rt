//! Writes values as `serde_json`'s compact text, piece by piece.
ghost use Rattle.std.specs.Prelude.{◌≡◌, ◌∷◌, ◌++◌, [], MatchOption};
ghost use Rattle.serde_json.specs.Written.{number_text, comma_if};
ghost use Rattle.tm_output.specs.Targets.{Takes};
ghost use Rattle.tm_values.specs.Val.{namespace};
ghost use Rattle.tm_definitions.specs.Json.{json_text, key_text, number_data};
ghost use Rattle.tm_printing.specs.Data.{IsNextJson, IsNextJsonLighter, IsJsonOpened, IsJsonLeaf, leaf_json};
ghost use Rattle.tm_printing.specs.Left.{Writes};

use crate::rest::{NextValue, Rest, Unwritten};
use crate::spelling::Json;
use crate::text::write_json_text;
use crate::walk::{Notation, write_parts};
use std::alloc::Global;
use tm_output::{Target, TargetFailed};
use tm_values::{Node, Records, Value, find_namespace};

/// Writes the value as `serde_json`'s compact text. Call `check_json` first: a value that it
/// refuses has no JSON. `Target` if the target fails, `Memory` if memory runs out for the work
/// list.
pub fn write_json<R: Records, T: Target>(
    alloc: Global,
    value: &Value,
    records: &R,
    target: &mut T,
) -> Result<(), Unwritten>
    ensures { Writes T.took T.stopped result target.old
        (json_text (R.records records.now) value.now) target.new }
{
    write_parts::<Json, R, T>(alloc, value, records, target)
}

impl Notation for Json {
    ghost use Rattle.tm_definitions.specs.Json.{json_within};
    ghost use Rattle.tm_printing.specs.Data.{json_rest};

    ghost value_text = { json_within };

    ghost rest_text = { json_rest };

    fn begin<'a, R: Records, T: Target>(
        value: &'a Value,
        levels: usize,
        records: &'a R,
        target: &mut T,
    ) -> Result<Option<Rest<'a>>, TargetFailed> {
        match open(value, levels, records) {
            Some((opening, rest)) => {
                target.take_text(opening)?;
                Ok(Some(rest))
            }
            None => {
                write_leaf(value, target)?;
                Ok(None)
            }
        }
    }

    fn advance<'a, T: Target>(
        rest: Rest<'a>,
        target: &mut T,
    ) -> Result<Option<NextValue<'a>>, TargetFailed> {
        match take_next(rest) {
            JsonPart::Value(before, step) => {
                target.take_text(before)?;
                Ok(Some(step))
            }
            JsonPart::Keyed(before, key, step) => {
                write_key(before, key, target)?;
                Ok(Some(step))
            }
            JsonPart::End(closing) => {
                target.take_text(closing)?;
                Ok(None)
            }
        }
    }
}

/// The next part of a list or a map.
#[derive(Clone, Copy)]
pub enum JsonPart<'a> {
    /// A text, and then a value.
    Value(&'static str, NextValue<'a>),
    /// A text, a key with its colon, and then a value.
    Keyed(&'static str, &'a Value, NextValue<'a>),
    /// The closing bracket.
    End(&'static str),
}

// The next part.
fn take_next<'a>(rest: Rest<'a>) -> JsonPart<'a>
    ensures text { IsNextJson rest.entry result }
    ensures weight { IsNextJsonLighter rest.entry result }
{
    match rest {
        Rest::Items(left, later, levels) => match left.split_first() {
            Some((value, left)) => JsonPart::Value(
                comma(later),
                NextValue {
                    value,
                    levels,
                    after: Rest::Items(left, true, levels),
                },
            ),
            None => JsonPart::End("]"),
        },
        Rest::Pairs(left, later, levels) => match left.split_first() {
            Some((pair, left)) => JsonPart::Keyed(
                comma(later),
                &pair.0,
                NextValue {
                    value: &pair.1,
                    levels,
                    after: Rest::Pairs(left, true, levels),
                },
            ),
            None => JsonPart::End("}"),
        },
        Rest::Member(value, left, levels) => JsonPart::Value(
            ":",
            NextValue {
                value,
                levels,
                after: Rest::Pairs(left, true, levels),
            },
        ),
    }
}

fn comma(later: bool) -> &'static str
    ensures { result.now ≡ comma_if later }
{
    if later { "," } else { "" }
}

// The bracket that opens an array or an object, and what is left after it.
fn open<'a, R: Records>(
    value: &'a Value,
    levels: usize,
    records: &'a R,
) -> Option<(&'static str, Rest<'a>)>
    ensures { MatchOption result (IsJsonLeaf (R.records records.now) levels value.now)
        (λ opened. IsJsonOpened (R.records records.now) levels value.now opened.0.now opened.1) }
{
    match &value.node {
        Node::List(items, _) => Some(("[", Rest::Items(items.as_slice(), false, levels))),
        Node::Map(pairs, _) | Node::Keywords(pairs, _) | Node::Exports(pairs, _, _) => {
            Some(("{", Rest::Pairs(pairs.as_slice(), false, levels)))
        }
        Node::Namespace(state, index) => open_namespace(*state, *index, levels, records),
        _ => None,
    }
}

fn open_namespace<'a, R: Records>(
    state: u64,
    index: usize,
    levels: usize,
    records: &'a R,
) -> Option<(&'static str, Rest<'a>)>
    ensures { MatchOption result (IsJsonLeaf (R.records records.now) levels (namespace state index))
        (λ opened. IsJsonOpened (R.records records.now) levels (namespace state index)
        opened.0.now opened.1) }
{
    let Some(inside) = levels.checked_sub(1) else {
        return None;
    };
    match find_namespace(records, state, index) {
        Some(entries) => Some(("{", Rest::Pairs(entries.pairs(), false, inside))),
        None => None,
    }
}

// Writes a value without parts; other values are opened. A value that has no JSON, or a namespace
// that has no record, is written as null.
fn write_leaf<T: Target>(value: &Value, target: &mut T) -> Result<(), TargetFailed>
    ensures { Takes T.took T.stopped result target.old (leaf_json value.now) target.new }
{
    match &value.node {
        Node::Undefined(_) | Node::None => target.take_text("null"),
        Node::Boolean(false) => target.take_text("false"),
        Node::Boolean(true) => target.take_text("true"),
        Node::Number(number) => write_json_number(*number, target),
        Node::Text(content, _) => write_json_text(content.as_str(), target),
        Node::List(_, _) | Node::Map(_, _) | Node::Keywords(_, _) | Node::Exports(_, _, _) => {
            target.take_text("")
        }
        Node::Function(_) | Node::Macro(_) | Node::Loop(_, _) | Node::Namespace(_, _) => {
            target.take_text("null")
        }
    }
}

// Writes a key, with the text before it and its colon.
fn write_key<T: Target>(before: &str, key: &Value, target: &mut T) -> Result<(), TargetFailed>
    ensures { Takes T.took T.stopped result target.old
        (before.now ++ (key_text key.now ++ 58 ∷ [])) target.new }
{
    target.take_text(before)?;
    write_key_text(key, target)?;
    target.take_text(":")
}

fn write_key_text<T: Target>(key: &Value, target: &mut T) -> Result<(), TargetFailed>
    ensures { Takes T.took T.stopped result target.old (key_text key.now) target.new }
{
    match key.as_str() {
        Some(name) => write_json_text(name, target),
        None => write_json_text("", target),
    }
}

fn write_json_number<T: Target>(number: i128, target: &mut T) -> Result<(), TargetFailed>
    ensures { Takes T.took T.stopped result target.old
        (number_text (number_data number)) target.new }
{
    let mut buffer = itoa::Buffer::new();
    target.take_text(buffer.format(number))
}
