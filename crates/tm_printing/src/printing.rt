//! Writing values as text, piece by piece.
ghost use Rattle.std.specs.Prelude.{◌≡◌, Some, None, MatchOption, flat_map, decimal};
ghost use Rattle.tm_output.specs.Targets.{Takes};
ghost use Rattle.tm_values.specs.Val.{namespace};
ghost use Rattle.tm_definitions.specs.Emitted.{html_text};
ghost use Rattle.tm_definitions.specs.Loops.{loop_text, position_text, progress_text};
ghost use Rattle.tm_definitions.specs.Printed.{printed, bare_text, inner, comma_after, namespace_text, macro_text};
ghost use Rattle.tm_printing.specs.Left.{Writes};
ghost use Rattle.tm_printing.specs.Rests.{IsNext, IsNextRestLighter, IsOpened, IsLeaf, leaf_text};

use crate::rest::{NextValue, Rest, Unwritten};
use crate::spelling::{Escape, Html, Verbatim};
use crate::text::{write_number, write_quoted, write_spelled};
use crate::walk::{Notation, write_parts};
use std::alloc::Global;
use tm_output::{Target, TargetFailed};
use tm_values::{LoopPosition, MacroValue, Node, Records, Value, find_loop, find_namespace};

/// Writes the printed text of the value. Call `check_print` first: a value that it refuses has no
/// text. `Target` if the target fails, `Memory` if memory runs out for the work list.
pub fn print<R: Records, T: Target>(
    alloc: Global,
    value: &Value,
    records: &R,
    target: &mut T,
) -> Result<(), Unwritten>
    ensures { Writes T.took T.stopped result target.old
        (printed (R.records records.now) value.now) target.new }
{
    write_value::<Verbatim, R, T>(alloc, value, records, target)
}

/// Writes the printed text of the value, escaped for HTML as a whole. Call `check_print` first.
/// `Target` if the target fails, `Memory` if memory runs out for the work list.
pub fn write_html<R: Records, T: Target>(
    alloc: Global,
    value: &Value,
    records: &R,
    target: &mut T,
) -> Result<(), Unwritten>
    ensures { Writes T.took T.stopped result target.old
        (html_text (R.records records.now) value.now) target.new }
{
    write_value::<Html, R, T>(alloc, value, records, target)
}

// Writes the value as it is printed on its own.
fn write_value<E: Escape, R: Records, T: Target>(
    alloc: Global,
    value: &Value,
    records: &R,
    target: &mut T,
) -> Result<(), Unwritten>
    ensures { Writes T.took T.stopped result target.old
        (flat_map E.spelled (printed (R.records records.now) value.now)) target.new }
{
    match bare_text(value) {
        Some(text) => Ok(write_spelled::<E, T>(text, target)?),
        None => write_parts::<E, R, T>(alloc, value, records, target),
    }
}

// The printed text of a value that has no parts, and no quotes when printed on its own.
fn bare_text(value: &Value) -> Option<&str>
    ensures { MatchOption result (bare_text value.now ≡ None)
        (λ s. bare_text value.now ≡ Some s.now) }
{
    match &value.node {
        Node::Undefined(_) => Some(""),
        Node::Text(content, _) => Some(content.as_str()),
        _ => None,
    }
}

// The notation of a value inside a list or a map.
impl<E: Escape> Notation for E {
    ghost use Rattle.std.specs.Prelude.{flat_map};
    ghost use Rattle.tm_definitions.specs.Printed.{inner, namespace_text};
    ghost use Rattle.tm_printing.specs.Rests.{printed_rest};

    ghost value_text = { λ r levels v. flat_map E.spelled (inner r (namespace_text r levels) v) };

    ghost rest_text = { λ r rest. flat_map E.spelled (printed_rest r rest) };

    fn begin<'a, R: Records, T: Target>(
        value: &'a Value,
        levels: usize,
        records: &'a R,
        target: &mut T,
    ) -> Result<Option<Rest<'a>>, TargetFailed> {
        match open(value, levels, records) {
            Some((opening, rest)) => {
                write_spelled::<E, T>(opening, target)?;
                Ok(Some(rest))
            }
            None => {
                write_leaf::<E, R, T>(value, records, target)?;
                Ok(None)
            }
        }
    }

    fn advance<'a, T: Target>(
        rest: Rest<'a>,
        target: &mut T,
    ) -> Result<Option<NextValue<'a>>, TargetFailed> {
        match take_next(rest) {
            TextPart::Value(before, step) => {
                write_spelled::<E, T>(before, target)?;
                Ok(Some(step))
            }
            TextPart::End(closing) => {
                write_spelled::<E, T>(closing, target)?;
                Ok(None)
            }
        }
    }
}

/// The next part of a list or a map.
#[derive(Clone, Copy)]
pub enum TextPart<'a> {
    /// A text, and then a value.
    Value(&'static str, NextValue<'a>),
    /// The closing bracket.
    End(&'static str),
}

// The next part.
fn take_next<'a>(rest: Rest<'a>) -> TextPart<'a>
    ensures text { IsNext rest.entry result }
    ensures weight { IsNextRestLighter rest.entry result }
{
    match rest {
        Rest::Items(left, later, levels) => match left.split_first() {
            Some((value, left)) => TextPart::Value(
                comma(later),
                NextValue {
                    value,
                    levels,
                    after: Rest::Items(left, true, levels),
                },
            ),
            None => TextPart::End("]"),
        },
        Rest::Pairs(left, later, levels) => match left.split_first() {
            Some((pair, left)) => TextPart::Value(
                comma(later),
                NextValue {
                    value: &pair.0,
                    levels,
                    after: Rest::Member(&pair.1, left, levels),
                },
            ),
            None => TextPart::End("}"),
        },
        Rest::Member(value, left, levels) => TextPart::Value(
            ": ",
            NextValue {
                value,
                levels,
                after: Rest::Pairs(left, true, levels),
            },
        ),
    }
}

fn comma(later: bool) -> &'static str
    ensures { result.now ≡ comma_after later }
{
    if later { ", " } else { "" }
}

// The bracket that opens a list, a map or a namespace that has a record, and what is left after it.
fn open<'a, R: Records>(
    value: &'a Value,
    levels: usize,
    records: &'a R,
) -> Option<(&'static str, Rest<'a>)>
    ensures { MatchOption result (IsLeaf (R.records records.now) levels value.now)
        (λ opened. IsOpened (R.records records.now) levels value.now opened.0.now opened.1) }
{
    match &value.node {
        Node::List(items, _) => Some(("[", Rest::Items(items.as_slice(), false, levels))),
        Node::Map(pairs, _) | Node::Keywords(pairs, _) => {
            Some(("{", Rest::Pairs(pairs.as_slice(), false, levels)))
        }
        Node::Namespace(state, index) => open_namespace(*state, *index, levels, records),
        _ => None,
    }
}

fn open_namespace<'a, R: Records>(
    state: u64,
    index: usize,
    levels: usize,
    records: &'a R,
) -> Option<(&'static str, Rest<'a>)>
    ensures { MatchOption result (IsLeaf (R.records records.now) levels (namespace state index))
        (λ opened. IsOpened (R.records records.now) levels (namespace state index)
        opened.0.now opened.1) }
{
    let Some(inside) = levels.checked_sub(1) else {
        return None;
    };
    match find_namespace(records, state, index) {
        Some(entries) => Some(("{", Rest::Pairs(entries.pairs(), false, inside))),
        None => None,
    }
}

// Writes a value without parts; other values are opened. A namespace that has no record has no
// text.
fn write_leaf<E: Escape, R: Records, T: Target>(
    value: &Value,
    records: &R,
    target: &mut T,
) -> Result<(), TargetFailed>
    ensures { Takes T.took T.stopped result target.old
        (flat_map E.spelled (leaf_text (R.records records.now) value.now)) target.new }
{
    match &value.node {
        Node::Undefined(_) => write_spelled::<E, T>("undefined", target),
        Node::None => write_spelled::<E, T>("none", target),
        Node::Boolean(false) => write_spelled::<E, T>("false", target),
        Node::Boolean(true) => write_spelled::<E, T>("true", target),
        Node::Number(number) => write_number::<E, T>(*number, target),
        Node::Text(content, _) => write_quoted::<E, T>(content.as_str(), target),
        Node::Exports(_, content, _) => write_spelled::<E, T>(content.as_str(), target),
        Node::Function(_) => write_spelled::<E, T>("<function>", target),
        Node::Macro(declared) => write_macro::<E, T>(declared, target),
        Node::Loop(state, index) => write_loop::<E, R, T>(*state, *index, records, target),
        Node::List(_, _) | Node::Map(_, _) | Node::Keywords(_, _) | Node::Namespace(_, _) => {
            write_spelled::<E, T>("", target)
        }
    }
}

fn write_macro<E: Escape, T: Target>(
    declared: &MacroValue,
    target: &mut T,
) -> Result<(), TargetFailed>
    ensures { Takes T.took T.stopped result target.old
        (flat_map E.spelled (macro_text declared.now)) target.new }
{
    write_spelled::<E, T>("<macro ", target)?;
    write_spelled::<E, T>(declared.name(), target)?;
    write_spelled::<E, T>(">", target)
}

fn write_loop<E: Escape, R: Records, T: Target>(
    state: u64,
    index: usize,
    records: &R,
    target: &mut T,
) -> Result<(), TargetFailed>
    ensures { Takes T.took T.stopped result target.old (flat_map E.spelled
        (loop_text (R.records records.now) state index)) target.new }
{
    match find_loop(records, state, index) {
        Some(position) => write_position::<E, T>(position, target),
        None => Ok(()),
    }
}

fn write_position<E: Escape, T: Target>(
    position: LoopPosition,
    target: &mut T,
) -> Result<(), TargetFailed>
    ensures { Takes T.took T.stopped result target.old
        (flat_map E.spelled (position_text position)) target.new }
{
    write_spelled::<E, T>("<loop ", target)?;
    write_progress::<E, T>(position, target)?;
    write_spelled::<E, T>(">", target)
}

fn write_progress<E: Escape, T: Target>(
    position: LoopPosition,
    target: &mut T,
) -> Result<(), TargetFailed>
    ensures { Takes T.took T.stopped result target.old
        (flat_map E.spelled (progress_text position)) target.new }
{
    write_count::<E, T>(position.place.unwrap_or(0), target)?;
    write_spelled::<E, T>("/", target)?;
    write_count::<E, T>(position.count, target)
}

fn write_count<E: Escape, T: Target>(count: usize, target: &mut T) -> Result<(), TargetFailed>
    ensures { Takes T.took T.stopped result target.old
        (flat_map E.spelled (decimal count)) target.new }
{
    let mut buffer = itoa::Buffer::new();
    target.take_text(buffer.format(count))
}
