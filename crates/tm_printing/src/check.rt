//! Checks whether a value can be printed or written as JSON, without writing it.
ghost use Rattle.std.specs.Prelude.{◌≡◌, ℕ, ◌+◌, ◌≤◌, ◌<◌, ◌++◌, ◌∷◌, [], length, IfErr, MatchOption, OnOk};
ghost use Rattle.tm_values.specs.Answer.{IsAnswer};
ghost use Rattle.tm_values.specs.Writable.{fits_json};
ghost use Rattle.tm_values.specs.Records.{RecordData};
ghost use Rattle.tm_values.specs.Val.{val_size, vals_size, pairs_size, vals_of, pairs_of};
ghost use Rattle.tm_printing.specs.Writable.{is_plain};
ghost use Rattle.tm_printing.specs.Unchecked.{Goes, IsUncheckedLeaf, IsParts, IsMarked, IsUnmet, leaf_verdict, mark_at};
ghost use Rattle.tm_printing.specs.Unchecked.{nothing, one_weight, to_check};
ghost use Rattle.tm_definitions.specs.Verdicts.{in_json, key_verdict, if_holds, no_json, nowhere, items_verdict};
ghost use Rattle.tm_definitions.specs.Verdicts.{pairs_verdict, loop_verdict, verdict, verdict_within, print_verdict, json_verdict};

use std::alloc::Global;
use tm_definitions::OutputFormat;
use tm_values::{Error, ErrorKind, Node, Records, Value, ValueMap, find_loop, find_namespace};

/// Checks whether the value can be printed. InvalidOperation if a loop or a namespace in it has no
/// record, or a namespace contains itself. OutOfMemory if memory runs out for the work list or for
/// the marks of namespaces.
#[inline(always)]
pub fn check_print<R: Records>(alloc: Global, value: &Value, records: &R) -> Result<(), Error>
    ensures { IsAnswer result (print_verdict (R.records records.now) value.now) }
{
    match &value.node {
        Node::Undefined(_) | Node::None | Node::Boolean(_) | Node::Number(_) | Node::Text(_, _) =>
            Ok(()),
        _ => check(OutputFormat::Printed, alloc, value, records),
    }
}

/// Checks whether the value can be written as JSON. BadSerialization for a number outside -2^63 to
/// 2^64-1, a key that isn't a text, a function, a macro or a loop. InvalidOperation for a namespace
/// that has no record or contains itself. The leftmost of these is the error. OutOfMemory if memory
/// runs out for the work list or for the marks of namespaces.
pub fn check_json<R: Records>(alloc: Global, value: &Value, records: &R) -> Result<(), Error>
    ensures { IsAnswer result (json_verdict (R.records records.now) value.now) }
{
    check(OutputFormat::Json, alloc, value, records)
}

/// An entry of the work list.
#[derive(Clone, Copy)]
pub enum Unchecked<'a> {
    /// Items of a list.
    Items(&'a [Value]),
    /// Pairs of a map or a namespace.
    Pairs(&'a [(Value, Value)]),
    /// The value of a pair.
    Value(&'a Value),
    /// The end of the namespace with this number.
    End(usize),
}

/// What is known about a namespace.
#[derive(Clone, Copy)]
pub enum Mark {
    /// It hasn't been reached yet.
    Unmet,
    /// It is being checked.
    Open,
    /// It was checked, and nothing in it is refused.
    Fine,
}

// The work list holds what is left to check. `marks` holds the marks of the namespaces by number:
// each namespace is checked once.
fn check<R: Records>(
    form: OutputFormat,
    alloc: Global,
    value: &Value,
    records: &R,
) -> Result<(), Error>
    ensures { IsAnswer result (verdict_within form (R.records records.now)
        (length (R.records records.now).namespaces) nowhere value.now) }
{
    let mut left = Vec::new(alloc);
    let mut marks = Vec::new(alloc);
    enter(form, value, records, &mut left, &mut marks)?;
    while let Some(last) = left.pop() {
        check_one(form, last, records, &mut left, &mut marks)?
    }
    Ok(())
}

// Checks one entry of the work list.
fn check_one<'a, R: Records>(
    form: OutputFormat,
    last: Unchecked<'a>,
    records: &'a R,
    left: &mut Vec<Unchecked<'a>>,
    marks: &mut Vec<Mark>,
) -> Result<(), Error>
    ensures verdict { Goes form (R.records records.now) result nothing
        (left.old.items ++ last.entry ∷ []) marks.old.items left.new.items marks.new.items }
    ensures weight { OnOk result (to_check (R.records records.now) left.new.items marks.new.items
        < to_check (R.records records.now) left.old.items marks.old.items + one_weight last.entry) }
{
    match last {
        Unchecked::Items(items) => check_items(form, items, records, left, marks),
        Unchecked::Pairs(pairs) => check_pairs(form, pairs, records, left, marks),
        Unchecked::Value(value) => enter(form, value, records, left, marks),
        Unchecked::End(index) => set_mark(Mark::Fine, index, marks),
    }
}

// Checks the first item, and pushes the others on the work list.
fn check_items<'a, R: Records>(
    form: OutputFormat,
    items: &'a [Value],
    records: &'a R,
    left: &mut Vec<Unchecked<'a>>,
    marks: &mut Vec<Mark>,
) -> Result<(), Error>
    ensures verdict { Goes form (R.records records.now) result
        (λ inside. items_verdict form (R.records records.now) inside (vals_of items.now))
        left.old.items marks.old.items left.new.items marks.new.items }
    ensures weight { OnOk result (to_check (R.records records.now) left.new.items marks.new.items
        < to_check (R.records records.now) left.old.items marks.old.items
        + (vals_size (vals_of items.now) + 1)) }
{
    let Some((item, after)) = items.split_first() else {
        return Ok(());
    };
    put(Unchecked::Items(after), left)?;
    enter(form, item, records, left, marks)
}

// Checks the first key, and pushes its value and the other pairs on the work list.
fn check_pairs<'a, R: Records>(
    form: OutputFormat,
    pairs: &'a [(Value, Value)],
    records: &'a R,
    left: &mut Vec<Unchecked<'a>>,
    marks: &mut Vec<Mark>,
) -> Result<(), Error>
    ensures verdict { Goes form (R.records records.now) result
        (λ inside. pairs_verdict form (R.records records.now) inside (pairs_of pairs.now))
        left.old.items marks.old.items left.new.items marks.new.items }
    ensures weight { OnOk result (to_check (R.records records.now) left.new.items marks.new.items
        < to_check (R.records records.now) left.old.items marks.old.items
        + (pairs_size (pairs_of pairs.now) + 1)) }
{
    let Some((pair, after)) = pairs.split_first() else {
        return Ok(());
    };
    check_key(form, &pair.0)?;
    put(Unchecked::Pairs(after), left)?;
    put(Unchecked::Value(&pair.1), left)?;
    enter(form, &pair.0, records, left, marks)
}

// Checks a value without parts, or pushes the parts on the work list.
fn enter<'a, R: Records>(
    form: OutputFormat,
    value: &'a Value,
    records: &'a R,
    left: &mut Vec<Unchecked<'a>>,
    marks: &mut Vec<Mark>,
) -> Result<(), Error>
    ensures verdict { Goes form (R.records records.now) result
        (λ inside. verdict form (R.records records.now) inside value.now)
        left.old.items marks.old.items left.new.items marks.new.items }
    ensures weight { OnOk result (to_check (R.records records.now) left.new.items marks.new.items
        ≤ to_check (R.records records.now) left.old.items marks.old.items + val_size value.now) }
{
    if is_plain(form, value) {
        return Ok(());
    }
    match &value.node {
        Node::Namespace(state, index) => enter_namespace(
            form, *state, *index, records, left, marks,
        ),
        _ => match parts(form, value) {
            Some(parts) => put(parts, left),
            None => check_leaf(form, value, records),
        },
    }
}

// Opens a namespace that hasn't been reached yet. An open one contains itself.
fn enter_namespace<'a, R: Records>(
    form: OutputFormat,
    state: u64,
    index: usize,
    records: &'a R,
    left: &mut Vec<Unchecked<'a>>,
    marks: &mut Vec<Mark>,
) -> Result<(), Error>
    ensures verdict { Goes form (R.records records.now) result (λ inside. inside state index)
        left.old.items marks.old.items left.new.items marks.new.items }
    ensures weight { OnOk result (to_check (R.records records.now) left.new.items marks.new.items
        ≤ to_check (R.records records.now) left.old.items marks.old.items) }
{
    let Some(entries) = find_namespace(records, state, index) else {
        return Err(Error::from(ErrorKind::InvalidOperation));
    };
    match mark_at(index, marks.as_slice()) {
        Mark::Fine => Ok(()),
        Mark::Open => Err(Error::from(ErrorKind::InvalidOperation)),
        Mark::Unmet => open_namespace(index, entries, left, marks),
    }
}

// Pushes the end of a namespace and then its content on the work list. It is marked `Fine` only
// when its end is popped.
fn open_namespace<'a>(
    index: usize,
    entries: &'a ValueMap,
    left: &mut Vec<Unchecked<'a>>,
    marks: &mut Vec<Mark>,
) -> Result<(), Error>
    ensures verdict { (form : OutputFormat) (r : RecordData) (state : ℕ)
        → IsUnmet r state index entries.now marks.old.items
        → Goes form r result (λ inside. inside state index)
        left.old.items marks.old.items left.new.items marks.new.items }
    ensures weight { (r : RecordData) (state : ℕ)
        → IsUnmet r state index entries.now marks.old.items
        → OnOk result (to_check r left.new.items marks.new.items
        ≤ to_check r left.old.items marks.old.items) }
{
    set_mark(Mark::Open, index, marks)?;
    put(Unchecked::End(index), left)?;
    put(Unchecked::Pairs(entries.pairs()), left)
}

// The mark of a namespace.
fn mark_at(index: usize, marks: &[Mark]) -> Mark
    ensures { result ≡ mark_at marks.now index }
{
    match marks.get(index) {
        Some(mark) => *mark,
        None => Mark::Unmet,
    }
}

// Replaces the mark of a namespace.
fn set_mark(mark: Mark, index: usize, marks: &mut Vec<Mark>) -> Result<(), Error>
    ensures marked { OnOk result (IsMarked mark index marks.old.items marks.new.items) }
    ensures memory { IfErr result (λ e. e ≡ ErrorKind.OutOfMemory ∷ []) }
{
    if index < marks.len() {
        marks[index] = mark;
        return Ok(());
    }
    marks.resize(index, Mark::Unmet)?;
    marks.push(mark)?;
    Ok(())
}

fn put<'a>(unchecked: Unchecked<'a>, left: &mut Vec<Unchecked<'a>>) -> Result<(), Error>
    ensures items { OnOk result (left.new.items ≡ left.old.items ++ unchecked.entry ∷ []) }
    ensures memory { IfErr result (λ e. e ≡ ErrorKind.OutOfMemory ∷ []) }
{
    left.push(unchecked)?;
    Ok(())
}

// The parts of a list, a map or, for JSON, a module.
fn parts<'a>(form: OutputFormat, value: &'a Value) -> Option<Unchecked<'a>>
    ensures { MatchOption result (IsUncheckedLeaf form value.now) (IsParts form value.now) }
{
    match &value.node {
        Node::List(items, _) => Some(Unchecked::Items(items.as_slice())),
        Node::Map(pairs, _) | Node::Keywords(pairs, _) => {
            Some(Unchecked::Pairs(pairs.as_slice()))
        }
        Node::Exports(pairs, _, _) => match form {
            OutputFormat::Printed => None,
            OutputFormat::Json => Some(Unchecked::Pairs(pairs.as_slice())),
        },
        _ => None,
    }
}

// Checks a value without parts. The parts of other values are pushed on the work list.
fn check_leaf<R: Records>(form: OutputFormat, value: &Value, records: &R) -> Result<(), Error>
    ensures { IsAnswer result (leaf_verdict form (R.records records.now) value.now) }
{
    match &value.node {
        Node::Number(number) => check_number(form, *number),
        Node::Function(_) | Node::Macro(_) => check_unwritable(form),
        Node::Loop(state, index) => check_loop(form, *state, *index, records),
        _ => Ok(()),
    }
}

// Whether the value is never refused, whatever the records are.
fn is_plain(form: OutputFormat, value: &Value) -> bool
    ensures { result ≡ is_plain form value.now }
{
    match form {
        OutputFormat::Printed => value.writable().in_print,
        OutputFormat::Json => value.writable().in_json,
    }
}

fn check_number(form: OutputFormat, number: i128) -> Result<(), Error>
    ensures { IsAnswer result (in_json form (if_holds (fits_json number) no_json)) }
{
    match form {
        OutputFormat::Printed => Ok(()),
        OutputFormat::Json => {
            if -0x8000_0000_0000_0000 <= number && number <= 0xffff_ffff_ffff_ffff {
                Ok(())
            } else {
                Err(Error::from(ErrorKind::BadSerialization))
            }
        }
    }
}

fn check_key(form: OutputFormat, key: &Value) -> Result<(), Error>
    ensures { IsAnswer result (in_json form (key_verdict key.now)) }
{
    match (form, &key.node) {
        (OutputFormat::Printed, _) | (OutputFormat::Json, Node::Text(_, _)) => Ok(()),
        (OutputFormat::Json, _) => Err(Error::from(ErrorKind::BadSerialization)),
    }
}

fn check_unwritable(form: OutputFormat) -> Result<(), Error>
    ensures { IsAnswer result (in_json form no_json) }
{
    match form {
        OutputFormat::Printed => Ok(()),
        OutputFormat::Json => Err(Error::from(ErrorKind::BadSerialization)),
    }
}

fn check_loop<R: Records>(
    form: OutputFormat,
    state: u64,
    index: usize,
    records: &R,
) -> Result<(), Error>
    ensures { IsAnswer result (loop_verdict form (R.records records.now) state index) }
{
    match form {
        OutputFormat::Printed => match find_loop(records, state, index) {
            Some(_) => Ok(()),
            None => Err(Error::from(ErrorKind::InvalidOperation)),
        },
        OutputFormat::Json => Err(Error::from(ErrorKind::BadSerialization)),
    }
}
