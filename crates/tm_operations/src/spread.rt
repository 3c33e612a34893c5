//! The arguments that `*` and `**` add to a call.
ghost use Rattle.std.specs.Prelude.{◌≡◌, ◌++◌, ◌∷◌, [], Ok, IfErr, OnOk};
ghost use Rattle.tm_definitions.specs.Iteration.{IsAnswerRead, items_of};
ghost use Rattle.tm_definitions.specs.Spread.{items_of_all, merged, pairs_in, spread_items, spread_pairs};
ghost use Rattle.tm_values.specs.Answer.{IsAnswer};
ghost use Rattle.tm_operations.specs.Added.{AddsValues};

use crate::iteration::items;
use crate::maps::{not_a_map, share_pairs};
use std::alloc::Global;
use tm_values::{
    Error, ErrorKind, Node, Records, UndefinedBehavior, UndefinedUse, Value, ValueMap,
    check_defined, find_namespace,
};

/// The items of the values after `*` in a call, concatenated: those that `for` iterates over,
/// except that undefined has none. InvalidOperation for values without items and for a namespace
/// that has no record. OutOfMemory if memory runs out, or if there would be more than `most` items.
pub fn spread_items<R: Records>(
    alloc: Global,
    values: &[Value],
    records: &R,
    behavior: UndefinedBehavior,
    most: usize,
) -> Result<Vec<Value>, Error>
    ensures { IsAnswerRead result (λ all. all.items)
        (items_of_all behavior (R.records records.now) values.now) }
{
    let mut all = Vec::new(alloc);
    for value in values {
        add_items(alloc, value, records, behavior, most, &mut all)?;
    }
    Ok(all)
}

// Appends the items of a value.
fn add_items<R: Records>(
    alloc: Global,
    value: &Value,
    records: &R,
    behavior: UndefinedBehavior,
    most: usize,
    all: &mut Vec<Value>,
) -> Result<(), Error>
    ensures { AddsValues result (spread_items behavior (R.records records.now) value.now)
        all.old.items all.new.items }
{
    check_defined(value, behavior, UndefinedUse::ItemSpread)?;
    let found = items(alloc, value, records, most)?;
    share_values(found.as_slice(), most, all)
}

// Appends a second owner of each value. OutOfMemory also if there would be more than `most`.
fn share_values(values: &[Value], most: usize, all: &mut Vec<Value>) -> Result<(), Error>
    ensures { AddsValues result (Ok values.now) all.old.items all.new.items }
{
    make_room(values.len(), most, all)?;
    for value in values {
        all.push(value.share()?)?;
    }
    Ok(())
}

// Reserves room for `count` more values. OutOfMemory also if there would be more than `most`.
fn make_room<T: Drop>(count: usize, most: usize, all: &mut Vec<T>) -> Result<(), Error>
    ensures same { all.new.items ≡ all.old.items }
    ensures kind { IfErr result (λ e. e ≡ ErrorKind.OutOfMemory ∷ []) }
{
    if all.len().saturating_add(count) > most {
        return Err(Error::from(ErrorKind::OutOfMemory));
    }
    Ok(all.reserve(count)?)
}

/// The map of the values after `**` in a call and of keyword arguments: the pairs of maps, keyword
/// maps, modules and namespaces. Of equal keys the last value counts. UndefinedError if a value is
/// undefined and the behaviour refuses that. InvalidOperation for other values and for a namespace
/// that has no record. OutOfMemory if memory runs out, or if there would be more than `most` pairs
/// before those with equal keys are merged.
pub fn merge_maps<R: Records>(
    alloc: Global,
    values: &[Value],
    records: &R,
    behavior: UndefinedBehavior,
    most: usize,
) -> Result<ValueMap, Error>
    ensures { IsAnswer result (merged behavior (R.records records.now) values.now) }
{
    let mut pairs = Vec::new(alloc);
    for value in values {
        add_pairs(alloc, value, records, behavior, most, &mut pairs)?;
    }
    ValueMap::from_pairs(pairs)
}

// Appends the pairs of a value.
fn add_pairs<R: Records>(
    alloc: Global,
    value: &Value,
    records: &R,
    behavior: UndefinedBehavior,
    most: usize,
    all: &mut Vec<(Value, Value)>,
) -> Result<(), Error>
    ensures { AddsValues result (spread_pairs behavior (R.records records.now) value.now)
        all.old.items all.new.items }
{
    check_defined(value, behavior, UndefinedUse::KeywordSpread)?;
    let found = pairs(alloc, value, records)?;
    make_room(found.len(), most, all)?;
    share_pairs(found, all)
}

// The pairs of a map, a keyword map, a module or a namespace.
fn pairs<'a, R: Records>(
    alloc: Global,
    value: &'a Value,
    records: &'a R,
) -> Result<&'a [(Value, Value)], Error>
    ensures { IsAnswerRead result (λ found. found.now)
        (pairs_in (R.records records.now) value.now) }
{
    match &value.node {
        Node::Map(pairs, _) | Node::Keywords(pairs, _) | Node::Exports(pairs, _, _) => {
            Ok(pairs.as_slice())
        }
        Node::Namespace(state, index) => match find_namespace(records, *state, *index) {
            Some(map) => Ok(map.pairs()),
            None => Err(not_a_map(alloc)),
        },
        _ => Err(not_a_map(alloc)),
    }
}
