//! Iterating over values, and unpacking them into several targets.
ghost use Rattle.std.specs.Prelude.{◌≡◌, ◌∷◌, [], IfErr, IfOk, Ok, map as each};
ghost use Rattle.std.specs.Str.{chars};
ghost use Rattle.tm_definitions.specs.Iteration.{IsAnswerRead, UnpacksAsIterated, keys_of, character_texts, items_or, items_of, iterated};
ghost use Rattle.tm_definitions.specs.Iteration.{exactly, unpacked};
ghost use Rattle.tm_definitions.specs.Members.{text_values};
ghost use Rattle.tm_definitions.specs.Names.{loop_names, macro_names};

use crate::names::{LOOP_NAMES, MACRO_NAMES};
use std::alloc::Global;
use std::rc::Rc;
use tm_primitives::characters;
use tm_values::{
    Error, ErrorKind, Node, Records, UndefinedBehavior, UndefinedUse, Value, check_defined,
    find_namespace,
};

/// The items that `for` iterates over: the items of a list, shared and not copied; the characters
/// of a text, not marked safe; the keys of a map, keyword map, module or namespace, in order; the
/// attribute names of a loop or a macro; and none for undefined. UndefinedError if the value is
/// undefined and the behaviour refuses that. InvalidOperation for other values, and for a namespace
/// that has no record. OutOfMemory if memory runs out, or if the list of a text's characters would
/// be larger than `most`.
pub fn iterate<R: Records>(
    alloc: Global,
    value: &Value,
    records: &R,
    behavior: UndefinedBehavior,
    most: usize,
) -> Result<Rc<Vec<Value>>, Error>
    ensures { IsAnswerRead result (λ items. items.value.items)
        (iterated behavior (R.records records.now) value.now) }
{
    check_defined(value, behavior, UndefinedUse::Iteration)?;
    items(alloc, value, records, most)
}

/// The items that are unpacked into `count` targets: those that `for` iterates over, except that
/// texts and undefined have none. CannotUnpack for other values, and if there aren't exactly
/// `count` items. InvalidOperation for a namespace that has no record. OutOfMemory if memory runs
/// out.
pub fn unpack<R: Records>(
    alloc: Global,
    value: &Value,
    count: usize,
    records: &R,
) -> Result<Rc<Vec<Value>>, Error>
    ensures { IsAnswerRead result (λ items. items.value.items)
        (unpacked (R.records records.now) count value.now) }
{
    let items = items_or(alloc, value, records, ErrorKind::CannotUnpack)?;
    exactly(alloc, items, count)
}

/// The items that `for` iterates over, except that texts and undefined have none. Those of a list
/// are shared and not copied. InvalidOperation for other values, and for a namespace that has no
/// record. OutOfMemory if memory runs out.
pub fn collection<R: Records>(
    alloc: Global,
    value: &Value,
    records: &R,
) -> Result<Rc<Vec<Value>>, Error>
    ensures { IsAnswerRead result (λ items. items.value.items)
        (items_or ErrorKind.InvalidOperation (R.records records.now) value.now) }
{
    items_or(alloc, value, records, ErrorKind::InvalidOperation)
}

/// The items that `for` iterates over, except that undefined has none. InvalidOperation for other
/// values, and for a namespace that has no record. OutOfMemory if memory runs out, or if the list of
/// a text's characters would be larger than `most`.
pub(crate) fn items<R: Records>(
    alloc: Global,
    value: &Value,
    records: &R,
    most: usize,
) -> Result<Rc<Vec<Value>>, Error>
    ensures { IsAnswerRead result (λ items. items.value.items)
        (items_of (R.records records.now) value.now) }
{
    match &value.node {
        Node::Text(content, _) => characters(alloc, content.as_str(), most),
        Node::Undefined(_) => Ok(Rc::new(alloc, Vec::new(alloc))?),
        _ => items_or(alloc, value, records, ErrorKind::InvalidOperation),
    }
}

// The items of all kinds except texts and undefined. Other values are refused with `refusal`.
fn items_or<R: Records>(
    alloc: Global,
    value: &Value,
    records: &R,
    refusal: ErrorKind,
) -> Result<Rc<Vec<Value>>, Error>
    ensures { IsAnswerRead result (λ items. items.value.items)
        (items_or refusal (R.records records.now) value.now) }
{
    match &value.node {
        Node::List(items, _) => Ok(items.clone()?),
        Node::Map(pairs, _) | Node::Keywords(pairs, _) | Node::Exports(pairs, _, _) => {
            keys(alloc, pairs.as_slice())
        }
        Node::Macro(_) => texts(alloc, &MACRO_NAMES),
        Node::Loop(_, _) => texts(alloc, &LOOP_NAMES),
        Node::Namespace(state, index) => match find_namespace(records, *state, *index) {
            Some(map) => keys(alloc, map.pairs()),
            None => Err(no_record(alloc)),
        },
        _ => Err(Error::new(alloc, refusal, "a value without items")),
    }
}

fn exactly(alloc: Global, items: Rc<Vec<Value>>, count: usize) -> Result<Rc<Vec<Value>>, Error>
    ensures { IsAnswerRead result (λ items. items.value.items)
        (exactly count (Ok items.value.items)) }
{
    if items.as_slice().len() == count {
        Ok(items)
    } else {
        Err(wrong_number(alloc))
    }
}

// Each character as a text of its own. OutOfMemory also if the list of them would be larger than
// `most`; then none is made.
fn characters(alloc: Global, content: &str, most: usize) -> Result<Rc<Vec<Value>>, Error>
    ensures { IsAnswerRead result (λ items. items.value.items)
        (Ok (character_texts (chars content.now))) }
{
    let mut values = room_for(alloc, characters::count(content), most)?;
    for character in content.chars() {
        let mut bytes = [0; 4];
        values.push(Value::text(alloc, character.encode_utf8(&mut bytes))?)?;
    }
    Ok(Rc::new(alloc, values)?)
}

// An empty vector with room for a list of `count` small values. OutOfMemory if the list would be
// larger than `most`.
fn room_for(alloc: Global, count: usize, most: usize) -> Result<Vec<Value>, Error>
    ensures empty { IfOk result (λ values. values.items ≡ []) }
    ensures kind { IfErr result (λ e. e ≡ ErrorKind.OutOfMemory ∷ []) }
{
    if count.saturating_mul(2) >= most {
        return Err(Error::from(ErrorKind::OutOfMemory));
    }
    Ok(Vec::with_capacity(alloc, count)?)
}

fn keys(alloc: Global, pairs: &[(Value, Value)]) -> Result<Rc<Vec<Value>>, Error>
    ensures { IsAnswerRead result (λ items. items.value.items) (Ok (keys_of pairs.now)) }
{
    let mut keys = Vec::with_capacity(alloc, pairs.len())?;
    for pair in pairs {
        keys.push(pair.0.share()?)?;
    }
    Ok(Rc::new(alloc, keys)?)
}

fn texts(alloc: Global, names: &[&str]) -> Result<Rc<Vec<Value>>, Error>
    ensures { IsAnswerRead result (λ items. items.value.items)
        (Ok (text_values (each (λ name. name.now) names.now))) }
{
    let mut values = Vec::with_capacity(alloc, names.len())?;
    for name in names {
        values.push(Value::text(alloc, name)?)?;
    }
    Ok(Rc::new(alloc, values)?)
}

#[cold]
#[inline(never)]
fn no_record(alloc: Global) -> Error
    ensures { result ≡ ErrorKind.InvalidOperation ∷ [] }
{
    Error::new(
        alloc,
        ErrorKind::InvalidOperation,
        "a namespace of another state",
    )
}

#[cold]
#[inline(never)]
fn wrong_number(alloc: Global) -> Error
    ensures { result ≡ ErrorKind.CannotUnpack ∷ [] }
{
    Error::new(
        alloc,
        ErrorKind::CannotUnpack,
        "as many values as targets are needed",
    )
}

/// Unpacking yields the items that `for` iterates over.
pub fn unpack_law()
    ensures { UnpacksAsIterated }
{}
