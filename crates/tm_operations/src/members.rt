//! Attributes and items.
ghost use Rattle.std.specs.Prelude.{◌≡◌, ◌∷◌, [], Some, Ok, option_map, slice_get, map as each};
ghost use Rattle.std.specs.Rc.{rc_str_bytes};
ghost use Rattle.tm_definitions.specs.Members.{or_undefined, loop_attribute_named, at_item, loop_member, macro_member, member_of_undefined};
ghost use Rattle.tm_definitions.specs.Members.{attribute_of, item_of, list_item, text_item, loop_item, settable, is_callable, text_values};
ghost use Rattle.tm_values.specs.Answer.{IsAnswer};
ghost use Rattle.tm_values.specs.Records.{LoopData, loop_at};
ghost use Rattle.tm_values.specs.Position.{position_of};
ghost use Rattle.tm_values.specs.Val.{list, vals_of, text_in};

use std::alloc::Global;
use std::rc::RcStr;
use tm_definitions::LoopAttribute;
use tm_primitives::{characters, places};
use tm_values::{
    Error, ErrorKind, LoopPosition, MacroValue, Node, Records, UndefinedBehavior, UndefinedUse,
    Value, check_defined, find_loop, find_namespace,
};

/// The attribute `value.name`: the value at that key of a map, keyword map, module or namespace, or
/// what a loop or a macro says about itself. Undefined if there is no such attribute.
/// UndefinedError if the value is undefined and the behaviour refuses that. InvalidOperation for a
/// loop or a namespace that has no record. OutOfMemory if memory runs out.
pub fn attribute<R: Records>(
    alloc: Global,
    value: &Value,
    name: &str,
    records: &R,
    behavior: UndefinedBehavior,
) -> Result<Value, Error>
    ensures { IsAnswer result (attribute_of behavior (R.records records.now) value.now name.now) }
{
    match &value.node {
        Node::Undefined(_) => undefined_member(value, behavior),
        Node::Map(_, _) | Node::Keywords(_, _) | Node::Exports(_, _, _) => shared(value.member(
            name,
        )),
        Node::Macro(declared) => macro_member(alloc, declared, name),
        Node::Loop(state, index) => loop_member(alloc, *state, *index, name, records),
        Node::Namespace(state, index) => match find_namespace(records, *state, *index) {
            Some(pairs) => shared(pairs.member(name)),
            None => Err(no_record(alloc)),
        },
        _ => Ok(Value::undefined()),
    }
}

/// The item `value[key]`: the value at that key of a map, keyword map, module or namespace; the
/// item or character at that index of a list or a text, where a negative index counts from the end,
/// and a character isn't marked safe; or, for a text as key, what a loop or a macro says about
/// itself. Undefined if there is no such item. The errors are those of `attribute`.
pub fn item<R: Records>(
    alloc: Global,
    value: &Value,
    key: &Value,
    records: &R,
    behavior: UndefinedBehavior,
) -> Result<Value, Error>
    ensures { IsAnswer result (item_of behavior (R.records records.now) value.now key.now) }
{
    match &value.node {
        Node::Undefined(_) => undefined_member(value, behavior),
        Node::Text(content, _) => text_item(alloc, content.as_str(), key),
        Node::List(items, _) => list_item(items.as_slice(), key),
        Node::Map(_, _) | Node::Keywords(_, _) | Node::Exports(_, _, _) => shared(value.at_key(
            key,
        )),
        Node::Macro(declared) => match key.as_str() {
            Some(name) => macro_member(alloc, declared, name),
            None => Ok(Value::undefined()),
        },
        Node::Loop(state, index) => loop_item(alloc, *state, *index, key, records),
        Node::Namespace(state, index) => match find_namespace(records, *state, *index) {
            Some(pairs) => shared(pairs.get(key)),
            None => Err(no_record(alloc)),
        },
        _ => Ok(Value::undefined()),
    }
}

/// The number of a namespace whose attributes may be set. InvalidOperation for every value except a
/// namespace of this state. OutOfMemory if memory runs out.
pub fn check_settable<R: Records>(alloc: Global, value: &Value, records: &R) -> Result<usize, Error>
    ensures { IsAnswer result (settable (R.records records.now) value.now) }
{
    match &value.node {
        Node::Namespace(state, index) => match find_namespace(records, *state, *index) {
            Some(_) => Ok(*index),
            None => Err(no_record(alloc)),
        },
        _ => Err(Error::new(
            alloc,
            ErrorKind::InvalidOperation,
            "only the attributes of a namespace can be set",
        )),
    }
}

/// Whether values of this kind can be called: functions, macros and loops.
pub fn is_callable(value: &Value) -> bool
    ensures { result ≡ is_callable value.now }
{
    matches!(
        &value.node,
        Node::Function(_) | Node::Macro(_) | Node::Loop(_, _)
    )
}

#[cold]
#[inline(never)]
fn no_record(alloc: Global) -> Error
    ensures { result ≡ ErrorKind.InvalidOperation ∷ [] }
{
    Error::new(
        alloc,
        ErrorKind::InvalidOperation,
        "a loop or a namespace of another state",
    )
}

// A second owner of the value, or undefined if there is none.
fn shared(found: Option<&Value>) -> Result<Value, Error>
    ensures { IsAnswer result (Ok (or_undefined (option_map (λ v. v.now) found.entry))) }
{
    match found {
        Some(value) => value.share(),
        None => Ok(Value::undefined()),
    }
}

// An attribute or an item of an undefined value, if the behaviour allows it.
fn undefined_member(value: &Value, behavior: UndefinedBehavior) -> Result<Value, Error>
    ensures { result ≡ member_of_undefined behavior value.now }
{
    check_defined(value, behavior, UndefinedUse::Member)?;
    Ok(Value::undefined())
}

fn macro_member(alloc: Global, declared: &MacroValue, name: &str) -> Result<Value, Error>
    ensures { IsAnswer result (Ok (macro_member declared.now name.now)) }
{
    if name == "name" {
        Value::text(alloc, declared.name())
    } else if name == "arguments" {
        text_list(alloc, declared.arguments())
    } else if name == "caller" {
        Ok(Value::boolean(declared.takes_caller()))
    } else {
        Ok(Value::undefined())
    }
}

// The list of these texts, not marked safe.
fn text_list(alloc: Global, texts: &[RcStr]) -> Result<Value, Error>
    ensures { IsAnswer result (Ok (list (vals_of (text_values (each rc_str_bytes texts.now))))) }
{
    let mut values = Vec::with_capacity(alloc, texts.len())?;
    for text in texts {
        values.push(Value::text(alloc, text.as_str())?)?;
    }
    Value::list(alloc, values)
}

fn loop_member<R: Records>(
    alloc: Global,
    state: u64,
    index: usize,
    name: &str,
    records: &R,
) -> Result<Value, Error>
    ensures { IsAnswer result (loop_member (loop_at (R.records records.now) state index) name.now) }
{
    let Some(position) = find_loop(records, state, index) else {
        return Err(no_record(alloc));
    };
    match (position.place, loop_attribute(name)) {
        (Some(place), Some(attribute)) => loop_value(records, index, position, place, attribute),
        _ => Ok(Value::undefined()),
    }
}

// The attribute of a loop with this name, if there is one.
fn loop_attribute(name: &str) -> Option<LoopAttribute>
    ensures { result ≡ loop_attribute_named name.now }
{
    if name == "index0" {
        Some(LoopAttribute::Index0)
    } else if name == "index" {
        Some(LoopAttribute::Index)
    } else if name == "length" {
        Some(LoopAttribute::Length)
    } else if name == "revindex" {
        Some(LoopAttribute::RevIndex)
    } else if name == "revindex0" {
        Some(LoopAttribute::RevIndex0)
    } else if name == "first" {
        Some(LoopAttribute::First)
    } else if name == "last" {
        Some(LoopAttribute::Last)
    } else if name == "depth" {
        Some(LoopAttribute::Depth)
    } else if name == "depth0" {
        Some(LoopAttribute::Depth0)
    } else if name == "previtem" {
        Some(LoopAttribute::PrevItem)
    } else if name == "nextitem" {
        Some(LoopAttribute::NextItem)
    } else {
        None
    }
}

// The value of a loop's attribute, for a loop at an item.
fn loop_value<R: Records>(
    records: &R,
    index: usize,
    position: LoopPosition,
    place: usize,
    attribute: LoopAttribute,
) -> Result<Value, Error>
    ensures { (l : LoopData) → slice_get (R.records records.now).loops index ≡ Some l
        → position_of l ≡ position → IsAnswer result (Ok (at_item l place attribute)) }
{
    let count = position.count;
    let left = count.saturating_sub(place);
    Ok(match attribute {
        LoopAttribute::Index0 => Value::number(place as i128),
        LoopAttribute::Index => Value::number(place as i128 + 1),
        LoopAttribute::Length => Value::number(count as i128),
        LoopAttribute::RevIndex => Value::number(left as i128),
        LoopAttribute::RevIndex0 => Value::number(left.saturating_sub(1) as i128),
        LoopAttribute::First => Value::boolean(place == 0),
        LoopAttribute::Last => Value::boolean(place == count.saturating_sub(1)),
        LoopAttribute::Depth => Value::number(position.depth as i128 + 1),
        LoopAttribute::Depth0 => Value::number(position.depth as i128),
        LoopAttribute::PrevItem => return shared(records.previous_item(index)),
        LoopAttribute::NextItem => return shared(records.following_item(index)),
    })
}

fn loop_item<R: Records>(
    alloc: Global,
    state: u64,
    index: usize,
    key: &Value,
    records: &R,
) -> Result<Value, Error>
    ensures { IsAnswer result
        (loop_item (loop_at (R.records records.now) state index) (text_in key.now)) }
{
    match key.as_str() {
        Some(name) => loop_member(alloc, state, index, name, records),
        None => match find_loop(records, state, index) {
            Some(_) => Ok(Value::undefined()),
            None => Err(no_record(alloc)),
        },
    }
}

fn list_item(items: &[Value], key: &Value) -> Result<Value, Error>
    ensures { IsAnswer result (Ok (list_item items.now key.now)) }
{
    match &key.node {
        Node::Number(index) => match places::place(items.len(), *index) {
            Some(place) => items[place].share(),
            None => Ok(Value::undefined()),
        },
        _ => Ok(Value::undefined()),
    }
}

fn text_item(alloc: Global, content: &str, key: &Value) -> Result<Value, Error>
    ensures { IsAnswer result (Ok (text_item content.now key.now)) }
{
    match &key.node {
        Node::Number(index) => match places::place(characters::count(content), *index) {
            Some(place) => match characters::character(content, place) {
                Some(character) => Value::text(alloc, character),
                None => Ok(Value::undefined()),
            },
            None => Ok(Value::undefined()),
        },
        _ => Ok(Value::undefined()),
    }
}
