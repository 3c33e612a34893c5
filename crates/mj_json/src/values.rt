//! Converting JSON to values.
ghost use Rattle.std.specs.Prelude.{◌≡◌, false, Some, Ok, IfOk, MatchResult, string_bytes};
ghost use Rattle.serde_json.specs.View.{view, items_view, members_view};
ghost use Rattle.tm_values.specs.Map.{put_all, IsMap};
ghost use Rattle.tm_values.specs.Val.{map, text, pairs_of};
ghost use Rattle.mj_json.specs.Json as spec;

use crate::keys::Keys;
use mj_words::Refusal;
use serde_json::{Map, Value as Json};
use std::alloc::Global;
use std::mem;
use tm_values::{Error, SharedText, Value, ValueMap};

/// The value of a JSON value, whose texts are moved out. Usage if it contains a float. OutOfMemory
/// if memory runs out.
#[cycle(values)]
fn value_of(alloc: Global, keys: &mut Keys, json: &mut Json) -> Result<Value, Refusal>
    ensures { spec.IsConverted result (spec.value_of (view json.old)) }
{
    match json {
        Json::Null => Ok(Value::none()),
        Json::Bool(truth) => Ok(Value::boolean(*truth)),
        Json::Number(number) => Ok(Value::number(number.as_i128().ok_or(Refusal::Usage)?)),
        Json::String(content) => text_of(alloc, content),
        Json::Array(items) => made(Value::list(
            alloc,
            values_of(alloc, keys, items.as_mut_slice())?,
        )),
        Json::Object(members) => map_of(alloc, members_of(alloc, keys, members)?),
    }
}

/// The values of the items of an array. The errors are the same.
#[cycle(values)]
fn values_of(alloc: Global, keys: &mut Keys, items: &mut [Json]) -> Result<Vec<Value>, Refusal>
    ensures { MatchResult result
        (λ values. spec.values_of (items_view items.old) ≡ Some values.items)
        (λ e. spec.IsRefusal e (spec.values_of (items_view items.old))) }
{
    let mut values = Vec::with_capacity(alloc, items.len())?;
    for item in items.iter_mut() {
        values.push(value_of(alloc, keys, item)?)?;
    }
    Ok(values)
}

/// The keys and values of an object's members, in the order of the keys. The errors are the same.
#[cycle(values)]
pub(crate) fn members_of(
    alloc: Global,
    keys: &mut Keys,
    members: &mut Map<String, Json>,
) -> Result<Vec<(Value, Value)>, Refusal>
    ensures members { MatchResult result
        (λ pairs. spec.members_of (members_view members.old.entries) ≡ Some pairs.items)
        (λ e. spec.IsRefusal e (spec.members_of (members_view members.old.entries))) }
    ensures ordered { IfOk result (λ pairs. IsMap pairs.items) }
{
    let mut pairs = Vec::with_capacity(alloc, members.len())?;
    for (key, member) in members.iter_mut() {
        let key = keys.key(alloc, key.as_str())?;
        pairs.push((key, value_of(alloc, keys, member)?))?;
    }
    Ok(pairs)
}

/// The text as a value; an empty text is left in its place. OutOfMemory if memory runs out.
fn text_of(alloc: Global, content: &mut String) -> Result<Value, Refusal>
    ensures { MatchResult result (λ value. value ≡ text (string_bytes content.old) false)
        (λ e. e ≡ Refusal.OutOfMemory) }
{
    let content = mem::replace(content, String::new(alloc));
    Ok(Value::shared_text(SharedText::from_string(content)?, false))
}

/// The map of the pairs, whose keys must be ascending. OutOfMemory if memory runs out.
fn map_of(alloc: Global, pairs: Vec<(Value, Value)>) -> Result<Value, Refusal>
    requires { IsMap pairs.items }
    ensures { MatchResult result (λ value. value ≡ map (pairs_of (put_all pairs.items)))
        (λ e. e ≡ Refusal.OutOfMemory) }
{
    made(Value::from_map(alloc, ValueMap::from_ascending(pairs)))
}

/// Converts the error, which is always OutOfMemory.
fn made<T: Drop>(answer: Result<T, Error>) -> Result<T, Refusal>
    ensures { MatchResult result (λ value. answer ≡ Ok value) (λ e. e ≡ Refusal.OutOfMemory) }
{
    match answer {
        Ok(value) => Ok(value),
        Err(_error) => Err(Refusal::OutOfMemory),
    }
}
