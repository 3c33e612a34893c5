//! Slices.
ghost use Rattle.std.specs.Prelude.{◌≡◌, ◌≢◌, ◌<◌, ◌∷◌, [], pos, length, Some, OnSome, All};
ghost use Rattle.tm_definitions.specs.Slices.{bound_in, step_in, parts_in, list_at, cut, cut_by, sliced};
ghost use Rattle.tm_primitives.specs.Places.{places_of};
ghost use Rattle.tm_values.specs.Answer.{IsAnswer};

use std::alloc::Global;
use tm_primitives::characters;
use tm_primitives::places::Places;
use tm_values::{
    Error, ErrorKind, Node, SharedText, UndefinedBehavior, UndefinedUse, Value, check_defined,
};

/// The slice `value[start:stop:step]`: a list of items, or a text of characters, not marked safe.
/// The slice of undefined or none is the empty list. The bounds and the step are whole numbers, or
/// none if they are missing; negative bounds count from the end. UndefinedError if the value is
/// undefined and the behaviour refuses that. InvalidOperation for other bounds or steps, for a step
/// of 0 and for other values. OutOfMemory if memory runs out.
pub fn slice(
    alloc: Global,
    value: &Value,
    start: &Value,
    stop: &Value,
    step: &Value,
    behavior: UndefinedBehavior,
) -> Result<Value, Error>
    ensures { IsAnswer result (sliced behavior value.now start.now stop.now step.now) }
{
    check_defined(value, behavior, UndefinedUse::Slice)?;
    cut_by(alloc, value, start, stop, step)
}

fn cut_by(
    alloc: Global,
    value: &Value,
    start: &Value,
    stop: &Value,
    step: &Value,
) -> Result<Value, Error>
    ensures { IsAnswer result (cut_by value.now (parts_in start.now stop.now step.now)) }
{
    match (bound(start), bound(stop), step_of(step)) {
        (Some(start), Some(stop), Some(step)) => cut(alloc, value, start, stop, step),
        _ => Err(not_a_slice(alloc)),
    }
}

// A whole number, or none.
fn bound(part: &Value) -> Option<Option<i128>>
    ensures { result ≡ bound_in part.now }
{
    match &part.node {
        Node::None => Some(None),
        Node::Number(whole) => Some(Some(*whole)),
        _ => None,
    }
}

// The step, which is 1 if it is missing, and never 0.
fn step_of(part: &Value) -> Option<i128>
    ensures step { result ≡ step_in part.now }
    ensures nonzero { OnSome result (step_in part.now ≢ Some (pos 0)) }
{
    match &part.node {
        Node::None => Some(1),
        Node::Number(whole) => { if *whole == 0 { None } else { Some(*whole) } }
        _ => None,
    }
}

fn cut(
    alloc: Global,
    value: &Value,
    start: Option<i128>,
    stop: Option<i128>,
    step: i128,
) -> Result<Value, Error>
    requires { step ≢ pos 0 }
    ensures { IsAnswer result (cut value.now (record { start = start; stop = stop; step = step })) }
{
    match &value.node {
        Node::List(items, _) => cut_list(alloc, items.as_slice(), start, stop, step),
        Node::Text(content, _) => {
            let picked = characters::slice(alloc, content.as_str(), start, stop, step)?;
            Ok(Value::shared_text(SharedText::from_string(picked)?, false))
        }
        Node::Undefined(_) | Node::None => Value::list(alloc, Vec::new(alloc)),
        _ => Err(not_a_slice(alloc)),
    }
}

fn cut_list(
    alloc: Global,
    items: &[Value],
    start: Option<i128>,
    stop: Option<i128>,
    step: i128,
) -> Result<Value, Error>
    requires { step ≢ pos 0 }
    ensures { IsAnswer result (list_at items.now (places_of (length items.now) start stop step)) }
{
    pick_items(alloc, items, Places::of(items.len(), start, stop, step))
}

// The items at these indices.
fn pick_items(alloc: Global, items: &[Value], mut places: Places) -> Result<Value, Error>
    requires { All (λ p. p < length items.now) places }
    ensures { IsAnswer result (list_at items.now places) }
{
    let mut picked = Vec::with_capacity(alloc, places.len())?;
    while let Some(place) = places.next() {
        picked.push(items[place].share()?)?;
    }
    Value::list(alloc, picked)
}

#[cold]
#[inline(never)]
fn not_a_slice(alloc: Global) -> Error
    ensures { result ≡ ErrorKind.InvalidOperation ∷ [] }
{
    Error::new(
        alloc,
        ErrorKind::InvalidOperation,
        "a slice takes whole numbers and a step that isn't 0, of a list or a text",
    )
}
