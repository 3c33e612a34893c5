//! `range`: numbers from a start to a stop by a step.
ghost use Rattle.std.specs.Prelude.{◌≡◌, ◌≢◌, ◌≤◌, ◌∷◌, [], Ok, pos};
ghost use Rattle.std.specs.Option.{option_copied};
ghost use Rattle.tm_definitions.specs.Ranges.{bound_in, required_in, later_in, ranged, number_list, numbers_from, range_of, AreStepped};
ghost use Rattle.tm_definitions.specs.Ranges.{StandBefore, LeaveNoneOut};
ghost use Rattle.tm_operations.specs.Ranges.{AreIn64Bits};
ghost use Rattle.tm_primitives.specs.Places.{distance, count_before, step_to};
ghost use Rattle.tm_values.specs.Answer.{IsAnswer};

use std::alloc::Global;
use std::rc::Rc;
use tm_values::{Error, ErrorKind, Node, Parts, Value, Writable};

// The maximal length of a range.
const MOST: u64 = 100_000;

/// The list that `range` returns. With one argument, it counts from 0 up to that; otherwise from
/// the first argument up to the second, by steps of the third, or of 1 if there is none. The stop
/// isn't included. An argument is a whole number of 64 bits; a second or third argument that is
/// none or undefined counts as absent. MissingArgument without arguments. TooManyArguments for a
/// fourth argument. InvalidOperation for other values, for a step of 0 and for more than 100000
/// numbers. OutOfMemory if memory runs out.
pub fn range(alloc: Global, arguments: &[Value]) -> Result<Value, Error>
    ensures { IsAnswer result (range_of arguments.now) }
{
    let first = required(alloc, arguments.first())?;
    let second = later(alloc, arguments.get(1))?;
    let step = later(alloc, arguments.get(2))?;
    if arguments.len() > 3 {
        return Err(too_many(alloc));
    }
    let step = step.unwrap_or(1);
    match second {
        Some(stop) => numbers(alloc, first, stop, step),
        None => numbers(alloc, 0, first, step),
    }
}

fn required(alloc: Global, argument: Option<&Value>) -> Result<i64, Error>
    ensures { result ≡ required_in (option_copied argument.entry) }
{
    let Some(value) = argument else {
        return Err(missing(alloc));
    };
    match bound(value) {
        Some(whole) => Ok(whole),
        None => Err(not_a_bound(alloc)),
    }
}

fn later(alloc: Global, argument: Option<&Value>) -> Result<Option<i64>, Error>
    ensures { result ≡ later_in (option_copied argument.entry) }
{
    let Some(value) = argument else {
        return Ok(None);
    };
    match &value.node {
        Node::Undefined(_) | Node::None => Ok(None),
        _ => match bound(value) {
            Some(whole) => Ok(Some(whole)),
            None => Err(not_a_bound(alloc)),
        },
    }
}

// The whole number of 64 bits, if the value is one.
fn bound(value: &Value) -> Option<i64>
    ensures { result ≡ bound_in value.now }
{
    match &value.node {
        Node::Number(whole) => i64::try_from(*whole).ok(),
        _ => None,
    }
}

fn numbers(alloc: Global, start: i64, stop: i64, step: i64) -> Result<Value, Error>
    ensures { IsAnswer result (ranged (record { start = start; stop = stop; step = step })) }
{
    if step == 0 {
        return Err(no_step(alloc));
    }
    let count = count_before(start, stop, step);
    if count > MOST {
        return Err(too_long(alloc));
    }
    list_from(alloc, start, step, count)
}

// How many numbers there are from the start, by steps, before the stop.
fn count_before(start: i64, stop: i64, step: i64) -> u64
    requires { step ≢ pos 0 }
    ensures { result ≡ count_before step start stop }
{
    let size = step.unsigned_abs();
    if step < 0 {
        distance(stop, start).div_ceil(size)
    } else {
        distance(start, stop).div_ceil(size)
    }
}

// The distance from `from` up to `to`. The difference needs more than 64 bits.
fn distance(from: i64, to: i64) -> u64
    ensures { result ≡ distance from to }
{
    if from < to {
        (to as i128 - from as i128) as u64
    } else {
        0
    }
}

// The list of `count` numbers from the start on, each of 64 bits.
fn list_from(alloc: Global, start: i64, step: i64, count: u64) -> Result<Value, Error>
    requires served { count ≤ 100000 }
    requires in_range { AreIn64Bits (numbers_from start step count) }
    ensures { IsAnswer result (Ok (number_list (numbers_from start step count))) }
{
    let mut items = Vec::with_capacity(alloc, count as usize)?;
    for place in 0..count {
        items.push_reserved(Value::number(number_at(start, step, place)));
    }
    // JSON has every number of 64 bits, so the items need no check.
    let writable = Writable {
        in_print: true,
        in_json: true,
    };
    let size = 2 * count as u32 + 1;
    Ok(Value {
        node: Node::List(Rc::new(alloc, items)?, Parts { writable, size }),
    })
}

// The number after `place` steps.
fn number_at(start: i64, step: i64, place: u64) -> i128
    requires { place ≤ 100000 }
    ensures { result ≡ step_to start step place }
{
    start as i128 + place as i128 * step as i128
}

#[cold]
#[inline(never)]
fn missing(alloc: Global) -> Error
    ensures { result ≡ ErrorKind.MissingArgument ∷ [] }
{
    Error::new(
        alloc,
        ErrorKind::MissingArgument,
        "range takes a number to stop before",
    )
}

#[cold]
#[inline(never)]
fn too_many(alloc: Global) -> Error
    ensures { result ≡ ErrorKind.TooManyArguments ∷ [] }
{
    Error::new(
        alloc,
        ErrorKind::TooManyArguments,
        "range takes a start, a stop and a step",
    )
}

#[cold]
#[inline(never)]
fn not_a_bound(alloc: Global) -> Error
    ensures { result ≡ ErrorKind.InvalidOperation ∷ [] }
{
    Error::new(
        alloc,
        ErrorKind::InvalidOperation,
        "range takes whole numbers of 64 bits",
    )
}

#[cold]
#[inline(never)]
fn no_step(alloc: Global) -> Error
    ensures { result ≡ ErrorKind.InvalidOperation ∷ [] }
{
    Error::new(
        alloc,
        ErrorKind::InvalidOperation,
        "the step of a range isn't 0",
    )
}

#[cold]
#[inline(never)]
fn too_long(alloc: Global) -> Error
    ensures { result ≡ ErrorKind.InvalidOperation ∷ [] }
{
    Error::new(
        alloc,
        ErrorKind::InvalidOperation,
        "a range has at most 100000 numbers",
    )
}

/// The law of `range`: number k is the start plus k steps; each is before the stop; and none of
/// them is left out.
pub fn range_law()
    ensures stepped { AreStepped }
    ensures before { StandBefore }
    ensures whole { LeaveNoneOut }
{}
