//! Dropping values. It needs no memory, and its recursion depth doesn't grow with the depth of a
//! value.
ghost use Rattle.std.specs.Prelude.{◌+◌, ◌≤◌, max};
ghost use Rattle.tm_values.specs.Held.{held_size, kept_size};
ghost use Rattle.tm_values.specs.Val.{val_size, vals_size, pairs_size, vals_of, pairs_of};

use crate::value::Value;
use std::mem;
use std::rc::Rc;

// The parts that a dropped value owned alone.
pub(crate) enum Held {
    Nothing,
    Items(Vec<Value>),
    Pairs(Vec<(Value, Value)>),
}

impl Held {
    // The items, if this was their last owner.
    pub(crate) fn items(items: Rc<Vec<Value>>) -> Held
        ensures { held_size result ≤ vals_size (vals_of items.value.items) }
    {
        match Rc::into_inner(items) {
            Some(items) => Held::Items(items),
            None => Held::Nothing,
        }
    }

    // The pairs, if this was their last owner.
    pub(crate) fn pairs(pairs: Rc<Vec<(Value, Value)>>) -> Held
        ensures { held_size result ≤ pairs_size (pairs_of pairs.value.items) }
    {
        match Rc::into_inner(pairs) {
            Some(pairs) => Held::Pairs(pairs),
            None => Held::Nothing,
        }
    }
}

// Drops a value that may own parts. Of the parts that it owns alone, the largest is dropped in the
// next turn of the loop. The others are dropped by recursion. Each has at most half of the size, so
// the recursion is at most 32 deep.
#[inline(never)]
#[cycle(dropping)]
pub(crate) fn drop_owner(value: Value) {
    let mut largest = Some(value);
    while let Some(next) = largest {
        largest = match next.into_held() {
            Held::Nothing => None,
            Held::Items(items) => drop_items(items),
            Held::Pairs(pairs) => drop_pairs(pairs),
        };
    }
}

// Drops all items except the largest one.
#[cycle(dropping)]
#[tactic(auto, using(crate::proofs::Sizes::joined_sizes))]
fn drop_items(mut items: Vec<Value>) -> Option<Value>
    ensures { kept_size result ≤ vals_size (vals_of items.items) }
{
    let mut largest = None;
    while let Some(item) = items.pop() {
        keep_larger(item, &mut largest);
    }
    largest
}

// Drops all keys and values except the largest one.
#[cycle(dropping)]
#[tactic(auto, using(crate::proofs::Sizes::joined_sizes))]
fn drop_pairs(mut pairs: Vec<(Value, Value)>) -> Option<Value>
    ensures { kept_size result ≤ pairs_size (pairs_of pairs.items) }
{
    let mut largest = None;
    while let Some((key, value)) = pairs.pop() {
        keep_larger(key, &mut largest);
        keep_larger(value, &mut largest);
    }
    largest
}

// Keeps the larger of two values and drops the other. A value of size 1 has no parts and isn't kept.
#[inline(always)]
#[cycle(dropping)]
fn keep_larger(value: Value, largest: &mut Option<Value>)
    ensures { kept_size largest.new ≤ max (kept_size largest.old) (val_size value + 1) }
{
    if value.size() <= size_of(largest) {
        drop(value);
    } else if let Some(smaller) = mem::replace(largest, Some(value)) {
        drop(smaller);
    }
}

// The size of the kept value, or 1.
#[inline(always)]
fn size_of(largest: &Option<Value>) -> u64
    ensures { kept_size largest.now ≤ result + 1 }
{
    match largest {
        Some(value) => value.size(),
        None => 1,
    }
}
