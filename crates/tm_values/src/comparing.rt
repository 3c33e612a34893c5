//! Comparing deeply nested values. It needs no memory, and its recursion depth doesn't grow with
//! the depth of a value.
ghost use Rattle.std.specs.Prelude.{◌≡◌, ◌+◌};
ghost use Rattle.std.specs.Ordering.{ordering_then};
ghost use Rattle.tm_values.specs.Comparing.{IsBeside, IsCompared, pair_cmp};
ghost use Rattle.tm_values.specs.Order.{val_cmp, vals_cmp, pairs_cmp};
ghost use Rattle.tm_values.specs.Val.{val_size, vals_of, vals_size, pairs_of, pairs_size};

use crate::order::{compare_items, compare_macro, compare_pair, compare_pairs};
use crate::value::{Node, Value};
use std::cmp::Ordering;

/// The result of comparing two values, or the parts that decide it.
#[derive(Clone, Copy)]
pub enum Compared<'a> {
    /// The result.
    Known(Ordering),
    /// The result of comparing these items.
    Items(&'a [Value], &'a [Value]),
    /// The result of comparing these pairs, and then these texts.
    Pairs(&'a [(Value, Value)], &'a [(Value, Value)], &'a str, &'a str),
}

/// The result of comparing two lists of parts, with one part of the left list left out.
#[derive(Clone, Copy)]
pub enum Beside<'a> {
    /// The result. The part that was left out doesn't matter.
    Known(Ordering),
    /// The result of comparing these two values; if they are equal, the given order.
    Around(&'a Value, &'a Value, Ordering),
}

// Compares two values without entering their parts.
fn compare_top<'a>(left: &'a Value, right: &'a Value) -> Compared<'a>
    ensures { IsCompared left.now right.now result }
{
    let kinds = left.rank().cmp(&right.rank());
    if kinds != Ordering::Equal {
        return Compared::Known(kinds);
    }
    match &left.node {
        Node::Undefined(_) | Node::None => Compared::Known(Ordering::Equal),
        Node::Boolean(_) | Node::Number(_) => {
            Compared::Known(left.whole_or_zero().cmp(&right.whole_or_zero()))
        }
        Node::Text(content, _) => Compared::Known(content.as_str().cmp(right.text_or_empty())),
        Node::List(items, _) => Compared::Items(items.as_slice(), right.items()),
        Node::Map(pairs, _) | Node::Keywords(pairs, _) => {
            Compared::Pairs(pairs.as_slice(), right.pairs(), "", "")
        }
        Node::Exports(pairs, content, _) => Compared::Pairs(
            pairs.as_slice(),
            right.pairs(),
            content.as_str(),
            right.text_or_empty(),
        ),
        Node::Function(index) => Compared::Known(index.cmp(&right.function_or_zero())),
        Node::Macro(declared) => Compared::Known(compare_macro(declared, right)),
        Node::Loop(_, _) | Node::Namespace(_, _) => Compared::Known(left.compare_record(right)),
    }
}

// Compares two values in a loop. Each turn compares everything except the largest part of the left
// value, and goes on with that part. The other parts are compared by recursion. Each has at most
// half of the size, so the recursion is at most 32 deep.
#[cycle(compare)]
pub(crate) fn compare_deep(left: &Value, right: &Value) -> Ordering
    ensures { result ≡ val_cmp left.now right.now }
{
    let mut first = left;
    let mut second = right;
    let mut after = Ordering::Equal;
    loop {
        match beside_largest(first, second) {
            Beside::Known(order) => return order.then(after),
            Beside::Around(x, y, order) => {
                first = x;
                second = y;
                after = order.then(after);
            }
        }
    }
}

// Compares everything except the largest part of the left value.
#[cycle(compare)]
fn beside_largest<'a>(left: &'a Value, right: &'a Value) -> Beside<'a>
    ensures { IsBeside (val_cmp left.now right.now) (val_size left.now) result }
{
    match compare_top(left, right) {
        Compared::Known(order) => Beside::Known(order),
        Compared::Items(xs, ys) => beside_item(xs, ys),
        Compared::Pairs(ps, qs, s, t) => match beside_member(ps, qs) {
            Beside::Known(order) => Beside::Known(order.then(s.cmp(t))),
            Beside::Around(x, y, order) => Beside::Around(x, y, order.then(s.cmp(t))),
        },
    }
}

// Compares all items except the largest item of the left list.
#[cycle(compare)]
fn beside_item<'a>(left: &'a [Value], right: &'a [Value]) -> Beside<'a>
    ensures { IsBeside (vals_cmp (vals_of left.now) (vals_of right.now))
        (vals_size (vals_of left.now)) result }
{
    let place = place_of_largest(left);
    for (i, item) in left.iter().enumerate() {
        if i >= right.len() {
            return Beside::Known(Ordering::Greater);
        }
        let other = &right[i];
        if i == place {
            return Beside::Around(
                item,
                other,
                compare_items(&left[i + 1..], &right[i + 1..], 0),
            );
        }
        let items = item.compare_within(other, 0);
        if items != Ordering::Equal {
            return Beside::Known(items);
        }
    }
    if left.len() < right.len() {
        Beside::Known(Ordering::Less)
    } else {
        Beside::Known(Ordering::Equal)
    }
}

// Compares all keys and values except the largest one of the left pairs.
#[cycle(compare)]
fn beside_member<'a>(left: &'a [(Value, Value)], right: &'a [(Value, Value)]) -> Beside<'a>
    ensures { IsBeside (pairs_cmp (pairs_of left.now) (pairs_of right.now))
        (pairs_size (pairs_of left.now)) result }
{
    let place = place_of_largest_member(left);
    for (i, pair) in left.iter().enumerate() {
        if i >= right.len() {
            return Beside::Known(Ordering::Greater);
        }
        let other = &right[i];
        if i == place {
            let after = compare_pairs(&left[i + 1..], &right[i + 1..], 0);
            return beside_one(pair, other, after);
        }
        let pairs = compare_pair(pair, other, 0);
        if pairs != Ordering::Equal {
            return Beside::Known(pairs);
        }
    }
    if left.len() < right.len() {
        Beside::Known(Ordering::Less)
    } else {
        Beside::Known(Ordering::Equal)
    }
}

// Compares the smaller one of the left pair's key and value.
#[cycle(compare)]
fn beside_one<'a>(
    pair: &'a (Value, Value),
    other: &'a (Value, Value),
    after: Ordering,
) -> Beside<'a>
    ensures { IsBeside (ordering_then (pair_cmp pair.now other.now) after)
        (val_size pair.now.0 + val_size pair.now.1 + 1) result }
{
    if pair.0.size() > pair.1.size() {
        let values = pair.1.compare_within(&other.1, 0);
        return Beside::Around(&pair.0, &other.0, values.then(after));
    }
    let keys = pair.0.compare_within(&other.0, 0);
    if keys != Ordering::Equal {
        return Beside::Known(keys);
    }
    Beside::Around(&pair.1, &other.1, after)
}

// The index of the largest value.
fn place_of_largest(values: &[Value]) -> usize {
    let mut place = 0;
    let mut largest = 0;
    for (i, value) in values.iter().enumerate() {
        let size = value.size();
        if size > largest {
            place = i;
            largest = size;
        }
    }
    place
}

// The index of the pair that holds the largest key or value.
fn place_of_largest_member(pairs: &[(Value, Value)]) -> usize {
    let mut place = 0;
    let mut largest = 0;
    for (i, pair) in pairs.iter().enumerate() {
        let size = pair.0.size().max(pair.1.size());
        if size > largest {
            place = i;
            largest = size;
        }
    }
    place
}
