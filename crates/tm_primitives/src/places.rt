//! Which places of a sequence an index and a slice take.
ghost use Rattle.std.specs.Prelude.{◌≡◌, ◌≢◌, ◌<◌, ◌<ℤ◌, ◌-ℤ◌, ◌∷◌, [], pos, unsigned_abs, length, IfSome, IfNone, ◌^◌, All};
ghost use Rattle.std.specs.List.{range_with_len};
ghost use Rattle.std.specs.Int.{div_ceil, is_negative};
ghost use Rattle.tm_primitives.specs.Places.{from_start, place_of, lowest, highest, bound_of, slice_start, stop_of, distance, count_before};
ghost use Rattle.tm_primitives.specs.Places.{places_of, IsNoRun, AreSpaced, AreBefore, IsDone, GoTheWay};

use std::marker::Model;

/// The place among `length` of an index, which counts from the end where it is negative; none where
/// there is no such place.
pub fn place(length: usize, index: i128) -> Option<usize>
    ensures exact { result ≡ place_of length index }
    ensures inside { IfSome result (λ place. place < length) }
{
    let place = from_start(length, index);
    if place < 0 {
        None
    } else if place < length as i128 {
        Some(place as usize)
    } else {
        None
    }
}

/// The places that a slice takes, in its order, in constant memory. A contract sees the list of
/// those still to come.
#[derive(Drop)]
pub struct Places {
    next: i128,
    step: i128,
    left: usize,
}

impl Model for Places {
    ghost use Rattle.std.specs.Prelude.{List, ℕ, ◌^◌};
    ghost use Rattle.tm_primitives.specs.Places.{places_from, Within};

    ghost Value = { List ℕ };

    ghost view = { λ a. places_from a.next a.step a.left };

    ghost invariant = { λ a. Within (2 ^ 64) a.next a.step a.left };
}

impl Places {
    /// The places that the slice `start:stop:step` takes of a sequence of `length`: from its start
    /// on, by steps, those before its stop. A negative bound counts from the end, and one past an
    /// end is cut. Where a bound is not given, the slice goes from end to end. The step is not 0.
    pub fn of(length: usize, start: Option<i128>, stop: Option<i128>, step: i128) -> Places
        requires nonzero { step ≢ pos 0 }
        ensures exact { result ≡ places_of length start stop step }
        ensures inside { All (λ place. place < length) result }
    {
        let start = first_bound(length, step, start);
        let stop = last_bound(length, step, stop);
        Places {
            next: start,
            step,
            left: count_before(step, start, stop),
        }
    }

    /// How many places are still to come.
    pub fn len(&self) -> usize
        ensures { result ≡ length self.now }
    {
        self.left
    }

    /// The first place and how many they are, where each is the next one after the one before; none
    /// where they are not so.
    pub fn run(&self) -> Option<(usize, usize)>
        ensures some { IfSome result (λ run. self.now ≡ range_with_len run.0 run.1) }
        ensures none { IfNone result (IsNoRun self.now) }
    {
        match self.left {
            0 => Some((0, 0)),
            1 => Some((self.next as usize, 1)),
            left if self.step == 1 => Some((self.next as usize, left)),
            _ => None,
        }
    }

    /// Takes the next place; none where no place is left.
    pub fn next(&mut self) -> Option<usize>
        ensures some { IfSome result (λ place. self.old ≡ place ∷ self.new) }
        ensures none { IfNone result ((self.old ≡ []) × (self.new ≡ [])) }
    {
        if self.left == 0 {
            return None;
        }
        let place = self.next as usize;
        self.left -= 1;
        // The number after the last place may be out of range.
        if self.left > 0 {
            self.next += self.step;
        }
        Some(place)
    }
}

/// The law of slices: the places are below the length, one step apart from the start on, strictly
/// up or down, and all those before the stop.
pub fn slice_law(length: usize, start: Option<i128>, stop: Option<i128>, step: i128)
    requires nonzero { step ≢ pos 0 }
    ensures within { All (λ p. p < length) (places_of length start stop step) }
    ensures spaced { AreSpaced length start step (places_of length start stop step) }
    ensures before { AreBefore length stop step (places_of length start stop step) }
    ensures done { IsDone length start stop step (places_of length start stop step) }
    ensures strict { GoTheWay step (places_of length start stop step) }
{}

fn from_start(length: usize, index: i128) -> i128
    ensures { result ≡ from_start length index }
{
    if index < 0 {
        index + length as i128
    } else {
        index
    }
}

fn lowest(step: i128) -> i128
    ensures { result ≡ lowest step }
{
    if step < 0 { -1 } else { 0 }
}

fn highest(length: usize, step: i128) -> i128
    ensures { result ≡ highest length step }
{
    if step < 0 {
        length as i128 - 1
    } else {
        length as i128
    }
}

// A bound that is given.
fn bound(length: usize, step: i128, index: i128) -> i128
    ensures { result ≡ bound_of length step index }
{
    let place = from_start(length, index);
    let low = lowest(step);
    let high = highest(length, step);
    if place < low {
        low
    } else if high < place {
        high
    } else {
        place
    }
}

fn first_bound(length: usize, step: i128, start: Option<i128>) -> i128
    ensures { result ≡ slice_start length step start }
{
    match start {
        Some(index) => bound(length, step, index),
        None if step < 0 => highest(length, step),
        None => lowest(step),
    }
}

fn last_bound(length: usize, step: i128, stop: Option<i128>) -> i128
    ensures { result ≡ stop_of length step stop }
{
    match stop {
        Some(index) => bound(length, step, index),
        None if step < 0 => lowest(step),
        None => highest(length, step),
    }
}

// How many of the start and the numbers by steps after it stand before the stop.
fn count_before(step: i128, start: i128, stop: i128) -> usize
    requires nonzero { step ≢ pos 0 }
    requires near { unsigned_abs (stop -ℤ start) < 2 ^ 64 }
    ensures { result ≡ count_before step start stop }
{
    let size = step.unsigned_abs();
    if step < 0 {
        steps(distance(stop, start), size)
    } else {
        steps(distance(start, stop), size)
    }
}

// How far `to` is above `from`.
fn distance(from: i128, to: i128) -> usize
    requires { (to -ℤ from) <ℤ pos (2 ^ 64) }
    ensures { result ≡ distance from to }
{
    if from < to { (to - from) as usize } else { 0 }
}

// How many steps go into the distance, the last one perhaps in part.
fn steps(distance: usize, step: u128) -> usize
    requires { 0 < step }
    ensures { result ≡ div_ceil distance step }
{
    match usize::try_from(step) {
        Ok(step) => distance.div_ceil(step),
        Err(_) => (distance > 0) as usize,
    }
}
