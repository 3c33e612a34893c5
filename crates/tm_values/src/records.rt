//! The loops and namespaces of a state. Their values hold only an id and a number.
ghost use Rattle.std.specs.Prelude.{◌≡◌, ℕ, List, Option, None, Some, [], length, MatchOption, option_map, slice_get};
ghost use Rattle.tm_values.specs.Answer.{IsLent};
ghost use Rattle.tm_values.specs.Val.{Val};
ghost use Rattle.tm_values.specs.Records.{RecordData, namespace_at, loop_at, previous_at, following_at, no_records};
ghost use Rattle.tm_values.specs.Position.{position_of};

use crate::map::ValueMap;
use crate::value::Value;

/// The position of a loop.
#[derive(Clone, Copy)]
pub struct LoopPosition {
    /// The index of its item, from 0. None before the first item; the number of items after the
    /// last.
    pub place: Option<usize>,
    /// The number of items.
    pub count: usize,
    /// The number of recursive loops around it.
    pub depth: usize,
}

/// The records of a state: its loops and namespaces, by number.
pub trait Records {
    // The records as plain data.
    ghost records: { Self → RecordData };

    /// The id of the state.
    fn state(&self) -> u64
        ensures { result ≡ (records self.now).state };

    /// The number of namespaces.
    fn namespace_count(&self) -> usize
        ensures { result ≡ length (records self.now).namespaces };

    /// The content of the namespace number `index`, if there is one.
    fn namespace(&self, index: usize) -> Option<&ValueMap>
        ensures { IsLent result (slice_get (records self.now).namespaces index) };

    /// The position of the loop number `index`, if there is one.
    fn loop_position(&self, index: usize) -> Option<LoopPosition>
        ensures { result ≡ option_map position_of (slice_get (records self.now).loops index) };

    /// The item before the loop's current one, if there is one.
    fn previous_item(&self, index: usize) -> Option<&Value>
        ensures { IsLent result (previous_at (records self.now) index) };

    /// The item after the loop's current one, if there is one.
    fn following_item(&self, index: usize) -> Option<&Value>
        ensures { IsLent result (following_at (records self.now) index) };
}

/// No records: no loops and no namespaces, and an id that no state has.
#[derive(Clone, Copy, Debug)]
pub struct NoRecords;

impl Records for NoRecords {
    ghost records = { λ _. no_records };

    fn state(&self) -> u64 {
        u64::MAX
    }

    fn namespace_count(&self) -> usize {
        0
    }

    fn namespace(&self, _index: usize) -> Option<&ValueMap> {
        None
    }

    fn loop_position(&self, _index: usize) -> Option<LoopPosition> {
        None
    }

    fn previous_item(&self, _index: usize) -> Option<&Value> {
        None
    }

    fn following_item(&self, _index: usize) -> Option<&Value> {
        None
    }
}

/// The content of a namespace. None if it belongs to another state or has no record there.
pub fn find_namespace<R: Records>(records: &R, state: u64, index: usize) -> Option<&ValueMap>
    ensures { IsLent result (namespace_at (R.records records.now) state index) }
{
    if state == records.state() {
        records.namespace(index)
    } else {
        None
    }
}

/// The position of a loop. None if it belongs to another state or has no record there.
pub fn find_loop<R: Records>(records: &R, state: u64, index: usize) -> Option<LoopPosition>
    ensures { result ≡ option_map position_of (loop_at (R.records records.now) state index) }
{
    if records.state() == state {
        records.loop_position(index)
    } else {
        None
    }
}
