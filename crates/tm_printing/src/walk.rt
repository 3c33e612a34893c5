//! Writes values with a work list, so that a deep value needs no deep stack.
ghost use Rattle.std.specs.Prelude.{length};
ghost use Rattle.tm_values.specs.Records.{RecordData};
ghost use Rattle.tm_printing.specs.Left.{ValueText, RestText, Writes, Begins, Advances, IsNoHeavier, IsLighter};

use crate::rest::{NextValue, Rest, Unwritten};
use std::alloc::Global;
use tm_output::{Target, TargetFailed};
use tm_values::{Records, Value};

/// A notation for values.
pub trait Notation {
    // The text of a value in which namespaces are entered to the given depth.
    ghost value_text: { ValueText };

    // The text of what is left of a list or a map.
    ghost rest_text: { RestText };

    /// Writes a value without parts, or the text before the first part of another one, and returns
    /// what is left of it. TargetFailed if the target fails.
    fn begin<'a, R: Records, T: Target>(
        value: &'a Value,
        levels: usize,
        records: &'a R,
        target: &mut T,
    ) -> Result<Option<Rest<'a>>, TargetFailed>
        ensures text { Begins T.took T.stopped result target.old
            (value_text (R.records records.now) levels value.now)
            (rest_text (R.records records.now)) target.new }
        ensures weight { IsNoHeavier result (R.records records.now) levels value.now };

    /// Writes the text before the next value, and returns that value; at the end, writes the
    /// closing text. TargetFailed if the target fails.
    fn advance<'a, T: Target>(
        rest: Rest<'a>,
        target: &mut T,
    ) -> Result<Option<NextValue<'a>>, TargetFailed>
        ensures text { (r : RecordData) → Advances T.took T.stopped result target.old
            (rest_text r rest.entry) (value_text r) (rest_text r) target.new }
        ensures weight { IsLighter result rest.entry };
}

/// Writes a value. `Target` if the target fails, `Memory` if memory runs out for the work list.
pub fn write_parts<N: Notation, R: Records, T: Target>(
    alloc: Global,
    value: &Value,
    records: &R,
    target: &mut T,
) -> Result<(), Unwritten>
    ensures { Writes T.took T.stopped result target.old (N.value_text (R.records records.now)
        (length (R.records records.now).namespaces) value.now) target.new }
{
    let begun = N::begin::<R, T>(value, records.namespace_count(), records, target)?;
    match begun {
        Some(rest) => write_rest::<N, R, T>(alloc, rest, records, target),
        None => Ok(()),
    }
}

// Writes what is left of a list or a map.
fn write_rest<'a, N: Notation, R: Records, T: Target>(
    alloc: Global,
    first: Rest<'a>,
    records: &'a R,
    target: &mut T,
) -> Result<(), Unwritten>
    ensures { Writes T.took T.stopped result target.old
        (N.rest_text (R.records records.now) first.entry) target.new }
{
    let mut left = Vec::new(alloc);
    let mut rest = first;
    loop {
        let next = N::advance::<T>(rest, target)?;
        match next {
            Some(step) => {
                let begun = N::begin::<R, T>(step.value, step.levels, records, target)?;
                match begun {
                    Some(inside) => match left.push(step.after) {
                        Ok(()) => rest = inside,
                        Err(_) => return Err(Unwritten::Memory),
                    },
                    None => rest = step.after,
                }
            }
            None => match left.pop() {
                Some(outer) => rest = outer,
                None => return Ok(()),
            },
        }
    }
}
