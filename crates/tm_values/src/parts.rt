//! What a value stores about its parts.
ghost use Rattle.std.specs.Prelude.{◌≡◌, ◌+◌, ◌<◌, ◌≤◌, ◌++◌, ℕ, List, length};
ghost use Rattle.tm_values.specs.Answer.{OkOrOutOfMemory};
ghost use Rattle.tm_values.specs.Parts.{parts_of_vals, parts_of_pairs};
ghost use Rattle.tm_values.specs.Val.{Val, val_size, vals_of, pairs_of, text_size};

use crate::error::{Error, ErrorKind};
use crate::shared_text::SharedText;
use crate::value::{Node, Value};
use crate::writable::{Writable, pair_writable};

// A text adds 1 to the size of its value for each so many bytes.
const BYTES_PER_UNIT: usize = 16;

/// What a value stores about its parts.
#[derive(Clone, Copy)]
pub struct Parts {
    /// The forms in which no part is refused.
    pub writable: Writable,
    /// The size of the value that has the parts: 1 for itself, plus the size of each part and 1. No
    /// value is made if the size doesn't fit a `u32`: that is OutOfMemory.
    pub size: u32,
}

impl Parts {
    /// For the items of a list. OutOfMemory if the list would be too large.
    pub(crate) fn of_values(values: &[Value]) -> Result<Parts, Error>
        ensures { OkOrOutOfMemory result (λ parts. parts ≡ parts_of_vals (vals_of values.now)) }
    {
        let none = Parts {
            writable: Writable::in_all_forms(),
            size: 1,
        };
        none.extended(values)
    }

    /// For the items of a list that goes on with `more`; these are for the items before. Looks only
    /// at `more`. OutOfMemory if the list would be too large.
    #[tactic(auto, using(crate::proofs::Writables::both_regroups))]
    pub(crate) fn extended(self, more: &[Value]) -> Result<Parts, Error>
        ensures { (first : List Val) → self ≡ parts_of_vals (vals_of first)
            → OkOrOutOfMemory result (λ all. all ≡ parts_of_vals (vals_of (first ++ more.now))) }
    {
        let mut writable = self.writable;
        let mut size = self.size;
        for value in more {
            writable = writable.both(value.writable());
            size = with_part(size, value)?;
        }
        Ok(Parts { writable, size })
    }

    /// For the keys and values of a map. OutOfMemory if the map would be too large.
    #[tactic(auto, using(crate::proofs::Writables::both_regroups))]
    pub(crate) fn of_pairs(pairs: &[(Value, Value)]) -> Result<Parts, Error>
        ensures { OkOrOutOfMemory result (λ parts. parts ≡ parts_of_pairs (pairs_of pairs.now)) }
    {
        let mut writable = Writable::in_all_forms();
        let mut size = 1;
        for pair in pairs {
            writable = writable.both(pair_writable(pair));
            size = with_part(with_part(size, &pair.0)?, &pair.1)?;
        }
        Ok(Parts { writable, size })
    }
}

// Adds a part to the size. OutOfMemory if the sum doesn't fit a `u32`.
fn with_part(size: u32, part: &Value) -> Result<u32, Error>
    ensures { OkOrOutOfMemory result (λ with. with ≡ size + (val_size part.now + 1)) }
{
    let Some(with) = part.size().checked_add(size as u64 + 1) else {
        return Err(Error::from(ErrorKind::OutOfMemory));
    };
    fitting(with)
}

// The size of a module: of its map with `size`, and of its text. OutOfMemory if it doesn't fit a
// `u32`.
pub(crate) fn with_content(size: u32, content: &SharedText) -> Result<u32, Error>
    ensures { OkOrOutOfMemory result (λ with. with ≡ text_size content.now + size) }
{
    fitting(text_size(content.as_str()) + size as u64)
}

// What a text adds to the size of its value.
fn text_size(content: &str) -> u64
    ensures { result ≡ text_size content.now }
{
    (content.len() / BYTES_PER_UNIT) as u64
}

/// The length in bytes of the longest text whose value has at most the size `limit`, which isn't 0.
pub fn longest_text(limit: usize) -> usize
    ensures { (s : List ℕ) → 0 < limit → length s ≤ result → text_size s < limit }
{
    limit.saturating_mul(BYTES_PER_UNIT).saturating_sub(1)
}

// The size that a value stores. OutOfMemory if it doesn't fit a `u32`.
fn fitting(size: u64) -> Result<u32, Error>
    ensures { OkOrOutOfMemory result (λ fit. fit ≡ size) }
{
    match u32::try_from(size) {
        Ok(fit) => Ok(fit),
        Err(_) => Err(Error::from(ErrorKind::OutOfMemory)),
    }
}

impl Value {
    /// The size as an owned tree: 1 for itself, the size of each part and 1, and for each 16 bytes
    /// of a text 1. It bounds the steps of every walk over the value. Takes constant time.
    #[inline(always)]
    pub fn size(&self) -> u64
        ensures { result ≡ val_size self.now }
    {
        match &self.node {
            Node::Number(_) => 1,
            Node::Text(content, _) => text_size(content.as_str()) + 1,
            Node::List(_, parts) | Node::Map(_, parts) | Node::Keywords(_, parts) => {
                parts.size as u64
            }
            Node::Exports(_, _, size) => *size as u64,
            _ => 1,
        }
    }
}
