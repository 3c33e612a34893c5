//! The keys of objects. A repeated key shares its text.
ghost use Rattle.std.specs.Prelude.{◌≡◌, false, IfOk};
ghost use Rattle.tm_values.specs.Val.{text};

use std::alloc::{AllocError, Global};
use tm_values::{SharedText, Value};

/// The number of keys that are kept.
const PLACES: usize = 64;

/// The most recent keys, each at the place of its hash.
#[derive(Drop)]
pub(crate) struct Keys {
    kept: Vec<SharedText>,
}

impl Keys {
    /// The empty key at each place. AllocError if memory runs out.
    pub(crate) fn new(alloc: Global) -> Result<Keys, AllocError> {
        let empty = SharedText::from_str(alloc, "")?;
        let mut kept = Vec::with_capacity(alloc, PLACES)?;
        for _ in 0..PLACES {
            kept.push(empty.share()?)?;
        }
        Ok(Keys { kept })
    }

    /// The text as a value. It shares the kept key at its place if that is the same text, and
    /// otherwise replaces it. AllocError if memory runs out.
    pub(crate) fn key(&mut self, alloc: Global, content: &str) -> Result<Value, AllocError>
        ensures { IfOk result (λ key. key ≡ text content.now false) }
    {
        let place = place_of(content);
        if let Some(kept) = self.kept.get(place) {
            if kept.as_str() == content {
                return Ok(Value::shared_text(kept.share()?, false));
            }
        }
        let key = SharedText::from_str(alloc, content)?;
        if let Some(kept) = self.kept.get_mut(place) {
            *kept = key.share()?;
        }
        Ok(Value::shared_text(key, false))
    }
}

// The place of a key: a hash of all its bytes.
fn place_of(content: &str) -> usize {
    let mut hash: usize = 0;
    for byte in content.as_bytes() {
        hash = hash.wrapping_mul(31).wrapping_add(*byte as usize);
    }
    hash % PLACES
}
