//! A JSON object as the context of a template.
ghost use Rattle.std.specs.Prelude.{◌≡◌, ◌⊎◌, None, Some, MatchResult};
ghost use Rattle.std.specs.Str.{IsUtf8};
ghost use Rattle.mj_json.specs.Json.{members_read};

use crate::decimals::has_decimal;
use crate::keys::Keys;
use crate::values::members_of;
use mj_words::Refusal;
use serde_json::Value as Json;
use std::alloc::Global;
use std::mem;
use tm_values::Value;

/// The members of the JSON object in the bytes, as keys and values. Usage if the bytes aren't
/// UTF-8, JSON or an object, or if they contain a float, even under a key that is repeated later.
/// OutOfMemory if memory runs out. The parsed tree isn't freed.
pub fn members(alloc: Global, bytes: &[u8]) -> Result<Vec<(Value, Value)>, Refusal>
    ensures { MatchResult result
        (λ members. IsUtf8 bytes.now × (members_read bytes.now ≡ Some members.items))
        (λ e. (e ≡ Refusal.OutOfMemory)
        ⊎ ((e ≡ Refusal.Usage) × (IsUtf8 bytes.now → members_read bytes.now ≡ None))) }
{
    // Of members with the same key, the tree keeps only the last one.
    if has_decimal(bytes) {
        return Err(Refusal::Usage);
    }
    let mut keys = Keys::new(alloc)?;
    let mut json = match Json::from_slice(alloc, bytes) {
        Ok(json) => json,
        Err(error) if error.is_memory() => return Err(Refusal::OutOfMemory),
        Err(_error) => return Err(Refusal::Usage),
    };
    let members = match json.as_object_mut() {
        Some(members) => members_of(alloc, &mut keys, members),
        None => Err(Refusal::Usage),
    };
    // A large tree takes long to free, and the program ends soon.
    mem::forget(json);
    members
}
