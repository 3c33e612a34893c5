//! Sharing many values.
ghost use Rattle.std.specs.Prelude.{◌≡◌, ◌++◌, ◌∷◌, [], OnErr, OnOk, IfErr, IfOk, MatchResult, length, take};

use crate::error::{Error, ErrorKind};
use crate::value::Value;
use std::alloc::Global;
use std::rc::Rc;

/// Appends a second owner of each value to `out`. Fails only with OutOfMemory; then nothing changes.
pub fn share_all(values: &[Value], out: &mut Vec<Value>) -> Result<(), Error>
    ensures items { OnOk result (out.new.items ≡ out.old.items ++ values.now) }
    ensures memory { IfErr result (λ e. e ≡ ErrorKind.OutOfMemory ∷ []) }
    ensures err { OnErr result (out.new.items ≡ out.old.items) }
{
    let count = out.len();
    match share_each(values, out) {
        Ok(()) => Ok(()),
        Err(error) => {
            out.truncate(count);
            Err(error)
        }
    }
}

// `share_all`, which leaves those that it appended if it fails.
fn share_each(values: &[Value], out: &mut Vec<Value>) -> Result<(), Error>
    ensures items { OnOk result (out.new.items ≡ out.old.items ++ values.now) }
    ensures memory { IfErr result (λ e. e ≡ ErrorKind.OutOfMemory ∷ []) }
    ensures first { take (length out.old.items) out.new.items ≡ out.old.items }
{
    out.reserve(values.len())?;
    for value in values {
        out.push(value.share()?)?;
    }
    Ok(())
}

// The items and then `more`: in place if the items have no other owner, and otherwise in a copy.
// Returns the items as they were if memory runs out.
pub(crate) fn append_shared(
    alloc: Global,
    mut items: Rc<Vec<Value>>,
    more: &[Value],
) -> Result<Rc<Vec<Value>>, Rc<Vec<Value>>>
    ensures { MatchResult result (λ all. all.value.items ≡ items.value.items ++ more.now)
        (λ same. same.value.items ≡ items.value.items) }
{
    if let Some(own) = Rc::get_mut(&mut items) {
        return match share_all(more, own) {
            Ok(()) => Ok(items),
            Err(_) => Err(items),
        };
    }
    match copied(alloc, items.as_slice(), more) {
        Ok(all) => Ok(all),
        Err(_) => Err(items),
    }
}

// Second owners of the items and of `more`, in a list of their own. OutOfMemory if memory runs out.
fn copied(alloc: Global, items: &[Value], more: &[Value]) -> Result<Rc<Vec<Value>>, Error>
    ensures { IfOk result (λ all. all.value.items ≡ items.now ++ more.now) }
{
    let room = items.len().saturating_add(more.len());
    let mut all = Vec::with_capacity(alloc, room)?;
    share_all(items, &mut all)?;
    share_all(more, &mut all)?;
    Ok(Rc::new(alloc, all)?)
}
