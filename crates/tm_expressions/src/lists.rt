//! Lists and boxes of parsed items.
ghost use Rattle.std.specs.Prelude.{◌≡◌, ◌++◌, [], ◌∷◌, MatchResult};
ghost use Rattle.tm_values.specs.declared.error.ErrorKind.TheVariants.{OutOfMemory};

use std::alloc::Global;
use tm_items::{Boxed, Items};
use tm_values::Error;

/// The items and one more. OutOfMemory if memory runs out.
#[inline(always)]
pub fn with_one<T: Drop>(items: Items<T>, item: T) -> Result<Items<T>, Error>
    ensures { MatchResult result
        (λ more. more ≡ items ++ item ∷ [])
        (λ e. e ≡ OutOfMemory ∷ []) }
{
    let mut items = items;
    items.push(item)?;
    Ok(items)
}

/// Pushes an item. OutOfMemory if memory runs out.
#[inline(always)]
pub fn add_one<T: Drop>(items: &mut Items<T>, item: T) -> Result<(), Error>
    ensures { MatchResult result
        (λ done. items.new ≡ items.old ++ item ∷ [])
        (λ e. e ≡ OutOfMemory ∷ []) }
{
    items.push(item)?;
    Ok(())
}

/// A value in a box. OutOfMemory if memory runs out.
#[inline(always)]
pub fn boxed<T: Drop>(alloc: Global, value: T) -> Result<Boxed<T>, Error>
    ensures { MatchResult result
        (λ held. held ≡ value)
        (λ e. e ≡ OutOfMemory ∷ []) }
{
    Ok(Boxed::new(alloc, value)?)
}
