//! Cache numbers of the names in code.
ghost use Rattle.std.specs.Prelude.{◌≡◌, ◌≤◌, ◌<◌, [], ◌∷◌, OnOk, OnSome, IfOk, IfSome, length};
ghost use Rattle.tm_generator.specs.Caches.{HasRoom, IsNumberedOne};
ghost use Rattle.tm_syntax.specs.CacheNumbers.{cache_count, joined, number_in, numbered, place_from};

use std::alloc::{AllocError, Global};
use tm_items::Items;
use tm_syntax::{CACHES, Instruction, NO_CACHE, Name};

/// The names that have cache numbers. The index of a name is its number.
#[derive(Drop)]
pub(crate) struct CacheNames {
    filters: Items<Name>,
    tests: Items<Name>,
}

/// The index of the first name that equals `name`, if there is one.
fn place_of(names: &[Name], name: &Name) -> Option<usize>
    ensures place { result ≡ place_from 0 name.now names.now }
    ensures within { IfSome result (λ place. place < length names.now) }
{
    for (place, known) in names.iter().enumerate() {
        if *name == *known {
            return Some(place);
        }
    }
    None
}

/// The cache number of `name`. A new name gets the next number and is appended to `names`. If no
/// number is left, it gets `NO_CACHE` and `names` stays the same. AllocError if memory runs out.
fn number_of(names: &mut Items<Name>, name: &Name) -> Result<u8, AllocError>
    requires { length names.old ≤ cache_count }
    ensures number { IfOk result (λ number. number ≡ number_in name.now names.old) }
    ensures names { OnOk result (names.new ≡ joined name.now names.old) }
    ensures room { OnOk result (length names.new ≤ cache_count) }
{
    if let Some(place) = place_of(names.as_slice(), name) {
        return Ok(place as u8);
    }
    let count = names.len();
    if count >= CACHES as usize {
        return Ok(NO_CACHE);
    }
    names.push(name.share()?)?;
    Ok(count as u8)
}

impl CacheNames {
    /// The instruction with its cache number, or None if it isn't a filter or a test. AllocError if
    /// memory runs out.
    fn number(&mut self, instruction: &Instruction) -> Result<Option<Instruction>, AllocError>
        requires { HasRoom self.old }
        ensures ok { IfOk result (λ made. IsNumberedOne self.old self.new instruction.now made) }
        ensures room { OnOk result (HasRoom self.new) }
    {
        let made = match instruction {
            Instruction::ApplyFilter(name, count, _) => {
                let number = number_of(&mut self.filters, name)?;
                Instruction::ApplyFilter(name.share()?, *count, number)
            }
            Instruction::PerformTest(name, count, _) => {
                let number = number_of(&mut self.tests, name)?;
                Instruction::PerformTest(name.share()?, *count, number)
            }
            _ => return Ok(None),
        };
        Ok(Some(made))
    }
}

/// Sets the cache numbers of all filters and tests in a stream. AllocError if memory runs out.
pub(crate) fn number_caches(alloc: Global, code: &mut Items<Instruction>) -> Result<(), AllocError>
    ensures { OnOk result (code.new ≡ numbered code.old) }
{
    let mut names = CacheNames {
        filters: Items::new(alloc),
        tests: Items::new(alloc),
    };
    let mut place = 0;
    while place < code.len() {
        if let Some(instruction) = names.number(&code.as_slice()[place])? {
            code.set(place, instruction);
        }
        place += 1;
    }
    Ok(())
}
