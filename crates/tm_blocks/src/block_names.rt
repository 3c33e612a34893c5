//! The names of a template's blocks.
ghost use Rattle.std.specs.List.Sorted.{IsStrictlySortedBy};
ghost use Rattle.std.specs.Map.{keys_of};
ghost use Rattle.std.specs.Prelude.{◌≡◌, length, nat_eq, IfOk};
ghost use Rattle.tm_syntax.specs.Named.{name_cmp};
ghost use Rattle.tm_scopes.specs.Known.{is_among};
ghost use Rattle.tm_values.specs.Answer.{OkOrOutOfMemory};

use std::alloc::{AllocError, Global};
use std::marker::Model;
use tm_shapes::BlockCode;
use tm_syntax::{Name, NameMap};
use tm_values::Error;

/// The names of the blocks, in order. AllocError if memory runs out.
fn names_of(alloc: Global, blocks: &NameMap<BlockCode>) -> Result<Vec<Name>, AllocError>
    ensures { IfOk result (λ names. names.items ≡ keys_of blocks.now) }
{
    let mut names = Vec::new(alloc);
    for name in blocks.names(alloc)? {
        names.push(Name::new(alloc, name)?)?;
    }
    Ok(names)
}

/// The names of a template's blocks, sorted by hash. A contract sees them sorted by text, each
/// once.
#[derive(Drop)]
pub struct BlockNames {
    by_hash: Vec<Name>,
}

impl Model for BlockNames {
    ghost use Rattle.std.specs.List.Sorted.{IsSorted};
    ghost use Rattle.std.specs.Prelude.{List, ℕ};
    ghost use Rattle.tm_syntax.specs.Hashed.{hashed_cmp};
    ghost use Rattle.tm_blocks.specs.BlockNames.{by_text};

    ghost Value = { List (List ℕ) };

    ghost view = { λ a. by_text a.by_hash.items };

    ghost invariant = { λ a. IsSorted hashed_cmp a.by_hash.items };
}

impl BlockNames {
    /// The names of `blocks`, in ascending order. Fails only with OutOfMemory.
    pub fn of(alloc: Global, blocks: &NameMap<BlockCode>) -> Result<BlockNames, Error>
        requires { IsStrictlySortedBy name_cmp (keys_of blocks.now) }
        ensures { OkOrOutOfMemory result (λ names. names ≡ keys_of blocks.now) }
    {
        let mut by_hash = names_of(alloc, blocks)?;
        by_hash.sort_unstable();
        Ok(BlockNames { by_hash })
    }

    /// Whether there are none.
    pub fn is_empty(&self) -> bool
        ensures { result ≡ nat_eq (length self.now) 0 }
    {
        self.by_hash.as_slice().is_empty()
    }

    /// Whether `name` is among them. Compares log n hashes for n names, and seldom more than one
    /// text.
    pub fn contains(&self, name: &Name) -> bool
        ensures { result ≡ is_among name.now self.now }
    {
        self.by_hash.binary_search(name).is_ok()
    }

    /// Proves that the names ascend; does nothing.
    #[inline(always)]
    pub(crate) fn ascend(&self)
        ensures { IsStrictlySortedBy name_cmp self.now }
    {
        let _names = &self.by_hash;
    }
}
