//! The names of a source, each stored once.
ghost use Rattle.std.specs.BTreeMap.{get};
ghost use Rattle.std.specs.Ordering.{nat_cmp};
ghost use Rattle.std.specs.Prelude.{◌≡◌, [], ◌∷◌, true, IfOk, IfErr, IfSome, OnOk, unwrap_or};
ghost use Rattle.tm_scanner.specs.NamePool.{IsWith, holds, with_name_at};
ghost use Rattle.tm_syntax.specs.Hashed.{hash_of};
ghost use Rattle.tm_values.specs.declared.error.ErrorKind.TheVariants.{OutOfMemory};

use crate::names::is;
use std::alloc::{AllocError, Global};
use std::collections::btree_map::Entry;
use std::collections::{BTreeMap, BTreeSet};
use std::hash::{FoldHasher, Hasher};
use std::marker::Model;
use std::rc::RcStr;
use tm_syntax::Name;
use tm_values::Error;

/// How many names are searched linearly.
const FEW: usize = 8;

/// The number by which a name is looked up: its hash.
fn hash_of(text: &str) -> u64
    ensures { result ≡ hash_of text.now }
{
    let mut hasher = FoldHasher::default();
    hasher.write(text.as_bytes());
    hasher.finish()
}

/// Names in an ordered map. A contract sees their bytes.
#[derive(Drop)]
struct OrderedNames {
    texts: BTreeSet<RcStr>,
}

impl Model for OrderedNames {
    ghost use Rattle.std.specs.Prelude.{List, ℕ};

    ghost Value = { List (List ℕ) };

    ghost use Rattle.tm_scanner.specs.NamePool.{texts_of};

    ghost view = { λ a. texts_of a.texts.keys };
}

impl OrderedNames {
    /// No names.
    fn new(alloc: Global) -> OrderedNames
        ensures { result ≡ [] }
    {
        OrderedNames {
            texts: BTreeSet::new(alloc),
        }
    }

    /// The name with this text. It shares the text of an equal earlier name. OutOfMemory if memory
    /// runs out.
    #[inline(never)]
    fn name(&mut self, alloc: Global, text: &str) -> Result<Name, Error>
        ensures found { IfOk result (λ name. name ≡ text.now) }
        ensures kept { OnOk result (IsWith text.now self.old self.new) }
        ensures refused { IfErr result (λ e. e ≡ OutOfMemory ∷ []) }
    {
        if let Some(known) = self.texts.get(text) {
            return Ok(Name::from_text(known.clone()?));
        }
        let name = RcStr::from_str(alloc, text)?;
        self.texts.insert(name.clone()?)?;
        Ok(Name::from_text(name))
    }
}

/// The name at `hash`, which is new and has this text if there was none. AllocError if memory runs
/// out.
#[inline(always)]
fn name_by_hash(
    alloc: Global,
    by_hash: &mut BTreeMap<u64, Name>,
    hash: u64,
    text: &str,
) -> Result<Name, AllocError>
    ensures found { IfOk result
        (λ name. name ≡ unwrap_or (get nat_cmp by_hash.old hash) text.now) }
    ensures kept { OnOk result
        (by_hash.new.entries ≡ with_name_at hash text.now by_hash.old.entries) }
{
    match by_hash.entry(hash)? {
        Entry::Occupied(known) => known.get().share(),
        Entry::Vacant(place) => {
            let name = Name::new(alloc, text)?;
            place.insert(name.share()?);
            Ok(name)
        }
    }
}

/// Names by their hashes, so that a lookup compares numbers and reads one text. A contract sees
/// their bytes.
#[derive(Drop)]
struct HashedNames {
    by_hash: BTreeMap<u64, Name>,
    /// The names whose hash an earlier name has.
    others: OrderedNames,
}

impl Model for HashedNames {
    ghost use Rattle.std.specs.Map.{values_of};
    ghost use Rattle.std.specs.Prelude.{List, ℕ, ◌++◌};

    ghost Value = { List (List ℕ) };

    ghost view = { λ a. values_of a.by_hash.entries ++ a.others };
}

impl HashedNames {
    /// No names.
    fn new(alloc: Global) -> HashedNames
        ensures { result ≡ [] }
    {
        HashedNames {
            by_hash: BTreeMap::new(alloc),
            others: OrderedNames::new(alloc),
        }
    }

    /// The name with this text. It shares the text of an equal earlier name. OutOfMemory if memory
    /// runs out.
    #[inline(never)]
    fn name(&mut self, alloc: Global, text: &str) -> Result<Name, Error>
        ensures found { IfOk result (λ name. name ≡ text.now) }
        ensures kept { OnOk result (IsWith text.now self.old self.new) }
        ensures refused { IfErr result (λ e. e ≡ OutOfMemory ∷ []) }
    {
        let name = name_by_hash(alloc, &mut self.by_hash, hash_of(text), text)?;
        if name.is(text) {
            return Ok(name);
        }
        self.others.name(alloc, text)
    }
}

/// The name with this text, if there is one.
#[inline(always)]
fn among<'n>(names: &'n [Name], text: &str) -> Option<&'n Name>
    ensures found { IfSome result (λ name. name.now ≡ text.now) }
    ensures held { IfSome result (λ _. holds names.now text.now ≡ true) }
{
    for name in names {
        if is(name.as_str(), text) {
            return Some(name);
        }
    }
    None
}

/// The names that a source has used so far. The first few are kept in order of occurrence, the
/// others by their hashes, so that a lookup among many names reads few texts. A contract sees their
/// bytes.
#[derive(Drop)]
pub(crate) struct NamePool {
    first: Vec<Name>,
    further: HashedNames,
}

impl Model for NamePool {
    ghost use Rattle.std.specs.Prelude.{List, ℕ, ◌++◌};

    ghost Value = { List (List ℕ) };

    ghost view = { λ a. a.first.items ++ a.further };
}

impl NamePool {
    /// No names.
    pub(crate) fn new(alloc: Global) -> NamePool
        ensures { result ≡ [] }
    {
        NamePool {
            first: Vec::new(alloc),
            further: HashedNames::new(alloc),
        }
    }

    /// The name with this text. It shares the text of an equal earlier name. OutOfMemory if memory
    /// runs out.
    #[inline(always)]
    pub(crate) fn name(&mut self, alloc: Global, text: &str) -> Result<Name, Error>
        ensures found { IfOk result (λ name. name ≡ text.now) }
        ensures kept { OnOk result (IsWith text.now self.old self.new) }
        ensures refused { IfErr result (λ e. e ≡ OutOfMemory ∷ []) }
    {
        if let Some(known) = among(&self.first, text) {
            return Ok(known.share()?);
        }
        if self.first.len() >= FEW {
            return self.further.name(alloc, text);
        }
        let name = Name::new(alloc, text)?;
        self.first.push(name.share()?)?;
        Ok(name)
    }
}
