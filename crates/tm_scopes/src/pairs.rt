//! Name-value pairs in a vector.
ghost use Rattle.std.specs.List.Sorted.{IsStrictlySortedBy};
ghost use Rattle.std.specs.Map.{keys_of};
ghost use Rattle.std.specs.Prelude.{◌≡◌, [], ◌∷◌, ◌++◌, IfErr, IfOk, None, OnOk};
ghost use Rattle.tm_syntax.specs.Named.{find, name_cmp, put, texts_of};
ghost use Rattle.tm_scopes.specs.Known.{is_among};
ghost use Rattle.tm_scopes.specs.Pairs.{IsPlace, in_order};
ghost use Rattle.tm_meaning.specs.World.{exported};
ghost use Rattle.tm_values.specs.Answer.{IsLent, OkOrOutOfMemory, OrStays};
ghost use Rattle.tm_values.specs.declared.error.ErrorKind.TheVariants.{OutOfMemory};

use crate::frame::is_exported;
use std::alloc::{AllocError, Global};
use std::marker::Model;
use tm_syntax::Name;
use tm_values::{Error, Value, ValueMap};

/// Sorts `names` and removes duplicates.
pub(crate) fn in_order(mut names: Vec<&str>) -> Vec<&str>
    ensures order { IsStrictlySortedBy name_cmp (texts_of result.items) }
    ensures same { (x : _) → is_among x (texts_of result.items)
        ≡ is_among x (texts_of names.entry.items) }
{
    names.sort_unstable();
    names.dedup();
    names
}

/// The place of the first pair named `name`.
#[inline(always)]
pub(crate) fn place_of(pairs: &[(Name, Value)], name: &Name) -> Option<usize>
    ensures { IsPlace name.now pairs.now result }
{
    let mut place = 0;
    while place < pairs.len() {
        if pairs[place].0 == *name {
            return Some(place);
        }
        place += 1;
    }
    None
}

/// The value of the first pair named `name`.
#[inline(always)]
pub(crate) fn value_of<'a>(pairs: &'a [(Name, Value)], name: &Name) -> Option<&'a Value>
    ensures { IsLent result (find name.now pairs.now) }
{
    match place_of(pairs, name) {
        Some(place) => Some(&pairs[place].1),
        None => None,
    }
}

/// The names of the pairs in order, each once. AllocError if memory runs out.
pub(crate) fn names_in(alloc: Global, pairs: &[(Name, Value)]) -> Result<Vec<&str>, AllocError>
    ensures { IfOk result (λ names. texts_of names.items ≡ keys_of (in_order pairs.now)) }
{
    let mut names = Vec::new(alloc);
    for pair in pairs {
        names.push(pair.0.as_str())?;
    }
    Ok(in_order(names))
}

/// Appends a shared copy of `value` with `name` as its key if the name is exported. Fails only with
/// OutOfMemory.
fn add_exported(
    alloc: Global,
    name: &Name,
    value: &Value,
    pairs: &mut Vec<(Value, Value)>,
) -> Result<(), Error>
    ensures ok { OnOk result
        (pairs.new.items ≡ pairs.old.items ++ exported ((name.now, value.now) ∷ [])) }
    ensures kind { IfErr result (λ e. e ≡ OutOfMemory ∷ []) }
{
    if is_exported(name.as_str()) {
        pairs.push((Value::text(alloc, name.as_str())?, value.share()?))?;
    }
    Ok(())
}

/// The exported names as keys of their shared values. Makes n log n comparisons for n pairs. Fails
/// only with OutOfMemory.
pub(crate) fn exported(alloc: Global, own: &[(Name, Value)]) -> Result<ValueMap, Error>
    ensures { OkOrOutOfMemory result (λ pairs. pairs ≡ exported (in_order own.now)) }
{
    let mut pairs = Vec::new(alloc);
    for pair in own {
        add_exported(alloc, &pair.0, &pair.1, &mut pairs)?;
    }
    // The last of equal keys wins in a map, but the first one here.
    pairs.reverse();
    ValueMap::from_pairs(pairs)
}

/// A map for few names, which are compared by their hashes. Clearing it keeps the memory. A
/// contract sees the pairs, ordered by name.
pub struct Pairs {
    all: Vec<(Name, Value)>,
}

// Written by hand: one drop call per owner instead of dropping each part.
impl Drop for Pairs {
    fn drop(self) {
        let Pairs { all: _all } = self;
    }
}

impl Model for Pairs {
    ghost use Rattle.std.specs.Coded.{codes};
    ghost use Rattle.tm_syntax.specs.Named.{Named};
    ghost use Rattle.tm_values.specs.Code.{coded_Val};
    ghost use Rattle.tm_values.specs.Val.{Val};
    ghost use Rattle.tm_scopes.specs.Pairs.{in_order};

    ghost Value = { Named Val };

    ghost coded = { Prim.hlevel (codes, coded_Val) };

    ghost view = { λ a. in_order a.all.items };
}

impl Pairs {
    /// An empty map; allocates nothing.
    pub fn new(alloc: Global) -> Pairs
        ensures { result ≡ [] }
    {
        Pairs {
            all: Vec::new(alloc),
        }
    }

    /// The value bound to `name`, found by a linear search.
    #[inline(always)]
    pub fn get(&self, name: &Name) -> Option<&Value>
        ensures { IsLent result (find name.now self.now) }
    {
        value_of(&self.all, name)
    }

    /// Binds `name` to `value` and returns true. If memory runs out, nothing changes and the result
    /// is false.
    #[inline(always)]
    pub fn put(&mut self, name: &Name, value: Value) -> bool
        ensures { OrStays result self.old self.new (self.new ≡ put name.now value self.old) }
    {
        match place_of(&self.all, name) {
            Some(place) => {
                self.all[place].1 = value;
                true
            }
            None => {
                let Ok(name) = name.share() else {
                    return false;
                };
                if self.all.len() >= self.all.capacity() {
                    return self.push(name, value);
                }
                self.all.push_reserved((name, value));
                true
            }
        }
    }

    /// `put` for a name that isn't bound yet.
    #[inline(never)]
    fn push(&mut self, name: Name, value: Value) -> bool
        requires { find name self.old ≡ None }
        ensures { OrStays result self.old self.new (self.new ≡ put name value self.old) }
    {
        let Ok(()) = self.all.push((name, value)) else {
            return false;
        };
        true
    }

    /// Removes all bindings.
    #[inline(always)]
    pub fn clear(&mut self)
        ensures { self.new ≡ [] }
    {
        while !self.all.is_empty() {
            drop(self.all.take_last());
        }
    }
}
