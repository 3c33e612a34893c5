//! Tables keyed by name whose entries can be found by place.
ghost use Rattle.std.specs.Prelude.{◌≡◌, [], None, IfOk, OnErr, OnOk, MatchOption, MatchResult};
ghost use Rattle.tm_syntax.specs.Named.{find, name_cmp, put, without};
ghost use Rattle.tm_scopes.specs.Places.{IsNameAt, IsNameGap};
ghost use Rattle.tm_values.specs.Answer.{IsLent};

use std::alloc::{AllocError, Global};
use std::marker::Model;
use tm_syntax::Name;

/// The place to pass if none is known; no entry has it.
pub const NO_PLACE: usize = usize::MAX;

/// A table from names to items. An entry can be found by its place without a search. A contract
/// sees the pairs, ordered by name.
#[derive(Drop)]
pub struct NameTable<T> {
    pub(crate) entries: Vec<(Name, T)>,
}

impl<T> Model for NameTable<T> {
    ghost use Rattle.std.specs.Coded.{codes};
    ghost use Rattle.tm_syntax.specs.Named.{Named};
    ghost use Rattle.tm_scopes.specs.Places.{AreOrdered};

    ghost Value = { Named T };

    ghost coded = { Prim.hlevel (codes, T.code) };

    ghost view = { λ a. a.entries.items };

    ghost invariant = { λ a. AreOrdered a.entries.items };
}

impl<T> NameTable<T> {
    /// An empty table; allocates nothing.
    pub fn new(alloc: Global) -> NameTable<T>
        ensures { result ≡ [] }
    {
        NameTable {
            entries: Vec::new(alloc),
        }
    }

    /// The item of `name`. Makes log n comparisons for n names.
    pub fn get(&self, name: &str) -> Option<&T>
        ensures { IsLent result (find name.now self.now) }
    {
        match self.search(name) {
            Ok(place) => Some(&self.entries[place].1),
            Err(_) => None,
        }
    }

    /// The item of `name`, whatever `place` is. Makes only one comparison if the entry is at
    /// `place`.
    #[inline(always)]
    pub fn get_at(&self, place: usize, name: &str) -> Option<&T>
        ensures { IsLent result (find name.now self.now) }
    {
        match self.entries.get(place) {
            Some(entry) if entry.0.is(name) => Some(&entry.1),
            _ => self.get(name),
        }
    }

    /// The place of the entry of `name`; None if there is no such entry.
    pub fn place(&self, name: &str) -> Option<usize>
        ensures { MatchOption result (find name.now self.now ≡ None) (IsNameAt name.now self.now) }
    {
        match self.search(name) {
            Ok(place) => Some(place),
            Err(_) => None,
        }
    }

    /// The place of the entry of `name`, or as an error the place to insert it at.
    pub(crate) fn search(&self, name: &str) -> Result<usize, usize>
        ensures { MatchResult result (IsNameAt name.now self.now) (IsNameGap name.now self.now) }
    {
        self.entries.binary_search_by(
            |entry|
                ensures { result ≡ name_cmp entry.now.0 name.entry.now }
            { entry.0.compare(name) },
        )
    }
}

impl<T: Drop> NameTable<T> {
    /// Binds `name` to `item` and replaces an older entry. AllocError if memory runs out; then
    /// nothing changes.
    pub fn insert(&mut self, name: Name, item: T) -> Result<(), AllocError>
        ensures ok { OnOk result (self.new ≡ put name item self.old) }
        ensures err { OnErr result (self.new ≡ self.old) }
    {
        match self.search(name.as_str()) {
            Ok(place) => {
                self.entries[place].1 = item;
                Ok(())
            }
            Err(place) => {
                self.entries.insert(place, (name, item))?;
                Ok(())
            }
        }
    }

    /// Removes the entry of `name` and returns its item.
    pub fn remove(&mut self, name: &str) -> Option<T>
        ensures before { result ≡ find name.now self.old }
        ensures rest { self.new ≡ without name.now self.old }
    {
        match self.search(name) {
            Ok(place) => {
                let (_name, item) = self.entries.remove(place);
                Some(item)
            }
            Err(_) => None,
        }
    }
}

impl NameTable<usize> {
    /// A copy. AllocError if memory runs out.
    #[inline(always)]
    pub fn copy(&self, alloc: Global) -> Result<NameTable<usize>, AllocError>
        ensures { IfOk result (λ copy. copy ≡ self.now) }
    {
        let mut entries = Vec::new(alloc);
        for entry in self.entries.iter() {
            let name = entry.0.share()?;
            entries.push((name, entry.1))?;
        }
        Ok(NameTable { entries })
    }
}
