//! Maps by name.
ghost use Rattle.std.specs.Map.{keys_of};
ghost use Rattle.std.specs.Prelude.{◌≡◌, ◌≢◌, [], None, Some, IfOk, MatchOption, OnOk, OnErr, length};
ghost use Rattle.tm_syntax.specs.Named.{find, pairs_of, put, texts_of, without};

use crate::name::Name;
use std::alloc::{AllocError, Global};
use std::collections::BTreeMap;
use std::marker::Model;
use std::rc::RcStr;

/// A map from names to items. A contract sees the pairs, in the order of the names.
#[derive(Drop)]
pub struct NameMap<T> {
    by_name: BTreeMap<RcStr, T>,
}

impl<T> Model for NameMap<T> {
    ghost use Rattle.tm_syntax.specs.Named.{Named, named_of};
    ghost use Rattle.std.specs.Coded.{codes};

    ghost Value = { Named T };

    ghost coded = { Prim.hlevel (codes, T.code) };

    ghost view = { λ a. named_of a.by_name.entries };
}

impl<T> NameMap<T> {
    /// An empty map.
    pub fn new(alloc: Global) -> NameMap<T>
        ensures { result ≡ [] }
    {
        NameMap {
            by_name: BTreeMap::new(alloc),
        }
    }

    /// The item of `name`, if there is one.
    pub fn get(&self, name: &str) -> Option<&T>
        ensures { MatchOption result (find name.now self.now ≡ None)
            (λ x. find name.now self.now ≡ Some x.now) }
    {
        self.by_name.get(name)
    }

    /// The names, in order. AllocError if memory runs out.
    pub fn names(&self, alloc: Global) -> Result<Vec<&str>, AllocError>
        ensures { IfOk result (λ names. texts_of names.items ≡ keys_of self.now) }
    {
        let mut names = Vec::new(alloc);
        for name in self.by_name.keys() {
            names.push(name.as_str())?;
        }
        Ok(names)
    }

    /// The names with their items, in the order of the names. AllocError if memory runs out.
    pub fn pairs(&self, alloc: Global) -> Result<Vec<(&str, &T)>, AllocError>
        ensures { IfOk result (λ pairs. pairs_of pairs.items ≡ self.now) }
    {
        let mut pairs = Vec::new(alloc);
        for (name, item) in self.by_name.iter() {
            pairs.push((name.as_str(), item))?;
        }
        Ok(pairs)
    }
}

impl<T: Drop> NameMap<T> {
    /// Binds `name` to `item`, replacing the old item if there is one. AllocError if memory runs
    /// out; then nothing changes.
    pub fn insert(&mut self, name: Name, item: T) -> Result<(), AllocError>
        ensures ok { OnOk result (self.new ≡ put name item self.old) }
        ensures err { OnErr result (self.new ≡ self.old) }
    {
        self.replace(name, item)?;
        Ok(())
    }

    /// Binds `name` to `item` and returns the old item, if there is one. AllocError if memory runs
    /// out; then nothing changes.
    pub fn replace(&mut self, name: Name, item: T) -> Result<Option<T>, AllocError>
        ensures before { IfOk result (λ before. before ≡ find name self.old) }
        ensures ok { OnOk result (self.new ≡ put name item self.old) }
        ensures err { OnErr result (self.new ≡ self.old) }
    {
        let before = self.by_name.insert(name.into_text(), item)?;
        Ok(before)
    }

    /// Removes `name` and returns its item, if there is one. Other names are unaffected.
    pub fn remove(&mut self, name: &str) -> Option<T>
        ensures before { result ≡ find name.now self.old }
        ensures rest { self.new ≡ without name.now self.old }
        ensures absent { find name.now self.old ≡ None → self.new ≡ self.old }
        ensures gone { find name.now self.new ≡ None }
        ensures others { (x : _) → x ≢ name.now → find x self.new ≡ find x self.old }
    {
        self.by_name.remove(name)
    }
}
