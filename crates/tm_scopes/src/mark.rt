//! Where the names of a scope begin among those of all scopes.
ghost use Rattle.std.specs.BTreeMap.{is_at, insert_entry};
ghost use Rattle.std.specs.Map.{lookup};
ghost use Rattle.std.specs.Prelude.{◌≡◌, ◌≤◌, [], None, OnErr, OnOk, drop, length, take};
ghost use Rattle.tm_syntax.specs.Hashed.{hashed_cmp};
ghost use Rattle.tm_syntax.specs.Named.{find};
ghost use Rattle.tm_scopes.specs.Marks.{IsIndexed, IsMarked, IsNew, KeepsOthers, Stores, index_of, scanned};
ghost use Rattle.tm_scopes.specs.Pairs.{IsPlace};
ghost use Rattle.tm_values.specs.Answer.{IsLent};

use crate::frame::Frame;
use crate::pairs::place_of;
use std::alloc::{AllocError, Global};
use std::collections::BTreeMap;
use tm_syntax::Name;
use tm_values::Value;

/// How many names of a scope are searched one after the other, by their hashes. The names after
/// them are in an index, so that a scope with many names isn't slow.
pub(crate) const SCANNED: usize = 64;

/// A scope: the place of its first pair among those of all scopes, its frame, and, if it has many
/// names, an index of the names after the scanned ones. The index counts places from the end of the
/// scanned ones.
pub(crate) struct ScopeMark {
    pub(crate) first: usize,
    pub(crate) frame: Frame,
    index: Option<Box<BTreeMap<Name, usize>>>,
}

// Written by hand: one drop call per owner instead of dropping each part.
impl Drop for ScopeMark {
    fn drop(self) {
        let ScopeMark {
            first: _first,
            frame: _frame,
            index: _index,
        } = self;
    }
}

impl ScopeMark {
    /// A scope without names, whose pairs will begin at `first`.
    #[inline(always)]
    pub(crate) fn new(first: usize, frame: Frame) -> ScopeMark
        ensures { IsNew first frame result }
    {
        frame.is_bare();
        ScopeMark {
            first,
            frame,
            index: None,
        }
    }

    /// The place of `name` among the scope's own pairs.
    #[inline(always)]
    fn place(&self, own: &[(Name, Value)], name: &Name) -> Option<usize>
        requires { IsIndexed self.now own.now }
        ensures { IsPlace name.now own.now result }
    {
        if own.len() <= SCANNED {
            return place_of(own, name);
        }
        self.place_among_many(own, name)
    }

    /// `place` for a scope with at least `SCANNED` pairs.
    #[inline(never)]
    fn place_among_many(&self, own: &[(Name, Value)], name: &Name) -> Option<usize>
        requires indexed { IsIndexed self.now own.now }
        requires many { scanned ≤ length own.now }
        ensures { IsPlace name.now own.now result }
    {
        match place_of(&own[..SCANNED], name) {
            Some(place) => Some(place),
            None => match self.indexed(name) {
                Some(place) => Some(SCANNED + place),
                None => None,
            },
        }
    }

    /// The place that the index has for `name`, counted from the end of the scanned pairs.
    fn indexed(&self, name: &Name) -> Option<usize>
        ensures { result ≡ lookup (is_at (hashed_cmp name.now)) (index_of self.now) }
    {
        match &self.index {
            Some(index) => index.get(name).copied(),
            None => None,
        }
    }

    /// The value of `name` among the scope's own pairs.
    #[inline(always)]
    pub(crate) fn get<'a>(&self, own: &'a [(Name, Value)], name: &Name) -> Option<&'a Value>
        requires { IsIndexed self.now own.now }
        ensures { IsLent result (find name.now own.now) }
    {
        match self.place(own, name) {
            Some(place) => Some(&own[place].1),
            None => None,
        }
    }

    /// Binds `name` to `value` in the scope, whose pairs are the last of `all`. AllocError if
    /// memory runs out; then the pairs stay unchanged.
    pub(crate) fn insert(
        &mut self,
        all: &mut Vec<(Name, Value)>,
        name: Name,
        value: Value,
    ) -> Result<(), AllocError>
        requires { IsMarked self.old all.old.items }
        ensures kept { KeepsOthers self.old self.new all.old.items all.new.items }
        ensures ok { OnOk result (Stores name value self.old all.old.items all.new.items) }
        ensures err { OnErr result (all.new.items ≡ all.old.items) }
    {
        match self.place(&all[self.first..], &name) {
            Some(place) => {
                all[self.first + place].1 = value;
                Ok(())
            }
            None => self.add(all, name, value),
        }
    }

    /// `insert` for a name that the scope doesn't bind yet.
    fn add(
        &mut self,
        all: &mut Vec<(Name, Value)>,
        name: Name,
        value: Value,
    ) -> Result<(), AllocError>
        requires marked { IsMarked self.old all.old.items }
        requires lacks { find name (drop self.old.first all.old.items) ≡ None }
        ensures kept { KeepsOthers self.old self.new all.old.items all.new.items }
        ensures ok { OnOk result (Stores name value self.old all.old.items all.new.items) }
        ensures err { OnErr result (all.new.items ≡ all.old.items) }
    {
        let count = all.len() - self.first;
        if count < SCANNED {
            all.push((name, value))?;
            return Ok(());
        }
        all.reserve(1)?;
        self.add_to_index(*all.allocator(), name.share()?, count - SCANNED)?;
        all.push_reserved((name, value));
        Ok(())
    }

    /// Adds `name` with its place to the index, and makes the index if there is none. AllocError if
    /// memory runs out; then the index stays unchanged.
    fn add_to_index(&mut self, alloc: Global, name: Name, place: usize) -> Result<(), AllocError>
        ensures ok { OnOk result
            (index_of self.new ≡ insert_entry hashed_cmp (index_of self.old) name place) }
        ensures err { OnErr result (index_of self.new ≡ index_of self.old) }
        ensures rest { self.new ≡ record self.old { index = self.new.index } }
    {
        match &mut self.index {
            Some(index) => {
                index.insert(name, place)?;
            }
            None => {
                let mut index = BTreeMap::new(alloc);
                index.insert(name, place)?;
                self.index = Some(Box::new(alloc, index)?);
            }
        }
        Ok(())
    }

    /// Drops the index of a scope whose names are dropped.
    #[inline(never)]
    pub(crate) fn forget_index(&mut self)
        ensures none { index_of self.new ≡ [] }
        ensures rest { self.new ≡ record self.old { index = self.new.index } }
    {
        self.index = None;
    }
}

/// Drops the pairs from `first` on.
#[inline(always)]
pub(crate) fn cut(all: &mut Vec<(Name, Value)>, first: usize)
    ensures { all.new.items ≡ take first all.old.items }
{
    while all.len() > first {
        drop(all.take_last());
    }
}
