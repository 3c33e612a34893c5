//! A list of items.
ghost use Rattle.std.specs.Prelude.{◌≡◌, [], ◌∷◌, ◌++◌, ◌<◌, ◌≤◌, length, slice_get, slice_set, ◌↔◌, IsTrue, MatchOption, OnOk, OnErr, OnSome};
ghost use Rattle.std.specs.Option.{option_copied};

use std::alloc::{AllocError, Global};
use std::marker::Model;

/// A `Vec` that contracts see as the list of its items.
#[derive(Debug)]
pub struct Items<T> {
    items: Vec<T>,
}

impl<T> Model for Items<T> {
    ghost use Rattle.std.specs.Prelude.{List};
    ghost use Rattle.std.specs.Coded.{coded_list};

    ghost Value = { List T };

    ghost coded = { coded_list T.code };

    ghost view = { λ it. it.items.items };
}

// Not derived: a tree that drops itself by a list of its own calls the drop of a field's type. Not
// inline, so that a frame has no room for the items that it may drop.
impl<T: Drop> Drop for Items<T> {
    #[inline(never)]
    fn drop(self) {
        let Items { items: _items } = self;
    }
}

impl<T> Items<T> {
    /// The empty list, which takes no memory.
    pub fn new(alloc: Global) -> Items<T>
        ensures { result ≡ [] }
    {
        Items {
            items: Vec::new(alloc),
        }
    }

    /// The items of a `Vec`, which isn't copied.
    pub fn from_vec(items: Vec<T>) -> Items<T>
        ensures { result ≡ items.items }
    {
        Items { items }
    }

    /// The `Vec` of the items, which isn't copied.
    pub fn into_vec(self) -> Vec<T>
        ensures { result.items ≡ self }
    {
        let Items { items } = self;
        items
    }

    /// Frees an empty list, also where its items can't be dropped.
    pub fn destroy_empty(self)
        requires { length self ≡ 0 }
    {
        let Items { items } = self;
        items.destroy_empty();
    }

    /// The items, lent.
    pub fn as_slice(&self) -> &[T]
        ensures { result.now ≡ self.now }
    {
        self.items.as_slice()
    }

    /// How many items there are.
    pub fn len(&self) -> usize
        ensures { result ≡ length self.now }
    {
        self.items.len()
    }

    /// Whether there is no item.
    pub fn is_empty(&self) -> bool
        ensures { IsTrue result ↔ (self.now ≡ []) }
    {
        self.items.is_empty()
    }

    /// The item at a place, counted from 0; `None` where there is none.
    pub fn get(&self, at: usize) -> Option<&T>
        ensures value { option_copied result ≡ slice_get self.now at }
        ensures within { OnSome result (at < length self.now) }
    {
        self.items.get(at)
    }

    /// Removes the last item; `None` where there is none.
    pub fn pop(&mut self) -> Option<T>
        ensures { MatchOption result
            ((self.old ≡ []) × (self.new ≡ []))
            (λ last. self.old ≡ self.new ++ last ∷ []) }
    {
        self.items.pop()
    }
}

impl<T> Items<T> {
    ghost use Rattle.std.specs.Borrow.{LendsIf, sem};
    ghost use Rattle.tm_items.specs.contracts.items.Items.{the_row};

    /// The item at a place, counted from 0, lent to be written; `None` where there is none.
    pub fn get_mut(&mut self, at: usize) -> Option<&mut T>
        ensures* writes_back { sem 𝓛
            (LendsIf (the_row T.row) T.row self.entry result (slice_set self.old at) self.old) }
        ensures value { MatchOption result
            (length self.old ≤ at)
            (λ item. slice_get self.old at ≡ Some item.now) }
    {
        self.items.get_mut(at)
    }
}

impl<T: Drop> Items<T> {
    /// Replaces the item at a place, counted from 0, which must be there.
    pub fn set(&mut self, at: usize, item: T)
        requires { at < length self.old }
        ensures { self.new ≡ slice_set self.old at item }
    {
        self.items[at] = item;
    }

    /// Adds an item at the end. AllocError when out of memory: then the item is dropped and the
    /// list stays as it was.
    pub fn push(&mut self, item: T) -> Result<(), AllocError>
        ensures ok { OnOk result (self.new ≡ self.old ++ item ∷ []) }
        ensures err { OnErr result (self.new ≡ self.old) }
    {
        self.items.push(item)?;
        Ok(())
    }
}
