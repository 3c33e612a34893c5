//! A walk over a tree. It records the names that are assigned in open scopes, and the names that
//! were found.
ghost use Rattle.std.specs.BTreeMap.{is_at};
ghost use Rattle.std.specs.BTreeSet.{insert_key, keys};
ghost use Rattle.std.specs.List.{list_any};
ghost use Rattle.std.specs.Prelude.{◌≡◌, [], ◌∷◌, OnOk, IfOk, map, reverse};
ghost use Rattle.std.specs.String.{string_bytes};
ghost use Rattle.tm_syntax.specs.Names.{assign, beginning, close_scope, is_among, is_assigned, open_scope};
ghost use Rattle.tm_syntax.specs.Names.{read, read_as};
ghost use Rattle.tm_syntax.specs.Named.{name_cmp};

use std::alloc::{AllocError, Global};
use std::collections::BTreeSet;
use std::marker::Model;
use tm_items::Items;
use tm_syntax::{Name, NameMap};

/// The open scopes, the innermost last, and the names found so far.
#[derive(Drop)]
pub(crate) struct Walker {
    alloc: Global,
    scopes: Items<NameMap<()>>,
    found: BTreeSet<String>,
}

impl Model for Walker {
    ghost use Rattle.std.specs.Prelude.{map, reverse};
    ghost use Rattle.std.specs.String.{string_bytes};
    ghost use Rattle.tm_syntax.specs.Names.{Walk};

    ghost Value = { Walk };

    ghost view = { λ a. record { assigned = reverse a.scopes; found = map string_bytes a.found.keys } };
}

impl Walker {
    /// A walk with one open scope, and nothing found yet. AllocError if memory runs out.
    pub(crate) fn new(alloc: Global) -> Result<Walker, AllocError>
        ensures { IfOk result (λ walker. walker ≡ beginning) }
    {
        let mut scopes = Items::new(alloc);
        scopes.push(NameMap::new(alloc))?;
        Ok(Walker {
            alloc,
            scopes,
            found: BTreeSet::new(alloc),
        })
    }

    /// The allocator.
    pub(crate) fn alloc(&self) -> Global {
        self.alloc
    }

    /// Whether an open scope has assigned a name.
    fn is_assigned(&self, name: &str) -> bool
        ensures { result ≡ is_assigned name.now self.now.assigned }
    {
        is_assigned_in(self.scopes.as_slice(), name)
    }

    /// Assigns a name in the innermost scope. AllocError if memory runs out.
    pub(crate) fn assign(&mut self, name: Name) -> Result<(), AllocError>
        ensures { OnOk result (self.new ≡ assign name self.old) }
    {
        let mut scope = match self.scopes.pop() {
            Some(scope) => scope,
            None => NameMap::new(self.alloc),
        };
        scope.insert(name, ())?;
        self.scopes.push(scope)
    }

    /// Whether a name was found.
    pub(crate) fn reads(&self, name: &str) -> bool
        ensures { result ≡ is_among name.now self.now.found }
    {
        self.has_found(name)
    }

    /// Whether a text was found.
    fn has_found(&self, text: &str) -> bool
        ensures { result ≡ list_any (is_at (name_cmp text.now)) self.now.found }
    {
        self.found.contains(text)
    }

    /// Adds a text to those that were found. AllocError if memory runs out.
    fn add_found(&mut self, text: &str) -> Result<(), AllocError>
        ensures { OnOk result
            (self.new ≡ record self.old { found = insert_key name_cmp self.old.found text.now }) }
    {
        let text = String::from_str(self.alloc, text)?;
        self.found.insert(text)?;
        Ok(())
    }

    /// Reads a name: adds `text` to the texts that were found, unless an open scope has assigned
    /// the name. AllocError if memory runs out.
    pub(crate) fn read_as(&mut self, name: &str, text: &str) -> Result<(), AllocError>
        ensures { OnOk result (self.new ≡ read_as name.now text.now self.old) }
    {
        if self.is_assigned(name) {
            return Ok(());
        }
        if self.has_found(text) {
            return Ok(());
        }
        self.add_found(text)
    }

    /// Reads a name. AllocError if memory runs out.
    pub(crate) fn read(&mut self, name: &str) -> Result<(), AllocError>
        ensures { OnOk result (self.new ≡ read name.now self.old) }
    {
        self.read_as(name, name)
    }

    /// Opens a scope. AllocError if memory runs out.
    pub(crate) fn open_scope(&mut self) -> Result<(), AllocError>
        ensures { OnOk result (self.new ≡ open_scope self.old) }
    {
        self.scopes.push(NameMap::new(self.alloc))
    }

    /// Closes the innermost scope.
    pub(crate) fn close_scope(&mut self)
        ensures { self.new ≡ close_scope self.old }
    {
        let _closed = self.scopes.pop();
    }

    /// The names that were found.
    pub(crate) fn into_found(self) -> BTreeSet<String>
        ensures { map string_bytes (keys result) ≡ self.found }
    {
        let Walker { found, .. } = self;
        found
    }
}

/// Whether one of these scopes has assigned a name. Searches from the last.
fn is_assigned_in(scopes: &[NameMap<()>], name: &str) -> bool
    ensures { result ≡ is_assigned name.now (reverse scopes.now) }
{
    let mut left = scopes.len();
    while left > 0 {
        left -= 1;
        if scopes[left].get(name).is_some() {
            return true;
        }
    }
    false
}
