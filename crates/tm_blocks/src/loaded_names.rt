//! The names of the loaded templates.
ghost use Rattle.std.specs.Prelude.{◌≡◌, ◌∷◌, ◌++◌, [], IfErr, OnErr, OnOk};
ghost use Rattle.tm_syntax.specs.Names.{is_among};
ghost use Rattle.tm_values.specs.Answer.{OkOrOutOfMemory};
ghost use Rattle.tm_values.specs.declared.error.ErrorKind.TheVariants.{OutOfMemory};

use std::alloc::Global;
use std::marker::Model;
use tm_scopes::NameTable;
use tm_syntax::Name;
use tm_values::{Error, ErrorKind};

/// The names of the loaded templates, in order, with a table for lookups. A contract sees the
/// names.
#[derive(Drop)]
pub(crate) struct LoadedNames {
    names: Vec<Name>,
    known: NameTable<()>,
}

impl Model for LoadedNames {
    ghost use Rattle.std.specs.Prelude.{List, ℕ};
    ghost use Rattle.tm_blocks.specs.Lists.{HasNames};

    ghost Value = { List (List ℕ) };

    ghost view = { λ s. s.names.items };

    ghost invariant = { λ s. HasNames s.known s.names.items };
}

impl LoadedNames {
    /// No names; allocates nothing.
    pub(crate) fn new(alloc: Global) -> LoadedNames
        ensures { result ≡ [] }
    {
        LoadedNames {
            names: Vec::new(alloc),
            known: NameTable::new(alloc),
        }
    }

    /// Whether the template `name` was loaded. Makes log n comparisons for n names.
    pub(crate) fn has(&self, name: &str) -> bool
        ensures { result ≡ is_among name.now self.now }
    {
        self.known.get(name).is_some()
    }

    /// Records that the template `name` was loaded. Fails only with OutOfMemory; then nothing
    /// changes.
    pub(crate) fn add(&mut self, name: Name) -> Result<(), Error>
        ensures ok { OnOk result (self.new ≡ self.old ++ name ∷ []) }
        ensures kind { IfErr result (λ e. e ≡ OutOfMemory ∷ []) }
        ensures err { OnErr result (self.new ≡ self.old) }
    {
        let key = name.share()?;
        self.names.push(name)?;
        if self.known.insert(key, ()).is_err() {
            self.names.pop();
            return Err(Error::from(ErrorKind::OutOfMemory));
        }
        Ok(())
    }

    /// A copy. Fails only with OutOfMemory.
    pub(crate) fn copy(&self, alloc: Global) -> Result<LoadedNames, Error>
        ensures { OkOrOutOfMemory result (λ copy. copy ≡ self.now) }
    {
        let mut names = LoadedNames::new(alloc);
        for name in self.names.iter() {
            names.add(name.share()?)?;
        }
        Ok(names)
    }
}
