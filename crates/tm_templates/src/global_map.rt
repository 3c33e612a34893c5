//! Values by name that can also be walked in the order of the names.
ghost use Rattle.std.specs.Map.{keys_of};
ghost use Rattle.std.specs.Prelude.{◌≡◌, ◌≢◌, ◌<◌, [], ◌∷◌, None, Some, IfOk, OnOk, OnErr, IfErr, MatchResult, length, slice_get};
ghost use Rattle.tm_syntax.specs.Named.{find, name_cmp, put, without};
ghost use Rattle.tm_scopes.specs.Places.{AreOrdered, IsNameAt, IsNameGap};
ghost use Rattle.tm_values.specs.Answer.{OkOrOutOfMemory};
ghost use Rattle.tm_values.specs.declared.error.ErrorKind.TheVariants.{OutOfMemory};

use std::alloc::{AllocError, Global};
use std::marker::Model;
use tm_compiler::{Name, NameMap};
use tm_values::{Error, Value};

/// The names of `values` in order. AllocError if memory runs out.
fn names_of(alloc: Global, values: &NameMap<Value>) -> Result<Vec<Name>, AllocError>
    ensures { IfOk result (λ names. names.items ≡ keys_of values.now) }
{
    let mut names = Vec::new(alloc);
    for name in values.names(alloc)? {
        names.push(Name::new(alloc, name)?)?;
    }
    Ok(names)
}

/// The globals of an environment. A contract sees the pairs, ordered by name.
pub struct GlobalMap {
    values: NameMap<Value>,
    // The names again, in order: the map itself would need memory to list them.
    names: Vec<Name>,
}

// Written by hand: one drop call per owner instead of dropping each part.
impl Drop for GlobalMap {
    fn drop(self) {
        let GlobalMap {
            values: _values,
            names: _names,
        } = self;
    }
}

impl Model for GlobalMap {
    ghost use Rattle.std.specs.Coded.{codes};
    ghost use Rattle.tm_values.specs.Code.{coded_Val};
    ghost use Rattle.tm_meaning.specs.World.{Bindings};
    ghost use Rattle.tm_templates.specs.Globals.{AreNamesOf};

    ghost Value = { Bindings };

    ghost coded = { Prim.hlevel (codes, coded_Val) };

    ghost view = { λ a. a.values };

    ghost invariant = { λ a. AreNamesOf a.names.items a.values };
}

impl GlobalMap {
    /// No globals; allocates nothing.
    pub fn new(alloc: Global) -> GlobalMap
        ensures { result ≡ [] }
    {
        GlobalMap {
            values: NameMap::new(alloc),
            names: Vec::new(alloc),
        }
    }

    /// The globals `values`, whose names ascend. Fails only with OutOfMemory.
    pub fn of(alloc: Global, values: NameMap<Value>) -> Result<GlobalMap, Error>
        requires { AreOrdered values }
        ensures { OkOrOutOfMemory result (λ globals. globals ≡ values) }
    {
        let names = names_of(alloc, &values)?;
        Ok(GlobalMap { values, names })
    }

    /// The values by name.
    pub fn values(&self) -> &NameMap<Value>
        ensures { result.now ≡ self.now }
    {
        &self.values
    }

    /// Binds `name` to `value` and replaces an older binding. OutOfMemory if memory runs out; then
    /// nothing changes.
    pub fn insert(&mut self, name: Name, value: Value) -> Result<(), Error>
        ensures ok { OnOk result (self.new ≡ put name value self.old) }
        ensures kind { IfErr result (λ e. e ≡ OutOfMemory ∷ []) }
        ensures err { OnErr result (self.new ≡ self.old) }
    {
        match self.place(name.as_str()) {
            Ok(_place) => {
                self.values.insert(name, value)?;
                Ok(())
            }
            Err(place) => {
                self.names.insert(place, name.share()?)?;
                match self.values.insert(name, value) {
                    Ok(()) => Ok(()),
                    Err(error) => {
                        let _undone = self.names.remove(place);
                        Err(Error::from(error))
                    }
                }
            }
        }
    }

    /// Removes the global `name`, if there is one.
    pub fn remove(&mut self, name: &str)
        ensures rest { self.new ≡ without name.now self.old }
        ensures absent { find name.now self.old ≡ None → self.new ≡ self.old }
        ensures gone { find name.now self.new ≡ None }
        ensures others { (x : _) → x ≢ name.now → find x self.new ≡ find x self.old }
    {
        if let Ok(place) = self.place(name) {
            let _name = self.names.remove(place);
            let _value = self.values.remove(name);
        }
    }

    /// The number of globals.
    pub fn len(&self) -> usize
        ensures { result ≡ length self.now }
    {
        self.names.len()
    }

    /// The global at index `place` in the order of names.
    pub fn at(&self, place: usize) -> (&str, &Value)
        requires { place < length self.now }
        ensures { slice_get self.now place ≡ Some (result.0.now, result.1.now) }
    {
        let name = self.names[place].as_str();
        match self.values.get(name) {
            Some(value) => (name, value),
            None => unreachable!(),
        }
    }

    /// Proves that the names ascend; does nothing.
    pub fn ascend(&self)
        ensures { AreOrdered self.now }
    {
        let _ = &self.names;
    }

    /// The place of `name`, or as an error the place to insert it at.
    fn place(&self, name: &str) -> Result<usize, usize>
        ensures { MatchResult result (IsNameAt name.now self.now) (IsNameGap name.now self.now) }
    {
        self.names.binary_search_by(
            |other|
                ensures { result ≡ name_cmp other.now name.entry.now }
            { other.compare(name) },
        )
    }
}
