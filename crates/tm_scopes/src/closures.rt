//! The closures of a state.
ghost use Rattle.std.specs.Map.{keys_of};
ghost use Rattle.std.specs.Prelude.{◌≡◌, ◌∷◌, ◌++◌, [], IfErr, IfOk, None, OnErr, OnOk, Some, length};
ghost use Rattle.tm_meaning.specs.World.{put_at, read_closure};
ghost use Rattle.tm_syntax.specs.Named.{find, put, texts_of};
ghost use Rattle.tm_scopes.specs.Closures.{names_read, others_at, others_than, IsReplaced, IsReplacedAt};
ghost use Rattle.tm_values.specs.Answer.{IsLent};
ghost use Rattle.tm_values.specs.declared.error.ErrorKind.TheVariants.{OutOfMemory};

use crate::pairs::in_order;
use std::alloc::{AllocError, Global};
use std::collections::BTreeMap;
use std::marker::Model;
use tm_syntax::Name;
use tm_values::{Error, Value};

/// A closure: a map from names to values. A contract sees the pairs, ordered by name.
#[derive(Drop)]
struct Closure {
    names: BTreeMap<Name, Value>,
}

impl Model for Closure {
    ghost use Rattle.std.specs.Coded.{codes};
    ghost use Rattle.tm_meaning.specs.World.{Bindings};
    ghost use Rattle.tm_values.specs.Code.{coded_Val};
    ghost use Rattle.tm_scopes.specs.Pairs.{in_order};

    ghost Value = { Bindings };

    ghost coded = { Prim.hlevel (codes, coded_Val) };

    ghost view = { λ c. in_order c.names.entries };
}

impl Closure {
    /// An empty closure; allocates nothing.
    fn new(alloc: Global) -> Closure
        ensures { result ≡ [] }
    {
        Closure {
            names: BTreeMap::new(alloc),
        }
    }

    /// The value bound to `name`.
    fn get(&self, name: &Name) -> Option<&Value>
        ensures { IsLent result (find name.now self.now) }
    {
        self.names.get(name)
    }

    /// Binds `name` to `value` and replaces an older binding. AllocError if memory runs out; then
    /// nothing changes.
    fn insert(&mut self, name: Name, value: Value) -> Result<(), AllocError>
        ensures ok { OnOk result (self.new ≡ put name value self.old) }
        ensures err { OnErr result (self.new ≡ self.old) }
    {
        self.names.insert(name, value)?;
        Ok(())
    }

    /// Rebinds `name` to `value` if it is bound, and returns true. Otherwise changes nothing and
    /// returns false.
    fn replace(&mut self, name: Name, value: Value) -> bool
        ensures { IsReplaced result name value self.old self.new }
    {
        if !self.names.contains_key(&name) {
            return false;
        }
        self.names.insert(name, value).is_ok()
    }

    /// Removes the binding of `name`, if there is one.
    fn remove(&mut self, name: &Name)
        ensures { self.new ≡ others_than name.now self.old }
    {
        let _value = self.names.remove(name);
    }

    /// The bound names in order. AllocError if memory runs out.
    fn names(&self, alloc: Global) -> Result<Vec<&str>, AllocError>
        ensures { IfOk result (λ names. texts_of names.items ≡ keys_of self.now) }
    {
        let mut names = Vec::new(alloc);
        for name in self.names.keys() {
            names.push(name.as_str())?;
        }
        Ok(in_order(names))
    }
}

/// The closures of a state, addressed by number. A contract sees each as its pairs, ordered by
/// name.
#[derive(Drop)]
pub struct Closures {
    all: Vec<Closure>,
}

impl Model for Closures {
    ghost use Rattle.std.specs.Coded.{codes};
    ghost use Rattle.std.specs.Prelude.{List};
    ghost use Rattle.tm_meaning.specs.World.{Bindings};
    ghost use Rattle.tm_values.specs.Code.{coded_Val};

    ghost Value = { List Bindings };

    ghost coded = { Prim.hlevel (codes, coded_Val) };

    ghost view = { λ c. c.all.items };
}

impl Closures {
    /// No closures; allocates nothing.
    pub fn new(alloc: Global) -> Closures
        ensures { result ≡ [] }
    {
        Closures {
            all: Vec::new(alloc),
        }
    }

    /// The number of closures, which is also the number of the next one.
    pub fn len(&self) -> usize
        ensures { result ≡ length self.now }
    {
        self.all.len()
    }

    /// The value bound to `name` in the closure `number`, if there is such a closure.
    pub fn get(&self, number: Option<usize>, name: &Name) -> Option<&Value>
        ensures { IsLent result (read_closure self.now number name.now) }
    {
        self.all.get(number?)?.get(name)
    }

    /// The names bound in the closure `number`, in order; empty if there is no such closure.
    /// AllocError if memory runs out.
    pub fn names(&self, alloc: Global, number: Option<usize>) -> Result<Vec<&str>, AllocError>
        ensures { IfOk result (λ names. texts_of names.items ≡ names_read self.now number) }
    {
        let Some(number) = number else {
            return Ok(Vec::new(alloc));
        };
        match self.all.get(number) {
            Some(closure) => closure.names(alloc),
            None => Ok(Vec::new(alloc)),
        }
    }

    /// Appends a closure that binds only `name`. Fails only with OutOfMemory; then nothing changes.
    pub fn add(&mut self, alloc: Global, name: Name, value: Value) -> Result<(), Error>
        ensures ok { OnOk result (self.new ≡ self.old ++ ((name, value) ∷ []) ∷ []) }
        ensures kind { IfErr result (λ e. e ≡ OutOfMemory ∷ []) }
        ensures err { OnErr result (self.new ≡ self.old) }
    {
        let mut closure = Closure::new(alloc);
        closure.insert(name, value)?;
        self.all.push(closure)?;
        Ok(())
    }

    /// Binds `name` to `value` in the closure `number`, if there is such a closure. Fails only with
    /// OutOfMemory; then nothing changes.
    #[tactic(auto, using(crate::proofs::Enclosed::put_past, crate::proofs::Enclosed::put_there))]
    pub fn put(&mut self, number: usize, name: Name, value: Value) -> Result<(), Error>
        ensures ok { OnOk result (self.new ≡ put_at number name value self.old) }
        ensures kind { IfErr result (λ e. e ≡ OutOfMemory ∷ []) }
        ensures err { OnErr result (self.new ≡ self.old) }
    {
        if number >= self.all.len() {
            return Ok(());
        }
        self.all[number].insert(name, value)?;
        Ok(())
    }

    /// Rebinds `name` to `value` if the closure `number` binds it, and returns true. Otherwise
    /// changes nothing and returns false.
    pub(crate) fn replace(&mut self, number: usize, name: Name, value: Value) -> bool
        ensures { IsReplacedAt result number name value self.old self.new }
    {
        if number >= self.all.len() {
            return false;
        }
        self.all[number].replace(name, value)
    }

    /// Removes the binding of `name` from the closure `number`, if it has one.
    #[tactic(auto, using(crate::proofs::Enclosed::others_past, crate::proofs::Enclosed::others_there))]
    pub(crate) fn remove(&mut self, number: usize, name: &Name)
        ensures { self.new ≡ others_at number name.now self.old }
    {
        if number >= self.all.len() {
            return;
        }
        self.all[number].remove(name);
    }
}
