//! Values that grow where a name binds them.
ghost use Rattle.std.specs.Prelude.{◌≡◌, [], ◌∷◌, OnErr, OnOk, IfErr};
ghost use Rattle.tm_state.specs.Growth.{MayBind, SetsSum, StoresSum};

use crate::state::StateData;
use std::alloc::Global;
use tm_operations::{check_settable, grow};
use tm_records::set_in;
use tm_syntax::Name;
use tm_values::{Error, ErrorKind, Node, Value, find_namespace};

impl StateData {
    /// Binds `name`, as `store` does, to the sum of two texts or two lists. What `name` is bound to is
    /// dropped before, so that nothing is copied if only that shares the content of `left`.
    /// OutOfMemory also for other values, and if the sum is larger than `most`; then `name` may be
    /// bound to another value.
    #[tactic(auto, using(crate::proofs::BoundAgain::bound_again))]
    pub fn store_sum(
        &mut self,
        alloc: Global,
        name: &Name,
        left: Value,
        right: &Value,
        most: u64,
    ) -> Result<(), Error>
        ensures ok { OnOk result (StoresSum name.now left right.now most self.old self.new) }
        ensures kind { IfErr result (λ e. e ≡ ErrorKind.OutOfMemory ∷ []) }
        ensures err { OnErr result (MayBind name.now self.old self.new) }
    {
        self.store(name, Value::none())?;
        match grow(alloc, left, right) {
            Ok(sum) => {
                if sum.size() > most {
                    return Err(Error::from(ErrorKind::OutOfMemory));
                }
                self.store(name, sum)
            }
            Err(left) => {
                self.store(name, left)?;
                Err(Error::from(ErrorKind::OutOfMemory))
            }
        }
    }

    /// Sets an attribute of a namespace of this state, as `set_member` does, to the sum of two texts
    /// or two lists. Its value is dropped before, so that nothing is copied if only that shares the
    /// content of `left`. OutOfMemory also for other values and objects, and if the sum is larger
    /// than `most`; then the attribute may have another value.
    pub fn set_member_sum(
        &mut self,
        alloc: Global,
        object: &Value,
        name: &Name,
        left: Value,
        right: &Value,
        most: u64,
    ) -> Result<(), Error>
        ensures ok { OnOk result
            (SetsSum name.now object.now left right.now most self.old self.new) }
        ensures kind { IfErr result (λ e. e ≡ ErrorKind.OutOfMemory ∷ []) }
        ensures rest { self.new ≡ record self.old { namespaces = self.new.namespaces } }
    {
        let Ok(index) = check_settable(alloc, object, self) else {
            return Err(Error::from(ErrorKind::OutOfMemory));
        };
        set_in(alloc, &mut self.namespaces, index, name, Value::none())?;
        match grow(alloc, left, right) {
            Ok(sum) => {
                if sum.size() > most {
                    return Err(Error::from(ErrorKind::OutOfMemory));
                }
                set_in(alloc, &mut self.namespaces, index, name, sum)
            }
            Err(left) => {
                set_in(alloc, &mut self.namespaces, index, name, left)?;
                Err(Error::from(ErrorKind::OutOfMemory))
            }
        }
    }

    /// Whether the attribute `name` of a namespace of this state shares its content with `value`.
    pub fn shares_member(&self, object: &Value, name: &Name, value: &Value) -> bool {
        let Node::Namespace(state, index) = &object.node else {
            return false;
        };
        match find_namespace(self, *state, *index) {
            Some(pairs) => match pairs.member(name.as_str()) {
                Some(own) => own.shares_with(value),
                None => false,
            },
            None => false,
        }
    }

    /// Whether the innermost scope binds `name` to a value that shares its content with `value`. It
    /// says nothing of what the values are, only of memory.
    pub fn shares_local(&self, name: &Name, value: &Value) -> bool {
        match self.context.local(name) {
            Some(own) => own.shares_with(value),
            None => false,
        }
    }
}
