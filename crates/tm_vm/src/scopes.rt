//! The instructions for scopes and targets.
ghost use Rattle.tm_meaning.specs.Instructions.{store_local_of, unpack_list_of, set_attr_of, push_with_of, pop_frame_of};
ghost use Rattle.tm_runs.specs.Runs.{CanGoOn};
ghost use Rattle.tm_vm.specs.Answers.{Silently, Opens, Shifts};

use crate::flow::Flow;
use crate::machine::Machine;
use std::alloc::Global;
use tm_meaning::Base;
use tm_operations::unpack;
use tm_parts::Halt;
use tm_syntax::Name;
use tm_tables::Host;

impl Machine {
    /// Pops a value and binds `name` to it in the innermost scope.
    pub(crate) fn do_store_local(&mut self, name: &Name) -> Result<Flow, Halt>
        requires { CanGoOn self.old.run }
        ensures { Silently (store_local_of name.now self.old) self.old self.new result }
    {
        let value = self.run.popped()?;
        self.state.store(name, value)?;
        self.run.advance();
        Ok(Flow::GoOn)
    }

    /// Replaces a value by its `count` items, the first on top.
    pub(crate) fn do_unpack_list(&mut self, alloc: Global, count: usize) -> Result<Flow, Halt>
        requires { CanGoOn self.old.run }
        ensures { Silently (unpack_list_of count self.old) self.old self.new result }
    {
        let value = self.run.popped()?;
        let items = unpack(alloc, &value, count, &self.state)?;
        self.run.push_each(&items)?;
        self.run.advance();
        Ok(Flow::GoOn)
    }

    /// Pops a namespace and the value below it, and sets the attribute `name` to that value.
    pub(crate) fn do_set_attr(&mut self, alloc: Global, name: &Name) -> Result<Flow, Halt>
        requires { CanGoOn self.old.run }
        ensures { Silently (set_attr_of name.now self.old) self.old self.new result }
    {
        let object = self.run.popped()?;
        let value = self.run.popped()?;
        self.state.set_member(alloc, &object, name, value)?;
        self.run.advance();
        Ok(Flow::GoOn)
    }

    /// Opens a scope. InvalidOperation if it would exceed the depth limit.
    pub(crate) fn do_push_with<H: Host>(&mut self, alloc: Global, host: &H) -> Result<Flow, Halt>
        requires { CanGoOn self.old.run }
        ensures { Opens (push_with_of (H.program host.now).host self.old) self.old self.new result }
    {
        self.state.push_scope(alloc, host.recursion_limit())?;
        self.run.advance();
        Ok(Flow::GoOn)
    }

    /// Leaves the innermost scope. Stuck if the run didn't open it.
    pub(crate) fn do_pop_frame(&mut self, base: &Base) -> Result<Flow, Halt>
        requires { CanGoOn self.old.run }
        ensures { Shifts base.now (pop_frame_of base.now self.old) self.old self.new result }
    {
        if self.state.height() <= base.scopes || self.state.is_in_loop() {
            return Err(Halt::Stuck);
        }
        self.state.pop_scope();
        self.run.advance();
        Ok(Flow::GoOn)
    }
}
