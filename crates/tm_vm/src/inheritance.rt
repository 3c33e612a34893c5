//! The instructions for parents and `super()`.
ghost use Rattle.tm_meaning.specs.Instructions.{fast_super_of, load_blocks_of};
ghost use Rattle.tm_runs.specs.Runs.{CanGoOn};
ghost use Rattle.tm_vm.specs.Answers.{Loads, Needs};

use crate::flow::Flow;
use crate::machine::Machine;
use std::alloc::Global;
use tm_meaning::Base;
use tm_parts::Halt;
use tm_tables::Host;

impl Machine {
    /// Runs the next block of the running block's name, toward the root, in place.
    #[inline(never)]
    pub(crate) fn do_fast_super<H: Host>(
        &mut self,
        alloc: Global,
        host: &H,
        base: &Base,
    ) -> Result<Flow, Halt>
        requires { CanGoOn self.old.run }
        ensures { Needs (H.program host.now)
            (fast_super_of
            (H.program host.now) base.now self.old)
            self.old self.new result }
    {
        let heard = self.is_audible(base);
        let entry = self.state.super_run(alloc, host, heard, false)?;
        self.run.advance();
        Ok(Flow::Enter(entry))
    }

    /// Pops a value and loads the template that it names, which then waits as the parent.
    #[inline(never)]
    pub(crate) fn do_load_blocks<H: Host>(
        &mut self,
        alloc: Global,
        host: &H,
        base: &Base,
    ) -> Result<Flow, Halt>
        requires { CanGoOn self.old.run }
        ensures { Loads (H.program host.now).host
            (load_blocks_of (H.program host.now).host base.now self.old) self.old self.new result }
    {
        let name = self.run.popped()?;
        let is_inside = base.captures < self.captures.depth();
        let parent = self
            .state
            .load(alloc, host, &name, self.run.parent(), is_inside)?;
        self.run.wait_for(Some(parent));
        self.run.advance();
        Ok(Flow::GoOn)
    }
}
