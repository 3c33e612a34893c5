//! The instructions for includes and imports.
ghost use Rattle.tm_meaning.specs.Instructions.{export_locals_of, include_of};
ghost use Rattle.tm_runs.specs.Runs.{CanGoOn};
ghost use Rattle.tm_vm.specs.Answers.{Needs, Silently};

use crate::flow::Flow;
use crate::machine::Machine;
use std::alloc::Global;
use tm_meaning::Base;
use tm_parts::Halt;
use tm_tables::Host;

impl Machine {
    /// Pops a value and runs the first existing template that it names, in place; in a scope of its
    /// own if `apart`. Does nothing if none exists and `missing` allows this, or if the value names
    /// none.
    #[inline(never)]
    pub(crate) fn do_include<H: Host>(
        &mut self,
        alloc: Global,
        host: &H,
        base: &Base,
        apart: bool,
        missing: bool,
    ) -> Result<Flow, Halt>
        requires { CanGoOn self.old.run }
        ensures { Needs (H.program host.now)
            (include_of
            (H.program host.now) base.now apart missing self.old)
            self.old self.new result }
    {
        let heard = self.is_audible(base);
        let value = self.run.popped()?;
        let entry = self
            .state
            .include_run(alloc, host, &value, apart, missing, heard)?;
        self.run.advance();
        match entry {
            Some(entry) => Ok(Flow::Enter(entry)),
            None => Ok(Flow::GoOn),
        }
    }

    /// Replaces a captured text by a module of the innermost scope's names and that text. Any other
    /// value counts by its text; fails if it can't be printed.
    #[inline(never)]
    pub(crate) fn do_export_locals(&mut self, alloc: Global) -> Result<Flow, Halt>
        requires { CanGoOn self.old.run }
        ensures { Silently (export_locals_of self.old) self.old self.new result }
    {
        let value = self.run.popped()?;
        let module = self.state.module(alloc, value)?;
        self.push_next(module)
    }
}
