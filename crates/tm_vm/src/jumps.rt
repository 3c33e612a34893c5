//! The jumps.
ghost use Rattle.tm_meaning.specs.Instructions.{jump_of, jump_if_false_of};
ghost use Rattle.tm_runs.specs.Runs.{CanGoOn};
ghost use Rattle.tm_vm.specs.Answers.{jump_or_pop_of, Silently};

use crate::flow::Flow;
use crate::machine::Machine;
use tm_operations::truth;
use tm_parts::Halt;
use tm_tables::Host;

impl Machine {
    /// Jumps to `place`.
    pub(crate) fn do_jump(&mut self, place: usize) -> Result<Flow, Halt>
        ensures { Silently (jump_of place self.old) self.old self.new result }
    {
        self.run.jump(place);
        Ok(Flow::GoOn)
    }

    /// Pops a value and jumps to `place` if it is false.
    pub(crate) fn do_jump_if_false<H: Host>(&mut self, host: &H, place: usize) -> Result<Flow, Halt>
        requires { CanGoOn self.old.run }
        ensures { Silently (jump_if_false_of (H.program host.now).host place self.old)
            self.old self.new result }
    {
        let value = self.run.popped()?;
        match truth(&value, host.undefined_behavior())? {
            true => self.run.advance(),
            false => self.run.jump(place),
        }
        Ok(Flow::GoOn)
    }

    /// Jumps to `place` if the truth of the top value is `jumps`, and leaves the value there.
    /// Otherwise pops it and moves on.
    pub(crate) fn jump_or_pop<H: Host>(
        &mut self,
        host: &H,
        place: usize,
        jumps: bool,
    ) -> Result<Flow, Halt>
        requires { CanGoOn self.old.run }
        ensures { Silently (jump_or_pop_of (H.program host.now).host jumps place self.old)
            self.old self.new result }
    {
        let is_true = match self.run.top_truth(host.undefined_behavior()) {
            Some(Ok(is_true)) => is_true,
            Some(Err(error)) => return Err(Halt::Fault(error)),
            None => return Err(Halt::Stuck),
        };
        if is_true == jumps {
            self.run.jump(place);
            return Ok(Flow::GoOn);
        }
        self.run.advance();
        self.run.drop_top();
        Ok(Flow::GoOn)
    }
}
