//! The instructions for loops.
ghost use Rattle.std.specs.Prelude.{◌≡◌};
ghost use Rattle.tm_meaning.specs.Instructions.{push_loop_of, iterate_of, push_did_not_iterate_of, pop_loop_frame_of, returns};
ghost use Rattle.tm_runs.specs.Runs.{resumed, CanGoOn};
ghost use Rattle.tm_vm.specs.Answers.{Silently, Opens, Shifts};

use crate::flow::Flow;
use crate::machine::Machine;
use std::alloc::Global;
use tm_meaning::{Base, RunText};
use tm_operations::iterate;
use tm_parts::Halt;
use tm_runs::Return;
use tm_shapes::Verified;
use tm_syntax::LoopFlags;
use tm_tables::Host;
use tm_values::Value;

impl Machine {
    /// Pops a value and begins a loop over its items in a scope of its own. The loop's number is
    /// that of its place in the code. The error of the iteration if the value has no items,
    /// InvalidOperation if the scope would exceed the depth limit.
    pub(crate) fn do_push_loop<H: Host>(
        &mut self,
        alloc: Global,
        host: &H,
        code: &Verified,
        flags: LoopFlags,
    ) -> Result<Flow, Halt>
        requires in_place { CanGoOn self.old.run }
        requires its_code { code.now ≡ (H.program host.now).code self.old.run.stream }
        ensures { Opens
            (push_loop_of (H.program host.now) flags self.old)
            self.old self.new result }
    {
        let number = code.loop_number(self.run.place());
        let value = self.run.popped()?;
        let most = host.value_limit();
        let items = iterate(alloc, &value, &self.state, host.undefined_behavior(), most)?;
        self.run.begin_loop()?;
        self.state
            .open_loop(alloc, items, flags, number, host.recursion_limit())?;
        self.run.advance();
        Ok(Flow::GoOn)
    }

    /// Pushes the next item of the innermost loop, or jumps to `place` if none is left. Stuck if
    /// the run has no open loop or its scope isn't the innermost.
    pub(crate) fn do_iterate(&mut self, place: usize) -> Result<Flow, Halt>
        requires { CanGoOn self.old.run }
        ensures { Silently (iterate_of place self.old) self.old self.new result }
    {
        if !self.run.has_loop() {
            return Err(Halt::Stuck);
        }
        let item = match self.state.top_loop() {
            Some(state) => match state.next_item() {
                Some(item) => Some(item.share()?),
                None => None,
            },
            None => return Err(Halt::Stuck),
        };
        self.state.next_turn();
        match item {
            Some(item) => {
                self.state.clear_locals();
                self.push_next(item)
            }
            None => {
                self.run.jump(place);
                Ok(Flow::GoOn)
            }
        }
    }

    /// Pushes whether the innermost loop has no items. Stuck as in `do_iterate`.
    pub(crate) fn do_push_did_not_iterate(&mut self) -> Result<Flow, Halt>
        requires { CanGoOn self.old.run }
        ensures { Silently (push_did_not_iterate_of self.old) self.old self.new result }
    {
        if !self.run.has_loop() {
            return Err(Halt::Stuck);
        }
        let none = match self.state.top_loop() {
            Some(state) => state.did_not_iterate(),
            None => return Err(Halt::Stuck),
        };
        self.push_next(Value::boolean(none))
    }

    /// Leaves the innermost loop, whose record forgets its items, and returns to its call, if it was
    /// called. Stuck as in `do_iterate`.
    pub(crate) fn do_pop_loop_frame<H: Host>(
        &mut self,
        alloc: Global,
        host: &H,
        base: &Base,
    ) -> Result<Flow, Halt>
        requires { CanGoOn self.old.run }
        ensures { Shifts base.now (pop_loop_frame_of base.now self.old) self.old self.new result }
    {
        if self.state.height() <= base.scopes || self.state.top_loop().is_none() {
            return Err(Halt::Stuck);
        }
        let Some(pending) = self.run.end_loop() else {
            return Err(Halt::Stuck);
        };
        self.state.leave_loop()?;
        match pending {
            None => {
                self.run.advance();
                Ok(Flow::GoOn)
            }
            Some(pending) => self.return_to(alloc, host, pending),
        }
    }

    /// Returns to where a loop was called, and pushes the loop's text if it becomes a value.
    /// OutOfMemory also if that is larger than `host` allows.
    #[tactic(auto, using(crate::proofs::Returned::with_its_text))]
    fn return_to<H: Host>(&mut self, alloc: Global, host: &H, pending: Return) -> Result<Flow, Halt>
        ensures { Silently (returns pending pending.value
            (record self.old { run = resumed pending self.old.run })) self.old self.new result }
    {
        let value = pending.is_value();
        let parent = self.run.return_to(pending);
        if !value {
            return Ok(Flow::GoOn);
        }
        self.run.wait_for(parent);
        self.push_captured(alloc, host, RunText::Captured)?;
        Ok(Flow::GoOn)
    }
}
