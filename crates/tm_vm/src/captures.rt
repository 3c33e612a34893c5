//! The instructions for captures and escapes.
ghost use Rattle.std.specs.Prelude.{◌≡◌, IfOk, IfErr, true};
ghost use Rattle.tm_meaning.specs.Memory.{is_want_of_memory};
ghost use Rattle.tm_meaning.specs.World.{captured_text};
ghost use Rattle.tm_meaning.specs.Instructions.{begin_capture_of, end_capture_of, push_auto_escape_of, pop_auto_escape_of};
ghost use Rattle.tm_runs.specs.Runs.{CanGoOn};
ghost use Rattle.tm_vm.specs.Answers.{Silently};

use crate::flow::Flow;
use crate::machine::Machine;
use std::alloc::Global;
use tm_meaning::Base;
use tm_parts::{Halt, captured_value, escape_for};
use tm_syntax::CaptureMode;
use tm_values::{Error, Value};

impl Machine {
    /// A captured text as a value, marked safe if the state escapes. Fails only with OutOfMemory.
    pub(crate) fn captured(&self, alloc: Global, text: &str) -> Result<Value, Error>
        ensures ok { IfOk result (λ value. value ≡ captured_text text.now self.now.world) }
        ensures kind { IfErr result (λ e. is_want_of_memory e ≡ true) }
    {
        captured_value(alloc, text, self.state.escape())
    }

    /// Begins a capture, which collects the output from here on.
    pub(crate) fn do_begin_capture(
        &mut self,
        alloc: Global,
        mode: CaptureMode,
    ) -> Result<Flow, Halt>
        requires { CanGoOn self.old.run }
        ensures { Silently (begin_capture_of mode self.old) self.old self.new result }
    {
        self.captures.begin(alloc, mode)?;
        self.run.advance();
        Ok(Flow::GoOn)
    }

    /// Ends the innermost capture and pushes its text, or undefined if the text is dropped. Stuck
    /// if the capture was open before the run or the innermost called loop began.
    pub(crate) fn do_end_capture(&mut self, alloc: Global) -> Result<Flow, Halt>
        requires { CanGoOn self.old.run }
        ensures { Silently (end_capture_of self.old) self.old self.new result }
    {
        if self.captures.depth() <= self.run.floor() {
            return Err(Halt::Stuck);
        }
        let Some((mode, text)) = self.captures.end() else {
            return Err(Halt::Stuck);
        };
        let value = match mode {
            CaptureMode::Capture => self.captured(alloc, text.as_str()),
            CaptureMode::Discard => Ok(Value::undefined()),
        };
        self.captures.keep_room(text);
        self.push_next(value?)
    }

    /// Pops a value and sets the escape that it names. InvalidOperation if it names none.
    pub(crate) fn do_push_auto_escape(&mut self, base: &Base) -> Result<Flow, Halt>
        requires { CanGoOn self.old.run }
        ensures { Silently (push_auto_escape_of base.now self.old) self.old self.new result }
    {
        let value = self.run.popped()?;
        let chosen = escape_for(base.first, &value)?;
        self.run.push_escape(self.state.escape())?;
        self.state.set_escape(chosen);
        self.run.advance();
        Ok(Flow::GoOn)
    }

    /// Restores the escape from before the innermost open `autoescape`. Stuck if the run, or the
    /// innermost called loop, has none open.
    pub(crate) fn do_pop_auto_escape(&mut self) -> Result<Flow, Halt>
        requires { CanGoOn self.old.run }
        ensures { Silently (pop_auto_escape_of self.old) self.old self.new result }
    {
        let Some(escape) = self.run.pop_escape() else {
            return Err(Halt::Stuck);
        };
        self.state.set_escape(escape);
        self.run.advance();
        Ok(Flow::GoOn)
    }
}
