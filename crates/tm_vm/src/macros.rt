//! The instructions for macros.
ghost use Rattle.std.specs.Prelude.{◌≡◌};
ghost use Rattle.tm_meaning.specs.Instructions.{build_macro_of, enclose_of, get_closure_of};
ghost use Rattle.tm_meaning.specs.Instructions.{is_undefined_of};
ghost use Rattle.tm_meaning.specs.Machine.{Program};
ghost use Rattle.tm_runs.specs.Runs.{CanGoOn};
ghost use Rattle.tm_vm.specs.Answers.{Silently};

use crate::flow::Flow;
use crate::machine::Machine;
use std::alloc::Global;
use tm_parts::Halt;
use tm_runs::{argument_names, closure_number, closure_operand};
use tm_shapes::Verified;
use tm_syntax::Name;
use tm_tables::Host;
use tm_values::Value;

impl Machine {
    /// Replaces a value by whether it is undefined.
    pub(crate) fn do_is_undefined(&mut self) -> Result<Flow, Halt>
        requires { CanGoOn self.old.run }
        ensures { Silently (is_undefined_of self.old) self.old self.new result }
    {
        let value = self.run.popped()?;
        self.push_next(Value::boolean(value.is_undefined()))
    }

    /// Binds `name` to its present value in the innermost scope's own closure, unless the closure
    /// binds it already.
    pub(crate) fn do_enclose<H: Host>(
        &mut self,
        alloc: Global,
        host: &H,
        name: &Name,
    ) -> Result<Flow, Halt>
        requires { CanGoOn self.old.run }
        ensures { Silently (enclose_of (H.program host.now).host name.now self.old)
            self.old self.new result }
    {
        self.state.enclose(alloc, host, name)?;
        self.run.advance();
        Ok(Flow::GoOn)
    }

    /// Pushes the number of the closure that was made in the innermost scope, or none.
    pub(crate) fn do_get_closure(&mut self) -> Result<Flow, Halt>
        requires { CanGoOn self.old.run }
        ensures { Silently (get_closure_of self.old) self.old self.new result }
    {
        let closure = closure_operand(self.state.own_closure());
        self.push_next(closure)
    }

    /// Replaces a closure, and the argument names on top of it, by a macro whose code begins at
    /// `place`.
    pub(crate) fn do_build_macro(
        &mut self,
        alloc: Global,
        code: &Verified,
        name: &Name,
        place: usize,
        caller: bool,
    ) -> Result<Flow, Halt>
        requires { CanGoOn self.old.run }
        ensures { (p : Program) → code.now ≡ p.code self.old.run.stream →
            Silently (build_macro_of p name.now place caller self.old) self.old self.new result }
    {
        let names = self.run.popped()?;
        let closure = self.run.popped()?;
        let Some(closure) = closure_number(&closure)? else {
            return Err(Halt::Stuck);
        };
        let Some(arguments) = argument_names(alloc, &names)? else {
            return Err(Halt::Stuck);
        };
        let number = code.entry_number(place);
        let declared = self
            .state
            .make_macro(alloc, number, closure, name, arguments, caller)?;
        self.push_next(declared)
    }
}
