//! Calls of macros that are leaves.
ghost use Rattle.std.specs.Prelude.{◌≡◌, IfErr, IfOk, IfSome, Some, true};
ghost use Rattle.tm_meaning.specs.Memory.{is_want_of_memory};
ghost use Rattle.tm_meaning.specs.Instructions.{call_function_of};
ghost use Rattle.tm_runs.specs.Runs.{CanGoOn};
ghost use Rattle.tm_vm.specs.LeafCalls.{CallsLeaf, GivesText};

use crate::machine::Machine;
use std::alloc::Global;
use tm_syntax::Name;
use tm_tables::{Host, Parties};
use tm_values::{Error, Value};

impl Machine {
    /// The text of the macro `name` called with the top `count` values, if it is a leaf, and the
    /// fuel left after it. OutOfMemory.
    fn leaf_text<H: Host>(
        &mut self,
        alloc: Global,
        host: &H,
        name: &Name,
        count: usize,
    ) -> Result<Option<(Value, u64)>, Error>
        ensures unchanged { self.new ≡ self.old }
        ensures gives { IfOk result (λ found. IfSome found (λ r. GivesText
            (H.program host.now) name.now count self.old r.0 r.1)) }
        ensures kind { IfErr result (λ e. is_want_of_memory e ≡ true) }
    {
        if host.objects().has_formatter() || name.is("super") {
            return Ok(None);
        }
        let Some(args) = self.run.args(count) else {
            return Ok(None);
        };
        let Some(declared) = self.state.macro_named(name) else {
            return Ok(None);
        };
        let entry = declared.entry();
        if self.leaf.is_other(entry) {
            return Ok(None);
        }
        let room = self.leaf.take_room(alloc);
        let Some((stream, given)) = self.state.plain_call(alloc, host, declared, args, room) else {
            return Ok(None);
        };
        let code = host.instructions(stream, self.state.template_place());
        let Some((place, taken)) = code.entry(entry) else {
            return Ok(None);
        };
        if taken != given.len() {
            return Ok(None);
        }
        let escape = self.state.escape();
        self.leaf
            .begin(alloc, place, given, self.state.fuel_left())?;
        if !self.leaf.run(code, escape) {
            self.leaf.note_other(entry);
            return Ok(None);
        }
        let left = self.leaf.fuel();
        Ok(Some((self.leaf.value(escape)?, left)))
    }

    /// Replaces the top `count` values by the text of the macro `name` called with them and returns
    /// true, if the macro is a leaf. Otherwise nothing changes and the result is false.
    /// OutOfMemory.
    #[inline(never)]
    pub(crate) fn call_leaf<H: Host>(
        &mut self,
        alloc: Global,
        host: &H,
        name: &Name,
        count: usize,
    ) -> Result<bool, Error>
        requires { CanGoOn self.old.run }
        ensures { CallsLeaf (H.program host.now)
            (call_function_of
            (H.program host.now) name.now (Some count) self.old)
            self.old self.new result }
    {
        let Some((text, left)) = self.leaf_text(alloc, host, name, count)? else {
            return Ok(false);
        };
        self.run.replace_topmost(count, text)?;
        self.state.pay_down_to(left);
        self.run.advance();
        Ok(true)
    }
}
