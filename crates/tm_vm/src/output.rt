//! Output.
ghost use Rattle.tm_meaning.specs.World.{records_of};
ghost use Rattle.tm_meaning.specs.Machine.{writes};
ghost use Rattle.tm_meaning.specs.Instructions.{emit_raw_of, emit_of};
ghost use Rattle.tm_definitions.specs.Emitted.{emitted_text};
ghost use Rattle.tm_runs.specs.Runs.{CanGoOn};
ghost use Rattle.tm_vm.specs.Answers.{WritesNext};

use crate::flow::Flow;
use crate::machine::Machine;
use std::alloc::Global;
use tm_meaning::Base;
use tm_parts::{Halt, Sink};
use tm_syntax::RawText;
use tm_tables::{Host, Parties};
use tm_values::Value;

impl Machine {
    /// Writes `text` if it is heard.
    pub(crate) fn write_text<W: Sink>(
        &mut self,
        base: &Base,
        text: &str,
        writer: &mut W,
    ) -> Result<Flow, Halt>
        ensures { WritesNext (writes base.now text.now self.old) self.old self.new
            (W.told writer.old) (W.told writer.new) result }
    {
        if !self.is_audible(base) {
            return Ok(Flow::GoOn);
        }
        self.captures.write_str(writer, text)?;
        Ok(Flow::GoOn)
    }

    /// Writes what `value` emits if it is heard.
    pub(crate) fn write_value<W: Sink>(
        &mut self,
        base: &Base,
        value: &Value,
        writer: &mut W,
    ) -> Result<Flow, Halt>
        ensures { WritesNext (writes base.now (emitted_text self.old.world.escape
            (records_of self.old.world) value.now) self.old) self.old self.new
            (W.told writer.old) (W.told writer.new) result }
    {
        if !self.is_audible(base) {
            return Ok(Flow::GoOn);
        }
        self.captures
            .emit(writer, value, self.state.escape(), &self.state)?;
        Ok(Flow::GoOn)
    }

    /// Writes a raw text.
    pub(crate) fn do_emit_raw<W: Sink>(
        &mut self,
        base: &Base,
        text: &RawText,
        writer: &mut W,
    ) -> Result<Flow, Halt>
        requires { CanGoOn self.old.run }
        ensures { WritesNext (emit_raw_of base.now text.now self.old) self.old self.new
            (W.told writer.old) (W.told writer.new) result }
    {
        self.run.advance();
        self.write_text(base, text.as_str(), writer)
    }

    /// Pops a value and writes what it emits; fails if it can't be emitted.
    pub(crate) fn do_emit<H: Host, W: Sink>(
        &mut self,
        alloc: Global,
        host: &H,
        base: &Base,
        writer: &mut W,
    ) -> Result<Flow, Halt>
        requires { CanGoOn self.old.run }
        ensures { WritesNext (emit_of (H.program host.now).host base.now self.old) self.old self.new
            (W.told writer.old) (W.told writer.new) result }
    {
        if host.objects().has_formatter() {
            return self.emit_formatted(alloc, host, base, writer);
        }
        let value = self.run.popped()?;
        self.state.check_value(alloc, host, &value)?;
        self.run.advance();
        self.write_value(base, &value, writer)
    }

    /// Pops a value and writes it as the formatter or the escape turns it into text; fails if it
    /// can't be emitted.
    #[inline(never)]
    fn emit_formatted<H: Host, W: Sink>(
        &mut self,
        alloc: Global,
        host: &H,
        base: &Base,
        writer: &mut W,
    ) -> Result<Flow, Halt>
        requires { CanGoOn self.old.run }
        ensures { WritesNext (emit_of (H.program host.now).host base.now self.old) self.old self.new
            (W.told writer.old) (W.told writer.new) result }
    {
        let value = self.run.popped()?;
        let formatted = self.state.format(alloc, host, &value)?;
        self.run.advance();
        self.write_text(base, formatted.as_str(), writer)
    }
}
