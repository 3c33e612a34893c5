//! Templates in an environment.
ghost use Rattle.std.specs.BTreeSet.{keys};
ghost use Rattle.std.specs.Prelude.{◌≡◌, ◌+◌, ◌<◌, [], ◌∷◌, Err, IfOk, IfErr, length, map as each, string_bytes};
ghost use Rattle.tm_templates.specs.Templates.{undeclared_by};
ghost use Rattle.tm_meaning.specs.World.{root_of};
ghost use Rattle.template_machine.specs.TemplateRef.{entry_id, held_id, held_template, IsHeldOf};
ghost use Rattle.template_machine.specs.Environment.{IsOfTrees, meant};
ghost use Rattle.template_machine.specs.Renders.{first, greatest, idle, meaning, meaning_from};
ghost use Rattle.template_machine.specs.Renders.{IsStreamEnd, SoundRecords, StreamCaptured, StreamRan, StreamState, StreamText, Streamed};
ghost use Rattle.template_machine.specs.Renders.{IsCapturedRun, IsFresh, Ran, Rendered, RenderedCaptured, RenderedText};

use crate::environment::{BoxedObjects, EnvironmentOf};
use crate::ids::StateIds;
use crate::rendering::{OwnTemplate, Rendering};
use crate::state::{CapturedOf, StateOf};
use std::collections::BTreeSet;
use std::marker::Model;
use tm_parts::{Captures, Halt, NullWriter, Sink};
use tm_state::StateData;
use tm_syntax::{CaptureMode, Name};
use tm_tables::Parties;
use tm_templates::CompiledTemplate;
use tm_values::{Error, ErrorKind, Value};

/// A compiled template, borrowed from the environment or owned.
pub(crate) enum TemplateRef<'env, 'source> {
    /// The environment's entry of this name.
    Lent(&'env Name, &'env CompiledTemplate<'source>),
    /// An owned one, boxed: otherwise whoever owns a template would have all of its layout in its
    /// proof.
    Owned(Box<CompiledTemplate<'source>>),
}

// Written by hand: one drop call per owner instead of dropping each part.
impl Drop for TemplateRef<'_, '_> {
    fn drop(self) {
        match self {
            TemplateRef::Lent(_, _) | TemplateRef::Owned(_) => {}
        }
    }
}

/// A template in an environment.
pub struct TemplateOf<'env, 'source, O: Drop> {
    environment: &'env EnvironmentOf<'source, O>,
    held: TemplateRef<'env, 'source>,
}

// Written by hand, like the environment's.
impl<O: Drop> Drop for TemplateOf<'_, '_, O> {
    fn drop(self) {
        let TemplateOf {
            environment: _environment,
            held: _held,
        } = self;
    }
}

/// A template in a program's environment.
pub type Template<'env, 'source> = TemplateOf<'env, 'source, BoxedObjects>;

impl<'env, 'source, O: Drop> Model for TemplateOf<'env, 'source, O> {
    ghost use Rattle.std.specs.Coded.{codes};
    ghost use Rattle.tm_syntax.specs.contracts.tree.Expr as expression;
    ghost use Rattle.tm_syntax.specs.contracts.tree.Stmt as statement;
    ghost use Rattle.tm_values.specs.Code.{coded_Val};
    ghost use Rattle.template_machine.specs.Environment.{TemplateValue};

    ghost Value = { TemplateValue O };

    ghost coded = { Prim.hlevel (codes, coded_Val, expression.the_row.coded, statement.the_row.coded, O.code) };

    ghost use Rattle.template_machine.specs.TemplateRef.{held_id, held_template, IsHeldOf};

    ghost view = { λ t. record {
      environment = t.environment.now;
      id = held_id t.held;
      template = held_template t.held;
    } };

    ghost invariant = { λ t. IsHeldOf t.environment.now.templates t.held };
}

impl<'env, 'source, O: Drop> TemplateOf<'env, 'source, O> {
    /// Binds a compiled template to its environment.
    pub(crate) fn new(
        environment: &'env EnvironmentOf<'source, O>,
        held: TemplateRef<'env, 'source>,
    ) -> TemplateOf<'env, 'source, O>
        requires { IsHeldOf environment.now.templates held }
        ensures { result ≡ record {
          environment = environment.entry.now;
          id = held_id held.entry;
          template = held_template held.entry;
        } }
    {
        TemplateOf { environment, held }
    }

    /// The template's name.
    pub fn name(&self) -> &str
        ensures { result.now ≡ self.now.template.name }
    {
        self.compiled().name()
    }

    /// The template's source.
    pub fn source(&self) -> &str
        ensures { result.now ≡ self.now.template.source }
    {
        self.compiled().source()
    }

    /// The names that the template reads with no earlier assignment in an open scope, as texts. If
    /// `nested` is true, they include attributes, as in `a.b.c`. OutOfMemory if memory runs out.
    pub fn undeclared_variables(&self, nested: bool) -> Result<BTreeSet<String>, Error>
        ensures ok { IfOk result (λ names. each string_bytes (keys names)
            ≡ undeclared_by nested self.now.template.tree) }
        ensures memory { IfErr result (λ e. e ≡ ErrorKind.OutOfMemory ∷ []) }
    {
        self.compiled()
            .undeclared_variables(self.environment.allocator(), nested)
    }

    /// The compiled template.
    pub(crate) fn compiled(&self) -> &CompiledTemplate<'source>
        ensures { result.now ≡ self.now.template }
    {
        match &self.held {
            TemplateRef::Lent(_name, compiled) => compiled,
            TemplateRef::Owned(compiled) => &**compiled,
        }
    }

    /// The name of its entry in the environment, if it is an entry.
    fn entry_name(&self) -> Option<&Name>
        ensures { entry_id result ≡ self.now.id }
    {
        match &self.held {
            TemplateRef::Lent(name, _compiled) => Some(name),
            TemplateRef::Owned(_compiled) => None,
        }
    }

    /// The rendering of this template.
    pub(crate) fn rendering(&self) -> Rendering<'_, O>
        ensures same { result ≡ self.now }
        ensures meant { meant self.now self.now.id ≡ self.now.template }
    {
        let own = OwnTemplate::Lent(self.compiled());
        Rendering::new(self.environment, self.entry_name(), own)
    }
}

impl<'env, 'source, O: Parties> TemplateOf<'env, 'source, O> {
    /// Renders the template over `context`, in a state with the next number of `ids`, and returns
    /// the text. InvalidOperation if the counter is full, and then nothing runs; OutOfMemory if
    /// memory runs out; otherwise the fault of the render.
    pub fn render(&self, ids: &mut StateIds, context: Value) -> Result<String, Error>
        ensures full { ids.old ≡ greatest →
            (result ≡ Err (ErrorKind.InvalidOperation ∷ [])) × (ids.new ≡ ids.old) }
        ensures next { ids.old < greatest → ids.new ≡ ids.old + 1 }
        ensures rendered { ids.old < greatest → IsOfTrees self.now →
            RenderedText (meaning O.stated self.now ids.old context) result }
        ensures streams { ids.old < greatest →
            StreamText O.stated self.now (first O.stated self.now ids.old context) result }
    {
        let mut state = self.first_state(ids, context)?;
        self.run_in_capture(&mut state)
    }

    /// Renders the template as `render` does, and returns the text with the state after the render.
    pub fn render_captured(
        &self,
        ids: &mut StateIds,
        context: Value,
    ) -> Result<CapturedOf<StateOf<'_, O>>, Error>
        ensures full { ids.old ≡ greatest →
            (result ≡ Err (ErrorKind.InvalidOperation ∷ [])) × (ids.new ≡ ids.old) }
        ensures next { ids.old < greatest → ids.new ≡ ids.old + 1 }
        ensures rendered { ids.old < greatest → IsOfTrees self.now →
            RenderedCaptured self.now (meaning O.stated self.now ids.old context) result }
        ensures streams { ids.old < greatest →
            StreamState O.stated self.now (first O.stated self.now ids.old context) result }
    {
        let mut state = self.first_state(ids, context)?;
        let text = self.run_in_capture(&mut state)?;
        Ok(CapturedOf::new(text, StateOf::new(self.rendering(), state)))
    }

    /// Renders the template over `context`, in a state with the next number of `ids`, into
    /// `writer`. InvalidOperation if the counter is full, and then nothing runs; WriteFailure if
    /// the writer fails or accepts no bytes; OutOfMemory if memory runs out; otherwise the fault of
    /// the render.
    pub fn render_captured_to<W: Sink>(
        &self,
        ids: &mut StateIds,
        context: Value,
        writer: &mut W,
    ) -> Result<CapturedOf<StateOf<'_, O>>, Error>
        ensures full { ids.old ≡ greatest →
            (result ≡ Err (ErrorKind.InvalidOperation ∷ [])) × (ids.new ≡ ids.old)
            × (W.told writer.new ≡ W.told writer.old) }
        ensures next { ids.old < greatest → ids.new ≡ ids.old + 1 }
        ensures rendered { ids.old < greatest → IsOfTrees self.now →
            Rendered self.now (meaning O.stated self.now ids.old context) result
            (W.told writer.old) (W.told writer.new) }
        ensures streams { ids.old < greatest →
            Streamed O.stated self.now (first O.stated self.now ids.old context) result
            (IsStreamEnd self.now result)
            (W.told writer.old) (W.told writer.new) }
    {
        let mut first = self.first_state(ids, context)?;
        let alloc = self.environment.allocator();
        let captures = Captures::within(alloc, self.environment.longest_text());
        let _captures = self.run_over(&mut first, captures, writer)?;
        Ok(CapturedOf::new(String::new(alloc), StateOf::new(self.rendering(), first)))
    }

    /// A state of this template with the next number of `ids`, in which nothing runs: as at the
    /// start of a render, but without a scope. InvalidOperation if the counter is full, OutOfMemory
    /// if memory runs out.
    pub fn new_state(&self, ids: &mut StateIds) -> Result<StateOf<'_, O>, Error>
        ensures full { ids.old ≡ greatest →
            (result ≡ Err (ErrorKind.InvalidOperation ∷ [])) × (ids.new ≡ ids.old) }
        ensures next { ids.old < greatest → ids.new ≡ ids.old + 1 }
        ensures state { IfOk result (λ s.
            s ≡ record { template = self.now; world = idle O.stated self.now ids.old }) }
        ensures memory { ids.old < greatest → IfErr result (λ e. e ≡ ErrorKind.OutOfMemory ∷ []) }
    {
        let mut state = self.first_state(ids, Value::undefined())?;
        state.pop_scope();
        Ok(StateOf::new(self.rendering(), state))
    }

    /// The state at the start of a render. InvalidOperation if the counter is full, OutOfMemory if
    /// memory runs out.
    fn first_state(&self, ids: &mut StateIds, context: Value) -> Result<StateData, Error>
        ensures full { ids.old ≡ greatest →
            (result ≡ Err (ErrorKind.InvalidOperation ∷ [])) × (ids.new ≡ ids.old) }
        ensures next { ids.old < greatest → ids.new ≡ ids.old + 1 }
        ensures state { IfOk result (λ s. s ≡ first O.stated self.now ids.old context) }
        ensures memory { ids.old < greatest → IfErr result (λ e. e ≡ ErrorKind.OutOfMemory ∷ []) }
    {
        let id = ids.next()?;
        self.rendering().state_at(id, context)
    }

    /// Runs the state's stream in a capture and returns its text.
    fn run_in_capture(&self, state: &mut StateData) -> Result<String, Error>
        ensures captured { IsOfTrees self.now →
            IsCapturedRun result (meaning_from O.stated self.now state.old) state.new }
        ensures streams { SoundRecords self.now state.old →
            StreamCaptured O.stated self.now state.old result state.new }
        ensures sound { SoundRecords self.now state.old → SoundRecords self.now state.new }
    {
        let alloc = self.environment.allocator();
        let mut captures = Captures::new(alloc);
        captures.begin(alloc, CaptureMode::Capture)?;
        captures.limit_texts(self.environment.longest_text());
        let mut captures = self.run_over(state, captures, &mut NullWriter)?;
        match captures.end() {
            Some((_mode, text)) => Ok(text),
            None => unreachable!(),
        }
    }

    /// Runs the state's stream with these captures and this writer, and returns the remaining
    /// captures.
    fn run_over<W: Sink>(
        &self,
        state: &mut StateData,
        captures: Captures,
        writer: &mut W,
    ) -> Result<Captures, Halt>
        requires { IsFresh captures }
        ensures ran { IsOfTrees self.now →
            Ran (meaning_from O.stated self.now state.old) result state.new captures
            (W.told writer.old) (W.told writer.new) }
        ensures streams { SoundRecords self.now state.old →
            StreamRan O.stated self.now state.old result state.new captures
            (W.told writer.old) (W.told writer.new) }
        ensures sound { SoundRecords self.now state.old → SoundRecords self.now state.new }
        ensures closed { IfOk result (λ new. length new ≡ length captures) }
    {
        self.rendering().run(state, captures, writer)
    }
}
