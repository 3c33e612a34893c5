//! Templates and expressions outside the environment, and states without a template.
ghost use Rattle.std.specs.Prelude.{◌≡◌, ◌+◌, ◌<◌, [], ◌∷◌, codes, IfOk, IfErr};
ghost use Rattle.tm_templates.specs.Templates.{IsRefused, IsRefusedExpression};
ghost use Rattle.tm_meaning.specs.declared.stream.TemplateId.TheVariants.{Own};
ghost use Rattle.tm_values.specs.Answer.{OkOrOutOfMemory};
ghost use Rattle.std.specs.Prelude.{string_bytes};
ghost use Rattle.tm_templates.specs.Sources.{source_bytes};
ghost use Rattle.template_machine.specs.Renders.{greatest, idle, IsUnnumbered, RenderedSource};
ghost use Rattle.template_machine.specs.Environment.{IsExpressionIn, IsMadeIn, unknown_template};

use crate::environment::EnvironmentOf;
use crate::expression::ExpressionOf;
use crate::ids::StateIds;
use crate::rendering::Rendering;
use crate::state::StateOf;
use crate::template::{TemplateOf, TemplateRef};
use tm_tables::Parties;
use tm_templates::{CompiledTemplate, Source};
use tm_values::{Error, ErrorKind, Value};

/// The name of a template that has none.
const UNNAMED: &str = "<string>";

impl<'source, O: Parties> EnvironmentOf<'source, O> {
    /// Compiles `source` under the name `<string>`, without adding it to the environment.
    /// SyntaxError if the source spells no template, OutOfMemory if memory runs out.
    pub fn template_from_str(
        &self,
        source: &'source str,
    ) -> Result<TemplateOf<'_, 'source, O>, Error>
        ensures compiled { IfOk result
            (IsMadeIn O.stated self.now (codes "<string>") source.entry.now) }
        ensures refused { IfErr result (IsRefused self.now.syntax source.entry.now) }
    {
        self.template_from_named_str(UNNAMED, source)
    }

    /// Compiles `source` under `name`, without adding it to the environment. SyntaxError if the
    /// source spells no template, OutOfMemory if memory runs out.
    pub fn template_from_named_str(
        &self,
        name: &str,
        source: &'source str,
    ) -> Result<TemplateOf<'_, 'source, O>, Error>
        ensures compiled { IfOk result (IsMadeIn O.stated self.now name.now source.entry.now) }
        ensures refused { IfErr result (IsRefused self.now.syntax source.entry.now) }
    {
        let template = self.compile(name, Source::Lent(source))?;
        let owned = Box::new(self.allocator(), template)?;
        Ok(TemplateOf::new(self, TemplateRef::Owned(owned)))
    }

    /// A template made of a compiled one, without adding it to the environment. OutOfMemory.
    pub fn template_from_compiled(
        &self,
        compiled: CompiledTemplate<'source>,
    ) -> Result<TemplateOf<'_, 'source, O>, Error>
        ensures { OkOrOutOfMemory result (λ t. t ≡ record {
          environment = self.now;
          id = Own;
          template = compiled.entry;
        }) }
    {
        let owned = Box::new(self.allocator(), compiled)?;
        Ok(TemplateOf::new(self, TemplateRef::Owned(owned)))
    }

    /// Compiles an expression's source, which has no delimiters, under the name `<expression>` and
    /// without an escape. SyntaxError if the source spells no expression; OutOfMemory.
    pub fn compile_expression(
        &self,
        source: &'source str,
    ) -> Result<ExpressionOf<'_, 'source, O>, Error>
        ensures compiled { IfOk result (IsExpressionIn self.now source.entry.now) }
        ensures refused { IfErr result (IsRefusedExpression source.entry.now) }
    {
        self.expression(Source::Lent(source))
    }

    /// `compile_expression` for an owned source.
    pub fn compile_expression_owned(
        &self,
        source: String,
    ) -> Result<ExpressionOf<'_, 'source, O>, Error>
        ensures compiled { IfOk result (IsExpressionIn self.now (string_bytes source)) }
        ensures refused { IfErr result (IsRefusedExpression (string_bytes source)) }
    {
        self.expression(Source::owned(source)?)
    }

    /// Compiles an expression's source.
    fn expression(&self, source: Source<'source>) -> Result<ExpressionOf<'_, 'source, O>, Error>
        ensures compiled { IfOk result (IsExpressionIn self.now (source_bytes source.entry)) }
        ensures refused { IfErr result (IsRefusedExpression (source_bytes source.entry)) }
    {
        let expression = CompiledTemplate::expression(self.allocator(), source)?;
        let owned = Box::new(self.allocator(), expression)?;
        Ok(ExpressionOf::new(self, owned))
    }

    /// Renders `source` under the name `<string>`, as `render_named_str` does.
    pub fn render_str(
        &self,
        ids: &mut StateIds,
        source: &'source str,
        context: Value,
    ) -> Result<String, Error>
        ensures full { ids.old ≡ greatest →
            IsUnnumbered O.stated self.now (codes "<string>") source.entry.now result
            × (ids.new ≡ ids.old) }
        ensures rendered { ids.old < greatest →
            RenderedSource O.stated self.now (codes "<string>") source.entry.now
            ids.old ids.new context result }
    {
        self.render_named_str(ids, UNNAMED, source, context)
    }

    /// Compiles and renders `source` under `name`, in a state with the next number of `ids` and
    /// without adding it to the environment. SyntaxError if the source spells no template;
    /// InvalidOperation if the counter is full, and then nothing runs; otherwise the errors of a
    /// template's `render`.
    pub fn render_named_str(
        &self,
        ids: &mut StateIds,
        name: &str,
        source: &'source str,
        context: Value,
    ) -> Result<String, Error>
        ensures full { ids.old ≡ greatest →
            IsUnnumbered O.stated self.now name.now source.entry.now result × (ids.new ≡ ids.old) }
        ensures rendered { ids.old < greatest →
            RenderedSource O.stated self.now name.now source.entry.now
            ids.old ids.new context result }
    {
        let template = self.template_from_named_str(name, source)?;
        template.render(ids, context)
    }

    /// A state without a template, with the next number of `ids`: its name is `<unknown>`, and it
    /// has no blocks, no escape and no open scope. InvalidOperation if the counter is full,
    /// OutOfMemory if memory runs out.
    pub fn empty_state(&self, ids: &mut StateIds) -> Result<StateOf<'_, O>, Error>
        ensures full { ids.old ≡ greatest →
            (result ≡ Err (ErrorKind.InvalidOperation ∷ [])) × (ids.new ≡ ids.old) }
        ensures next { ids.old < greatest → ids.new ≡ ids.old + 1 }
        ensures state { IfOk result (λ s. s ≡ record {
          template = unknown_template self.now;
          world = idle O.stated (unknown_template self.now) ids.old;
        }) }
        ensures memory { ids.old < greatest → IfErr result (λ e. e ≡ ErrorKind.OutOfMemory ∷ []) }
    {
        let id = ids.next()?;
        let rendering = Rendering::unknown(self)?;
        let mut state = rendering.state_at(id, Value::undefined())?;
        state.pop_scope();
        Ok(StateOf::new(rendering, state))
    }
}
