//! Expressions in an environment.
ghost use Rattle.std.specs.BTreeSet.{keys};
ghost use Rattle.std.specs.Prelude.{◌≡◌, ◌+◌, ◌<◌, [], ◌∷◌, Err, IfOk, IfErr, map as each, string_bytes};
ghost use Rattle.tm_meaning.specs.declared.stream.TemplateId.TheVariants.{Own};
ghost use Rattle.tm_templates.specs.Templates.{undeclared_by};
ghost use Rattle.template_machine.specs.Environment.{IsOfTrees};
ghost use Rattle.template_machine.specs.Renders.{first, greatest, value_meant, Evaluated, StreamValue};

use crate::environment::{BoxedObjects, EnvironmentOf};
use crate::ids::StateIds;
use crate::rendering::{OwnTemplate, Rendering};
use std::collections::BTreeSet;
use std::marker::Model;
use tm_tables::Parties;
use tm_templates::CompiledTemplate;
use tm_values::{Error, ErrorKind, Value};

/// A compiled expression in an environment.
pub struct ExpressionOf<'env, 'source, O: Drop> {
    environment: &'env EnvironmentOf<'source, O>,
    compiled: Box<CompiledTemplate<'source>>,
}

// Written by hand, like the environment's.
impl<O: Drop> Drop for ExpressionOf<'_, '_, O> {
    fn drop(self) {
        let ExpressionOf {
            environment: _environment,
            compiled: _compiled,
        } = self;
    }
}

/// An expression of a program's environment.
pub type Expression<'env, 'source> = ExpressionOf<'env, 'source, BoxedObjects>;

impl<'env, 'source, O: Drop> Model for ExpressionOf<'env, 'source, O> {
    ghost use Rattle.std.specs.Coded.{codes};
    ghost use Rattle.tm_meaning.specs.declared.stream.TemplateId.TheVariants.{Own};
    ghost use Rattle.tm_syntax.specs.contracts.tree.Expr as expression;
    ghost use Rattle.tm_syntax.specs.contracts.tree.Stmt as statement;
    ghost use Rattle.tm_values.specs.Code.{coded_Val};
    ghost use Rattle.template_machine.specs.Environment.{TemplateValue};

    ghost Value = { TemplateValue O };

    ghost coded = { Prim.hlevel (codes, coded_Val, expression.the_row.coded, statement.the_row.coded, O.code) };

    ghost view = { λ x. record {
      environment = x.environment.now;
      id = Own;
      template = x.compiled.value;
    } };
}

impl<'env, 'source, O: Drop> ExpressionOf<'env, 'source, O> {
    /// Binds a compiled expression to its environment.
    pub(crate) fn new(
        environment: &'env EnvironmentOf<'source, O>,
        compiled: Box<CompiledTemplate<'source>>,
    ) -> ExpressionOf<'env, 'source, O>
        ensures { result ≡ record {
          environment = environment.entry.now;
          id = Own;
          template = compiled.entry.value;
        } }
    {
        ExpressionOf {
            environment,
            compiled,
        }
    }

    /// The names that the expression reads, as texts. If `nested` is true, they include attributes,
    /// as in `a.b.c`. OutOfMemory if memory runs out.
    pub fn undeclared_variables(&self, nested: bool) -> Result<BTreeSet<String>, Error>
        ensures ok { IfOk result (λ names. each string_bytes (keys names)
            ≡ undeclared_by nested self.now.template.tree) }
        ensures memory { IfErr result (λ e. e ≡ ErrorKind.OutOfMemory ∷ []) }
    {
        self.compiled
            .undeclared_variables(self.environment.allocator(), nested)
    }
}

impl<'env, 'source, O: Parties> ExpressionOf<'env, 'source, O> {
    /// Evaluates the expression over `context`, in a state with the next number of `ids`.
    /// Namespaces in the value become maps at any depth, except in keys. InvalidOperation if the
    /// counter is full, and then nothing runs; InvalidOperation if a namespace in the value
    /// contains itself or belongs to another state; OutOfMemory; otherwise the fault of the
    /// evaluation.
    pub fn eval(&self, ids: &mut StateIds, context: Value) -> Result<Value, Error>
        ensures full { ids.old ≡ greatest →
            (result ≡ Err (ErrorKind.InvalidOperation ∷ [])) × (ids.new ≡ ids.old) }
        ensures next { ids.old < greatest → ids.new ≡ ids.old + 1 }
        ensures evaluated { ids.old < greatest → IsOfTrees self.now →
            Evaluated
            (value_meant O.stated self.now (first O.stated self.now ids.old context)) result }
        ensures streams { ids.old < greatest →
            StreamValue O.stated self.now (first O.stated self.now ids.old context) result }
    {
        let id = ids.next()?;
        let own = OwnTemplate::Lent(&*self.compiled);
        let rendering = Rendering::new(self.environment, None, own);
        let mut state = rendering.state_at(id, context)?;
        rendering.evaluate(&mut state)
    }
}
