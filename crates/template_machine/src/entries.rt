//! The templates and globals of an environment, ordered by name.
ghost use Rattle.std.specs.Iterator.{item_count, YieldsFirstBy};
ghost use Rattle.std.specs.Prelude.{◌≡◌};
ghost use Rattle.template_machine.specs.Environment.{entries_of};

use crate::environment::{BoxedObjects, EnvironmentOf};
use crate::template::{TemplateOf, TemplateRef};
use std::marker::Model;
use tm_templates::{GlobalMap, TemplatesIter};
use tm_values::Value;

/// An iterator over the templates of an environment, with their names and in the order of these. A
/// contract sees those that are left.
#[derive(Drop)]
pub struct TemplatesOf<'env, 'source, O: Drop> {
    environment: &'env EnvironmentOf<'source, O>,
    entries: TemplatesIter<'env, 'source>,
}

/// The templates of a program's environment.
pub type Templates<'env, 'source> = TemplatesOf<'env, 'source, BoxedObjects>;

impl<'env, 'source, O: Drop> Model for TemplatesOf<'env, 'source, O> {
    ghost use Rattle.std.specs.Coded.{codes};
    ghost use Rattle.std.specs.Prelude.{map as each};
    ghost use Rattle.tm_syntax.specs.Named.{Named};
    ghost use Rattle.tm_syntax.specs.contracts.tree.Expr as expression;
    ghost use Rattle.tm_syntax.specs.contracts.tree.Stmt as statement;
    ghost use Rattle.tm_values.specs.Code.{coded_Val};
    ghost use Rattle.tm_templates.specs.Templates.{AreFoundIn};
    ghost use Rattle.template_machine.specs.Environment.{named_entry, TemplateValue};

    ghost Value = { Named (TemplateValue O) };

    ghost coded = { Prim.hlevel (codes, coded_Val, expression.the_row.coded, statement.the_row.coded, O.code) };

    ghost view = { λ t. each (named_entry t.environment.now) t.entries };

    ghost invariant = { λ t. AreFoundIn t.environment.now.templates t.entries };
}

impl<'env, 'source, O: Drop> TemplatesOf<'env, 'source, O> {
    /// All templates of `environment`.
    pub(crate) fn new(environment: &'env EnvironmentOf<'source, O>) -> TemplatesOf<'env, 'source, O>
        ensures { result ≡ entries_of environment.entry.now }
    {
        TemplatesOf {
            environment,
            entries: environment.compiled_templates().iter(),
        }
    }
}

impl<'env, 'source, O: Drop> Iterator for TemplatesOf<'env, 'source, O> {
    type Item = (&'env str, TemplateOf<'env, 'source, O>);

    ghost next_gives = { YieldsFirstBy (λ p. (p.0.now, p.1)) (λ rest. rest) };

    ghost remaining = { item_count (λ rest. rest) };

    fn next(&mut self) -> Option<(&'env str, TemplateOf<'env, 'source, O>)> {
        let environment = self.environment;
        let (name, compiled) = self.entries.next()?;
        let template = TemplateOf::new(environment, TemplateRef::Lent(name, compiled));
        Some((name.as_str(), template))
    }
}

/// An iterator over the globals of an environment, with their names and in the order of these. A
/// contract sees those that are left.
#[derive(Drop)]
pub struct Globals<'env> {
    globals: &'env GlobalMap,
    place: usize,
}

impl<'env> Model for Globals<'env> {
    ghost use Rattle.std.specs.Prelude.{drop};
    ghost use Rattle.std.specs.Coded.{codes};
    ghost use Rattle.tm_meaning.specs.World.{Bindings};
    ghost use Rattle.tm_values.specs.Code.{coded_Val};

    ghost Value = { Bindings };

    ghost coded = { Prim.hlevel (codes, coded_Val) };

    ghost view = { λ g. drop g.place g.globals.now };
}

impl<'env> Globals<'env> {
    /// All of `globals`.
    pub(crate) fn new(globals: &'env GlobalMap) -> Globals<'env>
        ensures { result ≡ globals.entry.now }
    {
        Globals { globals, place: 0 }
    }
}

impl<'env> Iterator for Globals<'env> {
    type Item = (&'env str, &'env Value);

    ghost next_gives = { YieldsFirstBy (λ p. (p.0.now, p.1.now)) (λ rest. rest) };

    ghost remaining = { item_count (λ rest. rest) };

    fn next(&mut self) -> Option<(&'env str, &'env Value)> {
        let globals = self.globals;
        let place = self.place;
        if place >= globals.len() {
            return None;
        }
        self.place = place + 1;
        Some(globals.at(place))
    }
}
