//! The names of a macro.
ghost use Rattle.std.specs.BTreeSet.{keys};
ghost use Rattle.std.specs.Prelude.{◌≡◌, [], ◌∷◌, OnOk, IfOk, codes, map};
ghost use Rattle.std.specs.String.{string_bytes};
ghost use Rattle.tm_syntax.specs.Names.{free_names, is_among, parameter_names, takes_caller};
ghost use Rattle.tm_syntax.specs.Names.{walk_condition, walk_parameters, without};
ghost use Rattle.tm_trees.specs.Trees.{statements};

use crate::walker::Walker;
use std::alloc::{AllocError, Global};
use std::collections::BTreeSet;
use tm_items::{Boxed, Items};
use tm_syntax::{Expr, Name, Parameter, Stmt};

/// The names that a macro reads.
#[derive(Drop)]
pub struct MacroNames {
    /// The names in its closure, in order.
    pub free: Items<Name>,
    /// Whether it takes `caller`.
    pub takes_caller: bool,
}

/// The names that a macro with these parameters and this body reads. AllocError if memory runs out.
pub fn macro_names(
    alloc: Global,
    parameters: &[Parameter],
    body: &[Stmt],
) -> Result<MacroNames, AllocError>
    ensures free { IfOk result
        (λ names. names.free ≡ free_names parameters.now (statements body.now)) }
    ensures caller { IfOk result
        (λ names. names.takes_caller ≡ takes_caller parameters.now (statements body.now)) }
{
    let mut walker = Walker::new(alloc)?;
    walker.walk_parameters(false, parameters)?;
    walker.walk_all(false, body)?;
    let takes_caller = walker.reads("caller") || has_parameter(parameters, "caller");
    let free = names_without(alloc, &walker.into_found(), "caller")?;
    Ok(MacroNames { free, takes_caller })
}

/// Whether a parameter has this name.
fn has_parameter(parameters: &[Parameter], name: &str) -> bool
    ensures { result ≡ is_among name.now (parameter_names parameters.now) }
{
    for parameter in parameters {
        if parameter.name.is(name) {
            return true;
        }
    }
    false
}

/// The names except `left_out`, in order. AllocError if memory runs out.
fn names_without(
    alloc: Global,
    found: &BTreeSet<String>,
    left_out: &str,
) -> Result<Items<Name>, AllocError>
    ensures { IfOk result
        (λ names. names ≡ without left_out.now (map string_bytes (keys found.now))) }
{
    let mut names = Items::new(alloc);
    for text in found.iter() {
        let text = text.as_str();
        if text != left_out {
            names.push(Name::new(alloc, text)?)?;
        }
    }
    Ok(names)
}

impl Walker {
    /// Walks parameters, each before its default. AllocError if memory runs out.
    pub(crate) fn walk_parameters(
        &mut self,
        nested: bool,
        parameters: &[Parameter],
    ) -> Result<(), AllocError>
        ensures { OnOk result
            (self.new ≡ walk_parameters nested parameters.now self.old) }
    {
        for parameter in parameters {
            self.assign(parameter.name.share()?)?;
            self.walk_condition(nested, &parameter.default)?;
        }
        Ok(())
    }

    /// Walks an expression, if there is one. AllocError if memory runs out.
    pub(crate) fn walk_condition(
        &mut self,
        nested: bool,
        condition: &Option<Boxed<Expr>>,
    ) -> Result<(), AllocError>
        ensures { OnOk result (self.new ≡ walk_condition nested condition.now self.old) }
    {
        match condition {
            Some(condition) => self.walk_expr(nested, condition.get()),
            None => Ok(()),
        }
    }
}
