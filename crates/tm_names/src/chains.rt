//! Names with the attributes after them.
ghost use Rattle.std.specs.Option.{option_copied};
ghost use Rattle.std.specs.Prelude.{◌≡◌, [], ◌∷◌, IfOk, OnOk};
ghost use Rattle.std.specs.String.{string_bytes};
ghost use Rattle.tm_syntax.specs.Names.{attribute_of, dot, dotted};
ghost use Rattle.tm_syntax.specs.Names.{is_method, method_of, name_of, with_member};
ghost use Rattle.tm_trees.specs.Trees.{steps};

use std::alloc::{AllocError, Global};
use tm_syntax::{Application, Expr, Name, Step};

/// The name, if the expression is one.
pub(crate) fn name_of(expr: &Expr) -> Option<&Name>
    ensures { option_copied result ≡ name_of expr.now }
{
    match expr {
        Expr::Var(name) => Some(name),
        Expr::Const(_)
        | Expr::List(_)
        | Expr::Tuple(_)
        | Expr::Map(_)
        | Expr::Call(_, _, _)
        | Expr::SelfBlock(_)
        | Expr::Unary(_, _)
        | Expr::Chain(_, _)
        | Expr::Conditional(_, _) => None,
    }
}

/// The name, if the step is an attribute.
fn attribute_of(step: &Step) -> Option<&Name>
    ensures { option_copied result ≡ attribute_of step.now }
{
    match step {
        Step::Attribute(name) => Some(name),
        Step::Item(_)
        | Step::Apply(_, _, _, _)
        | Step::Call(_, _)
        | Step::Slice(_, _, _)
        | Step::Binary(_, _)
        | Step::Compare(_, _, _)
        | Step::And(_)
        | Step::Or(_) => None,
    }
}

/// Whether a step calls a method.
fn is_method(application: Application) -> bool
    ensures { result ≡ is_method application }
{
    match application {
        Application::Method => true,
        Application::Filter | Application::Test | Application::NegatedTest => false,
    }
}

/// The name, if the step is a method.
fn method_of(step: &Step) -> Option<&Name>
    ensures { option_copied result ≡ method_of step.now }
{
    match step {
        Step::Apply(application, name, _, _) => {
            if is_method(*application) {
                Some(name)
            } else {
                None
            }
        }
        Step::Attribute(_)
        | Step::Item(_)
        | Step::Call(_, _)
        | Step::Slice(_, _, _)
        | Step::Binary(_, _)
        | Step::Compare(_, _, _)
        | Step::And(_)
        | Step::Or(_) => None,
    }
}

/// Appends an attribute to a text. AllocError if memory runs out.
fn push_member(text: &mut String, member: &Name) -> Result<(), AllocError>
    ensures { OnOk result (string_bytes text.new ≡ dot (string_bytes text.old) member.now) }
{
    text.push_str(".")?;
    text.push_str(member.as_str())
}

/// Appends a method to a text; nothing for another step. AllocError if memory runs out.
fn push_last(text: &mut String, step: &Step) -> Result<(), AllocError>
    ensures { OnOk result
        (string_bytes text.new ≡ with_member (method_of step.now) (string_bytes text.old)) }
{
    match method_of(step) {
        Some(member) => push_member(text, member),
        None => Ok(()),
    }
}

/// A name with the attributes directly after it, and a method directly after these. AllocError if
/// memory runs out.
pub(crate) fn dotted(alloc: Global, name: &Name, after: &[Step]) -> Result<String, AllocError>
    ensures { IfOk result (λ text. string_bytes text ≡ dotted name.now (steps after.now)) }
{
    let mut text = String::from_str(alloc, name.as_str())?;
    for step in after {
        match attribute_of(step) {
            Some(member) => push_member(&mut text, member)?,
            None => {
                push_last(&mut text, step)?;
                return Ok(text);
            }
        }
    }
    Ok(text)
}
