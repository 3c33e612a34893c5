//! Emissions, and expressions that are calls.
ghost use Rattle.std.specs.Prelude.{◌≡◌, ◌++◌, [], ◌∷◌, false, is_some, MatchResult};
ghost use Rattle.tm_parser.specs.Statements as spec;
ghost use Rattle.tm_parser.specs.Statements.{body};
ghost use Rattle.tm_parser.specs.Statements.{statement};
ghost use Rattle.tm_trees.specs.Trees.statement_forms.{EmitExpr};
ghost use Rattle.tm_values.specs.declared.error.ErrorKind.TheVariants.{OutOfMemory};
ghost use Rattle.tm_trees.specs.Trees.{steps as row_of_steps, arguments as row_of_arguments, keywords as row_of_keywords};

use tm_expressions::add_one;
use tm_items::{Boxed, Items};
use tm_syntax::{Application, Argument, Expr, Keyword, Step, Stmt};
use tm_values::Error;

/// Pushes a statement that emits a value. OutOfMemory if memory runs out.
#[inline(always)]
pub(crate) fn add_emission(body: &mut Items<Stmt>, value: Boxed<Expr>) -> Result<(), Error>
    ensures { MatchResult result
        (λ done. body.new ≡ body.old ++ spec.emit_statement value ∷ [])
        (λ e. e ≡ OutOfMemory ∷ []) }
{
    if is_call_of_name(value.get()) {
        return add_one(body, emit_statement(value)?);
    }
    add_one(body, Stmt::EmitExpr(value))
}

/// Whether an expression is a call of a name or of a block, which may write in place.
#[inline(always)]
#[tactic(auto, unfolding(crate::specs::Statements::loop_argument, crate::specs::Statements::calls_super))]
fn is_call_of_name(expr: &Expr) -> bool
    ensures { result ≡ false → spec.emit_statement expr.now ≡ EmitExpr expr.now }
{
    match expr {
        Expr::SelfBlock(_) | Expr::Call(_, _, _) => true,
        _ => false,
    }
}

/// The statement that emits a value. A block, `super()` and `loop(..)` write in place. OutOfMemory
/// if the name of a block can't have a second owner.
#[inline(never)]
#[tactic(auto, unfolding(crate::specs::Statements::calls_super))]
pub(crate) fn emit_statement(value: Boxed<Expr>) -> Result<Stmt, Error>
    ensures { MatchResult result
        (λ statement. statement ≡ spec.emit_statement value)
        (λ e. e ≡ OutOfMemory ∷ []) }
{
    if let Expr::SelfBlock(name) = value.get() {
        return Ok(Stmt::EmitBlock(name.share()?));
    }
    if is_call_of_super(value.get()) {
        return Ok(Stmt::EmitSuper);
    }
    Ok(emit_value(value))
}

/// Whether an expression is a call of `super` without arguments.
#[tactic(auto, unfolding(crate::specs::Statements::calls_super))]
fn is_call_of_super(expr: &Expr) -> bool
    ensures { result ≡ spec.calls_super expr.now }
{
    match expr {
        Expr::Call(name, given, named) => {
            name.is("super") && is_nothing(given.as_slice(), named.as_slice())
        }
        _ => false,
    }
}

/// Whether a call has no arguments.
#[tactic(auto, using(crate::proofs::Calls::nothing_passed))]
fn is_nothing(given: &[Argument], named: &[Keyword]) -> bool
    ensures { result ≡ spec.is_nothing (row_of_arguments given.now) (row_of_keywords named.now) }
{
    given.is_empty() && named.is_empty()
}

/// The statement that emits a value, as a call of the innermost loop if it is one.
#[tactic(auto, unfolding(crate::specs::Statements::loop_argument))]
fn emit_value(value: Boxed<Expr>) -> Stmt
    ensures { result ≡ spec.emit_value value }
{
    if !is_call_of_loop(value.get()) {
        return Stmt::EmitExpr(value);
    }
    let Some((_name, mut given, _named)) = value.into_inner().into_call() else {
        unreachable!()
    };
    let Some(argument) = given.pop() else {
        unreachable!()
    };
    let Argument::Plain(value) = argument else {
        unreachable!()
    };
    Stmt::EmitLoop(value)
}

/// Whether an expression is a call of `loop` with one positional argument.
#[tactic(auto, unfolding(crate::specs::Statements::loop_argument))]
fn is_call_of_loop(expr: &Expr) -> bool
    ensures { result ≡ is_some (spec.loop_argument expr.now) }
{
    match expr {
        Expr::Call(name, given, named) => {
            if !name.is("loop") {
                return false;
            }
            if !named.is_empty() {
                return false;
            }
            is_one_value(given.as_slice())
        }
        _ => false,
    }
}

/// Whether the arguments are a single value.
fn is_one_value(given: &[Argument]) -> bool
    ensures { result ≡ is_some (spec.only_one (row_of_arguments given.now)) }
{
    if given.len() != 1 {
        return false;
    }
    is_plain(&given[0])
}

/// Whether an argument is a value, not spread.
fn is_plain(argument: &Argument) -> bool
    ensures { result ≡ spec.is_plain argument.now }
{
    match argument {
        Argument::Plain(_) => true,
        Argument::Spread(_) => false,
    }
}

/// Whether an expression is a call of a name, a block, a method or a value.
pub fn is_call(expr: &Expr) -> bool
    ensures { result ≡ spec.is_call expr.now }
{
    match expr {
        Expr::Call(_, _, _) | Expr::SelfBlock(_) => true,
        Expr::Chain(_, steps) => ends_in_call(steps.as_slice()),
        Expr::Var(_)
        | Expr::Const(_)
        | Expr::List(_)
        | Expr::Tuple(_)
        | Expr::Map(_)
        | Expr::Unary(_, _)
        | Expr::Conditional(_, _) => false,
    }
}

/// Whether the last step is a call; false if there are no steps.
fn ends_in_call(steps: &[Step]) -> bool
    ensures { result ≡ spec.last_calls false (row_of_steps steps.now) }
{
    let mut last = false;
    for step in steps {
        last = calls(step);
    }
    last
}

/// Whether a step is a call of a method or of a value.
fn calls(step: &Step) -> bool
    ensures { result ≡ spec.calls step.now }
{
    match step {
        Step::Apply(Application::Method, _, _, _) | Step::Call(_, _) => true,
        _ => false,
    }
}
