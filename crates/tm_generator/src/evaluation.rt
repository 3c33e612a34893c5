//! The code of an expression on its own.
ghost use Rattle.std.specs.Prelude.{◌≡◌, [], ◌∷◌, IfOk};
ghost use Rattle.tm_syntax.specs.Blocks.{code_of, expression};

use crate::builder::Builder;
use crate::caches::number_caches;
use crate::expressions::push_expr;
use std::alloc::{AllocError, Global};
use tm_accepted::the_code_of_trees_is_accepted;
use tm_shapes::{Form, Verified};
use tm_syntax::Expr;

/// The code of an expression on its own. It leaves the value on the stack. AllocError if memory
/// runs out.
pub fn value(alloc: Global, expr: &Expr) -> Result<Verified, AllocError>
    ensures { IfOk result (λ code. code ≡ code_of (expression expr.now)) }
{
    let mut code = Builder::new(alloc);
    push_expr(&mut code, expr)?;
    let mut instructions = code.finish();
    number_caches(alloc, &mut instructions)?;
    the_code_of_trees_is_accepted();
    Verified::new(alloc, instructions, Form::Expression)
}
