//! The code of the values that loops iterate over.
ghost use Rattle.std.specs.Prelude.{◌≡◌, [], ◌∷◌, OnOk};
ghost use Rattle.tm_generator.specs.Building.{put};
ghost use Rattle.tm_syntax.specs.Code.{iterable_code, pass_round, take_item};

use crate::builder::Builder;
use crate::expressions::push_expr;
use crate::targets::push_target;
use std::alloc::AllocError;
use tm_items::Boxed;
use tm_syntax::{AssignmentTarget, Expr, Instruction, JumpKind, LoopFlags};
use tm_values::Value;

/// Emits the code of the value that a loop iterates over. With a condition, this is the list of the
/// items for which the condition is true: a loop of its own leaves them on the stack below their
/// count. AllocError if memory runs out.
#[inline(never)]
pub(crate) fn push_iterable(
    code: &mut Builder,
    target: &AssignmentTarget,
    iterable: &Expr,
    condition: &Option<Boxed<Expr>>,
) -> Result<(), AllocError>
    ensures { OnOk result
        (code.new ≡ put (iterable_code target.now iterable.now condition.now) code.old) }
{
    let Some(condition) = condition else {
        return push_expr(code, iterable);
    };
    code.emit(Instruction::LoadConst(Value::number(0)))?;
    push_expr(code, iterable)?;
    let flags = LoopFlags {
        variable: false,
        recursive: false,
    };
    let outer = code.begin_loop(flags)?;
    push_pass_round(code, target, condition.get())?;
    code.end_rounds(outer)?;
    code.emit(Instruction::PopLoopFrame)?;
    code.emit(Instruction::BuildList(None))
}

/// Emits the round that keeps its item if the condition is true, and drops it otherwise. AllocError
/// if memory runs out.
fn push_pass_round(
    code: &mut Builder,
    target: &AssignmentTarget,
    condition: &Expr,
) -> Result<(), AllocError>
    ensures { OnOk result (code.new ≡ put (pass_round target.now condition.now) code.old) }
{
    code.emit(Instruction::DupTop)?;
    push_target(code, target)?;
    push_expr(code, condition)?;
    push_take_item(code)?;
    code.emit(Instruction::DiscardTop)
}

/// Emits the code that keeps an item if the topmost value is true. The item moves below the count,
/// the count grows by one, and the next round begins. AllocError if memory runs out.
fn push_take_item(code: &mut Builder) -> Result<(), AllocError>
    ensures { OnOk result (code.new ≡ put take_item code.old) }
{
    let outer = code.begin();
    code.jump_out(JumpKind::IfFalse)?;
    code.emit(Instruction::Swap)?;
    code.emit(Instruction::LoadConst(Value::number(1)))?;
    code.emit(Instruction::Add)?;
    code.next_round()?;
    code.bound(outer);
    Ok(())
}
