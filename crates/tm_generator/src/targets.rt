//! The code that assigns values to targets.
ghost use Rattle.std.specs.Prelude.{◌≡◌, [], ◌∷◌, OnOk};
ghost use Rattle.tm_generator.specs.Building.{put};
ghost use Rattle.tm_syntax.specs.Code.{target_code, targets_code, set_code, assignments_code};
ghost use Rattle.tm_syntax.specs.Code.{use_code};
ghost use Rattle.tm_trees.specs.Trees.{targets};

use crate::builder::Builder;
use crate::expressions::push_expr;
use std::alloc::AllocError;
use tm_syntax::{Assignment, AssignmentTarget, CaptureUse, Expr, Instruction};

/// Emits the code that assigns the topmost value to a target. AllocError if memory runs out.
#[cycle(targets)]
pub(crate) fn push_target(code: &mut Builder, target: &AssignmentTarget) -> Result<(), AllocError>
    ensures { OnOk result (code.new ≡ put (target_code target.now) code.old) }
{
    match target {
        AssignmentTarget::Name(name) => code.emit(Instruction::StoreLocal(name.share()?)),
        AssignmentTarget::Unpack(parts) => {
            code.emit(Instruction::UnpackList(parts.len()))?;
            push_targets(code, parts.as_slice())
        }
        AssignmentTarget::Attribute(object, name) => {
            push_expr(code, object.get())?;
            code.emit(Instruction::SetAttr(name.share()?))
        }
    }
}

/// Emits the code that assigns the topmost values to targets, the topmost to the first. AllocError
/// if memory runs out.
#[cycle(targets)]
fn push_targets(code: &mut Builder, parts: &[AssignmentTarget]) -> Result<(), AllocError>
    ensures { OnOk result (code.new ≡ put (targets_code (targets parts.now)) code.old) }
{
    for part in parts {
        push_target(code, part)?;
    }
    Ok(())
}

/// Emits the code of a value and its assignment to a target. AllocError if memory runs out.
pub(crate) fn push_set(
    code: &mut Builder,
    target: &AssignmentTarget,
    value: &Expr,
) -> Result<(), AllocError>
    ensures { OnOk result (code.new ≡ put (set_code target.now value.now) code.old) }
{
    push_expr(code, value)?;
    push_target(code, target)
}

/// Emits the code of assignments, one after the other. AllocError if memory runs out.
pub(crate) fn push_assignments(code: &mut Builder, given: &[Assignment]) -> Result<(), AllocError>
    ensures { OnOk result (code.new ≡ put (assignments_code given.now) code.old) }
{
    for assignment in given {
        push_set(code, &assignment.target, assignment.value.get())?;
    }
    Ok(())
}

/// Emits the code that writes the text of a capture or assigns it. AllocError if memory runs out.
pub(crate) fn push_use(code: &mut Builder, becomes: &CaptureUse) -> Result<(), AllocError>
    ensures { OnOk result (code.new ≡ put (use_code becomes.now) code.old) }
{
    match becomes {
        CaptureUse::Emit => code.emit(Instruction::Emit),
        CaptureUse::Assign(target) => push_target(code, target),
    }
}
