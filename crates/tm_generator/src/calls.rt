//! The code of calls in two parts, between which the last keyword argument is pushed. The first
//! part pushes the other arguments. The second ends the last rows of arguments and calls.
ghost use Rattle.std.specs.Prelude.{◌≡◌, [], ◌∷◌, OnOk, IfOk};
ghost use Rattle.tm_generator.specs.Building.{put};
ghost use Rattle.tm_generator.specs.Opened.{call_end, call_of, call_open, ending, ending_count};
ghost use Rattle.tm_generator.specs.Opened.{step_call, step_end, step_open, steps_call, steps_end};
ghost use Rattle.tm_generator.specs.Opened.{steps_open};
ghost use Rattle.tm_syntax.specs.Code.{row_end};
ghost use Rattle.tm_syntax.specs.Fragments.{◌⨾◌, straight};
ghost use Rattle.tm_trees.specs.Trees.{steps};

use crate::builder::Builder;
use crate::expressions::{push_application, push_expr, push_open, push_step, push_steps};
use crate::passing::OpenCall;
use std::alloc::AllocError;
use tm_syntax::{Expr, Instruction, Step};

/// Emits the first part of a call: its arguments, with the last rows open. If the expression isn't
/// a call, its value is called. AllocError if memory runs out or a count overflows.
#[inline(never)]
pub(crate) fn push_call_open(code: &mut Builder, call: &Expr) -> Result<OpenCall, AllocError>
    ensures ok { OnOk result (code.new ≡ put (call_open call.now) code.old) }
    ensures call { IfOk result (λ passed. passed ≡ call_of call.now) }
{
    match call {
        Expr::Call(_, given, named) => push_open(code, 0, given.as_slice(), named.as_slice()),
        Expr::Chain(first, after) => {
            push_expr(code, first.get())?;
            push_steps_open(code, after.as_slice())
        }
        other => {
            push_expr(code, other)?;
            Ok(OpenCall::with_none())
        }
    }
}

/// Emits the code of steps, and the first part of the call that is the last of them. If that isn't
/// a call, its value is called. AllocError if memory runs out or a count overflows.
fn push_steps_open(code: &mut Builder, after: &[Step]) -> Result<OpenCall, AllocError>
    ensures ok { OnOk result (code.new ≡ put (steps_open (steps after.now)) code.old) }
    ensures call { IfOk result (λ passed. passed ≡ steps_call (steps after.now)) }
{
    let Some((last, before)) = after.split_last() else {
        return Ok(OpenCall::with_none());
    };
    push_steps(code, before)?;
    push_step_open(code, last)
}

/// Emits the first part of the call that a step is. If the step isn't a call, its value is called.
/// AllocError if memory runs out or a count overflows.
fn push_step_open(code: &mut Builder, step: &Step) -> Result<OpenCall, AllocError>
    ensures ok { OnOk result (code.new ≡ put (step_open step.now) code.old) }
    ensures call { IfOk result (λ passed. passed ≡ step_call step.now) }
{
    match step {
        Step::Apply(_, _, given, named) => push_open(code, 1, given.as_slice(), named.as_slice()),
        Step::Call(given, named) => push_open(code, 1, given.as_slice(), named.as_slice()),
        other => {
            push_step(code, other)?;
            Ok(OpenCall::with_none())
        }
    }
}

/// Emits the second part of a call: the ends of the last rows, and the call itself. AllocError if
/// memory runs out or a count overflows.
#[inline(never)]
pub(crate) fn push_call_end(
    code: &mut Builder,
    call: &Expr,
    passed: &OpenCall,
) -> Result<(), AllocError>
    ensures { OnOk result
        (code.new ≡ put (ending row_end passed.now ⨾
        straight (call_end call.now (ending_count row_end passed.now))) code.old) }
{
    let count = passed.end(code)?;
    match call {
        Expr::Call(name, _, _) => code.emit(Instruction::CallFunction(name.share()?, count)),
        Expr::Chain(_, after) => push_steps_end(code, after.as_slice(), count),
        _ => code.emit(Instruction::CallObject(count)),
    }
}

/// Emits the call that is the last of these steps, with `count` values. AllocError if memory runs
/// out.
fn push_steps_end(
    code: &mut Builder,
    after: &[Step],
    count: Option<usize>,
) -> Result<(), AllocError>
    ensures { OnOk result
        (code.new ≡ put (straight (steps_end (steps after.now) count)) code.old) }
{
    let Some((last, _before)) = after.split_last() else {
        return code.emit(Instruction::CallObject(count));
    };
    push_step_end(code, last, count)
}

/// Emits the call that a step is, with `count` values. AllocError if memory runs out.
fn push_step_end(code: &mut Builder, step: &Step, count: Option<usize>) -> Result<(), AllocError>
    ensures { OnOk result (code.new ≡ put (straight (step_end step.now count)) code.old) }
{
    match step {
        Step::Apply(application, name, _, _) => push_application(code, *application, name, count),
        _ => code.emit(Instruction::CallObject(count)),
    }
}
