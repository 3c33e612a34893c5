//! The code around the bodies of macros.
ghost use Rattle.std.specs.Prelude.{◌≡◌, [], ◌∷◌, OnOk, IfOk, codes, false};
ghost use Rattle.tm_generator.specs.Building.{put, put_building, with_one};
ghost use Rattle.tm_syntax.specs.Code.{default_code, parameter_code, parameters_code};
ghost use Rattle.tm_syntax.specs.Fragments.{name_list};
ghost use Rattle.tm_syntax.specs.Names.{parameter_names};
ghost use Rattle.tm_trees.specs.Instructions.instructions.{LoadConst};
ghost use Rattle.tm_values.specs.Val.{text};

use crate::builder::Builder;
use crate::expressions::{push_expr, push_text};
use std::alloc::{AllocError, Global};
use tm_items::Boxed;
use tm_names::MacroNames;
use tm_syntax::{Expr, Instruction, JumpKind, Name, Parameter};
use tm_values::{SharedText, Value};

/// Emits the code that binds parameters to the topmost values, from the last to the first.
/// AllocError if memory runs out.
#[inline(never)]
pub(crate) fn push_parameters(
    code: &mut Builder,
    parameters: &[Parameter],
) -> Result<(), AllocError>
    ensures { OnOk result (code.new ≡ put (parameters_code parameters.now) code.old) }
{
    let mut left = parameters.len();
    while left > 0 {
        left -= 1;
        push_parameter(code, &parameters[left])?;
    }
    Ok(())
}

/// Emits the code that binds a parameter to the topmost value, or to the default if that is
/// undefined. AllocError if memory runs out.
fn push_parameter(code: &mut Builder, parameter: &Parameter) -> Result<(), AllocError>
    ensures { OnOk result (code.new ≡ put (parameter_code parameter.now) code.old) }
{
    push_default(code, &parameter.default)?;
    code.emit(Instruction::StoreLocal(parameter.name.share()?))
}

/// Emits the code that replaces an undefined topmost value with the default, if there is one.
/// AllocError if memory runs out.
fn push_default(code: &mut Builder, default: &Option<Boxed<Expr>>) -> Result<(), AllocError>
    ensures { OnOk result (code.new ≡ put (default_code default.now) code.old) }
{
    let Some(default) = default else {
        return Ok(());
    };
    code.emit(Instruction::DupTop)?;
    code.emit(Instruction::IsUndefined)?;
    let outer = code.begin();
    code.jump_out(JumpKind::IfFalse)?;
    code.emit(Instruction::DiscardTop)?;
    push_expr(code, default.get())?;
    code.bound(outer);
    Ok(())
}

/// Emits the code that makes a closure with the names that a macro reads, and builds the macro,
/// whose entry is `entry`. AllocError if memory runs out.
#[inline(never)]
pub(crate) fn push_building(
    code: &mut Builder,
    name: &Name,
    parameters: &[Parameter],
    names: &MacroNames,
    entry: usize,
) -> Result<(), AllocError>
    ensures { OnOk result
        (code.new ≡ put_building name.now parameters.now names.now entry code.old) }
{
    for free in names.free.as_slice() {
        code.emit(Instruction::Enclose(free.share()?))?;
    }
    code.emit(Instruction::GetClosure)?;
    let arguments = names_of(code.alloc(), parameters)?;
    code.emit(Instruction::LoadConst(arguments))?;
    code.emit(Instruction::BuildMacro(name.share()?, entry, names.takes_caller))
}

/// Emits the code that pushes the keyword `caller`, and returns that name. AllocError if memory
/// runs out.
pub(crate) fn push_caller(code: &mut Builder) -> Result<Name, AllocError>
    ensures ok { OnOk result
        (code.new ≡ with_one (LoadConst (text (codes "caller") false)) code.old) }
    ensures name { IfOk result (λ name. name ≡ codes "caller") }
{
    let name = Name::new(code.alloc(), "caller")?;
    push_text(code, &name)?;
    Ok(name)
}

/// The names of parameters as a list of texts. AllocError if memory runs out.
fn names_of(alloc: Global, parameters: &[Parameter]) -> Result<Value, AllocError>
    ensures { IfOk result (λ names. names ≡ name_list (parameter_names parameters.now)) }
{
    let mut names = Vec::new(alloc);
    for parameter in parameters {
        let name = SharedText::from_str(alloc, parameter.name.as_str())?;
        names.push(Value::shared_text(name, false))?;
    }
    match Value::list(alloc, names) {
        Ok(names) => Ok(names),
        Err(_) => Err(AllocError),
    }
}
