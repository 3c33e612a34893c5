//! The code of `include`, `import` and `from`.
ghost use Rattle.std.specs.Prelude.{◌≡◌, [], ◌∷◌, OnOk};
ghost use Rattle.tm_generator.specs.Building.{put};
ghost use Rattle.tm_syntax.specs.Code.{included_code, lookups_code, statement_code, stores_code};
ghost use Rattle.tm_trees.specs.Trees.statement_forms.{FromImport, Import, Include};

use crate::builder::Builder;
use crate::expressions::push_expr;
use crate::targets::push_target;
use std::alloc::AllocError;
use tm_syntax::{AssignmentTarget, CaptureMode, Expr, Imported, Instruction};

/// Emits the code of an `include`. AllocError if memory runs out.
#[inline(never)]
pub(crate) fn push_include(
    code: &mut Builder,
    template: &Expr,
    missing: bool,
) -> Result<(), AllocError>
    ensures { OnOk result
        (code.new ≡ put (statement_code [] (Include template.now missing)) code.old) }
{
    push_expr(code, template)?;
    code.emit(Instruction::Include(missing))
}

/// Emits the code of an `import`. AllocError if memory runs out.
#[inline(never)]
pub(crate) fn push_import(
    code: &mut Builder,
    template: &Expr,
    target: &AssignmentTarget,
) -> Result<(), AllocError>
    ensures { OnOk result
        (code.new ≡ put (statement_code [] (Import template.now target.now)) code.old) }
{
    code.emit(Instruction::BeginCapture(CaptureMode::Capture))?;
    push_included(code, template)?;
    code.emit(Instruction::EndCapture)?;
    code.emit(Instruction::ExportLocals)?;
    code.emit(Instruction::PopFrame)?;
    push_target(code, target)
}

/// Emits the code of a `from`. AllocError if memory runs out.
#[inline(never)]
pub(crate) fn push_from_import(
    code: &mut Builder,
    template: &Expr,
    imports: &[Imported],
) -> Result<(), AllocError>
    ensures { OnOk result
        (code.new ≡ put (statement_code [] (FromImport template.now imports.now)) code.old) }
{
    code.emit(Instruction::BeginCapture(CaptureMode::Discard))?;
    push_included(code, template)?;
    push_lookups(code, imports)?;
    code.emit(Instruction::PopFrame)?;
    push_stores(code, imports)?;
    code.emit(Instruction::EndCapture)?;
    code.emit(Instruction::DiscardTop)
}

/// Emits the code that opens a scope and runs a template in it. AllocError if memory runs out.
fn push_included(code: &mut Builder, template: &Expr) -> Result<(), AllocError>
    ensures { OnOk result (code.new ≡ put (included_code template.now) code.old) }
{
    code.emit(Instruction::PushWith)?;
    push_expr(code, template)?;
    code.emit(Instruction::IncludeModule)
}

/// Emits the code that looks up the imported names. AllocError if memory runs out.
fn push_lookups(code: &mut Builder, imports: &[Imported]) -> Result<(), AllocError>
    ensures { OnOk result (code.new ≡ put (lookups_code imports.now) code.old) }
{
    for imported in imports {
        code.emit(Instruction::Lookup(imported.name.share()?))?;
    }
    Ok(())
}

/// Emits the code that binds the targets to the topmost values, from the last to the first.
/// AllocError if memory runs out.
fn push_stores(code: &mut Builder, imports: &[Imported]) -> Result<(), AllocError>
    ensures { OnOk result (code.new ≡ put (stores_code imports.now) code.old) }
{
    let mut left = imports.len();
    while left > 0 {
        left -= 1;
        code.emit(Instruction::StoreLocal(imports[left].target.share()?))?;
    }
    Ok(())
}
