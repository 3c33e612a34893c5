//! The blocks of a tree.
ghost use Rattle.std.specs.Prelude.{◌≡◌, ◌++◌, IfOk, OnOk};
ghost use Rattle.tm_parser.specs.Distinct as spec;
ghost use Rattle.tm_parser.specs.Distinct.{texts};
ghost use Rattle.tm_parser.specs.Template.{block_names, names_of};

use crate::distinct::are_distinct;
use std::alloc::{AllocError, Global};
use tm_syntax::{Name, Stmt};

/// Whether all blocks in the statements have different names. AllocError if memory runs out.
pub fn has_distinct_blocks(alloc: Global, statements: &[Stmt]) -> Result<bool, AllocError>
    ensures { IfOk result (λ distinct. distinct ≡ spec.are_distinct (block_names statements.now)) }
{
    let mut names = Vec::new(alloc);
    add_names(&mut names, statements)?;
    are_distinct(alloc, &names)
}

/// Pushes the names of all blocks in the statements.
#[cycle(names)]
fn add_names<'t>(names: &mut Vec<&'t Name>, statements: &'t [Stmt]) -> Result<(), AllocError>
    ensures { OnOk result
        (texts names.new.items ≡ texts names.old.items ++ block_names statements.now) }
{
    for statement in statements {
        add_names_of(names, statement)?;
    }
    Ok(())
}

/// Pushes the names of all blocks in a statement, and its own name if it is a block.
#[cycle(names)]
#[tactic(auto, using(crate::proofs::Names::forms))]
fn add_names_of<'t>(names: &mut Vec<&'t Name>, statement: &'t Stmt) -> Result<(), AllocError>
    ensures { OnOk result
        (texts names.new.items ≡ texts names.old.items ++ names_of statement.now) }
{
    match statement {
        Stmt::If(_, body, None) => add_names(names, body.as_slice()),
        Stmt::If(_, body, Some(other)) => {
            add_names(names, body.as_slice())?;
            add_names(names, other.as_slice())
        }
        Stmt::For(each) => {
            add_names(names, each.body.as_slice())?;
            match &each.other {
                None => Ok(()),
                Some(other) => add_names(names, other.as_slice()),
            }
        }
        Stmt::Block(name, _, body) => {
            add_names(names, body.as_slice())?;
            names.push(name)?;
            Ok(())
        }
        Stmt::CaptureBlock(_, _, body) => add_names(names, body.as_slice()),
        Stmt::With(_, body) => add_names(names, body.as_slice()),
        Stmt::AutoEscape(_, body) => add_names(names, body.as_slice()),
        Stmt::Macro(declared) => add_names(names, declared.body.as_slice()),
        Stmt::CallBlock(called) => add_names(names, called.body.as_slice()),
        _ => Ok(()),
    }
}
