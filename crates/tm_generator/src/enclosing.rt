//! What was opened since the innermost loop's body, macro's body or stream began, and is still
//! open.
ghost use Rattle.std.specs.Prelude.{◌≡◌, [], ◌∷◌, OnOk, reverse};
ghost use Rattle.tm_generator.specs.Building.{with_all, rest_of};
ghost use Rattle.tm_syntax.specs.Code.{close, close_all as close_each};

use crate::builder::Builder;
use std::alloc::{AllocError, Global};
use std::marker::Model;
use tm_items::Items;
use tm_syntax::{Instruction, Opened};

/// What is still open. Contracts see the innermost first.
#[derive(Drop)]
pub(crate) struct Enclosing {
    opened: Items<Opened>,
}

impl Model for Enclosing {
    ghost use Rattle.std.specs.Prelude.{List, reverse};
    ghost use Rattle.tm_syntax.specs.declared.opened.Opened.{Opened as OpenedPart};

    ghost Value = { List OpenedPart };

    ghost view = { λ e. reverse e.opened };
}

impl Enclosing {
    /// Nothing is open.
    pub(crate) fn new(alloc: Global) -> Enclosing
        ensures { result ≡ [] }
    {
        Enclosing {
            opened: Items::new(alloc),
        }
    }

    /// Adds `opened` as the innermost. AllocError if memory runs out.
    pub(crate) fn begin(&mut self, opened: Opened) -> Result<(), AllocError>
        ensures { OnOk result (self.new ≡ opened ∷ self.old) }
    {
        self.opened.push(opened)
    }

    /// Removes the innermost.
    pub(crate) fn end(&mut self)
        ensures { self.new ≡ rest_of self.old }
    {
        let _closed = self.opened.pop();
    }

    /// Emits the code that closes all that is open, the innermost first. AllocError if memory runs
    /// out.
    pub(crate) fn close_all(&self, code: &mut Builder) -> Result<(), AllocError>
        ensures { OnOk result (code.new ≡ with_all (close_each self.now) code.old) }
    {
        push_closed(code, self.opened.as_slice())
    }
}

/// Emits the code that closes each of these, from the last to the first. AllocError if memory runs
/// out.
fn push_closed(code: &mut Builder, opened: &[Opened]) -> Result<(), AllocError>
    ensures { OnOk result (code.new ≡ with_all (close_each (reverse opened.now)) code.old) }
{
    let mut left = opened.len();
    while left > 0 {
        left -= 1;
        push_close(code, opened[left])?;
    }
    Ok(())
}

/// Emits the code that closes `opened`. AllocError if memory runs out.
fn push_close(code: &mut Builder, opened: Opened) -> Result<(), AllocError>
    ensures { OnOk result (code.new ≡ with_all (close opened) code.old) }
{
    match opened {
        Opened::Scope => code.emit(Instruction::PopFrame),
        Opened::Escape => code.emit(Instruction::PopAutoEscape),
        Opened::Capture => {
            code.emit(Instruction::EndCapture)?;
            code.emit(Instruction::DiscardTop)
        }
    }
}
