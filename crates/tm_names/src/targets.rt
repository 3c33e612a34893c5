//! The names that statements assign.
ghost use Rattle.std.specs.Prelude.{◌≡◌, [], ◌∷◌, OnOk};
ghost use Rattle.tm_syntax.specs.Names.{walk_assignments, walk_imports, walk_set, walk_target, walk_targets, walk_use};
ghost use Rattle.tm_trees.specs.Trees.{targets};

use crate::walker::Walker;
use std::alloc::AllocError;
use tm_syntax::{Assignment, AssignmentTarget, CaptureUse, Expr, Imported};

impl Walker {
    /// Walks a target, whose names are assigned. AllocError if memory runs out.
    #[cycle(targets)]
    pub(crate) fn walk_target(
        &mut self,
        nested: bool,
        target: &AssignmentTarget,
    ) -> Result<(), AllocError>
        ensures { OnOk result (self.new ≡ walk_target nested target.now self.old) }
    {
        match target {
            AssignmentTarget::Name(name) => self.assign(name.share()?),
            AssignmentTarget::Unpack(parts) => self.walk_targets(nested, parts.as_slice()),
            AssignmentTarget::Attribute(object, _) => self.walk_expr(nested, object.get()),
        }
    }

    /// Walks targets. AllocError if memory runs out.
    #[cycle(targets)]
    fn walk_targets(&mut self, nested: bool, parts: &[AssignmentTarget]) -> Result<(), AllocError>
        ensures { OnOk result (self.new ≡ walk_targets nested (targets parts.now) self.old) }
    {
        for part in parts {
            self.walk_target(nested, part)?;
        }
        Ok(())
    }

    /// Walks a target and then its value. AllocError if memory runs out.
    pub(crate) fn walk_set(
        &mut self,
        nested: bool,
        target: &AssignmentTarget,
        value: &Expr,
    ) -> Result<(), AllocError>
        ensures { OnOk result (self.new ≡ walk_set nested target.now value.now self.old) }
    {
        self.walk_target(nested, target)?;
        self.walk_expr(nested, value)
    }

    /// Walks assignments, one after the other. AllocError if memory runs out.
    pub(crate) fn walk_assignments(
        &mut self,
        nested: bool,
        given: &[Assignment],
    ) -> Result<(), AllocError>
        ensures { OnOk result (self.new ≡ walk_assignments nested given.now self.old) }
    {
        for assignment in given {
            self.walk_set(nested, &assignment.target, assignment.value.get())?;
        }
        Ok(())
    }

    /// Walks imported names, whose targets are assigned. AllocError if memory runs out.
    pub(crate) fn walk_imports(&mut self, imports: &[Imported]) -> Result<(), AllocError>
        ensures { OnOk result (self.new ≡ walk_imports imports.now self.old) }
    {
        for imported in imports {
            self.assign(imported.target.share()?)?;
        }
        Ok(())
    }

    /// Walks the use of a capture's text. AllocError if memory runs out.
    pub(crate) fn walk_use(&mut self, nested: bool, becomes: &CaptureUse) -> Result<(), AllocError>
        ensures { OnOk result (self.new ≡ walk_use nested becomes.now self.old) }
    {
        match becomes {
            CaptureUse::Emit => Ok(()),
            CaptureUse::Assign(target) => self.walk_target(nested, target),
        }
    }
}
