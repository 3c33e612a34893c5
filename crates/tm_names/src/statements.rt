//! The names in statements.
ghost use Rattle.std.specs.BTreeSet.{keys};
ghost use Rattle.std.specs.Prelude.{◌≡◌, [], ◌∷◌, OnOk, IfOk, codes, map};
ghost use Rattle.std.specs.String.{string_bytes};
ghost use Rattle.tm_syntax.specs.Names.{assign, close_scope, open_scope, undeclared_in};
ghost use Rattle.tm_syntax.specs.Names.{walk, walk_all, walk_assignments, walk_head};
ghost use Rattle.tm_syntax.specs.Names.{walk_parameters};
ghost use Rattle.tm_trees.specs.Trees.{statements};
ghost use Rattle.tm_trees.specs.Trees.statement_forms.{CallBlock as CallTag, For, If};
ghost use Rattle.tm_trees.specs.Trees.statement_forms.{Macro as Declare};

use crate::walker::Walker;
use std::alloc::{AllocError, Global};
use std::collections::BTreeSet;
use tm_items::{Boxed, Items};
use tm_syntax::{
    Assignment, AssignmentTarget, CallBlock, Expr, ForLoop, Macro, Name, Parameter, Stmt, Tree,
};

/// The names that a source's tree reads before any open scope has assigned them. With `nested`, a
/// name includes the attributes after it, such as `a.b.c`. AllocError if memory runs out.
pub fn undeclared(alloc: Global, tree: &Tree, nested: bool) -> Result<BTreeSet<String>, AllocError>
    ensures { IfOk result
        (λ names. map string_bytes (keys names) ≡ undeclared_in nested tree.now) }
{
    let mut walker = Walker::new(alloc)?;
    match tree {
        Tree::Statements(statements) => walker.walk_all(nested, statements.as_slice())?,
        Tree::Expression(expr) => walker.walk_expr(nested, expr.get())?,
    }
    Ok(walker.into_found())
}

impl Walker {
    /// Walks a statement. AllocError if memory runs out.
    #[cycle(statements)]
    fn walk(&mut self, nested: bool, statement: &Stmt) -> Result<(), AllocError>
        ensures { OnOk result (self.new ≡ walk nested statement.now self.old) }
    {
        match statement {
            Stmt::EmitRaw(_) => Ok(()),
            Stmt::EmitExpr(expr) => self.walk_expr(nested, expr.get()),
            Stmt::EmitLoop(argument) => {
                self.read("loop")?;
                self.walk_expr(nested, argument.get())
            }
            Stmt::If(condition, body, other) => {
                self.walk_if(nested, condition.get(), body.as_slice(), other)
            }
            Stmt::For(for_loop) => self.walk_for(nested, for_loop),
            Stmt::Break => Ok(()),
            Stmt::Continue => Ok(()),
            Stmt::Block(_, _, body) => self.walk_block(nested, body.as_slice()),
            Stmt::EmitBlock(_) => Ok(()),
            Stmt::EmitSuper => Ok(()),
            Stmt::Extends(parent) => self.walk_expr(nested, parent.get()),
            Stmt::Set(target, value) => self.walk_set(nested, target, value.get()),
            Stmt::CaptureBlock(becomes, filters, body) => {
                self.walk_use(nested, becomes)?;
                self.walk_filters(nested, filters.as_slice())?;
                self.walk_all(nested, body.as_slice())
            }
            Stmt::With(given, body) => self.walk_with(nested, given.as_slice(), body.as_slice()),
            Stmt::Do(call) => self.walk_expr(nested, call.get()),
            Stmt::AutoEscape(value, body) => {
                self.walk_expr(nested, value.get())?;
                self.walk_all(nested, body.as_slice())
            }
            Stmt::Macro(declared) => self.walk_macro(nested, declared),
            Stmt::CallBlock(call) => self.walk_call_block(nested, call),
            Stmt::Include(template, _) => self.walk_expr(nested, template.get()),
            Stmt::Import(template, target) => {
                self.walk_expr(nested, template.get())?;
                self.walk_target(nested, target)
            }
            Stmt::FromImport(template, imports) => {
                self.walk_expr(nested, template.get())?;
                self.walk_imports(imports.as_slice())
            }
        }
    }

    /// Walks a condition and its bodies. AllocError if memory runs out.
    #[cycle(statements)]
    fn walk_if(
        &mut self,
        nested: bool,
        condition: &Expr,
        body: &[Stmt],
        other: &Option<Items<Stmt>>,
    ) -> Result<(), AllocError>
        ensures { OnOk result
            (self.new ≡ walk nested (If condition.now body.now other.now) self.old) }
    {
        self.walk_expr(nested, condition)?;
        self.walk_all(nested, body)?;
        match other {
            Some(other) => self.walk_all(nested, other.as_slice()),
            None => Ok(()),
        }
    }

    /// Walks a loop. AllocError if memory runs out.
    #[cycle(statements)]
    fn walk_for(&mut self, nested: bool, for_loop: &ForLoop) -> Result<(), AllocError>
        ensures { OnOk result (self.new ≡ walk nested (For for_loop.now) self.old) }
    {
        self.walk_expr(nested, for_loop.iterable.get())?;
        self.walk_rounds(nested, for_loop)?;
        match &for_loop.other {
            Some(other) => self.walk_all(nested, other.as_slice()),
            None => Ok(()),
        }
    }

    /// Walks the contents of a loop's scope. AllocError if memory runs out.
    #[cycle(statements)]
    fn walk_rounds(&mut self, nested: bool, for_loop: &ForLoop) -> Result<(), AllocError>
        ensures { OnOk result (self.new ≡ close_scope (walk_all nested (statements for_loop.now.body)
            (walk_head nested for_loop.now.target for_loop.now.condition (open_scope self.old)))) }
    {
        self.open_scope()?;
        self.walk_head(nested, &for_loop.target, &for_loop.condition)?;
        self.walk_all(nested, for_loop.body.as_slice())?;
        self.close_scope();
        Ok(())
    }

    /// Walks the head of a loop, in the scope of the loop. AllocError if memory runs out.
    fn walk_head(
        &mut self,
        nested: bool,
        target: &AssignmentTarget,
        condition: &Option<Boxed<Expr>>,
    ) -> Result<(), AllocError>
        ensures { OnOk result
            (self.new ≡ walk_head nested target.now condition.now self.old) }
    {
        self.walk_target(nested, target)?;
        self.walk_condition(nested, condition)?;
        let name = Name::new(self.alloc(), "loop")?;
        self.assign(name)
    }

    /// Walks the body of a block in its scope. AllocError if memory runs out.
    #[cycle(statements)]
    fn walk_block(&mut self, nested: bool, body: &[Stmt]) -> Result<(), AllocError>
        ensures { OnOk result (self.new ≡
            close_scope (walk_all nested (statements body.now) (open_scope self.old))) }
    {
        self.open_scope()?;
        self.walk_all(nested, body)?;
        self.close_scope();
        Ok(())
    }

    /// Walks assignments and a body in their scope. AllocError if memory runs out.
    #[cycle(statements)]
    fn walk_with(
        &mut self,
        nested: bool,
        given: &[Assignment],
        body: &[Stmt],
    ) -> Result<(), AllocError>
        ensures { OnOk result (self.new ≡ close_scope (walk_all nested (statements body.now)
            (walk_assignments nested given.now (open_scope self.old)))) }
    {
        self.open_scope()?;
        self.walk_assignments(nested, given)?;
        self.walk_all(nested, body)?;
        self.close_scope();
        Ok(())
    }

    /// Walks a macro, whose scope has `caller`. AllocError if memory runs out.
    #[cycle(statements)]
    fn walk_macro(&mut self, nested: bool, declared: &Macro) -> Result<(), AllocError>
        ensures { OnOk result (self.new ≡ walk nested (Declare declared.now) self.old) }
    {
        self.assign(declared.name.share()?)?;
        self.walk_body(
            nested,
            declared.parameters.as_slice(),
            declared.body.as_slice(),
        )
    }

    /// Walks a call and its `caller` macro. AllocError if memory runs out.
    #[cycle(statements)]
    fn walk_call_block(&mut self, nested: bool, tag: &CallBlock) -> Result<(), AllocError>
        ensures { OnOk result (self.new ≡ walk nested (CallTag tag.now) self.old) }
    {
        self.walk_expr(nested, tag.call.get())?;
        self.walk_body(nested, tag.parameters.as_slice(), tag.body.as_slice())
    }

    /// Walks the parameters and the body of a macro in a new scope. AllocError if memory runs out.
    #[cycle(statements)]
    fn walk_body(
        &mut self,
        nested: bool,
        parameters: &[Parameter],
        body: &[Stmt],
    ) -> Result<(), AllocError>
        ensures { OnOk result (self.new ≡ close_scope (walk_all nested (statements body.now)
            (walk_parameters nested parameters.now (assign (codes "caller") (open_scope self.old))))) }
    {
        self.open_scope()?;
        let name = Name::new(self.alloc(), "caller")?;
        self.assign(name)?;
        self.walk_parameters(nested, parameters)?;
        self.walk_all(nested, body)?;
        self.close_scope();
        Ok(())
    }

    /// Walks statements. AllocError if memory runs out.
    #[cycle(statements)]
    pub(crate) fn walk_all(&mut self, nested: bool, body: &[Stmt]) -> Result<(), AllocError>
        ensures { OnOk result (self.new ≡ walk_all nested (statements body.now) self.old) }
    {
        for statement in body {
            self.walk(nested, statement)?;
        }
        Ok(())
    }
}
