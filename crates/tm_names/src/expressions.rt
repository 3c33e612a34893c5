//! The names in expressions.
ghost use Rattle.std.specs.Prelude.{◌≡◌, [], ◌∷◌, OnOk};
ghost use Rattle.tm_syntax.specs.Names.{name_of, read_chain, read_first, read_function};
ghost use Rattle.tm_syntax.specs.Names.{walk_argument, walk_arguments, walk_comparisons};
ghost use Rattle.tm_syntax.specs.Names.{walk_conditions, walk_expr, walk_exprs, walk_filters};
ghost use Rattle.tm_syntax.specs.Names.{walk_keyword, walk_keywords, walk_pairs, walk_step, walk_steps};
ghost use Rattle.tm_trees.specs.Trees.{exprs, pairs, arguments, keywords, steps, conditions, comparisons};

use crate::chains::{dotted, name_of};
use crate::walker::Walker;
use std::alloc::AllocError;
use tm_syntax::{Argument, Comparison, Condition, Expr, Keyword, Name, Pair, Step};

impl Walker {
    /// Reads the function name of a call; `super` doesn't count. AllocError if memory runs out.
    fn read_function(&mut self, name: &Name) -> Result<(), AllocError>
        ensures { OnOk result (self.new ≡ read_function name.now self.old) }
    {
        if name.is("super") {
            return Ok(());
        }
        self.read(name.as_str())
    }

    /// Reads a name and the steps after it. AllocError if memory runs out.
    fn read_chain(&mut self, nested: bool, name: &Name, after: &[Step]) -> Result<(), AllocError>
        ensures { OnOk result
            (self.new ≡ read_chain nested name.now (steps after.now) self.old) }
    {
        if nested {
            let text = dotted(self.alloc(), name, after)?;
            return self.read_as(name.as_str(), text.as_str());
        }
        self.read(name.as_str())
    }

    /// Walks an expression. AllocError if memory runs out.
    #[cycle(expressions)]
    pub(crate) fn walk_expr(&mut self, nested: bool, expr: &Expr) -> Result<(), AllocError>
        ensures { OnOk result (self.new ≡ walk_expr nested expr.now self.old) }
    {
        match expr {
            Expr::Var(name) => self.read(name.as_str()),
            Expr::Const(_) => Ok(()),
            Expr::List(items) => self.walk_exprs(nested, items.as_slice()),
            Expr::Tuple(items) => self.walk_exprs(nested, items.as_slice()),
            Expr::Map(entries) => self.walk_pairs(nested, entries.as_slice()),
            Expr::Call(name, given, named) => {
                self.read_function(name)?;
                self.walk_arguments(nested, given.as_slice())?;
                self.walk_keywords(nested, named.as_slice())
            }
            Expr::SelfBlock(_) => Ok(()),
            Expr::Unary(_, operand) => self.walk_expr(nested, operand.get()),
            Expr::Chain(first, after) => {
                let after = after.as_slice();
                self.walk_first(nested, first.get(), after)?;
                self.walk_steps(nested, after)
            }
            Expr::Conditional(value, conditions) => {
                self.walk_expr(nested, value.get())?;
                self.walk_conditions(nested, conditions.as_slice())
            }
        }
    }

    /// Walks the start of a chain with these steps. AllocError if memory runs out.
    #[cycle(expressions)]
    fn walk_first(&mut self, nested: bool, first: &Expr, after: &[Step]) -> Result<(), AllocError>
        ensures { OnOk result (self.new ≡ read_first nested (name_of first.now)
            (steps after.now) self.old (walk_expr nested first.now self.old)) }
    {
        match name_of(first) {
            Some(name) => self.read_chain(nested, name, after),
            None => self.walk_expr(nested, first),
        }
    }

    /// Walks expressions. AllocError if memory runs out.
    #[cycle(expressions)]
    fn walk_exprs(&mut self, nested: bool, items: &[Expr]) -> Result<(), AllocError>
        ensures { OnOk result (self.new ≡ walk_exprs nested (exprs items.now) self.old) }
    {
        for item in items {
            self.walk_expr(nested, item)?;
        }
        Ok(())
    }

    /// Walks pairs. AllocError if memory runs out.
    #[cycle(expressions)]
    fn walk_pairs(&mut self, nested: bool, entries: &[Pair]) -> Result<(), AllocError>
        ensures { OnOk result (self.new ≡ walk_pairs nested (pairs entries.now) self.old) }
    {
        for entry in entries {
            self.walk_expr(nested, entry.key.get())?;
            self.walk_expr(nested, entry.value.get())?;
        }
        Ok(())
    }

    /// Walks an argument. AllocError if memory runs out.
    #[cycle(expressions)]
    fn walk_argument(&mut self, nested: bool, argument: &Argument) -> Result<(), AllocError>
        ensures { OnOk result (self.new ≡ walk_argument nested argument.now self.old) }
    {
        match argument {
            Argument::Plain(value) => self.walk_expr(nested, value.get()),
            Argument::Spread(value) => self.walk_expr(nested, value.get()),
        }
    }

    /// Walks positional arguments. AllocError if memory runs out.
    #[cycle(expressions)]
    fn walk_arguments(&mut self, nested: bool, given: &[Argument]) -> Result<(), AllocError>
        ensures { OnOk result
            (self.new ≡ walk_arguments nested (arguments given.now) self.old) }
    {
        for argument in given {
            self.walk_argument(nested, argument)?;
        }
        Ok(())
    }

    /// Walks a keyword argument, whose name isn't read. AllocError if memory runs out.
    #[cycle(expressions)]
    fn walk_keyword(&mut self, nested: bool, keyword: &Keyword) -> Result<(), AllocError>
        ensures { OnOk result (self.new ≡ walk_keyword nested keyword.now self.old) }
    {
        match keyword {
            Keyword::Named(_, value) => self.walk_expr(nested, value.get()),
            Keyword::Spread(value) => self.walk_expr(nested, value.get()),
        }
    }

    /// Walks keyword arguments. AllocError if memory runs out.
    #[cycle(expressions)]
    fn walk_keywords(&mut self, nested: bool, named: &[Keyword]) -> Result<(), AllocError>
        ensures { OnOk result
            (self.new ≡ walk_keywords nested (keywords named.now) self.old) }
    {
        for keyword in named {
            self.walk_keyword(nested, keyword)?;
        }
        Ok(())
    }

    /// Walks conditions, each with its alternative. AllocError if memory runs out.
    #[cycle(expressions)]
    fn walk_conditions(&mut self, nested: bool, asked: &[Condition]) -> Result<(), AllocError>
        ensures { OnOk result
            (self.new ≡ walk_conditions nested (conditions asked.now) self.old) }
    {
        for condition in asked {
            self.walk_expr(nested, condition.test.get())?;
            self.walk_expr(nested, condition.otherwise.get())?;
        }
        Ok(())
    }

    /// Walks a step. AllocError if memory runs out.
    #[cycle(expressions)]
    fn walk_step(&mut self, nested: bool, step: &Step) -> Result<(), AllocError>
        ensures { OnOk result (self.new ≡ walk_step nested step.now self.old) }
    {
        match step {
            Step::Attribute(_) => Ok(()),
            Step::Item(key) => self.walk_expr(nested, key.get()),
            Step::Apply(_, _, given, named) => {
                self.walk_arguments(nested, given.as_slice())?;
                self.walk_keywords(nested, named.as_slice())
            }
            Step::Call(given, named) => {
                self.walk_arguments(nested, given.as_slice())?;
                self.walk_keywords(nested, named.as_slice())
            }
            Step::Slice(start, stop, step) => {
                self.walk_expr(nested, start.get())?;
                self.walk_expr(nested, stop.get())?;
                self.walk_expr(nested, step.get())
            }
            Step::Binary(_, right) => self.walk_expr(nested, right.get()),
            Step::Compare(_, right, after) => {
                self.walk_expr(nested, right.get())?;
                self.walk_comparisons(nested, after.as_slice())
            }
            Step::And(right) => self.walk_expr(nested, right.get()),
            Step::Or(right) => self.walk_expr(nested, right.get()),
        }
    }

    /// Walks comparisons. AllocError if memory runs out.
    #[cycle(expressions)]
    fn walk_comparisons(&mut self, nested: bool, after: &[Comparison]) -> Result<(), AllocError>
        ensures { OnOk result
            (self.new ≡ walk_comparisons nested (comparisons after.now) self.old) }
    {
        for comparison in after {
            self.walk_expr(nested, comparison.right.get())?;
        }
        Ok(())
    }

    /// Walks steps. AllocError if memory runs out.
    #[cycle(expressions)]
    fn walk_steps(&mut self, nested: bool, after: &[Step]) -> Result<(), AllocError>
        ensures { OnOk result (self.new ≡ walk_steps nested (steps after.now) self.old) }
    {
        for step in after {
            self.walk_step(nested, step)?;
        }
        Ok(())
    }

    /// Walks the filters of a block. AllocError if memory runs out.
    pub(crate) fn walk_filters(&mut self, nested: bool, filters: &[Step]) -> Result<(), AllocError>
        ensures { OnOk result (self.new ≡ walk_filters nested filters.now self.old) }
    {
        for filter in filters {
            self.walk_step(nested, filter)?;
        }
        Ok(())
    }
}
