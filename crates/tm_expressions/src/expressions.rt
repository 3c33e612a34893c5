//! Expressions: values, and the operators, steps and conditions after them.
ghost use Rattle.std.specs.Prelude.{◌≡◌, ◌∷◌, [], None, MatchResult};
ghost use Rattle.tm_expressions.specs.Parses.{Adds, Parses};
ghost use Rattle.tm_expressions.specs.Grammar as grammar;
ghost use Rattle.tm_expressions.specs.Grammar.{inside, condition, conditions_from, else_part, expr, last_part};
ghost use Rattle.tm_expressions.specs.Grammar.{named_step, operand, part, slice, step, steps_from, subscript, whole};
ghost use Rattle.tm_expressions.specs.Levels.{conditioned, levels, operand_start, postfixed};
ghost use Rattle.tm_expressions.specs.Tokens.{postfix_level};
ghost use Rattle.tm_expressions.specs.Waiting.{role_of};
ghost use Rattle.tm_syntax.specs.declared.tree.Expr.TheVariants as exprs;
ghost use Rattle.tm_grammar.specs.Combinators.{one_more};
ghost use Rattle.tm_values.specs.declared.error.ErrorKind.TheVariants.{OutOfMemory};

use crate::applications::add_application;
use crate::cursor::{Cursor, refusal};
use crate::lists::{add_one, boxed};
use crate::primaries::nothing_passed;
use crate::tables::{Link, OR_LEVEL, POSTFIX_LEVEL};
use std::alloc::Global;
use tm_items::{Boxed, Items};
use tm_syntax::{
    Application, BinaryOperator, Comparison, Condition, Expr, Sign, Step, UnaryOperator,
};
use tm_values::{Error, Value};

/// The start of an operand, before the operators of its levels.
#[derive(Drop)]
pub struct OperandStart {
    /// The value.
    pub value: Boxed<Expr>,
    /// The level whose operand it is.
    pub level: u8,
}

// Each method parses one rule, with `depth` levels of nesting left. SyntaxError if the tokens don't
// match the rule. A frame has room for the locals of all inlined functions, so the rarer methods
// aren't inlined: nested expressions need less stack then.
impl Cursor<'_> {
    /// Parses an expression one nesting level deeper. SyntaxError, also if `depth` is 0;
    /// OutOfMemory.
    #[cycle(expressions)]
    #[tactic(auto, using(crate::proofs::Nesting::expressions))]
    pub fn inner_expr(&mut self, alloc: Global, depth: u8) -> Result<Boxed<Expr>, Error>
        ensures { Parses result self.new ((inside depth).expr.reads self.old) }
    {
        if depth == 0 {
            return Err(refusal());
        }
        self.expr(alloc, depth - 1)
    }

    /// An operand of a level, one nesting level deeper.
    #[cycle(expressions)]
    #[tactic(auto, using(crate::proofs::Nesting::expressions))]
    fn inner_operand(&mut self, alloc: Global, depth: u8, level: u8) -> Result<Boxed<Expr>, Error>
        ensures { Parses result self.new (((inside depth).operand level).reads self.old) }
    {
        if depth == 0 {
            return Err(refusal());
        }
        self.operand(alloc, depth - 1, level)
    }

    /// Parses an expression: a value and the conditions after it. SyntaxError; OutOfMemory.
    #[cycle(expressions)]
    #[tactic(auto, unfolding(crate::specs::Grammar::expr), using(crate::proofs::Levels::no_condition))]
    #[inline(never)]
    pub fn expr(&mut self, alloc: Global, depth: u8) -> Result<Boxed<Expr>, Error>
        ensures { Parses result self.new ((expr (inside depth)).reads self.old) }
    {
        let value = self.whole(alloc, depth)?;
        if !self.is_at_if() {
            return Ok(value);
        }
        self.conditioned(alloc, depth, value)
    }

    /// The value with the conditions after it.
    #[cycle(expressions)]
    #[inline(never)]
    fn conditioned(
        &mut self,
        alloc: Global,
        depth: u8,
        value: Boxed<Expr>,
    ) -> Result<Boxed<Expr>, Error>
        ensures { Parses result self.new
            ((conditioned (inside depth) value).reads self.old) }
    {
        let conditions = self.conditions(alloc, depth)?;
        conditional(alloc, value, conditions)
    }

    /// As many conditions as there are.
    #[cycle(expressions)]
    fn conditions(&mut self, alloc: Global, depth: u8) -> Result<Items<Condition>, Error>
        ensures { Parses result self.new
            ((conditions_from (inside depth) []).reads self.old) }
    {
        let mut conditions = Items::new(alloc);
        while self.take(Sign::If) {
            self.one_condition(alloc, depth, &mut conditions)?;
        }
        Ok(conditions)
    }

    /// A condition and its else part, pushed on the others.
    #[cycle(expressions)]
    #[tactic(auto, unfolding(crate::specs::Grammar::condition))]
    #[inline(always)]
    fn one_condition(
        &mut self,
        alloc: Global,
        depth: u8,
        conditions: &mut Items<Condition>,
    ) -> Result<(), Error>
        ensures { Adds result conditions.new self.new
            ((one_more (condition (inside depth)) conditions.old).reads self.old) }
    {
        let test = self.whole(alloc, depth)?;
        let otherwise = self.else_part(alloc, depth)?;
        add_one(conditions, Condition { test, otherwise })
    }

    /// The value after `else`, if there is one.
    #[cycle(expressions)]
    #[tactic(auto, unfolding(crate::specs::Grammar::else_part))]
    #[inline(never)]
    fn else_part(&mut self, alloc: Global, depth: u8) -> Result<Boxed<Expr>, Error>
        ensures { Parses result self.new ((else_part (inside depth)).reads self.old) }
    {
        if self.take(Sign::Else) {
            return self.inner_expr(alloc, depth);
        }
        no_else(alloc)
    }

    /// Parses a value with all its operators, but without conditions. SyntaxError; OutOfMemory.
    #[cycle(expressions)]
    #[tactic(auto, using(crate::proofs::Levels::operands))]
    #[inline(always)]
    pub fn whole(&mut self, alloc: Global, depth: u8) -> Result<Boxed<Expr>, Error>
        ensures { Parses result self.new ((whole (inside depth)).reads self.old) }
    {
        let start = self.operand_start(alloc, depth, OR_LEVEL)?;
        self.climb(alloc, depth, start.level, OR_LEVEL + 1, start.value)
    }

    /// Parses an operand of a level. SyntaxError; OutOfMemory.
    #[cycle(expressions)]
    #[tactic(auto, using(crate::proofs::Levels::operands))]
    pub fn operand(&mut self, alloc: Global, depth: u8, level: u8) -> Result<Boxed<Expr>, Error>
        ensures { Parses result self.new ((operand (inside depth) level).reads self.old) }
    {
        let start = self.operand_start(alloc, depth, level)?;
        self.climb(alloc, depth, start.level, level, start.value)
    }

    /// The start of an operand of a level: a prefix and its operand, or else a primary expression
    /// with its steps.
    #[cycle(expressions)]
    #[tactic(auto, unfolding(crate::specs::Levels::operand_start))]
    #[inline(never)]
    pub(crate) fn operand_start(
        &mut self,
        alloc: Global,
        depth: u8,
        level: u8,
    ) -> Result<OperandStart, Error>
        ensures { Parses result self.new ((operand_start (inside depth) level).reads self.old) }
    {
        if let Some((level, operator)) = self.take_prefix(level) {
            let operand = self.inner_operand(alloc, depth, level)?;
            let value = unary(alloc, operator, operand)?;
            return Ok(OperandStart { value, level });
        }
        let value = self.primary(alloc, depth)?;
        Ok(OperandStart {
            value,
            level: POSTFIX_LEVEL,
        })
    }

    /// The steps after an operand, from its own level on up to `end`. Most values have no operators
    /// after them.
    #[cycle(expressions)]
    #[inline(always)]
    fn climb(
        &mut self,
        alloc: Global,
        depth: u8,
        from: u8,
        end: u8,
        operand: Boxed<Expr>,
    ) -> Result<Boxed<Expr>, Error>
        ensures { Parses result self.new
            ((levels (inside depth) from end operand).reads self.old) }
    {
        let mut level = from;
        let mut value = operand;
        while let Some(found) = self.link_level(level, end) {
            if found != POSTFIX_LEVEL {
                return self.operators(alloc, depth, level, end, value);
            }
            value = self.with_steps(alloc, depth, value)?;
            level = found + 1;
        }
        Ok(value)
    }

    /// A value and the steps after it, without operators.
    #[cycle(expressions)]
    #[inline(never)]
    pub(crate) fn with_steps(
        &mut self,
        alloc: Global,
        depth: u8,
        value: Boxed<Expr>,
    ) -> Result<Boxed<Expr>, Error>
        ensures { Parses result self.new ((postfixed (inside depth) value).reads self.old) }
    {
        let steps = self.steps(alloc, depth)?;
        chained(alloc, value, steps)
    }

    /// As many steps as there are, without operators.
    #[cycle(expressions)]
    #[tactic(auto, using(crate::proofs::Waiting::no_role))]
    #[inline(always)]
    fn steps(&mut self, alloc: Global, depth: u8) -> Result<Items<Step>, Error>
        ensures { Parses result self.new
            ((steps_from (inside depth) (operand (inside depth) postfix_level) postfix_level
            []).reads self.old) }
    {
        let mut steps = Items::new(alloc);
        while let Some(link) = self.take_link(POSTFIX_LEVEL) {
            self.one_step(alloc, depth, link, &mut steps)?;
        }
        Ok(steps)
    }

    /// Parses what follows a link that isn't an operator, and pushes the step on `steps`.
    /// SyntaxError; OutOfMemory.
    #[cycle(expressions)]
    #[inline(always)]
    pub fn one_step(
        &mut self,
        alloc: Global,
        depth: u8,
        link: Link,
        steps: &mut Items<Step>,
    ) -> Result<(), Error>
        requires { role_of link ≡ None }
        ensures { Adds result steps.new self.new
            ((one_more
            (step (inside depth) (operand (inside depth) postfix_level) postfix_level link)
            steps.old).reads self.old) }
    {
        match link {
            Link::Member => self.named_step(alloc, depth, steps),
            Link::Item => self.subscript(alloc, depth, steps),
            Link::Call => self.call_step(alloc, depth, steps),
            Link::Filter => self.filter_step(alloc, depth, steps),
            Link::Test => self.test_step(alloc, depth, steps),
            Link::Operator(_) | Link::Comparison(_) | Link::And | Link::Or => Err(refusal()),
        }
    }

    /// An attribute or a method call, pushed on `steps`.
    #[cycle(expressions)]
    #[tactic(auto, unfolding(crate::specs::Grammar::named_step))]
    #[inline(never)]
    fn named_step(&mut self, alloc: Global, depth: u8, steps: &mut Items<Step>) -> Result<(), Error>
        ensures { Adds result steps.new self.new
            ((one_more (named_step (inside depth)) steps.old).reads self.old) }
    {
        let name = self.expect_name()?;
        if !self.take(Sign::OpenRound) {
            return add_one(steps, Step::Attribute(name));
        }
        let mut given = nothing_passed(alloc);
        self.in_brackets(alloc, depth, &mut given)?;
        add_application(Application::Method, name, given, steps)
    }

    /// The item or slice in square brackets and the closing bracket, pushed on `steps`.
    #[cycle(expressions)]
    #[tactic(auto, unfolding(crate::specs::Grammar::subscript))]
    #[inline(never)]
    fn subscript(&mut self, alloc: Global, depth: u8, steps: &mut Items<Step>) -> Result<(), Error>
        ensures { Adds result steps.new self.new
            ((one_more (subscript (inside depth)) steps.old).reads self.old) }
    {
        self.room(depth)?;
        if self.take(Sign::Colon) {
            let start = missing(alloc)?;
            return self.slice(alloc, depth, start, steps);
        }
        let item = self.inner_expr(alloc, depth)?;
        if self.take(Sign::Colon) {
            return self.slice(alloc, depth, item, steps);
        }
        self.expect(Sign::CloseSquare)?;
        add_one(steps, Step::Item(item))
    }

    /// A slice after its first colon, and the closing bracket, pushed on `steps`.
    #[cycle(expressions)]
    #[tactic(auto, unfolding(crate::specs::Grammar::slice))]
    #[inline(never)]
    fn slice(
        &mut self,
        alloc: Global,
        depth: u8,
        start: Boxed<Expr>,
        steps: &mut Items<Step>,
    ) -> Result<(), Error>
        ensures { Adds result steps.new self.new
            ((one_more (slice (inside depth) start) steps.old).reads self.old) }
    {
        let stop = self.part(alloc, depth)?;
        let by = self.last_part(alloc, depth)?;
        self.expect(Sign::CloseSquare)?;
        add_one(steps, Step::Slice(start, stop, by))
    }

    /// The part after the second colon of a slice, if there is one.
    #[cycle(expressions)]
    #[tactic(auto, unfolding(crate::specs::Grammar::last_part))]
    fn last_part(&mut self, alloc: Global, depth: u8) -> Result<Boxed<Expr>, Error>
        ensures { Parses result self.new ((last_part (inside depth)).reads self.old) }
    {
        if self.take(Sign::Colon) {
            return self.part(alloc, depth);
        }
        missing(alloc)
    }

    /// A part of a slice, which may be missing.
    #[cycle(expressions)]
    #[tactic(auto, unfolding(crate::specs::Grammar::part))]
    fn part(&mut self, alloc: Global, depth: u8) -> Result<Boxed<Expr>, Error>
        ensures { Parses result self.new ((part (inside depth)).reads self.old) }
    {
        if self.ends_part() {
            return missing(alloc);
        }
        self.inner_expr(alloc, depth)
    }
}

/// The expression for a missing part. OutOfMemory if memory runs out.
#[inline(never)]
fn missing(alloc: Global) -> Result<Boxed<Expr>, Error>
    ensures { MatchResult result
        (λ expr. expr ≡ grammar.missing)
        (λ e. e ≡ OutOfMemory ∷ []) }
{
    boxed(alloc, Expr::Const(Value::none()))
}

/// The expression for a missing else part. OutOfMemory if memory runs out.
#[inline(never)]
fn no_else(alloc: Global) -> Result<Boxed<Expr>, Error>
    ensures { MatchResult result
        (λ expr. expr ≡ grammar.no_else)
        (λ e. e ≡ OutOfMemory ∷ []) }
{
    boxed(alloc, Expr::Const(Value::silent_undefined()))
}

/// A comparison and the chained ones after it, as a step.
#[tactic(auto, using(crate::proofs::Nesting::comparisons))]
#[inline(never)]
pub fn compared(operator: BinaryOperator, right: Boxed<Expr>, after: Items<Comparison>) -> Step
    ensures { result ≡ grammar.compared operator right after }
{
    if after.is_empty() {
        return Step::Binary(operator, right);
    }
    Step::Compare(operator, right, after)
}

/// A value and its conditions; the value itself if there are none. OutOfMemory if memory runs out.
#[tactic(auto, using(crate::proofs::Nesting::conditions))]
#[inline(never)]
fn conditional(
    alloc: Global,
    value: Boxed<Expr>,
    conditions: Items<Condition>,
) -> Result<Boxed<Expr>, Error>
    ensures { MatchResult result
        (λ expr. expr ≡ grammar.conditional value conditions)
        (λ e. e ≡ OutOfMemory ∷ []) }
{
    if conditions.is_empty() {
        return Ok(value);
    }
    boxed(alloc, Expr::Conditional(value, conditions))
}

/// A prefix operator and its operand. OutOfMemory if memory runs out.
#[inline(never)]
fn unary(alloc: Global, operator: UnaryOperator, operand: Boxed<Expr>) -> Result<Boxed<Expr>, Error>
    ensures { MatchResult result
        (λ expr. expr ≡ exprs.Unary operator operand)
        (λ e. e ≡ OutOfMemory ∷ []) }
{
    boxed(alloc, Expr::Unary(operator, operand))
}

/// A value and its steps; the value itself if there are none. OutOfMemory if memory runs out.
#[tactic(auto, using(crate::proofs::Nesting::chains))]
#[inline(never)]
pub fn chained(alloc: Global, value: Boxed<Expr>, steps: Items<Step>) -> Result<Boxed<Expr>, Error>
    ensures { MatchResult result
        (λ expr. expr ≡ grammar.chained value steps)
        (λ e. e ≡ OutOfMemory ∷ []) }
{
    if steps.is_empty() {
        return Ok(value);
    }
    boxed(alloc, Expr::Chain(value, steps))
}
