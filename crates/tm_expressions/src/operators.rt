//! Binary operators, parsed in one loop. Operators that wait for their right operand are in a list,
//! so only brackets, prefixes and the like use the machine's stack.
ghost use Rattle.std.specs.Prelude.{◌≡◌, ◌++◌, ◌+◌, ℕ, [], ◌∷◌, ◌<◌, ◌≤◌, length, true, is_some, Some, None, IfOk, MatchResult};
ghost use Rattle.tm_expressions.specs.Parses.{Leads, Parses};
ghost use Rattle.tm_expressions.specs.Grammar as grammar;
ghost use Rattle.tm_expressions.specs.Grammar.{inside, operand};
ghost use Rattle.tm_expressions.specs.Levels.{GoesOnAt, levels};
ghost use Rattle.tm_expressions.specs.Tokens.{postfix_level};
ghost use Rattle.tm_expressions.specs.Waiting as waits;
ghost use Rattle.tm_expressions.specs.Waiting.{AllAbove, IsLess, left, reached_from, resumed_all, role_of, size, step_of};
ghost use Rattle.tm_expressions.specs.declared.operators.Made.TheVariants as makes;
ghost use Rattle.tm_expressions.specs.declared.operators.Turn.TheVariants as turns;
ghost use Rattle.tm_values.specs.Answer.{Refused};
ghost use Rattle.tm_values.specs.declared.error.ErrorKind.TheVariants.{OutOfMemory};

use crate::cursor::{Cursor, refusal};
use crate::expressions::{chained, compared};
use crate::lists::with_one;
use crate::tables::{Link, POSTFIX_LEVEL};
use std::alloc::Global;
use tm_items::{Boxed, Items};
use tm_syntax::{BinaryOperator, Comparison, Expr, Step};
use tm_values::Error;

/// A value, and the levels whose steps are parsed after it.
#[derive(Drop)]
pub struct Reached {
    /// The value.
    pub value: Boxed<Expr>,
    /// The first of the levels.
    pub level: u8,
    /// The end of the levels.
    pub end: u8,
}

/// A value with its steps of a level, and the levels after that one.
#[derive(Drop)]
pub struct Reading {
    /// The value.
    pub value: Boxed<Expr>,
    /// Its steps.
    pub steps: Items<Step>,
    /// Their level.
    pub level: u8,
    /// The first of the levels after it.
    pub next: u8,
    /// The end of those levels.
    pub end: u8,
}

/// A comparison, and the chained ones after it.
#[derive(Drop)]
pub struct Row {
    /// The operator.
    pub operator: BinaryOperator,
    /// The right operand.
    pub right: Boxed<Expr>,
    /// The comparisons after it.
    pub after: Items<Comparison>,
}

/// What a right operand belongs to.
#[derive(Drop)]
pub enum Role {
    /// An operator.
    Operator(BinaryOperator),
    /// A comparison.
    Comparison(BinaryOperator),
    /// A chained comparison after others.
    After(Row, BinaryOperator),
    /// `and`
    And,
    /// `or`
    Or,
}

/// An operator that waits for its right operand.
#[derive(Drop)]
pub struct Waiting {
    /// What is before it.
    pub before: Reading,
    /// What the right operand belongs to.
    pub role: Role,
}

/// What a right operand completes.
#[derive(Drop)]
pub enum Made {
    /// A step.
    Step(Step),
    /// Comparisons, after which others may be chained.
    Row(Row),
}

/// What is parsed next.
#[derive(Drop)]
pub enum Turn {
    /// The operators after a value.
    After(Reached),
    /// The steps after a value that aren't operators, and then the operators of the levels up to an
    /// end.
    Postfix(Boxed<Expr>, u8),
    /// The right operand of the last waiting operator, which is an operand of this level.
    Operand(u8),
    /// Nothing: this is the whole expression.
    Whole(Boxed<Expr>),
}

// The result of each method and the tokens left after it continue the same rule. SyntaxError if the
// tokens don't match it.
impl Cursor<'_> {
    /// The steps after an operand, of all levels from its level on up to `end`.
    #[cycle(expressions)]
    #[inline(never)]
    pub(crate) fn operators(
        &mut self,
        alloc: Global,
        depth: u8,
        from: u8,
        end: u8,
        operand: Boxed<Expr>,
    ) -> Result<Boxed<Expr>, Error>
        ensures { Parses result self.new ((levels (inside depth) from end operand).reads self.old) }
    {
        let mut waiting = Items::new(alloc);
        let mut reached = Reached {
            value: operand,
            level: from,
            end,
        };
        'turns: loop {
            reached = match self.turn(alloc, reached, &mut waiting)? {
                Turn::After(reached) => reached,
                Turn::Postfix(value, end) => self.after_postfix(alloc, depth, value, end)?,
                Turn::Operand(level) => self.right_side(alloc, depth, level)?,
                Turn::Whole(value) => return Ok(value),
            };
        }
    }

    /// The start of the right operand of an operator of this level.
    #[cycle(expressions)]
    #[tactic(auto, using(crate::proofs::Waiting::right_starts))]
    #[inline(always)]
    fn right_side(&mut self, alloc: Global, depth: u8, level: u8) -> Result<Reached, Error>
        ensures left { Leads result self.new
            (λ r. (levels (inside depth) r.level r.end r.value).reads)
            ((operand (inside depth) level).reads self.old) }
        ensures no_more { IfOk result (λ r. length self.new ≤ length self.old) }
    {
        let start = self.operand_start(alloc, depth, level)?;
        Ok(Reached {
            value: start.value,
            level: start.level,
            end: level,
        })
    }

    /// A value with the steps after it that aren't operators.
    #[cycle(expressions)]
    #[tactic(auto, using(crate::proofs::Waiting::postfix_starts))]
    #[inline(always)]
    fn after_postfix(
        &mut self,
        alloc: Global,
        depth: u8,
        value: Boxed<Expr>,
        end: u8,
    ) -> Result<Reached, Error>
        ensures left { Leads result self.new
            (λ r. (levels (inside depth) r.level r.end r.value).reads)
            ((waits.after_postfix (inside depth) value end).reads self.old) }
        ensures level { IfOk result (λ r. r.level ≡ postfix_level + 1) }
        ensures no_more { IfOk result (λ r. length self.new ≤ length self.old) }
    {
        let value = self.with_steps(alloc, depth, value)?;
        Ok(Reached {
            value,
            level: POSTFIX_LEVEL + 1,
            end,
        })
    }

    /// What is parsed next after a value.
    #[inline(never)]
    fn turn(
        &mut self,
        alloc: Global,
        reached: Reached,
        waiting: &mut Items<Waiting>,
    ) -> Result<Turn, Error>
        requires { AllAbove waiting.old }
        ensures left { (depth : ℕ) → Leads result self.new
            (λ t. (left (inside depth) waiting.new t).reads)
            ((reached_from (inside depth) waiting.old reached).reads self.old) }
        ensures less { IfOk result
            (λ t. IsLess t self.new waiting.new (size self.old waiting.old reached.level)) }
        ensures above { IfOk result (λ t. AllAbove waiting.new) }
    {
        let Some(level) = self.link_level(reached.level, reached.end) else {
            return self.after_right(alloc, reached.value, waiting);
        };
        if level == POSTFIX_LEVEL {
            return Ok(Turn::Postfix(reached.value, reached.end));
        }
        self.after_operator(alloc, level, reached, waiting)
    }

    /// After the first operator of a level: its right operand.
    fn after_operator(
        &mut self,
        alloc: Global,
        level: u8,
        reached: Reached,
        waiting: &mut Items<Waiting>,
    ) -> Result<Turn, Error>
        requires above { AllAbove waiting.old }
        requires found { GoesOnAt (Some level) reached.level reached.end self.old }
        requires operator { postfix_level < level }
        ensures left { (depth : ℕ) → Leads result self.new
            (λ t. (left (inside depth) waiting.new t).reads)
            ((reached_from (inside depth) waiting.old reached).reads self.old) }
        ensures less { IfOk result
            (λ t. IsLess t self.new waiting.new (size self.old waiting.old reached.level)) }
        ensures above { IfOk result (λ t. AllAbove waiting.new) }
    {
        let next = level + 1;
        let Some(link) = self.take_link(level) else {
            return Ok(Turn::After(Reached {
                value: reached.value,
                level: next,
                end: reached.end,
            }));
        };
        let Some(role) = role_of(link) else {
            return Err(refusal());
        };
        let before = Reading {
            value: reached.value,
            steps: Items::new(alloc),
            level,
            next,
            end: reached.end,
        };
        waiting.push(Waiting { before, role })?;
        Ok(Turn::Operand(level))
    }

    /// After a right operand: another operator of the level of the last waiting one, or the levels
    /// after it. If no operator waits, it is the whole expression.
    #[tactic(auto, using(crate::proofs::Waiting::above_less))]
    #[inline(never)]
    fn after_right(
        &mut self,
        alloc: Global,
        right: Boxed<Expr>,
        waiting: &mut Items<Waiting>,
    ) -> Result<Turn, Error>
        requires { AllAbove waiting.old }
        ensures left { (depth : ℕ) → Leads result self.new
            (λ t. (left (inside depth) waiting.new t).reads)
            ((resumed_all (inside depth) waiting.old right).reads self.old) }
        ensures less { IfOk result
            (λ t. IsLess t self.new waiting.new (size self.old waiting.old 256)) }
        ensures above { IfOk result (λ t. AllAbove waiting.new) }
    {
        let Some(last) = waiting.pop() else {
            return Ok(Turn::Whole(right));
        };
        let made = made_by(alloc, last.role, right)?;
        match self.take_link(last.before.level) {
            Some(link) => {
                let next = again(last.before, made, link)?;
                let level = next.before.level;
                waiting.push(next)?;
                Ok(Turn::Operand(level))
            }
            None => Ok(Turn::After(ended(alloc, last.before, made)?)),
        }
    }
}

/// What the right operand after a link belongs to. None if the link has no right operand.
fn role_of(link: Link) -> Option<Role>
    ensures { result ≡ role_of link }
{
    match link {
        Link::Operator(operator) => Some(Role::Operator(operator)),
        Link::Comparison(operator) => Some(Role::Comparison(operator)),
        Link::And => Some(Role::And),
        Link::Or => Some(Role::Or),
        Link::Member | Link::Item | Link::Call | Link::Filter | Link::Test => None,
    }
}

/// What a right operand completes. OutOfMemory if memory runs out.
fn made_by(alloc: Global, role: Role, right: Boxed<Expr>) -> Result<Made, Error>
    ensures { MatchResult result
        (λ it. it ≡ waits.made role right)
        (λ e. e ≡ OutOfMemory ∷ []) }
{
    match role {
        Role::Operator(operator) => Ok(Made::Step(Step::Binary(operator, right))),
        Role::Comparison(operator) => Ok(Made::Row(Row {
            operator,
            right,
            after: Items::new(alloc),
        })),
        Role::After(row, operator) => Ok(Made::Row(Row {
            operator: row.operator,
            right: row.right,
            after: with_one(row.after, Comparison { operator, right })?,
        })),
        Role::And => Ok(Made::Step(Step::And(right))),
        Role::Or => Ok(Made::Step(Step::Or(right))),
    }
}

/// The waiting operator after a completed right operand and another link of its level. SyntaxError
/// if the link isn't allowed there.
fn again(before: Reading, made: Made, link: Link) -> Result<Waiting, Error>
    ensures { MatchResult result
        (λ next. waits.again before made link ≡ Some next)
        (λ e. Refused e (waits.again before made link ≡ None)) }
{
    match made {
        Made::Step(step) => after_step(before, step, link),
        Made::Row(row) => after_row(before, row, link),
    }
}

/// The operator of a link after a step of its level. SyntaxError if the link has no right operand.
fn after_step(before: Reading, step: Step, link: Link) -> Result<Waiting, Error>
    ensures { MatchResult result
        (λ next. waits.again before (makes.Step step) link ≡ Some next)
        (λ e. Refused e (waits.again before (makes.Step step) link ≡ None)) }
{
    let Some(role) = role_of(link) else {
        return Err(refusal());
    };
    let before = Reading {
        value: before.value,
        steps: with_one(before.steps, step)?,
        level: before.level,
        next: before.next,
        end: before.end,
    };
    Ok(Waiting { before, role })
}

/// The comparison of a link, chained after others. SyntaxError if the link isn't a comparison.
fn after_row(before: Reading, row: Row, link: Link) -> Result<Waiting, Error>
    ensures { MatchResult result
        (λ next. waits.again before (makes.Row row) link ≡ Some next)
        (λ e. Refused e (waits.again before (makes.Row row) link ≡ None)) }
{
    let Link::Comparison(operator) = link else {
        return Err(refusal());
    };
    let role = Role::After(row, operator);
    Ok(Waiting { before, role })
}

/// A value with its steps of a level, the last of which was just completed, before the levels after
/// that one. OutOfMemory if memory runs out.
fn ended(alloc: Global, before: Reading, made: Made) -> Result<Reached, Error>
    ensures { MatchResult result
        (λ r. r ≡ record {
          value = grammar.chained before.value (before.steps ++ step_of made ∷ []);
          level = before.next;
          end = before.end;
        })
        (λ e. e ≡ OutOfMemory ∷ []) }
{
    let steps = with_one(before.steps, into_step(made))?;
    Ok(Reached {
        value: chained(alloc, before.value, steps)?,
        level: before.next,
        end: before.end,
    })
}

/// The completed step.
fn into_step(made: Made) -> Step
    ensures { result ≡ step_of made }
{
    match made {
        Made::Step(step) => step,
        Made::Row(row) => compared(row.operator, row.right, row.after),
    }
}
