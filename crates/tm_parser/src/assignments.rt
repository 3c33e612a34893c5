//! Values without brackets, and assignments.
ghost use Rattle.std.specs.Prelude.{[]};
ghost use Rattle.tm_expressions.specs.Parses.{Parses};
ghost use Rattle.tm_expressions.specs.Grammar.{inside, expr, items, more_items};
ghost use Rattle.tm_parser.specs.Statements.{assignment, bare, bare_tuple};
ghost use Rattle.tm_grammar.specs.Combinators.{one_more};
ghost use Rattle.tm_syntax.specs.declared.token.Sign.TheVariants as sign;

use crate::targets::inner_target;
use std::alloc::Global;
use tm_expressions::{Cursor, boxed, with_one};
use tm_items::{Boxed, Items};
use tm_syntax::{Assignment, Expr, Sign};
use tm_values::Error;

// Each function parses one rule, with `depth` levels of nesting left. SyntaxError if the tokens
// don't match the rule.

/// An expression or a tuple without brackets, and the end of the tag.
#[tactic(auto, unfolding(crate::specs::Statements::bare))]
pub fn bare(cursor: &mut Cursor<'_>, alloc: Global, depth: u8) -> Result<Boxed<Expr>, Error>
    ensures { Parses result cursor.new ((bare (inside depth)).reads cursor.old) }
{
    let first = cursor.expr(alloc, depth)?;
    if cursor.take(Sign::BlockEnd) {
        return Ok(first);
    }
    bare_tuple(cursor, alloc, depth, first)
}

/// A tuple without brackets after its first item, and the end of the tag.
#[tactic(auto, unfolding(crate::specs::Statements::bare_tuple))]
fn bare_tuple(
    cursor: &mut Cursor<'_>,
    alloc: Global,
    depth: u8,
    first: Boxed<Expr>,
) -> Result<Boxed<Expr>, Error>
    ensures { Parses result cursor.new ((bare_tuple (inside depth) first).reads cursor.old) }
{
    cursor.expect(Sign::Comma)?;
    let items = with_one(Items::new(alloc), first.into_inner())?;
    let items = bare_items(cursor, alloc, depth, items)?;
    boxed(alloc, Expr::Tuple(items))
}

/// Expressions up to the end of the tag, pushed on the others.
#[tactic(auto, unfolding(tm_expressions::specs::Grammar::items))]
fn bare_items(
    cursor: &mut Cursor<'_>,
    alloc: Global,
    depth: u8,
    first: Items<Expr>,
) -> Result<Items<Expr>, Error>
    ensures { Parses result cursor.new
        ((items sign.BlockEnd (expr (inside depth)) first).reads cursor.old) }
{
    if cursor.take(Sign::BlockEnd) {
        return Ok(first);
    }
    let items = one_bare_item(cursor, alloc, depth, first)?;
    let items = more_bare_items(cursor, alloc, depth, items)?;
    cursor.take(Sign::Comma);
    cursor.expect(Sign::BlockEnd)?;
    Ok(items)
}

/// The other expressions, each after a comma.
#[tactic(auto, using(tm_expressions::proofs::Loops::commas))]
fn more_bare_items(
    cursor: &mut Cursor<'_>,
    alloc: Global,
    depth: u8,
    first: Items<Expr>,
) -> Result<Items<Expr>, Error>
    ensures { Parses result cursor.new
        ((more_items sign.BlockEnd (expr (inside depth)) first).reads cursor.old) }
{
    let mut items = first;
    while cursor.take_comma(Sign::BlockEnd) {
        items = one_bare_item(cursor, alloc, depth, items)?;
    }
    Ok(items)
}

/// An expression, pushed on the others.
fn one_bare_item(
    cursor: &mut Cursor<'_>,
    alloc: Global,
    depth: u8,
    items: Items<Expr>,
) -> Result<Items<Expr>, Error>
    ensures { Parses result cursor.new
        ((one_more (expr (inside depth)) items).reads cursor.old) }
{
    let value = cursor.expr(alloc, depth)?;
    with_one(items, value.into_inner())
}

/// Assignments, and the end of the tag.
#[tactic(auto, unfolding(tm_expressions::specs::Grammar::items))]
#[inline(never)]
pub fn assignments(
    cursor: &mut Cursor<'_>,
    alloc: Global,
    depth: u8,
) -> Result<Items<Assignment>, Error>
    ensures { Parses result cursor.new
        ((items sign.BlockEnd (assignment (inside depth)) []).reads cursor.old) }
{
    let assignments = Items::new(alloc);
    if cursor.take(Sign::BlockEnd) {
        return Ok(assignments);
    }
    let assignments = one_assignment(cursor, alloc, depth, assignments)?;
    let assignments = more_assignments(cursor, alloc, depth, assignments)?;
    cursor.take(Sign::Comma);
    cursor.expect(Sign::BlockEnd)?;
    Ok(assignments)
}

/// The other assignments, each after a comma.
#[tactic(auto, using(tm_expressions::proofs::Loops::commas))]
fn more_assignments(
    cursor: &mut Cursor<'_>,
    alloc: Global,
    depth: u8,
    first: Items<Assignment>,
) -> Result<Items<Assignment>, Error>
    ensures { Parses result cursor.new
        ((more_items sign.BlockEnd (assignment (inside depth)) first).reads cursor.old) }
{
    let mut assignments = first;
    while cursor.take_comma(Sign::BlockEnd) {
        assignments = one_assignment(cursor, alloc, depth, assignments)?;
    }
    Ok(assignments)
}

/// An assignment, pushed on the others.
fn one_assignment(
    cursor: &mut Cursor<'_>,
    alloc: Global,
    depth: u8,
    assignments: Items<Assignment>,
) -> Result<Items<Assignment>, Error>
    ensures { Parses result cursor.new
        ((one_more (assignment (inside depth)) assignments).reads cursor.old) }
{
    let assignment = assignment(cursor, alloc, depth)?;
    with_one(assignments, assignment)
}

/// A target and its value.
#[tactic(auto, unfolding(crate::specs::Statements::assignment))]
fn assignment(cursor: &mut Cursor<'_>, alloc: Global, depth: u8) -> Result<Assignment, Error>
    ensures { Parses result cursor.new ((assignment (inside depth)).reads cursor.old) }
{
    let target = inner_target(cursor, alloc, depth)?;
    cursor.expect(Sign::Assign)?;
    let value = cursor.inner_expr(alloc, depth)?;
    Ok(Assignment { target, value })
}
