//! The filters of a body.
ghost use Rattle.tm_expressions.specs.Parses.{Adds, Parses};
ghost use Rattle.tm_expressions.specs.Grammar.{inside};
ghost use Rattle.tm_parser.specs.Statements.{more_filters};
ghost use Rattle.tm_grammar.specs.Combinators.{one_more};

use std::alloc::Global;
use tm_expressions::{Cursor, refusal};
use tm_items::Items;
use tm_syntax::{Sign, Step};
use tm_values::Error;

/// The other filters, each after a bar and one nesting level deeper.
#[tactic(auto, using(crate::proofs::Loops::bars))]
#[inline(never)]
pub fn more_filters(
    cursor: &mut Cursor<'_>,
    alloc: Global,
    depth: u8,
    first: Items<Step>,
) -> Result<Items<Step>, Error>
    ensures { Parses result cursor.new ((more_filters (inside depth) first).reads cursor.old) }
{
    let mut filters = first;
    while cursor.take(Sign::Bar) {
        one_filter(cursor, alloc, depth, &mut filters)?;
    }
    Ok(filters)
}

/// A filter one nesting level deeper, pushed on the others.
#[tactic(auto, using(crate::proofs::Nesting::filters))]
#[inline(never)]
pub fn one_filter(
    cursor: &mut Cursor<'_>,
    alloc: Global,
    depth: u8,
    filters: &mut Items<Step>,
) -> Result<(), Error>
    ensures { Adds result filters.new cursor.new
        ((one_more (inside depth).filter filters.old).reads cursor.old) }
{
    if depth == 0 {
        return Err(refusal());
    }
    cursor.filter_step(alloc, depth - 1, filters)
}
