//! The heads of loops.
ghost use Rattle.std.specs.Prelude.{◌≡◌, is_some};
ghost use Rattle.tm_expressions.specs.Parses.{Parses, TakesSign};
ghost use Rattle.tm_expressions.specs.Grammar.{inside, whole};
ghost use Rattle.tm_parser.specs.Statements.{ends_iterated, inner, iterated, iterated_comma, iterated_tuple, loop_condition, loop_head};
ghost use Rattle.tm_parser.specs.Statements.{more_iterated};
ghost use Rattle.tm_grammar.specs.Combinators.{one_more};
ghost use Rattle.tm_grammar.specs.Meanings.{first_sees};

use crate::tags::take_word;
use std::alloc::Global;
use tm_expressions::{Cursor, boxed, refusal, with_one};
use tm_items::{Boxed, Items};
use tm_syntax::{Expr, Sign, Token};
use tm_values::Error;

/// The head of a loop, after `in`.
#[derive(Drop)]
pub struct LoopHead {
    /// The value that is iterated over.
    pub iterable: Boxed<Expr>,
    /// The condition that selects items.
    pub condition: Option<Boxed<Expr>>,
    /// Whether the loop can be called.
    pub recursive: bool,
}

// Each function parses one rule, with `depth` levels of nesting left. SyntaxError if the tokens
// don't match the rule.

/// The iterable of a loop, its condition, whether it can be called, and the end of its tag, one
/// nesting level deeper.
#[tactic(auto, using(crate::proofs::Nesting::loops))]
#[inline(never)]
pub fn inner_loop_head(cursor: &mut Cursor<'_>, alloc: Global, depth: u8) -> Result<LoopHead, Error>
    ensures { Parses result cursor.new ((inner depth).loop_head.reads cursor.old) }
{
    if depth == 0 {
        return Err(refusal());
    }
    loop_head(cursor, alloc, depth - 1)
}

/// The iterable of a loop, its condition, whether it can be called, and the end of its tag.
#[tactic(auto, unfolding(crate::specs::Statements::loop_head))]
fn loop_head(cursor: &mut Cursor<'_>, alloc: Global, depth: u8) -> Result<LoopHead, Error>
    ensures { Parses result cursor.new ((loop_head (inside depth)).reads cursor.old) }
{
    let iterable = iterated(cursor, alloc, depth)?;
    let condition = loop_condition(cursor, alloc, depth)?;
    let recursive = take_word(cursor, "recursive");
    cursor.expect(Sign::BlockEnd)?;
    Ok(LoopHead {
        iterable,
        condition,
        recursive,
    })
}

/// The condition of a loop, if there is one.
#[tactic(auto, unfolding(crate::specs::Statements::loop_condition))]
fn loop_condition(
    cursor: &mut Cursor<'_>,
    alloc: Global,
    depth: u8,
) -> Result<Option<Boxed<Expr>>, Error>
    ensures { Parses result cursor.new ((loop_condition (inside depth)).reads cursor.old) }
{
    if cursor.take(Sign::If) {
        return Ok(Some(cursor.whole(alloc, depth)?));
    }
    Ok(None)
}

/// A value or a tuple without brackets. An `if` after it belongs to the loop.
#[tactic(auto, unfolding(crate::specs::Statements::iterated))]
fn iterated(cursor: &mut Cursor<'_>, alloc: Global, depth: u8) -> Result<Boxed<Expr>, Error>
    ensures { Parses result cursor.new ((iterated (inside depth)).reads cursor.old) }
{
    let first = cursor.whole(alloc, depth)?;
    if !cursor.is_at_comma() {
        return Ok(first);
    }
    iterated_tuple(cursor, alloc, depth, first)
}

/// A tuple without brackets after its first item, with an optional comma at the end.
#[tactic(auto, unfolding(crate::specs::Statements::iterated_tuple))]
fn iterated_tuple(
    cursor: &mut Cursor<'_>,
    alloc: Global,
    depth: u8,
    first: Boxed<Expr>,
) -> Result<Boxed<Expr>, Error>
    ensures { Parses result cursor.new ((iterated_tuple (inside depth) first).reads cursor.old) }
{
    let items = with_one(Items::new(alloc), first.into_inner())?;
    let items = more_iterated(cursor, alloc, depth, items)?;
    cursor.take(Sign::Comma);
    boxed(alloc, Expr::Tuple(items))
}

/// The other values, each after a comma.
#[tactic(auto, using(crate::proofs::Loops::iterations))]
fn more_iterated(
    cursor: &mut Cursor<'_>,
    alloc: Global,
    depth: u8,
    first: Items<Expr>,
) -> Result<Items<Expr>, Error>
    ensures { Parses result cursor.new ((more_iterated (inside depth) first).reads cursor.old) }
{
    let mut items = first;
    while take_iterated_comma(cursor) {
        items = one_iterated(cursor, alloc, depth, items)?;
    }
    Ok(items)
}

/// A value, pushed on the others.
fn one_iterated(
    cursor: &mut Cursor<'_>,
    alloc: Global,
    depth: u8,
    items: Items<Expr>,
) -> Result<Items<Expr>, Error>
    ensures { Parses result cursor.new
        ((one_more (whole (inside depth)) items).reads cursor.old) }
{
    let value = cursor.whole(alloc, depth)?;
    with_one(items, value.into_inner())
}

/// Takes a comma, unless the end of the iterable follows it.
fn take_iterated_comma(cursor: &mut Cursor<'_>) -> bool
    ensures { TakesSign result cursor.old cursor.new (iterated_comma.sees cursor.old) }
{
    match cursor.rest() {
        [Token::Sign(sign), rest @ ..] if *sign == Sign::Comma && !ends_iterated(rest) => {
            *cursor = Cursor::new(rest);
            true
        }
        _ => false,
    }
}

/// Whether the next token ends the iterable.
fn ends_iterated(rest: &[Token]) -> bool
    ensures { result ≡ is_some (first_sees ends_iterated rest.now) }
{
    match rest {
        [Token::Sign(sign), ..] => match sign {
            Sign::If | Sign::BlockEnd => true,
            _ => false,
        },
        _ => false,
    }
}
