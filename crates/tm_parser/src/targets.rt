//! The targets of assignments and loops.
ghost use Rattle.std.specs.Prelude.{◌≡◌, [], IfSome, MatchResult, None, Some, is_some};
ghost use Rattle.tm_expressions.specs.Parses.{Parses, TakesFirst, TakesSign};
ghost use Rattle.tm_values.specs.Answer.{Refused};
ghost use Rattle.tm_expressions.specs.Grammar as grammar;
ghost use Rattle.tm_expressions.specs.Grammar.{inside, member, more_targets, several, single, target, target_comma};
ghost use Rattle.tm_expressions.specs.Grammar.{target_steps_from};
ghost use Rattle.tm_expressions.specs.Tokens as tokens;
ghost use Rattle.tm_expressions.specs.Tokens.{a_target_link, ends_target};
ghost use Rattle.tm_expressions.specs.Waiting.{role_of};
ghost use Rattle.tm_grammar.specs.Combinators.{one_more};
ghost use Rattle.tm_grammar.specs.Meanings.{first_sees};

use std::alloc::Global;
use tm_expressions::{Cursor, Link, POSTFIX_LEVEL, chained, refusal, with_one};
use tm_items::{Boxed, Items};
use tm_syntax::{AssignmentTarget, Expr, Name, Sign, Step, Token};
use tm_values::Error;

// Each function parses one rule, with `depth` levels of nesting left. SyntaxError if the tokens
// don't match the rule.

/// A target one nesting level deeper.
#[cycle(targets)]
#[tactic(auto, using(crate::proofs::Nesting::targets))]
#[inline(never)]
pub fn inner_target(
    cursor: &mut Cursor<'_>,
    alloc: Global,
    depth: u8,
) -> Result<AssignmentTarget, Error>
    ensures { Parses result cursor.new ((inside depth).target.reads cursor.old) }
{
    if depth == 0 {
        return Err(refusal());
    }
    target(cursor, alloc, depth - 1)
}

/// One target, or several separated by commas.
#[cycle(targets)]
#[tactic(auto, unfolding(tm_expressions::specs::Grammar::target))]
#[inline(never)]
pub fn target(cursor: &mut Cursor<'_>, alloc: Global, depth: u8) -> Result<AssignmentTarget, Error>
    ensures { Parses result cursor.new ((target (inside depth)).reads cursor.old) }
{
    let first = single(cursor, alloc, depth)?;
    if !cursor.is_at_comma() {
        return Ok(first);
    }
    several(cursor, alloc, depth, first)
}

/// Several targets after the first one, with an optional comma at the end.
#[cycle(targets)]
#[tactic(auto, unfolding(tm_expressions::specs::Grammar::several))]
fn several(
    cursor: &mut Cursor<'_>,
    alloc: Global,
    depth: u8,
    first: AssignmentTarget,
) -> Result<AssignmentTarget, Error>
    ensures { Parses result cursor.new ((several (inside depth) first).reads cursor.old) }
{
    let targets = with_one(Items::new(alloc), first)?;
    let targets = more_targets(cursor, alloc, depth, targets)?;
    cursor.take(Sign::Comma);
    Ok(AssignmentTarget::Unpack(targets))
}

/// The other targets, each after a comma.
#[cycle(targets)]
#[tactic(auto, using(crate::proofs::Loops::target_commas))]
fn more_targets(
    cursor: &mut Cursor<'_>,
    alloc: Global,
    depth: u8,
    first: Items<AssignmentTarget>,
) -> Result<Items<AssignmentTarget>, Error>
    ensures { Parses result cursor.new ((more_targets (inside depth) first).reads cursor.old) }
{
    let mut targets = first;
    while take_target_comma(cursor) {
        targets = one_target(cursor, alloc, depth, targets)?;
    }
    Ok(targets)
}

/// A target, pushed on the others.
#[cycle(targets)]
fn one_target(
    cursor: &mut Cursor<'_>,
    alloc: Global,
    depth: u8,
    targets: Items<AssignmentTarget>,
) -> Result<Items<AssignmentTarget>, Error>
    ensures { Parses result cursor.new
        ((one_more (single (inside depth)) targets).reads cursor.old) }
{
    let target = single(cursor, alloc, depth)?;
    with_one(targets, target)
}

/// A target without commas outside of brackets.
#[cycle(targets)]
#[tactic(auto, unfolding(tm_expressions::specs::Grammar::single))]
fn single(cursor: &mut Cursor<'_>, alloc: Global, depth: u8) -> Result<AssignmentTarget, Error>
    ensures { Parses result cursor.new ((single (inside depth)).reads cursor.old) }
{
    if !cursor.take(Sign::OpenRound) {
        return member(cursor, alloc, depth);
    }
    let target = inner_target(cursor, alloc, depth)?;
    cursor.expect(Sign::CloseRound)?;
    Ok(target)
}

/// A name or an attribute.
#[tactic(auto, unfolding(tm_expressions::specs::Grammar::member))]
fn member(cursor: &mut Cursor<'_>, alloc: Global, depth: u8) -> Result<AssignmentTarget, Error>
    ensures { Parses result cursor.new ((member (inside depth)).reads cursor.old) }
{
    let value = cursor.operand(alloc, depth, POSTFIX_LEVEL)?;
    let steps = target_steps(cursor, alloc, depth)?;
    target_of(alloc, value, steps)
}

/// As many steps of a target as there are.
fn target_steps(cursor: &mut Cursor<'_>, alloc: Global, depth: u8) -> Result<Items<Step>, Error>
    ensures { Parses result cursor.new ((target_steps_from (inside depth) []).reads cursor.old) }
{
    let mut steps = Items::new(alloc);
    while let Some(link) = take_target_link(cursor) {
        cursor.one_step(alloc, depth, link, &mut steps)?;
    }
    Ok(steps)
}

/// Takes a sign that continues a target.
fn take_target_link(cursor: &mut Cursor<'_>) -> Option<Link>
    ensures first { TakesFirst result cursor.old cursor.new (first_sees a_target_link cursor.old) }
    ensures operator { IfSome result (λ link. role_of link ≡ None) }
{
    match cursor.rest() {
        [Token::Sign(sign), rest @ ..] => match target_link(*sign) {
            Some(link) => {
                *cursor = Cursor::new(rest);
                Some(link)
            }
            None => None,
        },
        _ => None,
    }
}

/// Takes a comma, unless the end of the target follows it.
fn take_target_comma(cursor: &mut Cursor<'_>) -> bool
    ensures { TakesSign result cursor.old cursor.new (target_comma.sees cursor.old) }
{
    match cursor.rest() {
        [Token::Sign(sign), rest @ ..] if *sign == Sign::Comma && !ends_target(rest) => {
            *cursor = Cursor::new(rest);
            true
        }
        _ => false,
    }
}

/// Whether the next token ends a target.
fn ends_target(rest: &[Token]) -> bool
    ensures { result ≡ is_some (first_sees ends_target rest.now) }
{
    match rest {
        [Token::Sign(sign), ..] => match sign {
            Sign::Assign | Sign::In | Sign::CloseRound | Sign::BlockEnd | Sign::Bar => true,
            _ => false,
        },
        _ => false,
    }
}

/// How a sign continues a target. A bar ends one.
fn target_link(sign: Sign) -> Option<Link>
    ensures at { result ≡ tokens.target_link sign }
    ensures operator { IfSome result (λ link. role_of link ≡ None) }
{
    match sign {
        Sign::Dot => Some(Link::Member),
        Sign::OpenSquare => Some(Link::Item),
        Sign::OpenRound => Some(Link::Call),
        Sign::Is => Some(Link::Test),
        _ => None,
    }
}

/// A value and its steps as a target. SyntaxError if they aren't one; OutOfMemory.
#[tactic(auto, using(crate::proofs::Nesting::members))]
fn target_of(
    alloc: Global,
    value: Boxed<Expr>,
    steps: Items<Step>,
) -> Result<AssignmentTarget, Error>
    ensures { MatchResult result
        (λ target. grammar.target_of value steps ≡ Some target)
        (λ e. Refused e (grammar.target_of value steps ≡ None)) }
{
    let mut steps = steps;
    let Some(last) = steps.pop() else {
        return lone_target(value.get());
    };
    let Some(name) = attribute_name(last) else {
        return Err(refusal());
    };
    Ok(AssignmentTarget::Attribute(chained(alloc, value, steps)?, name))
}

/// A value as a target. SyntaxError if it isn't one; OutOfMemory.
fn lone_target(value: &Expr) -> Result<AssignmentTarget, Error>
    ensures { MatchResult result
        (λ target. grammar.lone_target value.now ≡ Some target)
        (λ e. Refused e (grammar.lone_target value.now ≡ None)) }
{
    match value {
        Expr::Var(name) => Ok(AssignmentTarget::Name(name.share()?)),
        Expr::Const(_)
        | Expr::List(_)
        | Expr::Tuple(_)
        | Expr::Map(_)
        | Expr::Call(_, _, _)
        | Expr::SelfBlock(_)
        | Expr::Unary(_, _)
        | Expr::Chain(_, _)
        | Expr::Conditional(_, _) => Err(refusal()),
    }
}

/// The name of an attribute; None for another step.
fn attribute_name(step: Step) -> Option<Name>
    ensures { result ≡ grammar.attribute_name step }
{
    match step {
        Step::Attribute(name) => Some(name),
        _ => None,
    }
}
