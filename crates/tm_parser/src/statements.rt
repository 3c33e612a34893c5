//! Statements.
ghost use Rattle.tm_expressions.specs.Parses.{Adds, Parses};
ghost use Rattle.tm_expressions.specs.Grammar.{inside};
ghost use Rattle.tm_parser.specs.Statements.{autoescape_tag, block_end, body, body_after, captured, do_tag, elif_tag};
ghost use Rattle.tm_parser.specs.Statements.{else_or_end, else_tag, emission, ended_body, extends_tag, filter_tag, for_body, for_tag, if_tag, inner, jump, rest, set_block, set_tag};
ghost use Rattle.tm_parser.specs.Statements.{set_value, statement, tag_statement, with_tag};
ghost use Rattle.tm_grammar.specs.Combinators.{one_more, provided};
ghost use Rattle.tm_trees.specs.Trees.statement_forms.{Break, Continue};

use crate::assignments::{assignments, bare};
use crate::emissions::{add_emission, is_call};
use crate::filters::{more_filters, one_filter};
use crate::imports::{from_tag, import_tag, include_tag};
use crate::loop_heads::{LoopHead, inner_loop_head};
use crate::macros::{block_tag, call_tag, macro_tag};
use crate::tags::{Start, expect_lone, take_start, take_tag};
use crate::targets::{inner_target, target};
use std::alloc::Global;
use tm_expressions::{Cursor, add_one, refusal, with_one};
use tm_items::Items;
use tm_syntax::{AssignmentTarget, CaptureUse, ForLoop, Sign, Step, Stmt, Tag};
use tm_values::Error;

// Each function parses one rule, with `depth` levels of nesting left, and inside a loop if
// `looping`. SyntaxError if the tokens don't match the rule. A statement is large, so it is pushed
// on `body` at once. Functions that parse no nested statements aren't inlined, so that their locals
// take no room in the frames of those that do.

/// Statements one nesting level deeper.
#[cycle(statements)]
#[tactic(auto, using(crate::proofs::Nesting::statements))]
pub fn inner_body(
    cursor: &mut Cursor<'_>,
    alloc: Global,
    depth: u8,
    looping: bool,
) -> Result<Items<Stmt>, Error>
    ensures { Parses result cursor.new (((inner depth).body looping).reads cursor.old) }
{
    if depth == 0 {
        return Err(refusal());
    }
    body(cursor, alloc, depth - 1, looping)
}

/// The rest of an `if` after its body, one nesting level deeper.
#[cycle(statements)]
#[tactic(auto, using(crate::proofs::Nesting::statements))]
fn inner_rest(
    cursor: &mut Cursor<'_>,
    alloc: Global,
    depth: u8,
    looping: bool,
) -> Result<Option<Items<Stmt>>, Error>
    ensures { Parses result cursor.new (((inner depth).rest looping).reads cursor.old) }
{
    if depth == 0 {
        return Err(refusal());
    }
    rest(cursor, alloc, depth - 1, looping)
}

/// An optional else part, up to this end tag, one nesting level deeper.
#[cycle(statements)]
#[tactic(auto, using(crate::proofs::Nesting::statements))]
fn inner_else_or_end(
    cursor: &mut Cursor<'_>,
    alloc: Global,
    depth: u8,
    end: Tag,
    looping: bool,
) -> Result<Option<Items<Stmt>>, Error>
    ensures { Parses result cursor.new (((inner depth).else_or_end end looping).reads cursor.old) }
{
    if depth == 0 {
        return Err(refusal());
    }
    else_or_end(cursor, alloc, depth - 1, end, looping)
}

/// Statements, as long as one begins.
#[cycle(statements)]
pub fn body(
    cursor: &mut Cursor<'_>,
    alloc: Global,
    depth: u8,
    looping: bool,
) -> Result<Items<Stmt>, Error>
    ensures { Parses result cursor.new
        ((body (inside depth) (inner depth) looping).reads cursor.old) }
{
    let mut body = Items::new(alloc);
    while let Some(start) = take_start(cursor)? {
        one_statement(cursor, alloc, depth, looping, start, &mut body)?;
    }
    Ok(body)
}

/// A statement after its start, pushed on `body`. Most are raw texts and emissions, which are
/// pushed directly, since a statement is large.
#[cycle(statements)]
#[inline(always)]
fn one_statement(
    cursor: &mut Cursor<'_>,
    alloc: Global,
    depth: u8,
    looping: bool,
    start: Start,
    body: &mut Items<Stmt>,
) -> Result<(), Error>
    ensures { Adds result body.new cursor.new
        ((one_more (statement (inside depth) (inner depth) looping start) body.old).reads
        cursor.old) }
{
    match start {
        Start::Raw(text) => add_one(body, Stmt::EmitRaw(text)),
        Start::Emit => emission(cursor, alloc, depth, body),
        Start::Tag(tag) => tag_statement(cursor, alloc, depth, looping, tag, body),
    }
}

/// An emission, pushed on `body`.
#[inline(always)]
#[tactic(auto, unfolding(crate::specs::Statements::emission))]
fn emission(
    cursor: &mut Cursor<'_>,
    alloc: Global,
    depth: u8,
    body: &mut Items<Stmt>,
) -> Result<(), Error>
    ensures { Adds result body.new cursor.new
        ((one_more (emission (inside depth)) body.old).reads cursor.old) }
{
    let value = cursor.expr(alloc, depth)?;
    cursor.expect(Sign::VariableEnd)?;
    add_emission(body, value)
}

/// A statement after its tag, pushed on `body`.
#[cycle(statements)]
#[inline(never)]
fn tag_statement(
    cursor: &mut Cursor<'_>,
    alloc: Global,
    depth: u8,
    looping: bool,
    tag: Tag,
    body: &mut Items<Stmt>,
) -> Result<(), Error>
    ensures { Adds result body.new cursor.new
        ((one_more (tag_statement (inside depth) (inner depth) looping tag) body.old).reads
        cursor.old) }
{
    match tag {
        Tag::If => if_tag(cursor, alloc, depth, looping, body),
        Tag::For => for_tag(cursor, alloc, depth, looping, body),
        Tag::Break => break_tag(cursor, looping, body),
        Tag::Continue => continue_tag(cursor, looping, body),
        Tag::Block => block_tag(cursor, alloc, depth, body),
        Tag::Extends => extends_tag(cursor, alloc, depth, body),
        Tag::Set => set_tag(cursor, alloc, depth, looping, body),
        Tag::Filter => filter_tag(cursor, alloc, depth, looping, body),
        Tag::With => with_tag(cursor, alloc, depth, looping, body),
        Tag::Do => do_tag(cursor, alloc, depth, body),
        Tag::Autoescape => autoescape_tag(cursor, alloc, depth, looping, body),
        Tag::Macro => macro_tag(cursor, alloc, depth, body),
        Tag::Call => call_tag(cursor, alloc, depth, body),
        Tag::Include => include_tag(cursor, alloc, depth, body),
        Tag::Import => import_tag(cursor, alloc, depth, body),
        Tag::From => from_tag(cursor, alloc, depth, body),
        _ => Err(refusal()),
    }
}

/// The condition of an `if`, its body, and the rest up to its end tag.
#[cycle(statements)]
#[tactic(auto, unfolding(crate::specs::Statements::if_tag))]
#[inline(never)]
fn if_tag(
    cursor: &mut Cursor<'_>,
    alloc: Global,
    depth: u8,
    looping: bool,
    body: &mut Items<Stmt>,
) -> Result<(), Error>
    ensures { Adds result body.new cursor.new
        ((one_more (if_tag (inside depth) (inner depth) looping) body.old).reads cursor.old) }
{
    let condition = cursor.inner_expr(alloc, depth)?;
    cursor.expect(Sign::BlockEnd)?;
    let inner = inner_body(cursor, alloc, depth, looping)?;
    let other = inner_rest(cursor, alloc, depth, looping)?;
    add_one(body, Stmt::If(condition, inner, other))
}

/// The rest of an `if` after its body, up to its end tag: an optional else part.
#[cycle(statements)]
#[tactic(auto, unfolding(crate::specs::Statements::rest))]
fn rest(
    cursor: &mut Cursor<'_>,
    alloc: Global,
    depth: u8,
    looping: bool,
) -> Result<Option<Items<Stmt>>, Error>
    ensures { Parses result cursor.new
        ((rest (inside depth) (inner depth) looping).reads cursor.old) }
{
    if take_tag(cursor, Tag::Elif) {
        return elif_tag(cursor, alloc, depth, looping);
    }
    else_or_end(cursor, alloc, depth, Tag::Endif, looping)
}

/// An else part that is an `elif`.
#[cycle(statements)]
#[tactic(auto, unfolding(crate::specs::Statements::elif_tag))]
fn elif_tag(
    cursor: &mut Cursor<'_>,
    alloc: Global,
    depth: u8,
    looping: bool,
) -> Result<Option<Items<Stmt>>, Error>
    ensures { Parses result cursor.new
        ((elif_tag (inside depth) (inner depth) looping).reads cursor.old) }
{
    let condition = cursor.expr(alloc, depth)?;
    cursor.expect(Sign::BlockEnd)?;
    let body = inner_body(cursor, alloc, depth, looping)?;
    let other = inner_rest(cursor, alloc, depth, looping)?;
    let part = with_one(Items::new(alloc), Stmt::If(condition, body, other))?;
    Ok(Some(part))
}

/// An optional else part, and this end tag.
#[cycle(statements)]
#[tactic(auto, unfolding(crate::specs::Statements::else_or_end))]
fn else_or_end(
    cursor: &mut Cursor<'_>,
    alloc: Global,
    depth: u8,
    end: Tag,
    looping: bool,
) -> Result<Option<Items<Stmt>>, Error>
    ensures { Parses result cursor.new ((else_or_end (inner depth) end looping).reads cursor.old) }
{
    if take_tag(cursor, Tag::Else) {
        return else_tag(cursor, alloc, depth, end, looping);
    }
    expect_lone(cursor, end)?;
    Ok(None)
}

/// An else part, which may be empty, and this end tag.
#[cycle(statements)]
#[tactic(auto, unfolding(crate::specs::Statements::else_tag))]
fn else_tag(
    cursor: &mut Cursor<'_>,
    alloc: Global,
    depth: u8,
    end: Tag,
    looping: bool,
) -> Result<Option<Items<Stmt>>, Error>
    ensures { Parses result cursor.new ((else_tag (inner depth) end looping).reads cursor.old) }
{
    let body = body_after(cursor, alloc, depth, end, looping)?;
    Ok(Some(body))
}

/// The end of a tag, a body and this end tag.
#[cycle(statements)]
#[tactic(auto, unfolding(crate::specs::Statements::body_after))]
pub fn body_after(
    cursor: &mut Cursor<'_>,
    alloc: Global,
    depth: u8,
    end: Tag,
    looping: bool,
) -> Result<Items<Stmt>, Error>
    ensures { Parses result cursor.new ((body_after (inner depth) end looping).reads cursor.old) }
{
    cursor.expect(Sign::BlockEnd)?;
    ended_body(cursor, alloc, depth, end, looping)
}

/// A body and this end tag.
#[cycle(statements)]
#[tactic(auto, unfolding(crate::specs::Statements::ended_body))]
fn ended_body(
    cursor: &mut Cursor<'_>,
    alloc: Global,
    depth: u8,
    end: Tag,
    looping: bool,
) -> Result<Items<Stmt>, Error>
    ensures { Parses result cursor.new ((ended_body (inner depth) end looping).reads cursor.old) }
{
    let body = inner_body(cursor, alloc, depth, looping)?;
    expect_lone(cursor, end)?;
    Ok(body)
}

/// The target of a `for`, its head, its body, and the rest up to its end tag.
#[cycle(statements)]
#[tactic(auto, unfolding(crate::specs::Statements::for_tag))]
#[inline(never)]
fn for_tag(
    cursor: &mut Cursor<'_>,
    alloc: Global,
    depth: u8,
    looping: bool,
    body: &mut Items<Stmt>,
) -> Result<(), Error>
    ensures { Adds result body.new cursor.new
        ((one_more (for_tag (inside depth) (inner depth) looping) body.old).reads cursor.old) }
{
    let target = inner_target(cursor, alloc, depth)?;
    cursor.expect(Sign::In)?;
    let head = inner_loop_head(cursor, alloc, depth)?;
    for_body(cursor, alloc, depth, looping, target, head, body)
}

/// The body of a `for`, and the rest up to its end tag. The else part isn't inside the loop.
#[cycle(statements)]
#[tactic(auto, unfolding(crate::specs::Statements::for_body))]
fn for_body(
    cursor: &mut Cursor<'_>,
    alloc: Global,
    depth: u8,
    looping: bool,
    target: AssignmentTarget,
    head: LoopHead,
    body: &mut Items<Stmt>,
) -> Result<(), Error>
    ensures { Adds result body.new cursor.new
        ((one_more (for_body (inner depth) looping target head) body.old).reads cursor.old) }
{
    let inner = inner_body(cursor, alloc, depth, true)?;
    let other = inner_else_or_end(cursor, alloc, depth, Tag::Endfor, looping)?;
    let statement = Stmt::For(ForLoop {
        target,
        iterable: head.iterable,
        condition: head.condition,
        recursive: head.recursive,
        body: inner,
        other,
    });
    add_one(body, statement)
}

/// The end of a `break`.
#[tactic(auto, unfolding(crate::specs::Statements::jump))]
fn break_tag(cursor: &mut Cursor<'_>, looping: bool, body: &mut Items<Stmt>) -> Result<(), Error>
    ensures { Adds result body.new cursor.new
        ((one_more (jump looping Break) body.old).reads cursor.old) }
{
    jump(cursor, looping)?;
    add_one(body, Stmt::Break)
}

/// The end of a `continue`.
#[tactic(auto, unfolding(crate::specs::Statements::jump))]
fn continue_tag(cursor: &mut Cursor<'_>, looping: bool, body: &mut Items<Stmt>) -> Result<(), Error>
    ensures { Adds result body.new cursor.new
        ((one_more (jump looping Continue) body.old).reads cursor.old) }
{
    jump(cursor, looping)?;
    add_one(body, Stmt::Continue)
}

/// The end of a tag of one word that is allowed only inside a loop.
fn jump(cursor: &mut Cursor<'_>, looping: bool) -> Result<(), Error>
    ensures { Parses result cursor.new ((provided looping block_end).reads cursor.old) }
{
    if !looping {
        return Err(refusal());
    }
    cursor.expect(Sign::BlockEnd)
}

/// The target of a `set`, and its value or its body.
#[cycle(statements)]
#[tactic(auto, unfolding(crate::specs::Statements::set_tag))]
#[inline(never)]
fn set_tag(
    cursor: &mut Cursor<'_>,
    alloc: Global,
    depth: u8,
    looping: bool,
    body: &mut Items<Stmt>,
) -> Result<(), Error>
    ensures { Adds result body.new cursor.new
        ((one_more (set_tag (inside depth) (inner depth) looping) body.old).reads cursor.old) }
{
    let target = target(cursor, alloc, depth)?;
    if cursor.take(Sign::Assign) {
        return set_value(cursor, alloc, depth, target, body);
    }
    set_block(cursor, alloc, depth, looping, target, body)
}

/// The value of a `set` after its `=`, and its end.
#[tactic(auto, unfolding(crate::specs::Statements::set_value))]
#[inline(never)]
fn set_value(
    cursor: &mut Cursor<'_>,
    alloc: Global,
    depth: u8,
    target: AssignmentTarget,
    body: &mut Items<Stmt>,
) -> Result<(), Error>
    ensures { Adds result body.new cursor.new
        ((one_more (set_value (inside depth) target) body.old).reads cursor.old) }
{
    let value = bare(cursor, alloc, depth)?;
    add_one(body, Stmt::Set(target, value))
}

/// The filters and the body of a `set` without `=`, up to its end tag.
#[cycle(statements)]
#[tactic(auto, unfolding(crate::specs::Statements::set_block))]
fn set_block(
    cursor: &mut Cursor<'_>,
    alloc: Global,
    depth: u8,
    looping: bool,
    target: AssignmentTarget,
    body: &mut Items<Stmt>,
) -> Result<(), Error>
    ensures { Adds result body.new cursor.new
        ((one_more (set_block (inside depth) (inner depth) looping target) body.old).reads
        cursor.old) }
{
    let filters = more_filters(cursor, alloc, depth, Items::new(alloc))?;
    let becomes = CaptureUse::Assign(target);
    captured(
        cursor,
        alloc,
        depth,
        Tag::Endset,
        looping,
        becomes,
        filters,
        body,
    )
}

/// The end of a tag, a body whose text is filtered and used, and this end tag.
#[cycle(statements)]
#[tactic(auto, unfolding(crate::specs::Statements::captured))]
#[inline(always)]
fn captured(
    cursor: &mut Cursor<'_>,
    alloc: Global,
    depth: u8,
    end: Tag,
    looping: bool,
    becomes: CaptureUse,
    filters: Items<Step>,
    body: &mut Items<Stmt>,
) -> Result<(), Error>
    ensures { Adds result body.new cursor.new
        ((one_more (captured (inner depth) end looping becomes filters) body.old).reads
        cursor.old) }
{
    let inner = body_after(cursor, alloc, depth, end, looping)?;
    add_one(body, Stmt::CaptureBlock(becomes, filters, inner))
}

/// The filters of a `filter` and its body, up to its end tag.
#[cycle(statements)]
#[tactic(auto, unfolding(crate::specs::Statements::filter_tag))]
#[inline(never)]
fn filter_tag(
    cursor: &mut Cursor<'_>,
    alloc: Global,
    depth: u8,
    looping: bool,
    body: &mut Items<Stmt>,
) -> Result<(), Error>
    ensures { Adds result body.new cursor.new
        ((one_more (filter_tag (inside depth) (inner depth) looping) body.old).reads cursor.old) }
{
    let mut first = Items::new(alloc);
    one_filter(cursor, alloc, depth, &mut first)?;
    let filters = more_filters(cursor, alloc, depth, first)?;
    captured(
        cursor,
        alloc,
        depth,
        Tag::Endfilter,
        looping,
        CaptureUse::Emit,
        filters,
        body,
    )
}

/// The assignments of a `with` and its body, up to its end tag.
#[cycle(statements)]
#[tactic(auto, unfolding(crate::specs::Statements::with_tag))]
#[inline(never)]
fn with_tag(
    cursor: &mut Cursor<'_>,
    alloc: Global,
    depth: u8,
    looping: bool,
    body: &mut Items<Stmt>,
) -> Result<(), Error>
    ensures { Adds result body.new cursor.new
        ((one_more (with_tag (inside depth) (inner depth) looping) body.old).reads cursor.old) }
{
    let given = assignments(cursor, alloc, depth)?;
    let inner = ended_body(cursor, alloc, depth, Tag::Endwith, looping)?;
    add_one(body, Stmt::With(given, inner))
}

/// The escape of an `autoescape` and its body, up to its end tag.
#[cycle(statements)]
#[tactic(auto, unfolding(crate::specs::Statements::autoescape_tag))]
#[inline(never)]
fn autoescape_tag(
    cursor: &mut Cursor<'_>,
    alloc: Global,
    depth: u8,
    looping: bool,
    body: &mut Items<Stmt>,
) -> Result<(), Error>
    ensures { Adds result body.new cursor.new
        ((one_more (autoescape_tag (inside depth) (inner depth) looping) body.old).reads
        cursor.old) }
{
    let value = cursor.inner_expr(alloc, depth)?;
    let inner = body_after(cursor, alloc, depth, Tag::Endautoescape, looping)?;
    add_one(body, Stmt::AutoEscape(value, inner))
}

/// The parent of an `extends`, and its end.
#[tactic(auto, unfolding(crate::specs::Statements::extends_tag))]
#[inline(never)]
fn extends_tag(
    cursor: &mut Cursor<'_>,
    alloc: Global,
    depth: u8,
    body: &mut Items<Stmt>,
) -> Result<(), Error>
    ensures { Adds result body.new cursor.new
        ((one_more (extends_tag (inside depth)) body.old).reads cursor.old) }
{
    let parent = cursor.expr(alloc, depth)?;
    cursor.expect(Sign::BlockEnd)?;
    add_one(body, Stmt::Extends(parent))
}

/// The call of a `do`, and its end.
#[tactic(auto, unfolding(crate::specs::Statements::do_tag))]
#[inline(never)]
fn do_tag(
    cursor: &mut Cursor<'_>,
    alloc: Global,
    depth: u8,
    body: &mut Items<Stmt>,
) -> Result<(), Error>
    ensures { Adds result body.new cursor.new
        ((one_more (do_tag (inside depth)) body.old).reads cursor.old) }
{
    let call = cursor.expr(alloc, depth)?;
    if !is_call(call.get()) {
        return Err(refusal());
    }
    cursor.expect(Sign::BlockEnd)?;
    add_one(body, Stmt::Do(call))
}
