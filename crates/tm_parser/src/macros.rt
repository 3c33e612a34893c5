//! Blocks, macros and calls with a body, which aren't inside the loops around them, and parameters.
ghost use Rattle.std.specs.Prelude.{◌≡◌, [], ◌∷◌, false, IfOk, MatchResult};
ghost use Rattle.tm_expressions.specs.Parses.{Adds, Parses};
ghost use Rattle.tm_parser.specs.Distinct as spec;
ghost use Rattle.tm_expressions.specs.Grammar.{inside, items, more_items};
ghost use Rattle.tm_parser.specs.Statements as statements;
ghost use Rattle.tm_parser.specs.Statements.{block_tag, call_block, call_parameters, call_tag, default_value, inner};
ghost use Rattle.tm_parser.specs.Statements.{macro_tag, named_body, named_end, parameter, parameters};
ghost use Rattle.tm_grammar.specs.Combinators.{one_more};
ghost use Rattle.tm_syntax.specs.Names.{parameter_names};
ghost use Rattle.tm_syntax.specs.declared.token.Sign.TheVariants as sign;
ghost use Rattle.tm_values.specs.declared.error.ErrorKind.TheVariants.{OutOfMemory};

use crate::distinct::are_distinct;
use crate::emissions::is_call;
use crate::statements::{body_after, inner_body};
use crate::tags::{expect_same, expect_tag, take_word};
use std::alloc::{AllocError, Global};
use tm_expressions::{Cursor, add_one, boxed, refusal, with_one};
use tm_items::{Boxed, Items};
use tm_syntax::{Application, CallBlock, Expr, Macro, Name, Parameter, Sign, Step, Stmt, Tag};
use tm_values::Error;

// Each function parses one rule, with `depth` levels of nesting left. SyntaxError if the tokens
// don't match the rule.

/// A block's name, whether another template has to replace it, and its body, up to its end tag.
#[cycle(statements)]
#[tactic(auto, unfolding(crate::specs::Statements::block_tag))]
#[inline(never)]
pub fn block_tag(
    cursor: &mut Cursor<'_>,
    alloc: Global,
    depth: u8,
    body: &mut Items<Stmt>,
) -> Result<(), Error>
    ensures { Adds result body.new cursor.new
        ((one_more (block_tag (inner depth)) body.old).reads cursor.old) }
{
    let name = cursor.expect_name()?;
    let required = take_word(cursor, "required");
    cursor.expect(Sign::BlockEnd)?;
    let inner = named_body(cursor, alloc, depth, Tag::Endblock, &name)?;
    add_one(body, Stmt::Block(name, required, inner))
}

/// A macro's name, parameters and body, up to its end tag.
#[cycle(statements)]
#[tactic(auto, unfolding(crate::specs::Statements::macro_tag))]
#[inline(never)]
pub fn macro_tag(
    cursor: &mut Cursor<'_>,
    alloc: Global,
    depth: u8,
    body: &mut Items<Stmt>,
) -> Result<(), Error>
    ensures { Adds result body.new cursor.new
        ((one_more (macro_tag (inner depth)) body.old).reads cursor.old) }
{
    let name = cursor.expect_name()?;
    cursor.expect(Sign::OpenRound)?;
    let parameters = inner_parameters(cursor, alloc, depth)?;
    cursor.expect(Sign::BlockEnd)?;
    let inner = named_body(cursor, alloc, depth, Tag::Endmacro, &name)?;
    let statement = Stmt::Macro(Macro {
        name,
        parameters,
        body: inner,
    });
    add_one(body, statement)
}

/// The body of a block or a macro with this name, up to its end tag.
#[cycle(statements)]
#[tactic(auto, unfolding(crate::specs::Statements::named_body))]
fn named_body(
    cursor: &mut Cursor<'_>,
    alloc: Global,
    depth: u8,
    end: Tag,
    name: &Name,
) -> Result<Items<Stmt>, Error>
    ensures { Parses result cursor.new ((named_body (inner depth) end name.now).reads cursor.old) }
{
    let body = inner_body(cursor, alloc, depth, false)?;
    expect_named_end(cursor, end, name)?;
    Ok(body)
}

/// Takes this end tag, which may repeat the name.
fn expect_named_end(cursor: &mut Cursor<'_>, end: Tag, name: &Name) -> Result<(), Error>
    ensures { Parses result cursor.new ((named_end end name.now).reads cursor.old) }
{
    expect_tag(cursor, end)?;
    expect_same(cursor, name)?;
    cursor.expect(Sign::BlockEnd)
}

/// The parameters of a call's body, if any, the call and the body, up to its end tag.
#[cycle(statements)]
#[tactic(auto, unfolding(crate::specs::Statements::call_tag))]
#[inline(never)]
pub fn call_tag(
    cursor: &mut Cursor<'_>,
    alloc: Global,
    depth: u8,
    body: &mut Items<Stmt>,
) -> Result<(), Error>
    ensures { Adds result body.new cursor.new
        ((one_more (call_tag (inside depth) (inner depth)) body.old).reads cursor.old) }
{
    let parameters = call_parameters(cursor, alloc, depth)?;
    let call = cursor.inner_expr(alloc, depth)?;
    call_block(cursor, alloc, depth, parameters, call, body)
}

/// The rest of a call tag after its expression. SyntaxError, also if the expression isn't a call.
#[cycle(statements)]
#[tactic(auto, unfolding(crate::specs::Statements::call_block))]
fn call_block(
    cursor: &mut Cursor<'_>,
    alloc: Global,
    depth: u8,
    parameters: Items<Parameter>,
    call: Boxed<Expr>,
    body: &mut Items<Stmt>,
) -> Result<(), Error>
    ensures { Adds result body.new cursor.new
        ((one_more (call_block (inner depth) parameters call) body.old).reads cursor.old) }
{
    if !is_call(call.get()) {
        return Err(refusal());
    }
    let inner = body_after(cursor, alloc, depth, Tag::Endcall, false)?;
    let call = with_caller(alloc, call)?;
    let statement = Stmt::CallBlock(CallBlock {
        call,
        parameters,
        body: inner,
    });
    add_one(body, statement)
}

/// The parameters of a call's body; none without an opening bracket. SyntaxError, also if a
/// parameter has a default.
#[tactic(auto, unfolding(crate::specs::Statements::call_parameters))]
#[inline(never)]
fn call_parameters(
    cursor: &mut Cursor<'_>,
    alloc: Global,
    depth: u8,
) -> Result<Items<Parameter>, Error>
    ensures { Parses result cursor.new ((call_parameters (inner depth)).reads cursor.old) }
{
    if !cursor.take(Sign::OpenRound) {
        return Ok(Items::new(alloc));
    }
    let parameters = inner_parameters(cursor, alloc, depth)?;
    if !have_no_default(parameters.as_slice()) {
        return Err(refusal());
    }
    Ok(parameters)
}

/// Parameters after their opening bracket, one nesting level deeper.
#[tactic(auto, using(crate::proofs::Nesting::macros))]
#[inline(never)]
fn inner_parameters(
    cursor: &mut Cursor<'_>,
    alloc: Global,
    depth: u8,
) -> Result<Items<Parameter>, Error>
    ensures { Parses result cursor.new ((inner depth).parameters.reads cursor.old) }
{
    if depth == 0 {
        return Err(refusal());
    }
    parameters(cursor, alloc, depth - 1)
}

/// Parameters after their opening bracket, and the closing bracket. Their names must differ.
#[tactic(auto, unfolding(crate::specs::Statements::parameters))]
fn parameters(cursor: &mut Cursor<'_>, alloc: Global, depth: u8) -> Result<Items<Parameter>, Error>
    ensures { Parses result cursor.new ((parameters (inside depth)).reads cursor.old) }
{
    cursor.room(depth)?;
    let parameters = listed_parameters(cursor, alloc, depth)?;
    if !has_distinct_names(alloc, parameters.as_slice())? {
        return Err(refusal());
    }
    Ok(parameters)
}

/// Parameters, and the closing bracket.
#[tactic(auto, unfolding(tm_expressions::specs::Grammar::items))]
fn listed_parameters(
    cursor: &mut Cursor<'_>,
    alloc: Global,
    depth: u8,
) -> Result<Items<Parameter>, Error>
    ensures { Parses result cursor.new
        ((items sign.CloseRound (parameter (inside depth)) []).reads cursor.old) }
{
    let parameters = Items::new(alloc);
    if cursor.take(Sign::CloseRound) {
        return Ok(parameters);
    }
    let parameters = one_parameter(cursor, alloc, depth, parameters)?;
    let parameters = more_parameters(cursor, alloc, depth, parameters)?;
    cursor.take(Sign::Comma);
    cursor.expect(Sign::CloseRound)?;
    Ok(parameters)
}

/// The other parameters, each after a comma.
#[tactic(auto, using(tm_expressions::proofs::Loops::commas))]
fn more_parameters(
    cursor: &mut Cursor<'_>,
    alloc: Global,
    depth: u8,
    first: Items<Parameter>,
) -> Result<Items<Parameter>, Error>
    ensures { Parses result cursor.new
        ((more_items sign.CloseRound (parameter (inside depth)) first).reads cursor.old) }
{
    let mut parameters = first;
    while cursor.take_comma(Sign::CloseRound) {
        parameters = one_parameter(cursor, alloc, depth, parameters)?;
    }
    Ok(parameters)
}

/// A parameter, pushed on the others.
fn one_parameter(
    cursor: &mut Cursor<'_>,
    alloc: Global,
    depth: u8,
    parameters: Items<Parameter>,
) -> Result<Items<Parameter>, Error>
    ensures { Parses result cursor.new
        ((one_more (parameter (inside depth)) parameters).reads cursor.old) }
{
    let parameter = parameter(cursor, alloc, depth)?;
    with_one(parameters, parameter)
}

/// The name of a parameter, and its default, if any.
#[tactic(auto, unfolding(crate::specs::Statements::parameter))]
fn parameter(cursor: &mut Cursor<'_>, alloc: Global, depth: u8) -> Result<Parameter, Error>
    ensures { Parses result cursor.new ((parameter (inside depth)).reads cursor.old) }
{
    let name = cursor.expect_name()?;
    let default = default_value(cursor, alloc, depth)?;
    Ok(Parameter { name, default })
}

/// The default of a parameter, if there is one.
#[tactic(auto, unfolding(crate::specs::Statements::default_value))]
fn default_value(
    cursor: &mut Cursor<'_>,
    alloc: Global,
    depth: u8,
) -> Result<Option<Boxed<Expr>>, Error>
    ensures { Parses result cursor.new ((default_value (inside depth)).reads cursor.old) }
{
    if cursor.take(Sign::Assign) {
        return Ok(Some(cursor.inner_expr(alloc, depth)?));
    }
    Ok(None)
}

/// The callee of a call with a body. A block becomes a method of `self`, since it gets `caller` as
/// an argument. OutOfMemory if memory runs out.
fn with_caller(alloc: Global, call: Boxed<Expr>) -> Result<Boxed<Expr>, Error>
    ensures { MatchResult result
        (λ made. made ≡ statements.with_caller call)
        (λ e. e ≡ OutOfMemory ∷ []) }
{
    if let Expr::SelfBlock(name) = call.get() {
        let name = name.share()?;
        return method_of_self(alloc, name);
    }
    Ok(call)
}

/// A call of a method of `self` without arguments. OutOfMemory if memory runs out.
fn method_of_self(alloc: Global, name: Name) -> Result<Boxed<Expr>, Error>
    ensures { MatchResult result
        (λ made. made ≡ statements.method_of_self name)
        (λ e. e ≡ OutOfMemory ∷ []) }
{
    let method = Step::Apply(
        Application::Method,
        name,
        Items::new(alloc),
        Items::new(alloc),
    );
    let steps = with_one(Items::new(alloc), method)?;
    let on = boxed(alloc, Expr::Var(Name::new(alloc, "self")?))?;
    boxed(alloc, Expr::Chain(on, steps))
}

/// Whether no parameter has a default.
fn have_no_default(parameters: &[Parameter]) -> bool
    ensures { result ≡ statements.have_no_default parameters.now }
{
    for parameter in parameters {
        if parameter.default.is_some() {
            return false;
        }
    }
    true
}

/// Whether all parameters have different names. AllocError if memory runs out.
fn has_distinct_names(alloc: Global, parameters: &[Parameter]) -> Result<bool, AllocError>
    ensures { IfOk result
        (λ distinct. distinct ≡ spec.are_distinct (parameter_names parameters.now)) }
{
    let mut names = Vec::new(alloc);
    for parameter in parameters {
        names.push(&parameter.name)?;
    }
    are_distinct(alloc, &names)
}
