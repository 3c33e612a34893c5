//! Whole templates and whole expressions.
ghost use Rattle.std.specs.Prelude.{◌≡◌, List, IfOk, IfErr};
ghost use Rattle.tm_values.specs.Answer.{Refused};
ghost use Rattle.tm_parser.specs.Template.{SpellsExpression, SpellsNoExpression, SpellsNoTemplate, SpellsTemplate};
ghost use Rattle.tm_syntax.specs.declared.token.Token.{Token};
ghost use Rattle.tm_trees.specs.Trees.{Tree};

use crate::blocks::has_distinct_blocks;
use crate::statements::body;
use std::alloc::Global;
use tm_expressions::{Cursor, refusal};
use tm_syntax::{Token, Tree};
use tm_values::Error;

/// How many brackets, prefixes, else parts and tags may be open at once.
const NESTINGS: u8 = 150;

/// Parses the tokens of a template. SyntaxError if they aren't one. OutOfMemory if memory runs out.
pub fn parse_tokens(alloc: Global, tokens: &[Token]) -> Result<Tree, Error>
    ensures found { IfOk result (SpellsTemplate tokens.now) }
    ensures refused { IfErr result (λ e. Refused e (SpellsNoTemplate tokens.now)) }
{
    let mut cursor = Cursor::new(tokens);
    let statements = body(&mut cursor, alloc, NESTINGS, false)?;
    if !cursor.is_done() {
        return Err(refusal());
    }
    if !has_distinct_blocks(alloc, statements.as_slice())? {
        return Err(refusal());
    }
    Ok(Tree::Statements(statements))
}

/// Parses the tokens of an expression. SyntaxError if they aren't one. OutOfMemory if memory runs
/// out.
pub fn parse_expr_tokens(alloc: Global, tokens: &[Token]) -> Result<Tree, Error>
    ensures found { IfOk result (SpellsExpression tokens.now) }
    ensures refused { IfErr result (λ e. Refused e (SpellsNoExpression tokens.now)) }
{
    let mut cursor = Cursor::new(tokens);
    let expr = cursor.expr(alloc, NESTINGS)?;
    if cursor.is_done() {
        Ok(Tree::Expression(expr))
    } else {
        Err(refusal())
    }
}

/// Tokens have at most one tree as a template.
pub fn one_tree()
    ensures { (tokens : List Token) (a b : Tree) →
        SpellsTemplate tokens a → SpellsTemplate tokens b → a ≡ b }
{}

/// Tokens have at most one tree as an expression.
pub fn one_expr()
    ensures { (tokens : List Token) (a b : Tree) →
        SpellsExpression tokens a → SpellsExpression tokens b → a ≡ b }
{}
