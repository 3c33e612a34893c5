//! Parsing a source into a tree.
ghost use Rattle.std.specs.Prelude.{◌≡◌, ℕ, List, IfOk, IfErr};
ghost use Rattle.std.specs.Rc.{rc_str_bytes};
ghost use Rattle.tm_compiler.specs.Spells.{Spells, SpellsExpr, SpellsNoExpr, SpellsNone};
ghost use Rattle.tm_values.specs.Answer.{Refused};
ghost use Rattle.tm_delimiters.specs.Syntax.{Syntax};
ghost use Rattle.tm_trees.specs.Trees.{Tree as Meant};

use std::alloc::Global;
use std::rc::RcStr;
use tm_parser::{parse_expr_tokens, parse_tokens};
use tm_scanner::{SyntaxConfig, scan, scan_expr};
use tm_syntax::Tree;
use tm_values::Error;

/// Parses a template. The raw texts of its tree share the source. SyntaxError if the source isn't a
/// valid template. OutOfMemory if memory runs out.
pub fn parse(alloc: Global, source: &RcStr, syntax: &SyntaxConfig) -> Result<Tree, Error>
    ensures found { IfOk result (Spells syntax.now (rc_str_bytes source.now)) }
    ensures refused { IfErr result
        (λ e. Refused e (SpellsNone syntax.now (rc_str_bytes source.now))) }
{
    let tokens = scan(alloc, syntax, source)?;
    parse_tokens(alloc, &tokens)
}

/// Parses an expression, without delimiters. SyntaxError if the source isn't a valid expression.
/// OutOfMemory if memory runs out.
pub fn parse_expr(alloc: Global, source: &str) -> Result<Tree, Error>
    ensures found { IfOk result (SpellsExpr source.now) }
    ensures refused { IfErr result (λ e. Refused e (SpellsNoExpr source.now)) }
{
    let tokens = scan_expr(alloc, source)?;
    parse_expr_tokens(alloc, &tokens)
}

/// A source has at most one tree as a template.
pub fn one_tree()
    ensures { (syntax : Syntax) (source : List ℕ) (a b : Meant) →
        Spells syntax source a → Spells syntax source b → a ≡ b }
{
    tm_parser::one_tree();
}

/// A source has at most one tree as an expression.
pub fn one_expr()
    ensures { (source : List ℕ) (a b : Meant) →
        SpellsExpr source a → SpellsExpr source b → a ≡ b }
{
    tm_scanner::one_parts();
    tm_parser::one_expr();
}
