//! Scanning the source of an expression.
ghost use Rattle.std.specs.Prelude.{◌≡◌, ℕ, List, IfOk, IfErr};
ghost use Rattle.tm_scanner.specs.Spells as spec;
ghost use Rattle.tm_syntax.specs.declared.token.Token as declared;
ghost use Rattle.tm_values.specs.Answer.{Refused};

use crate::name_pool::NamePool;
use crate::tokens::token;
use std::alloc::Global;
use tm_delimiters::front::past_blanks;
use tm_syntax::Token;
use tm_values::Error;

/// The tokens of an expression's source. SyntaxError if it can't be split into tokens. OutOfMemory
/// if memory runs out.
pub fn scan_expr(alloc: Global, source: &str) -> Result<Vec<Token>, Error>
    ensures found { IfOk result (λ tokens. spec.SpellsParts source.now tokens.items) }
    ensures refused { IfErr result (λ e. Refused e ((ts : List declared.Token) →
        spec.SpellsParts source.now ts → ⊥)) }
{
    let mut names = NamePool::new(alloc);
    let mut tokens = Vec::new(alloc);
    let mut rest = past_blanks(source);
    while !rest.is_empty() {
        let (token, after) = token(alloc, &mut names, rest, rest, "")?;
        tokens.push(token)?;
        rest = past_blanks(after);
    }
    Ok(tokens)
}

/// The source of an expression has at most one list of tokens.
pub fn one_parts()
    ensures { (source : List ℕ) (ts us : List declared.Token) →
        spec.SpellsParts source ts → spec.SpellsParts source us → ts ≡ us }
{}
