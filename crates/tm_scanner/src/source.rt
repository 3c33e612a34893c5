//! Scanning the source of a template.
ghost use Rattle.std.specs.Prelude.{◌≡◌, ℕ, List, IfOk, IfErr};
ghost use Rattle.std.specs.Rc.{rc_str_bytes};
ghost use Rattle.tm_values.specs.Answer.{Refused};
ghost use Rattle.tm_scanner.specs.Spells as spec;
ghost use Rattle.tm_delimiters.specs.Syntax.{Syntax};
ghost use Rattle.tm_syntax.specs.declared.token.Token as declared;

use crate::name_pool::NamePool;
use crate::pieces::{raw, tag};
use crate::shared_source::SharedSource;
use std::alloc::Global;
use std::rc::RcStr;
use tm_delimiters::{Side, SyntaxConfig, next_tag, trimmed};
use tm_syntax::Token;
use tm_values::Error;

/// The usual minimal number of source bytes for a token.
const BYTES_PER_TOKEN: usize = 3;

/// The maximal number of tokens that space is reserved for at the start.
const MOST_ROOM: usize = 4096;

/// The source without one newline at its end.
fn without_final_newline(source: &str) -> &str
    ensures { result.now ≡ spec.without_final_newline source.now }
{
    if let Some(text) = source.strip_suffix("\r\n") {
        return text;
    }
    match source.strip_suffix("\n") {
        Some(text) => text,
        None => source,
    }
}

/// The part of the source that is read.
fn read_of<'s>(syntax: &SyntaxConfig, source: &'s str) -> &'s str
    ensures { result.now ≡ spec.read_of syntax.now source.now }
{
    if syntax.keeps_newline() {
        source
    } else {
        without_final_newline(source)
    }
}

/// The tokens of a source. SyntaxError if it can't be split into tokens. OutOfMemory if memory runs
/// out.
pub fn scan(alloc: Global, syntax: &SyntaxConfig, source: &RcStr) -> Result<Vec<Token>, Error>
    ensures found { IfOk result
        (λ tokens. spec.SpellsTokens syntax.now (rc_str_bytes source.now) tokens.items) }
    ensures refused { IfErr result (λ e. Refused e ((ts : List declared.Token) →
        spec.SpellsTokens syntax.now (rc_str_bytes source.now) ts → ⊥)) }
{
    syntax.note_usable();
    let mut names = NamePool::new(alloc);
    let mut before = None;
    let mut rest = read_of(syntax, source.as_str());
    let room = MOST_ROOM.min(rest.len() / BYTES_PER_TOKEN);
    let mut tokens = Vec::with_capacity(alloc, room)?;
    let shared = SharedSource::new(source, rest);
    while let Some((text, start, after)) = next_tag(syntax, rest) {
        let part = trimmed(syntax, before, Some(start), shared.part(rest, text));
        raw(alloc, &shared, part, &mut tokens)?;
        let (whitespace, left) = tag(
            alloc,
            &mut names,
            syntax,
            &shared,
            start.kind,
            after,
            &mut tokens,
        )?;
        before = Some(Side {
            kind: start.kind,
            whitespace,
        });
        rest = left;
    }
    let part = trimmed(syntax, before, None, shared.part(rest, rest));
    raw(alloc, &shared, part, &mut tokens)?;
    Ok(tokens)
}

/// A source has at most one list of tokens.
pub fn one_list()
    ensures { (s : Syntax) (source : List ℕ) (ts us : List declared.Token) →
        spec.SpellsTokens s source ts → spec.SpellsTokens s source us → ts ≡ us }
{}
