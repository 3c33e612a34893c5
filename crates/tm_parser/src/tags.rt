//! The parts of statements that aren't expressions: starts, tags and words.
ghost use Rattle.std.specs.Prelude.{◌≡◌, ◌∷◌, [], MatchResult};
ghost use Rattle.tm_expressions.specs.Parses.{Parses, TakesFirst, TakesSign};
ghost use Rattle.tm_parser.specs.Statements as statements;
ghost use Rattle.tm_parser.specs.Statements.{a_start, is_tag, is_word, lone, same_name};
ghost use Rattle.tm_grammar.specs.Combinators.{token};
ghost use Rattle.tm_grammar.specs.Meanings.{first_sees};

use tm_expressions::{Cursor, refusal};
use tm_syntax::{Name, RawText, Sign, Tag, Token};
use tm_values::{Error, ErrorKind};

/// The start of a statement.
#[derive(Drop)]
pub enum Start {
    /// A raw text, which is a whole statement.
    Raw(RawText),
    /// The start of an emission.
    Emit,
    /// A tag that begins a statement.
    Tag(Tag),
}

/// Whether the tag begins a statement. The other tags continue or end one.
fn begins_statement(tag: Tag) -> bool
    ensures { result ≡ statements.begins_statement tag }
{
    match tag {
        Tag::Elif
        | Tag::Else
        | Tag::Endif
        | Tag::Endfor
        | Tag::Endblock
        | Tag::Endset
        | Tag::Endfilter
        | Tag::Endwith
        | Tag::Endautoescape
        | Tag::Endmacro
        | Tag::Endcall => false,
        _ => true,
    }
}

/// Takes the start of a statement. OutOfMemory if a raw text can't have a second owner.
pub fn take_start(cursor: &mut Cursor<'_>) -> Result<Option<Start>, Error>
    ensures { MatchResult result
        (λ start. TakesFirst start cursor.old cursor.new (first_sees a_start cursor.old))
        (λ e. e ≡ ErrorKind.OutOfMemory ∷ []) }
{
    let rest = cursor.rest();
    let start = match rest {
        [Token::Raw(text), ..] => Start::Raw(text.share()?),
        [Token::Sign(sign), ..] => match sign {
            Sign::VariableStart => Start::Emit,
            _ => return Ok(None),
        },
        [Token::Tag(tag), ..] if begins_statement(*tag) => Start::Tag(*tag),
        _ => return Ok(None),
    };
    *cursor = Cursor::new(&rest[1..]);
    Ok(Some(start))
}

/// Takes this tag, if it comes next.
pub fn take_tag(cursor: &mut Cursor<'_>, tag: Tag) -> bool
    ensures { TakesSign result cursor.old cursor.new (first_sees (is_tag tag) cursor.old) }
{
    match cursor.rest() {
        [Token::Tag(found), rest @ ..] if *found == tag => {
            *cursor = Cursor::new(rest);
            true
        }
        _ => false,
    }
}

/// Takes the name that is this word, if it comes next.
pub fn take_word(cursor: &mut Cursor<'_>, word: &str) -> bool
    ensures { TakesSign result cursor.old cursor.new (first_sees (is_word word.now) cursor.old) }
{
    match cursor.rest() {
        [Token::Name(name), rest @ ..] if name.is(word) => {
            *cursor = Cursor::new(rest);
            true
        }
        _ => false,
    }
}

/// Takes this tag, which must come next.
pub fn expect_tag(cursor: &mut Cursor<'_>, tag: Tag) -> Result<(), Error>
    ensures { Parses result cursor.new ((token (is_tag tag)).reads cursor.old) }
{
    if take_tag(cursor, tag) {
        Ok(())
    } else {
        Err(refusal())
    }
}

/// Takes this tag, which must come next and consist of its word only.
pub fn expect_lone(cursor: &mut Cursor<'_>, tag: Tag) -> Result<(), Error>
    ensures { Parses result cursor.new ((lone tag).reads cursor.old) }
{
    expect_tag(cursor, tag)?;
    cursor.expect(Sign::BlockEnd)
}

/// Takes the name that is this word, which must come next.
pub fn expect_word(cursor: &mut Cursor<'_>, word: &str) -> Result<(), Error>
    ensures { Parses result cursor.new ((token (is_word word.now)).reads cursor.old) }
{
    if take_word(cursor, word) {
        Ok(())
    } else {
        Err(refusal())
    }
}

/// Takes a name if one comes next; it must be this one.
pub fn expect_same(cursor: &mut Cursor<'_>, name: &Name) -> Result<(), Error>
    ensures { Parses result cursor.new ((same_name name.now).reads cursor.old) }
{
    match cursor.rest() {
        [Token::Name(other), rest @ ..] => {
            if !other.is(name.as_str()) {
                return Err(refusal());
            }
            *cursor = Cursor::new(rest);
            Ok(())
        }
        _ => Ok(()),
    }
}
