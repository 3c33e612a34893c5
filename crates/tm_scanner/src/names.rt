//! Names and reserved words.
ghost use Rattle.std.specs.Prelude.{◌≡◌, ◌<◌, true, false, drop, length, nat_eq, take, IfSome, encode_utf8_all};
ghost use Rattle.std.specs.Cmp.Lexicographic.{pointwise};
ghost use Rattle.std.specs.Str.{chars};
ghost use Rattle.unicode_ident.specs.Ident.{is_xid_start, is_xid_continue};
ghost use Rattle.tm_delimiters.specs.Front.{until};
ghost use Rattle.tm_scanner.specs.Names as spec;
ghost use Rattle.tm_delimiters.specs.Views.{Shortens, cut_of};

use tm_delimiters::front::first;
use tm_syntax::{Sign, Tag};

/// Whether a name may begin with the character.
#[inline(always)]
fn starts_name(c: char) -> bool
    ensures value { result ≡ spec.starts_name c }
    ensures goes_on { result ≡ true → is_xid_continue c ≡ true }
{
    c == '_' || starts(c)
}

/// Whether the character has the property XID_Start. ASCII needs no table.
#[inline(always)]
fn starts(c: char) -> bool
    ensures value { result ≡ is_xid_start c }
    ensures goes_on { result ≡ true → is_xid_continue c ≡ true }
{
    if c.is_ascii() {
        return c.is_ascii_alphabetic();
    }
    unicode_ident::is_xid_start(c)
}

/// Whether a name may continue with the character. ASCII needs no table.
#[inline(always)]
fn goes_on(c: char) -> bool
    ensures { result ≡ is_xid_continue c }
{
    if c.is_ascii() {
        return c.is_ascii_alphanumeric() || c == '_';
    }
    unicode_ident::is_xid_continue(c)
}

/// Whether a name can't continue with the text.
pub(crate) fn leaves_name(text: &str) -> bool
    ensures { result ≡ spec.leaves_name (chars text.now) }
{
    match first(text) {
        Some((c, _)) => !goes_on(c),
        None => true,
    }
}

/// The longest prefix of characters that may continue a name, and the rest after it.
#[inline(always)]
fn run(text: &str) -> (&str, &str)
    ensures front { result.0.now ≡ encode_utf8_all (until spec.leaves_name (chars text.now)).0 }
    ensures back { result.1.now ≡ encode_utf8_all (until spec.leaves_name (chars text.now)).1 }
    ensures shorter { spec.leaves_name (chars text.now) ≡ false →
        length result.1.now < length text.now }
{
    let mut rest = text;
    while let Some((c, after)) = first(rest) {
        if !goes_on(c) {
            break;
        }
        rest = after;
    }
    text.split_at(text.len() - rest.len())
}

/// The longest name at the start, reserved or not, and the rest after it.
#[inline(always)]
pub(crate) fn name_at(text: &str) -> Option<(&str, &str)>
    ensures value { cut_of result ≡ spec.name_at text.now }
    ensures shorter { Shortens result text.now }
{
    let (c, _) = first(text)?;
    if starts_name(c) {
        Some(run(text))
    } else {
        None
    }
}

/// Whether the name is this word. Names of another length aren't read.
#[inline(always)]
pub(crate) fn is(name: &str, word: &str) -> bool
    ensures { result ≡ pointwise nat_eq word.now name.now }
{
    name.len() == word.len() && name == word
}

/// The reserved word that the name is, if any.
pub(crate) fn reserved(name: &str) -> Option<Sign>
    ensures { result ≡ spec.reserved name.now }
{
    if is(name, "and") {
        Some(Sign::And)
    } else if is(name, "or") {
        Some(Sign::Or)
    } else if is(name, "not") {
        Some(Sign::Not)
    } else if is(name, "if") {
        Some(Sign::If)
    } else if is(name, "else") {
        Some(Sign::Else)
    } else if is(name, "in") {
        Some(Sign::In)
    } else if is(name, "is") {
        Some(Sign::Is)
    } else if is(name, "true") || is(name, "True") {
        Some(Sign::True)
    } else if is(name, "false") || is(name, "False") {
        Some(Sign::False)
    } else if is(name, "none") || is(name, "None") {
        Some(Sign::None)
    } else {
        None
    }
}

/// The block tag that begins with this name, if any. The table is read in two parts, since the time
/// of a proof grows faster than the number of words in one table.
pub(crate) fn tag_of(name: &str) -> Option<Tag>
    ensures { result ≡ spec.tag_of name.now }
{
    match start_tag(name) {
        Some(tag) => Some(tag),
        None => later_tag(name),
    }
}

/// The tag that begins a statement with this name, if any.
fn start_tag(name: &str) -> Option<Tag>
    ensures { result ≡ spec.look_up (take 16 spec.tag_words) name.now }
{
    if is(name, "if") {
        Some(Tag::If)
    } else if is(name, "for") {
        Some(Tag::For)
    } else if is(name, "break") {
        Some(Tag::Break)
    } else if is(name, "continue") {
        Some(Tag::Continue)
    } else if is(name, "block") {
        Some(Tag::Block)
    } else if is(name, "extends") {
        Some(Tag::Extends)
    } else if is(name, "set") {
        Some(Tag::Set)
    } else if is(name, "with") {
        Some(Tag::With)
    } else if is(name, "do") {
        Some(Tag::Do)
    } else if is(name, "filter") {
        Some(Tag::Filter)
    } else if is(name, "autoescape") {
        Some(Tag::Autoescape)
    } else if is(name, "macro") {
        Some(Tag::Macro)
    } else if is(name, "call") {
        Some(Tag::Call)
    } else if is(name, "include") {
        Some(Tag::Include)
    } else if is(name, "import") {
        Some(Tag::Import)
    } else if is(name, "from") {
        Some(Tag::From)
    } else {
        None
    }
}

/// The tag that continues or ends a statement with this name, if any.
fn later_tag(name: &str) -> Option<Tag>
    ensures { result ≡ spec.look_up (drop 16 spec.tag_words) name.now }
{
    if is(name, "elif") {
        Some(Tag::Elif)
    } else if is(name, "else") {
        Some(Tag::Else)
    } else if is(name, "endif") {
        Some(Tag::Endif)
    } else if is(name, "endfor") {
        Some(Tag::Endfor)
    } else if is(name, "endblock") {
        Some(Tag::Endblock)
    } else if is(name, "endset") {
        Some(Tag::Endset)
    } else if is(name, "endwith") {
        Some(Tag::Endwith)
    } else if is(name, "endfilter") {
        Some(Tag::Endfilter)
    } else if is(name, "endautoescape") {
        Some(Tag::Endautoescape)
    } else if is(name, "endmacro") {
        Some(Tag::Endmacro)
    } else if is(name, "endcall") {
        Some(Tag::Endcall)
    } else {
        None
    }
}
