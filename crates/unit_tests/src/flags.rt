//! Sources under the caller's own flags and delimiters, and the owners of a source's texts.
use crate::rows::expect;
use crate::sources::expect_codes;
use crate::syntax::{self, Flags, NO_FLAG};
use std::alloc::Global;
use std::rc::RcStr;
use std::test::Fail;
use tm_scanner::{SyntaxConfig, scan};
use tm_syntax::Token;
use tm_values::{Error, ErrorKind};

static DELIMITED: [&str; 1] = [
    "{{<%# ${a} %>b<%if a%>}<%endif%>${ {1:'}'} } => raw:{{ raw:b $a if-false:5 raw:} #1 #} map:1 emit",
];

#[test]
fn delimiters_are_the_callers(rt: HostRuntime) -> Result<(), Fail> {
    let syntax = syntax::with_delimiters(rt.alloc(), &["<%", "%>", "${", "}", "<%#", "%>"])?;
    expect_codes(rt.alloc(), &*syntax, &DELIMITED)
}

/// A delimiter's end counts at its first place, even inside a longer operator.
static ENDED: [&str; 4] = [
    "${a >= b => $a emit raw:= b",
    "${a>b => $a emit raw:b",
    "${ 1 >> b => #1 emit raw:> b",
    "<% if a == b<% endif = => $a if-false:3 raw:= b",
];

#[test]
fn ends_count_at_their_first_place(rt: HostRuntime) -> Result<(), Fail> {
    let syntax = syntax::with_delimiters(rt.alloc(), &["<%", "=", "${", ">", "<#", "#>"])?;
    expect_codes(rt.alloc(), &*syntax, &ENDED)
}

static UNUSABLE: [[&str; 6]; 3] = [
    ["", "b", "c", "d", "e", "f"],
    ["a", "b", "c", "d", "e", ""],
    ["a", "b", "c", "d", "c", "d"],
];

fn is_unusable(alloc: Global, texts: &[&str; 6]) -> bool {
    match &syntax::with_delimiters(alloc, texts) {
        Ok(_) => false,
        Err(error) => error.kind() == ErrorKind::InvalidDelimiter,
    }
}

#[test]
fn unusable_delimiters_are_refused(rt: HostRuntime) -> Result<(), Fail> {
    for texts in &UNUSABLE {
        expect(is_unusable(rt.alloc(), texts), texts[0])?;
    }
    Ok(())
}

const TRIM: Flags = Flags {
    trim_blocks: true,
    ..NO_FLAG
};

const STRIP: Flags = Flags {
    lstrip_blocks: true,
    ..NO_FLAG
};

const TRIM_AND_STRIP: Flags = Flags {
    lstrip_blocks: true,
    ..TRIM
};

const KEEP: Flags = Flags {
    keep_trailing_newline: true,
    ..NO_FLAG
};

/// The rows of each choice of flags.
static FLAGGED: [(Flags, &[&str]); 5] = [
    (
        NO_FLAG,
        &["a\n  {% if b %}\n c\n{% endif %}\nd => raw:a\n   $b if-false:4 raw:\n c\n raw:\nd"],
    ),
    (
        TRIM,
        &["a\n  {% if b %}\n c\n{% endif %}\nd => raw:a\n   $b if-false:4 raw: c\n raw:d"],
    ),
    (
        STRIP,
        &["a\n  {% if b %}\n c\n{% endif %}\nd => raw:a\n $b if-false:4 raw:\n c\n raw:\nd"],
    ),
    (
        TRIM_AND_STRIP,
        &[
            "a\n  {% if b %}\n c\n{% endif %}\nd => raw:a\n $b if-false:4 raw: c\n raw:d",
            "a\n  {%+ if b %}\n c\n{% endif %}\nd => raw:a\n   $b if-false:4 raw: c\n raw:d",
            "a\n  {% if b +%}\n c\n{% endif +%}\nd => raw:a\n $b if-false:4 raw:\n c\n raw:\nd",
            "a\n  {% macro m() %}\n c\n{% endmacro %}\nd => raw:a\n jump:4 raw: c\n return closure #[] macro:m2 store:m raw:d",
            "a\n  {% include b %}\n c => raw:a\n $b include raw: c",
            "\t {# c #}\r\n  {{ a }}\n {{ b }} {# #} => raw:   $a emit raw:\n  $b emit raw: ",
            "  {% raw %}\n x\n\t{% endraw %}\n  {# #} => raw: x\n",
            "  {%+ raw +%}\n x\n\t{%+ endraw +%}\n => raw:   raw:\n x\n\t",
        ],
    ),
    (KEEP, &["a\n => raw:a\n"]),
];

#[test]
fn flags_trim(rt: HostRuntime) -> Result<(), Fail> {
    for (flags, rows) in &FLAGGED {
        let syntax = syntax::with_flags(rt.alloc(), *flags)?;
        expect_codes(rt.alloc(), &*syntax, rows)?;
    }
    Ok(())
}

/// Whether each raw text of a source shares the source and isn't a copy.
fn shares_raw_texts(alloc: Global, syntax: &SyntaxConfig, source: &str) -> Result<bool, Error> {
    let source = RcStr::from_str(alloc, source)?;
    let tokens = scan(alloc, syntax, &source)?;
    let raw_texts = tokens.iter().filter(|token| matches!(token, Token::Raw(_)));
    Ok(RcStr::strong_count(&source) - 1 == raw_texts.count())
}

static SHARED: [&str; 3] = ["", "a{{ b }} c {% raw %} d {% endraw %}", "{ {{- a -}} }\n"];

#[test]
fn raw_texts_share_the_source(rt: HostRuntime) -> Result<(), Fail> {
    let syntax = syntax::usual(rt.alloc())?;
    for source in &SHARED {
        expect(shares_raw_texts(rt.alloc(), &*syntax, source)?, source)?;
    }
    Ok(())
}
