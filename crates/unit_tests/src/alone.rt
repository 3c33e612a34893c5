//! Expressions on their own: their code, and sources that aren't expressions.
use crate::code;
use crate::rows::{expect, halves};
use std::alloc::Global;
use std::test::Fail;
use tm_compiler::parse_expr;
use tm_values::{Error, ErrorKind};

/// Expressions and their code.
static CODES: [&str; 9] = [
    "a + 1 => $a #1 +",
    " \n a.b|f(1)\t => $a .b #1 filter:f2@0",
    "a if b => $b if-false:4 $a jump:5 #silent",
    "a and b or not c => $a and:3 $b or:6 $c not",
    "super() => call:super0",
    "self.b() => capture block:b captured",
    "loop(1) => #1 call:loop1",
    "[a, {\"b\": 1}] => $a #b #1 map:1 list:2",
    "\"}}\" ~ '%}' => #}} #%} ~",
];

/// Sources that spell no expression.
static REFUSED: [&str; 14] = [
    "",
    " ",
    "1 +",
    "a b",
    "a,",
    "a = 1",
    "(a",
    "a)",
    "a;",
    "{{ a }}",
    "a }}",
    "{# c #}a",
    "if a",
    "{% set a = 1 %}",
];

fn has_code(alloc: Global, source: &str, wanted: &str) -> Result<bool, Error> {
    let tree = parse_expr(alloc, source)?;
    code::has_code(alloc, &tree, wanted)
}

fn is_refused(alloc: Global, source: &str) -> bool {
    match parse_expr(alloc, source) {
        Ok(_) => false,
        Err(error) => error.kind() == ErrorKind::SyntaxError,
    }
}

/// Expects that each row's source has the row's code.
fn expect_codes(alloc: Global, rows: &[&str]) -> Result<(), Fail> {
    for row in rows {
        let (source, wanted) = halves(row);
        expect(has_code(alloc, source, wanted)?, row)?;
    }
    Ok(())
}

#[test]
fn expressions_have_their_code(rt: HostRuntime) -> Result<(), Fail> {
    expect_codes(rt.alloc(), &CODES)?;
    for source in &REFUSED {
        expect(is_refused(rt.alloc(), source), source)?;
    }
    Ok(())
}
