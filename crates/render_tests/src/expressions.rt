//! Expressions and their values.

use crate::blocks::expect;
use crate::renders::{Row, is_chain, row_of};
use crate::verifying::verify_tree;
use std::alloc::Global;
use std::test::Fail;
use template_machine::*;

/// Expressions, and how their values are printed, with namespaces as maps; or the kinds of their
/// fault as a last field.
static ROWS: [&str; 12] = [
    "a + 1 => 2",
    "[namespace(a=1)] => [{\"a\": 1}]",
    "{\"a\": namespace(b=namespace(c=1))} => {\"a\": {\"b\": {\"c\": 1}}}",
    "number > 10 and number < 20 => true",
    "range(3) => [0, 1, 2]",
    "x.y =>  => UndefinedError",
    "super() =>  => InvalidOperation",
    "self.b() =>  => UnknownBlock",
    "loop(1) =>  => UnknownFunction",
    "a|upper =>  => UnknownFilter",
    "1 + =>  => SyntaxError",
    " =>  => SyntaxError",
];

/// A context in which `a` is 1 and `number` is 15.
fn context(alloc: Global) -> Result<Value, Error> {
    let mut map = ValueMap::new(alloc);
    map.insert(Value::text(alloc, "a")?, Value::number(1))?;
    map.insert(Value::text(alloc, "number")?, Value::number(15))?;
    Value::from_map(alloc, map)
}

/// The value of an expression. BadStream if its stream is refused.
fn value_of<P: Parties>(
    alloc: Global,
    environment: &EnvironmentOf<'_, P>,
    source: &'static str,
) -> Result<Value, Error> {
    verify_tree(alloc, &parse_expr(alloc, source)?, Form::Expression)?;
    let expression = environment.compile_expression(source)?;
    expression.eval(&mut StateIds::new(), context(alloc)?)
}

fn is_undefined<P: Parties>(
    alloc: Global,
    environment: &EnvironmentOf<'_, P>,
    source: &'static str,
) -> bool {
    match value_of(alloc, environment, source) {
        Ok(value) => value == Value::undefined(),
        Err(_) => false,
    }
}

/// Whether `wanted` is the only name that an expression reads.
fn reads<P: Parties>(
    environment: &EnvironmentOf<'_, P>,
    source: &'static str,
    nested: bool,
    wanted: &str,
) -> bool {
    let Ok(expression) = environment.compile_expression(source) else {
        return false;
    };
    match expression.undeclared_variables(nested) {
        Ok(names) => names.len() == 1 && names.contains(wanted),
        Err(_) => false,
    }
}

fn is_printed(alloc: Global, value: &Value, wanted: &str) -> bool {
    match printing::to_text(alloc, value, &NoRecords) {
        Ok(text) => text.as_str() == wanted,
        Err(_) => false,
    }
}

/// Whether an expression has the result that its row says.
fn is_row<P: Parties>(
    alloc: Global,
    environment: &EnvironmentOf<'_, P>,
    row: &Row<'static>,
) -> bool {
    match value_of(alloc, environment, row.source) {
        Ok(value) => row.end.is_empty() && is_printed(alloc, &value, row.text),
        Err(error) => is_chain(&error, row.end),
    }
}

pub(crate) fn expect_expressions<P: Parties>(
    alloc: Global,
    environment: &EnvironmentOf<'_, P>,
) -> Result<(), Fail> {
    for line in &ROWS {
        expect(is_row(alloc, environment, &row_of(line)), line)?;
    }
    expect(is_undefined(alloc, environment, "x"), "x")?;
    expect(is_undefined(alloc, environment, "a if b"), "a if b")?;
    expect(reads(environment, "a + 1", false, "a"), "a name")?;
    expect(reads(environment, "a.b.c", true, "a.b.c"), "a chain")
}
