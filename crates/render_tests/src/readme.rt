//! The example of README.md: examples/check.sh compares both.
use crate::party::Party;
use std::test::Fail;

// The example begins here.
use template_machine::{Callable, Environment, Error, StateIds, Value};

const LAYOUT: &str = "<h1>{% block title %}{% endblock %}</h1>";

const PAGE: &str =
    r#"{% extends "layout" %}{% macro hello(name) %}Hello {{ name|upper }}!{% endmacro %}{% block title %}{{ hello("World") }}{% endblock %}"#;

fn greet(environment: &mut Environment<'_>, upper: Box<dyn Callable>) -> Result<String, Error> {
    environment.add_filter("upper", upper)?;
    environment.add_template("layout", LAYOUT)?;
    environment.add_template("page", PAGE)?;
    environment
        .get_template("page")?
        .render(&mut StateIds::new(), Value::undefined())
}

fn sum(environment: &Environment<'_>) -> Result<Value, Error> {
    environment
        .compile_expression("1 + 2 * 3")?
        .eval(&mut StateIds::new(), Value::undefined())
}
// The example ends here.

#[test]
fn greets(rt: HostRuntime) -> Result<(), Fail> {
    let mut environment = Environment::new(rt.alloc())?;
    let upper = Box::new(rt.alloc(), Party::Upper)?;
    let text = greet(&mut environment, upper)?;
    assert!(rt; text.as_str() == "<h1>Hello WORLD!</h1>");
    assert!(rt; sum(&environment)? == Value::number(7));
    Ok(())
}
