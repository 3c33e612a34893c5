//! What the tests share: the rows' templates, rows, and the innermost kind of a fault.

use std::alloc::Global;
use template_machine::*;

/// The templates that rows use, each with its name first.
static OTHERS: [&str; 5] = [
    "base B:{% block a %}x{% endblock %}",
    "i ab{{ 1 }}",
    "s {{ super() }}",
    "d {% macro f(x) %}<{{ x }}>{% endmacro %}{% set _p = 1 %}{% set q = 2 %}",
    "cycle {% extends \"cycle\" %}x",
];

/// The kind of the innermost cause.
pub fn last_kind(error: &Error) -> ErrorKind {
    let mut last = error;
    for _ in 0..usize::MAX {
        match last.cause() {
            Some(cause) => last = cause,
            None => return last.kind(),
        }
    }
    last.kind()
}

/// A row's source and its text.
pub fn row_of<'a>(line: &'a str) -> (&'a str, &'a str) {
    line.split_once(" => ").unwrap_or((line, ""))
}

/// An environment with the rows' templates and `t`.
pub fn new_environment(alloc: Global) -> Result<Environment<'static>, Error> {
    let mut environment = Environment::new(alloc)?;
    for other in &OTHERS {
        let (name, source) = other.split_once(' ').unwrap_or((other, ""));
        environment.add_template(name, source)?;
    }
    environment.add_template("t", "old")?;
    Ok(environment)
}
