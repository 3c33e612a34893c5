//! Values that double. Fuel alone doesn't stop them: after sixty steps a value that shares its parts
//! is small, but a walk over it would take a lifetime.

use crate::party::Rows;
use crate::renders::{Row, expect_row, usual};
use std::alloc::{AllocError, Global};
use std::test::Fail;

/// The fuel, and the size of the largest value.
const FUEL: u64 = 1000;

const VALUE_LIMIT: usize = 10_000;

/// How often a value is doubled.
static COUNTS: [usize; 5] = [20, 30, 40, 50, 60];

/// A template: its start, the step that doubles a value, and its end.
type Family = [&'static str; 3];

const LIST: &str = "{% set v = [1] %}";

const PAIR: &str = "{% set v = [v, v] %}";

const TEXT: &str = "{% set v = '0123456789abcdef' %}";

const SPACE: &str = "{% set n = namespace(s=1) %}";

const SPACES: &str = "{% set n = namespace(a=n, b=n) %}";

/// Templates that end with OutOfMemory and write nothing.
static ENDLESS: &[Family] = &[
    [LIST, PAIR, "{{ v == v }}"],
    [LIST, PAIR, "{{ v < v }}"],
    [LIST, PAIR, "{{ v in [v] }}"],
    [LIST, PAIR, "{{ {v: 1}[v] }}"],
    [
        LIST,
        PAIR,
        "{% for x in [1, 2] %}{{ loop.changed(v) }}{% endfor %}",
    ],
    [LIST, PAIR, "{{ v }}"],
    [
        LIST,
        PAIR,
        "{% autoescape 'html' %}{{ v }}{% endautoescape %}",
    ],
    [
        LIST,
        PAIR,
        "{% autoescape 'json' %}{{ v }}{% endautoescape %}",
    ],
    [LIST, PAIR, "{{ v ~ '' }}"],
    [LIST, "{% set v = {'a': v, 'b': v} %}", "{{ v == v }}"],
    [LIST, "{% set v = {v: v} %}", "{{ v < v }}"],
    [LIST, "{% set v = v + v %}", "{{ second(*v, *v) }}"],
    [LIST, "{% set v = (v + v)[:] %}", "{{ v[::-1] }}"],
    [LIST, "{% set v = dict(a=v, b=v) %}", "{{ v }}"],
    [LIST, "{% set v = dict({'a': v}, b=v) %}", "{{ v }}"],
    [
        LIST,
        "{% set v = dict(**{'a': v, 'b': v}) %}",
        "{{ dict(**v) }}",
    ],
    [LIST, "{% set v = second(0, [v, v]) %}", "{{ v }}"],
    [
        LIST,
        "{% set v = 0|second([v, v]) %}",
        "{{ v is second(v) }}",
    ],
    [
        "{% set n = namespace(s=[1]) %}",
        "{% set n.s = [n.s, n.s] %}",
        "{{ n.s == n.s }}",
    ],
    [
        "{% set n = namespace(s='0123456789abcdef') %}",
        "{% set n.s = n.s ~ n.s %}",
        "{% for c in n.s %}{% endfor %}",
    ],
    [TEXT, "{% set v = v ~ v %}", "{{ v == v }}"],
    [TEXT, "{% set v = v + v %}", "{{ v in v }}"],
    [TEXT, "{% set v %}{{ v }}{{ v }}{% endset %}", "{{ v }}"],
    [
        TEXT,
        "{% set v %}{{ v|upper }}{{ v|upper }}{% endset %}",
        "{{ v }}",
    ],
    [
        TEXT,
        "{% set v %}{% filter upper %}{{ v }}{{ v }}{% endfilter %}{% endset %}",
        "{{ v }}",
    ],
    [
        "{% macro m(a) %}{{ a }}{{ a }}{% endmacro %}{% set v = '0123456789abcdef' %}",
        "{% set v = m(v) %}",
        "{{ v }}",
    ],
    [
        "{% macro m() %}{{ caller() }}{{ caller() }}{% endmacro %}{% set v = '0123456789abcdef' %}",
        "{% set v %}{% call m() %}{{ v }}{% endcall %}{% endset %}",
        "{{ v }}",
    ],
    [
        TEXT,
        "{% set v %}{% for x in [[]] recursive %}{{ v }}{{ v }}{{ loop(x) }}{% endfor %}{% endset %}",
        "{{ v }}",
    ],
    [SPACE, SPACES, "{{ n ~ '' }}"],
    [SPACE, SPACES, "{% set x %}{{ n }}{% endset %}"],
    [
        SPACE,
        SPACES,
        "{% set x %}{% autoescape 'html' %}{{ n }}{% endautoescape %}{% endset %}",
    ],
    [
        SPACE,
        SPACES,
        "{% set x %}{% autoescape 'json' %}{{ n }}{% endautoescape %}{% endset %}",
    ],
];

/// Templates that don't walk over what they doubled, and what they write.
static SMALL: &[(Family, &str)] = &[
    ([SPACE, SPACES, "{{ n == n }}"], "true"),
    ([SPACE, SPACES, "{{ n in [n] }}"], "true"),
    (
        [
            SPACE,
            SPACES,
            "{% for x in [1, 2] %}{{ loop.changed(n) }} {% endfor %}",
        ],
        "true false ",
    ),
    ([LIST, "{% set v = v[:1] + v[1:] %}", "{{ v }}"], "[1]"),
];

/// The source of a template that doubles a value `count` times.
fn source_of(alloc: Global, family: &Family, count: usize) -> Result<String, AllocError> {
    let [start, step, end] = *family;
    let mut source = String::from_str(alloc, start)?;
    for _ in 0..count {
        source.push_str(step)?;
    }
    source.push_str(end)?;
    Ok(source)
}

/// Each template ends as it should, however often it doubles a value.
fn expect_family(
    alloc: Global,
    environment: &Rows<'_>,
    family: &Family,
    text: &str,
    end: &str,
) -> Result<(), Fail> {
    for count in COUNTS {
        let source = source_of(alloc, family, count)?;
        let row = Row {
            source: source.as_str(),
            text,
            end,
            left: "",
        };
        expect_row(alloc, environment, &usual(), &row)?;
    }
    Ok(())
}

/// Limits stop all templates that double values.
pub(crate) fn expect_doubling(alloc: Global, environment: &mut Rows<'_>) -> Result<(), Fail> {
    environment.set_fuel(Some(FUEL));
    environment.set_value_limit(VALUE_LIMIT);
    for family in ENDLESS {
        expect_family(alloc, environment, family, "", "OutOfMemory")?;
    }
    for (family, text) in SMALL {
        expect_family(alloc, environment, family, text, "ok")?;
    }
    Ok(())
}
