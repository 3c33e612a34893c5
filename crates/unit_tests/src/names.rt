//! Sources with the names that they read with no earlier assignment in an open scope.
use crate::rows::{expect, halves};
use crate::syntax;
use std::alloc::Global;
use std::collections::BTreeSet;
use std::rc::RcStr;
use std::test::Fail;
use tm_compiler::{SyntaxConfig, parse};
use tm_names::undeclared;
use tm_values::Error;

/// Plain names.
static ALONE: [&str; 38] = [
    "{% set x = foo %}{{ x }}{{ bar.baz }} => bar foo",
    "{{ bar.baz() }} => bar",
    "{{ super(a) }}{{ self.b() }} => a",
    "{{ self.b }} => self",
    "{{ self.b(c) }}{{ self.b(d=e) }} => c e self",
    "{{ self }} => self",
    "{{ self[0].b() }} => self",
    "{% for x in xs if x.y > z %}{{ loop.index }}{{ x }}{% else %}{{ x }}{% endfor %} => x xs z",
    "{% for x in xs if loop %}{% endfor %}{{ x }} => loop x xs",
    "{% for x in x %}{% endfor %} => x",
    "{% for a, b.c in d %}{{ a }}{% endfor %}{{ a }} => a b d",
    "{% for x in y recursive %}{{ loop(z) }}{% endfor %} => y z",
    "{{ loop(z) }} => loop z",
    "{% with a = b, c = a %}{{ c }}{% endwith %}{{ a }} => a b",
    "{% with a = a %}{% endwith %} =>",
    "{% set x = x %}{{ x }} =>",
    "{{ x }}{% set x = 1 %}{{ x }} => x",
    "{% set y | f(y) %}{{ z }}{% endset %} => z",
    "{% set y %}{{ y }}{% endset %} =>",
    "{% set a, (b, c.d) = e %}{{ a }}{{ b }}{{ c }}{{ d }} => c d e",
    "{% if a %}{% set b = 1 %}{% else %}{{ b }}{% endif %}{{ b }} => a",
    "{% filter f(a) %}{% set b = 1 %}{% endfilter %}{{ b }} => a",
    "{% block b %}{% set a = 1 %}{{ a }}{% endblock %}{{ a }}{{ b }} => a b",
    "{% set a = 1 %}{% block b %}{{ a }}{% endblock %} =>",
    "{% autoescape a %}{% set b = 1 %}{% endautoescape %}{{ b }} => a",
    "{% do f(a, *b, c=d, **e) %} => a b d e f",
    "{{ a|f(b) is g(c) }}{{ d.m(e)(f) }} => a b c d e f",
    "{{ a if b else c }}{{ d[e:f:g] }}{{ h < i < j }} => a b c d e f g h i j",
    "{{ [a, (b,), {c: d}] }}{{ not e and -f or g ~ h }} => a b c d e f g h",
    "{{ b }}{{ a }}{{ ab }}{{ b }} => a ab b",
    "{% macro m(a, b=a, c=d) %}{{ b }}{{ m }}{{ e }}{{ caller() }}{% set f = 1 %}{% endmacro %}{{ m }}{{ f }}{{ caller }} => caller d e f",
    "{% macro m(a=b, b=1) %}{% endmacro %} => b",
    "{% include a %}{% include [b, c] ignore missing %} => a b c",
    "{% import a as a %}{{ a }} => a",
    "{% import a as b.c %}{{ b }} => a b",
    "{% from a import b, c as d %}{{ b }}{{ c }}{{ d }} => a c",
    "{% with %}{% import a as b %}{% from b import c %}{% endwith %}{{ b }}{{ c }} => a b c",
    "{% call(a, b) f(c) %}{{ a }}{{ caller }}{{ d }}{% endcall %}{{ a }} => a c d f",
];

/// Names with their attributes.
static NESTED: [&str; 15] = [
    "{% set x = foo %}{{ x }}{{ bar.baz }} => bar.baz foo",
    "{{ bar.baz() }} => bar.baz",
    "{{ bar[\"x\"] }}{{ b[0].y }} => b bar",
    "{{ bar.a.b[0].c }} => bar.a.b",
    "{{ bar.a.b().c }} => bar.a.b",
    "{{ bar.a(c.d).b(e.f).g }} => bar.a c.d e.f",
    "{{ a.b|f(c.d) is g(e.f) }} => a.b c.d e.f",
    "{% set x = 1 %}{{ x.y }}{{ z.x.y }} => z.x.y",
    "{{ f(a.b).c }} => a.b f",
    "{{ self.b() }}{{ self.b }}{{ super(a.b) }} => a.b self.b",
    "{{ [a.b][0].c }}{{ a.b.c }}{{ a }} => a a.b a.b.c",
    "{% for x.y in z.w %}{{ loop.index }}{{ a.loop }}{% endfor %} => a.loop x z.w",
    "{% macro m(a) %}{{ a.b }}{{ c.d }}{% endmacro %}{{ m.name }} => c.d",
    "{% include a.b %}{% import c.d as e %}{% from e.f import g %}{{ g.h }} => a.b c.d",
    "{% call a.b.m() %}{{ c.d }}{% endcall %} => a.b.m c.d",
];

/// Whether these are the names, separated by blanks.
fn are(names: &BTreeSet<String>, wanted: &str) -> bool {
    let mut rest = wanted.split_whitespace();
    for name in names.iter() {
        if rest.next() != Some(name.as_str()) {
            return false;
        }
    }
    rest.next().is_none()
}

/// Whether a source reads these names.
fn reads(
    alloc: Global,
    syntax: &SyntaxConfig,
    source: &str,
    nested: bool,
    wanted: &str,
) -> Result<bool, Error> {
    let source = RcStr::from_str(alloc, source)?;
    let tree = parse(alloc, &source, syntax)?;
    let names = undeclared(alloc, &tree, nested)?;
    Ok(are(&names, wanted))
}

fn expect_names(alloc: Global, rows: &[&str], nested: bool) -> Result<(), Fail> {
    let syntax = syntax::usual(alloc)?;
    for row in rows {
        let (source, names) = halves(row);
        expect(reads(alloc, &*syntax, source, nested, names)?, row)?;
    }
    Ok(())
}

#[test]
fn names_are_read(rt: HostRuntime) -> Result<(), Fail> {
    expect_names(rt.alloc(), &ALONE, false)
}

#[test]
fn names_are_read_with_what_is_nested(rt: HostRuntime) -> Result<(), Fail> {
    expect_names(rt.alloc(), &NESTED, true)
}
