//! Rows of macros and call tags, and macros of other renders.
use crate::party::Rows;
use std::alloc::Global;
use template_machine::*;

/// Macros and call tags.
pub(crate) const MACROS: &str = r#"Macros and call tags.
- @undefined-names
- @short 6 {% macro m() %}x{% endmacro %}{{ m() }}
- @paid 7
- {% macro m() %}x{% endmacro %}{{ m() }} => x => 7 => fuel 0
- @fuel 10000
- @limit 7
- {% macro m() %}x{% endmacro %}{{ m() }} => x => 7
- @limit 6
- {% macro m() %}x{% endmacro %}{{ m() }} =>  => InvalidOperation
- @limit 500
- {% macro m(a, b=2) %}{{ a }}{{ b }}{% endmacro %}{{ m(1) }} {{ m(b=5) }} {{ m(1, 2) }} {{ m(*[7], b=8) }} {{ m(**{"a": 1}) }} => 12 5 12 78 12 => 77
- {% macro m(a, b=2) %}{{ a }}{{ b }}{% endmacro %}{{ m(1, a=3) }} =>  => TooManyArguments
- {% macro m(a, b=2) %}{{ a }}{{ b }}{% endmacro %}{{ m(1, 2, 3) }} =>  => TooManyArguments
- {% macro m(a, b=2) %}{{ a }}{{ b }}{% endmacro %}{{ m(z=1) }} =>  => TooManyArguments
- {% macro m(a, b=2) %}{{ a }}{{ b }}{% endmacro %}{{ m(caller=1) }} =>  => TooManyArguments
- {% macro m(a, b=2) %}{{ a }}{{ b }}{% endmacro %}{{ m(**{1: 2}) }} => 2 => ok
- {% macro m(a, b=2) %}{{ a }}{{ b }}{% endmacro %}{{ m() }} => 2 => ok
- {% macro m(a, b=a) %}{{ b }}{% endmacro %}{{ m(1) }} =>  => 14
- {% macro m(a=b, b=1) %}{{ a }}{% endmacro %}{{ m() }} => 1 => 17
- {% macro m(a=1, b) %}{{ a }}{{ b }}{% endmacro %}{{ m(b=2) }} => 12 => 18
- {% macro m(a=1) %}{{ a }}{% endmacro %}{{ m(x) }}{{ m(none) }} => 1none => 21
- {% macro m(a) %}{% if a %}{% set z = a %}{% endif %}{{ z }}{% endmacro %}[{{ m(1) }}][{{ m() }}] => [1][] => 24
- {% macro m(caller) %}{{ caller }}{% endmacro %}{{ m(caller=1) }} => 1 => 12
- @short 5 {% macro m() %}{{ caller() }}{% endmacro %}{{ m() }}
- @paid 6
- {% macro m() %}{{ caller() }}{% endmacro %}{{ m() }} =>  => InvalidOperation
- @fuel 10000
- {% macro m() %}[{{ caller(2) }}]{% endmacro %}{% call(n) m() %}{{ n + 1 }}{% endcall %} => [3] => 21
- {% macro m() %}[{{ caller() }}]{% endmacro %}{% for x in [1,2] %}{% call m() %}{{ x }}{% endcall %}{% endfor %} => [1][2] => 42
- {% macro m() %}[{{ caller() }}]{% endmacro %}{% set x %}{% call m() %}a{% endcall %}{% endset %}{{ x }} => [a] => 20
- {% for i in [1,2] %}{% macro m() %}{{ j }}{% endmacro %}{{ m() }}{% set j = i %}{{ m() }}{% endfor %} => 112 => 40
- {% set x = 1 %}{% macro m() %}{{ x }}{% endmacro %}{% set x = 2 %}{{ m() }} => 2 => 13
- {% set x = 1 %}{% macro m() %}{{ x }}{% endmacro %}{% with x = 3 %}{{ m() }}{% endwith %} => 1 => 13
- {% macro m(n) %}{{ n }}{% if n > 0 %}{{ m(n - 1) }}{% endif %}{% endmacro %}{{ m(3) }} => 3210 => 51
- {% macro a() %}{{ b() }}{% endmacro %}{% macro b() %}B{% endmacro %}{{ a() }} => B => 14
- {% macro n(a, b) %}<{{ a }}{{ b }}{% set a = 9 %}{{ a }}>{% endmacro %}{% macro m(a, b) %}{{ a }}{{ b }}{{ n(b, a) }}{{ a }}{{ b }}{% endmacro %}{{ m(1, 2) }} => 12<219>12 => 39
- {% macro o() %}{% macro i() %}{{ z }}{% endmacro %}{% set z = 5 %}{{ i() }}{% endmacro %}{{ o() }} => 5 => 18
- @short 88 {% macro m() %}{{ m() }}{% endmacro %}{{ m() }}
- @paid 89
- {% macro m() %}{{ m() }}{% endmacro %}{{ m() }} =>  => InvalidOperation
- @fuel 10000
- a{% macro m(n) %}{% set k = n %}{% if n %}{{ m(n - 1) }}{% endif %}{% if k % 20 == 0 %}{{ k }} {% endif %}{% endmacro %}{{ m(82) }}b => a0 20 40 60 80 b => ok
- a{% macro m(n) %}{% set k = n %}{% if n %}{{ m(n - 1) }}{% endif %}{% if k % 20 == 0 %}{{ k }} {% endif %}{% endmacro %}{{ m(20) }}{{ m(83) }}b => a0 20  => InvalidOperation
- {% macro m(a) %}{% endmacro %}{{ m }} {{ m.arguments }} {{ m.caller }} {{ m.name }} {{ m.x }} => <macro m> ["a"] false m  => 22
- {% macro m() %}x{% endmacro %}{% set n = {"f": m} %}{{ n.f() }} {{ n["f"]() }} => x x => 19
- {% macro m() %}x{% endmacro %}{{ m.name() }} =>  => InvalidOperation
- {% macro m() %}x{% endmacro %}{{ m.zz() }} =>  => UnknownMethod
- @short 5 {% call m() %}{% endcall %}
- @paid 6
- {% call m() %}{% endcall %} =>  => UnknownFunction
- @fuel 10000
- {% macro m() %}{% endmacro %}{% call m() %}x{% endcall %} =>  => TooManyArguments
- {% call(a) dict(b=1) %}{{ a }}{% endcall %} => {"b": 1, "caller": <macro caller>} => 9
- @short 9 a{% macro m() %}b{{ y.z }}{% endmacro %}{{ m() }}
- @paid 10
- a{% macro m() %}b{{ y.z }}{% endmacro %}{{ m() }} => a => UndefinedError
- @fuel 10000
- {% for x in [7] recursive %}{{ x }}{% macro m(a) %}{{ "" ~ loop(a) }}{% endmacro %}{% if x == 7 %}{{ m([8]) }}{% endif %}{% endfor %} => 78 => 42
- {% for x in [1,2] %}{% macro m() %}{{ loop.index }}{% endmacro %}{{ m() }}{% endfor %} => 12 => 30
- @undefined strict
- @short 7 {% macro m(a) %}{{ a }}{% endmacro %}{{ m() }}
- @paid 8
- {% macro m(a) %}{{ a }}{% endmacro %}{{ m() }} =>  => UndefinedError
- @fuel 10000
- @undefined lenient
- {% macro m(x) %}<{{ x }}>{% endmacro %}{{ by_macro("m", 5) }} => <5> => 13
- @name p.html
- {% macro m(x) %}<{{ x }}>{% endmacro %}{{ by_macro("m", 5) }} => &lt;5&gt; => 13
- {% macro m() %}<b>{{ "<" }}{% endmacro %}{{ m() }} => <b>&lt; => 9
- {% macro m() %}<b>{% endmacro %}{{ m() ~ "" }} => &lt;b&gt; => 9
- @name <string>
- {{ by_macro("m", 5) }} =>  => UnknownFunction
- {% set m = 1 %}{{ by_macro("m", 5) }} =>  => InvalidOperation
- @limit 7
- {% macro m() %}x{% endmacro %}{{ by_macro("m") }} =>  => InvalidOperation
- @limit 8
- {% macro m() %}x{% endmacro %}{{ by_macro("m") }} => x => ok
- @limit 500"#;

/// Whether a source fails with InvalidOperation without a cause.
fn is_refused<P: Parties>(
    environment: &EnvironmentOf<'_, P>,
    ids: &mut StateIds,
    source: &str,
    given: Value,
) -> bool {
    match environment.render_str(ids, source, given) {
        Ok(_) => false,
        Err(error) => error.kind() == ErrorKind::InvalidOperation && error.cause().is_none(),
    }
}

/// A context with the macro `m` of a render's state under its name.
fn macro_of<P: Parties>(
    alloc: Global,
    environment: &EnvironmentOf<'_, P>,
    ids: &mut StateIds,
) -> Result<Value, Error> {
    let template = environment.template_from_str("{% macro m() %}x{% endmacro %}")?;
    let captured = template.render_captured_to(ids, Value::undefined(), &mut NullWriter)?;
    let found = captured.state().lookup("m")?;
    let mut names = ValueMap::new(alloc);
    names.insert(
        Value::text(alloc, "m")?,
        found.unwrap_or(Value::undefined()),
    )?;
    Value::from_map(alloc, names)
}

/// Whether a macro can't be called in another render, neither with the same counter nor with a new
/// one.
fn belong_to_renders<P: Parties>(
    alloc: Global,
    environment: &EnvironmentOf<'_, P>,
) -> Result<bool, Error> {
    let mut ids = StateIds::new();
    let names = macro_of(alloc, environment, &mut ids)?;
    let source = "{{ m() }}";
    let is_refused_after = is_refused(environment, &mut ids, source, names.share()?);
    Ok(is_refused_after && is_refused(environment, &mut StateIds::new(), source, names))
}

/// Whether macros work only in the states of their own renders, and stop at the depth limit.
pub(crate) fn are_bounded<P: Parties>(
    alloc: Global,
    environment: &EnvironmentOf<'_, P>,
) -> Result<bool, Error> {
    let endless = "{% macro m() %}{{ m() }}{% endmacro %}{{ m() }}";
    let mut ids = StateIds::new();
    let is_ended = is_refused(environment, &mut ids, endless, Value::undefined());
    Ok(is_ended && belong_to_renders(alloc, environment)?)
}
