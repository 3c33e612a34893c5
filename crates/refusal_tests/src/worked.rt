//! Rows for each part of the language, whichever growth is refused.

use crate::ends::{End, end_of, holds};
use crate::refusals::{row_end, rows_environment, rows_hold};
use crate::rows::{new_environment, row_of};
use std::alloc::Global;
use std::test::Fail;
use template_machine::*;

static OPERATORS: &[&str] = &[
    "{{ 7 // -2 }} {{ -7 // 2 }} {{ -7 % 2 }} => -3 -4 1",
    "{{ 2 ** 3 ** 2 }} {{ (-1) ** 4294967297 }} {{ (-2 ** 127) % -1 }} => 64 -1 0",
    "{{ 2 ** 126 }} {{ -2 ** 127 }} => 85070591730234615865843651857942052864 -170141183460469231731687303715884105728",
    "{{ 2 ** 127 }} => !InvalidOperation",
    "{{ 1 / 2 }} => !InvalidOperation",
    "{{ 1 // 0 }} => !InvalidOperation",
    "{{ 2 ** -1 }} => !InvalidOperation",
    "{{ 170141183460469231731687303715884105728 }} => !SyntaxError",
    "{{ 1.5 }} => !SyntaxError",
    "{{ \"a\" ~ 1 + 2 }} => !InvalidOperation",
    "{{ 1 + true }} {{ not 1 == 2 }} {{ 3 not in [1] }} => 2 true true",
    "{{ 1 < 2 < 3 }} {{ 3 < 2 < 1 }} => true false",
    "{{ [1,2,3][::-1] }} {{ \"abc\"[-1] }} [{{ [1][5] }}] => [3, 2, 1] c []",
    "{{ {\"b\": 1, \"a\": \"x\"} }} => {\"a\": \"x\", \"b\": 1}",
];

static BRANCHES: &[&str] = &[
    "{% if a %}x{% else %}y{% endif %} => y",
    "{{ 0 and y.z }} => 0",
    "{% set a, b = 1, 2 %}{{ a }}{{ b }} => 12",
    "{% set a, b = [1] %} => !CannotUnpack",
    "{% with a = 1, b = a %}{{ b }}{% endwith %}{{ b }} => 1",
    "{% with %}{% endwith %} => ",
    "a {%- if true -%} b {%- endif %} => ab",
    "{% raw %}{{ x }}{% endraw %} => {{ x }}",
    "{{ x.y }} => !UndefinedError",
];

static LOOPS: &[&str] = &[
    "{% for x in [] %}{% else %}E{% endfor %} => E",
    "{% for x in [1,2] if x > 1 %}{{ x }}{% endfor %} => 2",
    "{% for x in [1,1,2] %}{{ loop.changed(x) }} {% endfor %} => true false true ",
    "{% for x in [1,2] %}{% with %}{{ x }}{% continue %}{% endwith %}{% endfor %} => 12",
    "{% set ns = namespace(n=0) %}{% for x in [1,2,3] %}{% set ns.n = ns.n + x %}{% endfor %}{{ ns.n }} => 6",
    "{% for x in [\"a\",\"b\",\"c\"] %}{{ loop.previtem }}{{ loop.revindex }}{{ loop.nextitem }}{{ loop.cycle(\"x\",\"y\") }} {% endfor %} => 3bx a2cy b1x ",
    "{% for x in 5 %}{% endfor %} => !InvalidOperation",
    "{% for x in range(1000) %}{% set y = x %}{% endfor %}[{{ y }}] => []",
];

static FUNCTIONS: &[&str] = &[
    "{{ range(4) }} {{ range(0, 4, 1) }} => [0, 1, 2, 3] [0, 1, 2, 3]",
    "{{ range(9223372036854775806, 9223372036854775807) }} => [9223372036854775806]",
    "{{ range(0, -9223372036854775807, -9223372036854775807) }} => [0]",
    "{{ range(100001) }} => !InvalidOperation",
    "{{ range(1, 2, 0) }} => !InvalidOperation",
    "{{ range() }} => !MissingArgument",
    "{{ range(1,2,3,4) }} => !TooManyArguments",
    "{{ range(\"a\") }} => !InvalidOperation",
    "{{ range(*[5, 0, -2]) }} => [5, 3, 1]",
    "{{ dict({\"a\": 1}, a=2, b=3) }} => {\"a\": 2, \"b\": 3}",
    "{{ dict(**{\"a\": 1}, b=2) }} => {\"a\": 1, \"b\": 2}",
    "{{ nope() }} => !UnknownFunction",
    "{{ 1|nope }} => !UnknownFilter",
    "{{ 1 is nope }} => !UnknownTest",
    "{{ [].nope() }} => !UnknownMethod",
    "{% for x in [1] %}{% set y %}a{% break %}{% endset %}{% endfor %}[{{ y }}] => []",
];

static MACROS: &[&str] = &[
    "{% macro m() %}x{% endmacro %}{{ m() }}{{ m(**{1: 2}) }} => xx",
    "{% macro m(a, b=2) %}{{ a }}{{ b }}{% endmacro %}{{ m(1, 2, 3) }} => !TooManyArguments",
    "{% macro m(a, b=2) %}{{ a }}{{ b }}{% endmacro %}{{ m(z=1) }} => !TooManyArguments",
    "{% macro m(a) %}{% endmacro %}{{ m }} {{ m.arguments }} {{ m.caller }} => <macro m> [\"a\"] false",
    "{% macro m() %}{% endmacro %}{% call m() %}x{% endcall %} => !TooManyArguments",
    "{% macro m(a) %}{% if a %}{% set z = a %}{% endif %}{{ z }}{% endmacro %}[{{ m(1) }}][{{ m() }}] => [1][]",
    "{% macro m() %}{{ m() }}{% endmacro %}{{ m() }} => !InvalidOperation",
];

static RECURSIONS: &[&str] = &[
    "{% set tree = [{\"v\":1,\"c\":[{\"v\":2,\"c\":[]}]},{\"v\":3,\"c\":[]}] %}{% for t in tree recursive %}{{ t.v }}({{ loop(t.c) }}){% else %}E{% endfor %} => 1(2())3()",
    "{% set tree = [{\"v\":1,\"c\":[{\"v\":2,\"c\":[]}]},{\"v\":3,\"c\":[]}] %}{% for t in tree recursive %}{{ t.v ~ \"[\" ~ loop(t.c) ~ \"]\" }}{% endfor %} => 1[2[]]3[]",
    "{% for x in [[]] recursive %}a{{ loop(x) }}{% endfor %} => a",
    "{% for a in [1] recursive %}{% for b in [2] %}{{ loop.depth }}{% endfor %}{% endfor %} => 2",
    "{% for x in [7] recursive %}{{ x }}{% macro m(a) %}{{ \"\" ~ loop(a) }}{% endmacro %}{% if x == 7 %}{{ m([8]) }}{% endif %}{% endfor %} => 78",
    "{% set ns = namespace() %}{% for x in [1] recursive %}{{ x }}{% set ns.l = loop %}{% endfor %}{% set l = ns.l %}{{ l([2, 3]) }} => 123",
    "{% for x in [1] recursive %}{{ loop(x) }}{% endfor %} => !InvalidOperation",
    "{% for x in [[]] %}{{ loop(x) }}{% endfor %} => !InvalidOperation",
    "{{ loop([]) }} => !UnknownFunction",
    "{% for x in [[]] recursive %}{{ loop(x, 1) }}{% endfor %} => !InvalidOperation",
];

static BLOCKS: &[&str] = &[
    "{% for n in [1,2] %}{{ n }}{% if n == 2 %}{% extends \"p\" %}{% endif %}{% endfor %}z => 12P",
    "{% block a %}{% extends \"p\" %}q{% endblock %}! => P!",
    "{% macro m() %}{% extends \"p\" %}q{% endmacro %}[{{ m() }}] => []",
    "{% extends \"p\" %}{% extends \"p\" %} => !InvalidOperation",
    "{% extends 1 %} => !InvalidOperation",
    "{% extends \"no\" %} => !TemplateNotFound",
    "{% block a %}x{% endblock %}{{ self.a() }} => xx",
    "{{ self.q() }} => !UnknownBlock",
    "{{ super() }} => !InvalidOperation",
    "{% block a required %}{% endblock %} => !InvalidOperation",
    "{% if false %}{% block b %}{% for x in [1] %}{{ y.z }}{% endfor %}{% endblock %}{% endif %}ok => ok",
];

static INCLUDES: &[&str] = &[
    "{% include [\"no\", \"i\"] %} => ab1",
    "{% include \"no\" %} => !TemplateNotFound",
    "{% include \"no\" ignore missing %}{% include [] %} => ",
    "{% include 1 %} => !InvalidOperation",
    "{% include \"q\" %}[{{ q }}] => []",
    "{% from \"faulty\" import q %}[{{ q }}] => [1]",
    "{% import \"empty\" as m %} => ",
    "{% include \"self\" %} => !BadInclude",
    "{% extends \"holder\" %} => !BadInclude",
];

/// More templates that these rows use, each with its name first.
static OTHERS: [&str; 7] = [
    "p P",
    "q {% set q = 7 %}",
    "faulty {% set q = 1 %}{% block a %}{{ x.y }}{% endblock %}",
    "empty ",
    "self {% include \"self\" %}",
    "holder B{% include \"child\" %}",
    "child {% extends \"holder\" %}",
];

/// The rows' environment with these templates.
fn further_environment(alloc: Global) -> Result<Environment<'static>, Error> {
    let mut environment = new_environment(alloc)?;
    for other in &OTHERS {
        let (name, source) = other.split_once(' ').unwrap_or((other, ""));
        environment.add_template(name, source)?;
    }
    Ok(environment)
}

#[test]
fn operators_and_branches_hold(rt: HostRuntime) -> Result<(), Fail> {
    let environment = rows_environment(rt.alloc())?;
    assert!(rt; rows_hold(rt.alloc(), &environment, OPERATORS));
    assert!(rt; rows_hold(rt.alloc(), &environment, BRANCHES));
    Ok(())
}

#[test]
fn loops_hold(rt: HostRuntime) -> Result<(), Fail> {
    let environment = rows_environment(rt.alloc())?;
    assert!(rt; rows_hold(rt.alloc(), &environment, LOOPS));
    Ok(())
}

#[test]
fn functions_hold(rt: HostRuntime) -> Result<(), Fail> {
    let environment = rows_environment(rt.alloc())?;
    assert!(rt; rows_hold(rt.alloc(), &environment, FUNCTIONS));
    Ok(())
}

#[test]
fn macros_hold(rt: HostRuntime) -> Result<(), Fail> {
    let environment = rows_environment(rt.alloc())?;
    assert!(rt; rows_hold(rt.alloc(), &environment, MACROS));
    Ok(())
}

#[test]
fn recursions_hold(rt: HostRuntime) -> Result<(), Fail> {
    let environment = rows_environment(rt.alloc())?;
    assert!(rt; rows_hold(rt.alloc(), &environment, RECURSIONS));
    Ok(())
}

#[test]
fn blocks_hold(rt: HostRuntime) -> Result<(), Fail> {
    let environment = match further_environment(rt.alloc()) {
        Ok(environment) => environment,
        Err(_refused) => further_environment(rt.alloc())?,
    };
    assert!(rt; rows_hold(rt.alloc(), &environment, BLOCKS));
    Ok(())
}

#[test]
fn includes_hold(rt: HostRuntime) -> Result<(), Fail> {
    let environment = match further_environment(rt.alloc()) {
        Ok(environment) => environment,
        Err(_refused) => further_environment(rt.alloc())?,
    };
    assert!(rt; rows_hold(rt.alloc(), &environment, INCLUDES));
    Ok(())
}

/// Rows for templates with other names, each with its name first.
static NAMED: &[&str] = &[
    "p.html {{ \"<a href='/'>\" }} => &lt;a href=&#x27;&#x2f;&#x27;&gt;",
    "p.json {{ [1, none, \"a\"] }} => [1,null,\"a\"]",
    "p.json {{ 2 ** 64 }} => !BadSerialization",
    "p.html {% set x %}<b>{% endset %}{{ x }} => <b>",
    "p.html {% autoescape false %}{% set x %}<b>{% endset %}{% endautoescape %}{{ x }} => &lt;b&gt;",
    "p.html {% set ns = namespace() %}{% set ns.a = ns %}{{ ns }} => !InvalidOperation",
];

fn named_end<P: Parties>(environment: &EnvironmentOf<'static, P>, line: &'static str) -> End {
    let (case, wanted) = row_of(line);
    let (name, source) = case.split_once(' ').unwrap_or((case, ""));
    let answer = environment.render_named_str(
        &mut StateIds::new(),
        name,
        source,
        Value::undefined(),
    );
    end_of(answer, wanted)
}

fn named_hold<P: Parties>(environment: &EnvironmentOf<'static, P>) -> bool {
    for line in NAMED {
        let first = named_end(environment, line);
        if !holds(first, named_end(environment, line)) {
            return false;
        }
    }
    true
}

#[test]
fn names_choose_escapes(rt: HostRuntime) -> Result<(), Fail> {
    let environment = rows_environment(rt.alloc())?;
    assert!(rt; named_hold(&environment));
    Ok(())
}

/// A setting of an environment.
#[derive(Clone, Copy)]
enum Setting {
    Limit(usize),
    Fuel(u64),
    Undefined(UndefinedBehavior),
}

/// Rows under settings.
static SETTINGS: &[(Setting, &str)] = &[
    (Setting::Limit(12), "{% include \"i\" %} => ab1"),
    (
        Setting::Limit(11),
        "{% include \"i\" %} => !InvalidOperation",
    ),
    (
        Setting::Limit(7),
        "{% macro m() %}x{% endmacro %}{{ m() }} => x",
    ),
    (
        Setting::Limit(6),
        "{% macro m() %}x{% endmacro %}{{ m() }} => !InvalidOperation",
    ),
    (Setting::Limit(2), "{% with %}{% endwith %} => "),
    (
        Setting::Limit(1),
        "{% with %}{% endwith %} => !InvalidOperation",
    ),
    (Setting::Limit(500), " => "),
    (Setting::Fuel(5), "{% include \"i\" %} => ab1"),
    (Setting::Fuel(3), "{% include \"i\" %} => !BadInclude"),
    (
        Setting::Fuel(14),
        "{% for x in [1,2] %}{{ x }}{% endfor %} => 12",
    ),
    (
        Setting::Fuel(13),
        "{% for x in [1,2] %}{{ x }}{% endfor %} => !OutOfFuel",
    ),
    (Setting::Fuel(1000), " => "),
    (
        Setting::Undefined(UndefinedBehavior::Strict),
        "[{{ x }}] => !UndefinedError",
    ),
    (
        Setting::Undefined(UndefinedBehavior::Strict),
        "[{{ x ~ \"a\" }}] => !UndefinedError",
    ),
    (
        Setting::Undefined(UndefinedBehavior::Strict),
        "{{ 1 if false }} => ",
    ),
    (
        Setting::Undefined(UndefinedBehavior::Chainable),
        "[{{ x.y }}] => []",
    ),
    (
        Setting::Undefined(UndefinedBehavior::Lenient),
        "[{{ x }}] => []",
    ),
];

fn set<P: Parties>(environment: &mut EnvironmentOf<'static, P>, setting: Setting) {
    match setting {
        Setting::Limit(limit) => environment.set_recursion_limit(limit),
        Setting::Fuel(fuel) => environment.set_fuel(Some(fuel)),
        Setting::Undefined(behavior) => environment.set_undefined_behavior(behavior),
    }
}

fn settings_hold<P: Parties>(alloc: Global, environment: &mut EnvironmentOf<'static, P>) -> bool {
    for &(setting, line) in SETTINGS {
        set(environment, setting);
        let first = row_end(alloc, environment, line);
        if !holds(first, row_end(alloc, environment, line)) {
            return false;
        }
    }
    true
}

#[test]
fn settings_hold_for_memory(rt: HostRuntime) -> Result<(), Fail> {
    let mut environment = rows_environment(rt.alloc())?;
    assert!(rt; settings_hold(rt.alloc(), &mut environment));
    Ok(())
}
