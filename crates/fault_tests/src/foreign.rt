//! Values of other states, values with numbers that a state lacks, and values that contain
//! themselves.

use crate::objects::add_objects;
use refusal_tests::{new_environment, row_of};
use std::alloc::Global;
use std::test::Fail;
use template_machine::*;

/// What templates do with a namespace of another state: a template's name, its source, and its
/// text, or the kind of its fault after `!`.
static NAMESPACE_ROWS: [&str; 30] = [
    "t {{ v }} => !InvalidOperation",
    "t {{ v.a }} => !InvalidOperation",
    "t {{ v[\"a\"] }} => !InvalidOperation",
    "t {{ v.m() }} => !InvalidOperation",
    "t {{ v(1) }} => !InvalidOperation",
    "t {{ v[0:1] }} => !InvalidOperation",
    "t {{ v ~ 1 }} => !InvalidOperation",
    "t {{ \"a\" in v }} => !InvalidOperation",
    "t {{ dict(v) }} => !InvalidOperation",
    "t {{ namespace(v).a }} => !InvalidOperation",
    "t {{ dict(**v) }} => !InvalidOperation",
    "t {{ range(*v) }} => !InvalidOperation",
    "t {{ {1: v} }} => !InvalidOperation",
    "t {% set v.a = 1 %} => !InvalidOperation",
    "t {% set a, b = v %} => !InvalidOperation",
    "t {% for a, b in [v] %}{% endfor %} => !InvalidOperation",
    "t {% include v %} => !InvalidOperation",
    "t {% extends v %} => !InvalidOperation",
    "t {% call v() %}a{% endcall %} => !InvalidOperation",
    "t {% for k in v %}{% endfor %} => !InvalidOperation",
    "p.html {{ v }} => !InvalidOperation",
    "p.html {{ [v] }} => !InvalidOperation",
    "p.json {{ v }} => !InvalidOperation",
    "p.json {{ [{\"a\": v}] }} => !InvalidOperation",
    "p.json {{ [v, {1: 2}] }} => !InvalidOperation",
    "p.json {{ [{1: 2}, v] }} => !BadSerialization",
    "t {{ v == v }} => true",
    "t {{ v in [v] }}{{ v < v }}{{ v > 1 }}{{ not v }} => truefalsetruefalse",
    "t {{ 1 if v }} => 1",
    "p.html {% autoescape v %}<{{ \"<\" }}{% endautoescape %}{{ v is same }} => <<true",
];

/// What templates do with a loop of another state.
static LOOP_ROWS: [&str; 23] = [
    "t {{ v.index }} => !InvalidOperation",
    "t {{ v.previtem }} => !InvalidOperation",
    "t {{ v.nope }} => !InvalidOperation",
    "t {{ v }} => !InvalidOperation",
    "t {{ v ~ 1 }} => !InvalidOperation",
    "t {{ v.changed(1) }} => !InvalidOperation",
    "t {{ v.cycle(1) }} => !InvalidOperation",
    "t {{ v(1) }} => !InvalidOperation",
    "t {{ v([]) ~ 1 }} => !InvalidOperation",
    "t {% do v([]) %} => !InvalidOperation",
    "t {{ 1 in v }} => !InvalidOperation",
    "t {{ dict(v) }} => !InvalidOperation",
    "t {% extends v %} => !InvalidOperation",
    "t {% set v.a = 1 %} => !InvalidOperation",
    "p.html {{ [v] }} => !InvalidOperation",
    "p.json {{ v }} => !BadSerialization",
    "t {{ v.m() }} => !UnknownMethod",
    "t {% include v %} => !TemplateNotFound",
    "t {% set a, b = v %} => !CannotUnpack",
    "t {% include v ignore missing %} => ",
    "t {{ v == v }}{{ v in [v] }}{{ 1 if v }}{{ v is same }} => truetrue1true",
    "t {{ [v]|same == [v] }} => true",
    "t {% for k in v %}{{ k }},{% endfor %} => index0,index,length,revindex,revindex0,first,last,depth,depth0,previtem,nextitem,",
];

/// What templates do with a macro `v` of another state, which has one parameter.
static DECLARED_ROWS: [&str; 14] = [
    "t {{ v() }} => !InvalidOperation",
    "t {{ v(1, 2, 3) }} => !InvalidOperation",
    "t {{ [v][0](1) }} => !InvalidOperation",
    "t {% call v(1) %}a{% endcall %} => !InvalidOperation",
    "t {{ v.name() }} => !InvalidOperation",
    "t {{ v.m() }} => !UnknownMethod",
    "t {% include v %} => !TemplateNotFound",
    "p.json {{ v }} => !BadSerialization",
    "t {{ v }} => <macro v>",
    "p.html {{ v }} => &lt;macro v&gt;",
    "t {{ v.name }}{{ v.arguments }}{{ v.caller }} => v[\"x\"]false",
    "t {% for k in v %}{{ k }},{% endfor %} => name,arguments,caller,",
    "t {% set a, b, c = v %}{{ a }} => name",
    "t {{ v == v }} => true",
];

/// What templates do with the module of `d` that another state imported.
static MODULE_ROWS: [&str; 7] = [
    "t {{ v.f(5) }} => !InvalidOperation",
    "t {{ v[\"f\"](5) }} => !InvalidOperation",
    "p.json {{ v }} => !BadSerialization",
    "p.html {{ v.f }}{{ v }} => &lt;macro f&gt;",
    "t {{ v.q }} => 2",
    "t {% for k in v %}{{ k }},{% endfor %} => f,q,",
    "t {{ dict(v).q }} => 2",
];

/// What templates do with a function's number that the environment lacks.
static LACKED_ROWS: [&str; 9] = [
    "t {{ v() }} => !InvalidOperation",
    "t {{ [v][0](1) }} => !InvalidOperation",
    "t {% call v() %}a{% endcall %} => !InvalidOperation",
    "t {% for k in v %}{% endfor %} => !InvalidOperation",
    "t {% set a, b = v %} => !CannotUnpack",
    "t {{ v.m() }} => !UnknownMethod",
    "p.json {{ [v] }} => !BadSerialization",
    "p.html {{ v }} => &lt;function&gt;",
    "t {{ v == v }}{{ v.a }} => true",
];

/// What templates do with values of their own.
static OWN_ROWS: [&str; 5] = [
    "t {% set ns = namespace() %}{% for x in [1] %}{% set ns.l = loop %}{% endfor %}{{ ns.l }} {{ ns.l.index }} => <loop 1/1> 2",
    "t {% set a = namespace(x=1) %}{% set b = namespace() %}{% set b.p = a %}{% set b.q = a %}{{ b }} => {\"p\": {\"x\": 1}, \"q\": {\"x\": 1}}",
    "t {% set ns = namespace() %}{% set ns.a = ns %}{{ ns }} => !InvalidOperation",
    "p.html {% set ns = namespace() %}{% set ns.a = ns %}{{ ns }} => !InvalidOperation",
    "p.json {% set ns = namespace() %}{% set ns.a = ns %}{{ ns }} => !InvalidOperation",
];

/// The values of expressions for a namespace of another state.
static NAMESPACE_EXPRESSIONS: [&str; 14] = [
    "v => !InvalidOperation",
    "[1, [v]] => !InvalidOperation",
    "{\"k\": v} => !InvalidOperation",
    "v.a => !InvalidOperation",
    "v[\"a\"] => !InvalidOperation",
    "v.m() => !InvalidOperation",
    "v(1) => !InvalidOperation",
    "v ~ 1 => !InvalidOperation",
    "1 in v => !InvalidOperation",
    "dict(v) => !InvalidOperation",
    "v|same => !InvalidOperation",
    "v == v => true",
    "[v in [v], v < v, not v] => [true, false, false]",
    "[1 if v, v is same] => [1, true]",
];

/// The values of expressions for a loop of another state.
static LOOP_EXPRESSIONS: [&str; 10] = [
    "v.index => !InvalidOperation",
    "v ~ 1 => !InvalidOperation",
    "v.changed(1) => !InvalidOperation",
    "v.cycle(1) => !InvalidOperation",
    "v(1) => !InvalidOperation",
    "1 in v => !InvalidOperation",
    "v.m() => !UnknownMethod",
    "v == v => true",
    "(v|same) == v => true",
    "[1 if v, v is same, not v] => [1, true, false]",
];

/// The macro `v` of another counter's first state, called in states with and without a macro.
static MACRO_ROWS: [&str; 2] = [
    "t {{ v() }} => !InvalidOperation",
    "t {% macro q() %}b{% endmacro %}{{ v() }} => b",
];

static FUNCTION_ROWS: [&str; 2] = [
    "t {{ v() }} => !InvalidOperation",
    "t {{ v }} => <function>",
];

/// How a row's source is run, with the value bound to `v`.
#[derive(Clone, Copy, Debug, PartialEq, Eq)]
enum Way {
    /// As a template that is rendered.
    Here,
    /// As a template that is included.
    Included,
    /// As a template that is imported; its text is that of its module.
    Imported,
    /// As the body of a macro that is called with the value.
    Called,
    /// As the body of a macro that a filter asks for.
    Filtered,
    /// As an expression.
    Evaluated,
}

static WAYS: [Way; 5] = [
    Way::Here,
    Way::Included,
    Way::Imported,
    Way::Called,
    Way::Filtered,
];

fn is_end(answer: Result<String, Error>, wanted: &str) -> bool {
    match answer {
        Ok(text) => text.as_str() == wanted,
        Err(error) => is_fault(&error, wanted),
    }
}

/// Whether an error is of the kind after `!`, without a cause.
fn is_fault(error: &Error, wanted: &str) -> bool {
    match wanted.strip_prefix('!') {
        Some(kind) => error.kind().name() == kind && error.cause().is_none(),
        None => false,
    }
}

/// Whether a row that was run in this way ended as expected. BadInclude wraps the fault of a
/// template that is included or imported.
fn is_end_of(way: Way, answer: Result<String, Error>, wanted: &str) -> bool {
    if way != Way::Included && way != Way::Imported {
        return is_end(answer, wanted);
    }
    match answer {
        Ok(text) => text.as_str() == wanted,
        Err(error) => match error.cause() {
            Some(cause) => error.kind() == ErrorKind::BadInclude && is_fault(cause, wanted),
            None => false,
        },
    }
}

/// A map that binds `v` to the value.
pub(crate) fn with(alloc: Global, value: &Value) -> Result<Value, Error> {
    let mut map = ValueMap::new(alloc);
    map.insert(Value::text(alloc, "v")?, value.share()?)?;
    Value::from_map(alloc, map)
}

/// Three texts joined.
fn joined(alloc: Global, before: &str, middle: &str, after: &str) -> Result<String, Error> {
    let mut text = String::from_str(alloc, before)?;
    text.push_str(middle)?;
    text.push_str(after)?;
    Ok(text)
}

/// A template's name and its source.
#[derive(Clone, Copy)]
struct Page<'a> {
    name: &'a str,
    source: &'a str,
}

/// The text of a macro with the page's source, called with the value.
fn call<P: Parties>(
    alloc: Global,
    environment: &EnvironmentOf<'static, P>,
    ids: &mut StateIds,
    page: Page<'static>,
    value: &Value,
) -> Result<String, Error> {
    let source = joined(alloc, "{% macro m(v) %}", page.source, "{% endmacro %}")?;
    let template = environment.template_from_named_str(page.name, source.as_str())?;
    let captured = template.render_captured(ids, Value::undefined())?;
    let (_output, mut state) = captured.into_parts();
    state.call_macro("m", &[value.share()?])
}

/// The text of such a macro if a filter asks for it.
fn filter<P: Parties>(
    alloc: Global,
    environment: &EnvironmentOf<'static, P>,
    ids: &mut StateIds,
    page: Page<'static>,
    value: &Value,
) -> Result<String, Error> {
    let source = joined(alloc, "{% macro m() %}", page.source, "{% endmacro %}")?;
    let template = environment.template_from_named_str(page.name, source.as_str())?;
    let captured = template.render_captured(ids, with(alloc, value)?)?;
    let (_output, mut state) = captured.into_parts();
    let answer = state.apply_filter("by_macro", &[value.share()?])?;
    printing::to_text(alloc, &answer, &NoRecords)
}

/// The text of a template whose source is `before`, the page's name and `after`.
fn name_page<P: Parties>(
    alloc: Global,
    environment: &mut EnvironmentOf<'static, P>,
    ids: &mut StateIds,
    page: Page<'static>,
    before: &str,
    after: &str,
    given: Value,
) -> Result<String, Error> {
    environment.add_template(page.name, page.source)?;
    let source = joined(alloc, before, page.name, after)?;
    let template = environment.template_from_str(source.as_str())?;
    template.render(ids, given)
}

/// The text of a page that is run in this way.
fn run<P: Parties>(
    alloc: Global,
    environment: &mut EnvironmentOf<'static, P>,
    ids: &mut StateIds,
    page: Page<'static>,
    way: Way,
    value: &Value,
) -> Result<String, Error> {
    let given = with(alloc, value)?;
    match way {
        Way::Here => environment.render_named_str(ids, page.name, page.source, given),
        Way::Included => name_page(
            alloc,
            environment,
            ids,
            page,
            "{% include \"",
            "\" %}",
            given,
        ),
        Way::Imported => name_page(
            alloc,
            environment,
            ids,
            page,
            "{% import \"",
            "\" as i %}{{ i }}",
            given,
        ),
        Way::Called => call(alloc, environment, ids, page, value),
        Way::Filtered => filter(alloc, environment, ids, page, value),
        Way::Evaluated => evaluate(alloc, environment, ids, page.source, value),
    }
}

/// A row that didn't end as expected, and how it was run.
type Miss = (Way, &'static str);

/// Adds the rows that don't end as expected if they are run in this way.
fn miss_in<P: Parties>(
    environment: &mut EnvironmentOf<'static, P>,
    ids: &mut StateIds,
    lines: &[&'static str],
    way: Way,
    value: &Value,
    misses: &mut Vec<Miss>,
) -> Result<(), Error> {
    let alloc = *misses.allocator();
    for line in lines {
        let (case, wanted) = row_of(line);
        let (name, source) = case.split_once(' ').unwrap_or((case, ""));
        let answer = run(alloc, environment, ids, Page { name, source }, way, value);
        if !is_end_of(way, answer, wanted) {
            misses.push((way, *line))?;
        }
    }
    Ok(())
}

/// Adds the rows that don't end as expected, for each way.
fn try_rows<P: Parties>(
    environment: &mut EnvironmentOf<'static, P>,
    ids: &mut StateIds,
    lines: &[&'static str],
    value: &Value,
    misses: &mut Vec<Miss>,
) -> Result<(), Error> {
    for way in &WAYS {
        miss_in(environment, ids, lines, *way, value, misses)?;
    }
    Ok(())
}

/// The value of an expression, as text.
fn evaluate<P: Parties>(
    alloc: Global,
    environment: &EnvironmentOf<'static, P>,
    ids: &mut StateIds,
    source: &'static str,
    value: &Value,
) -> Result<String, Error> {
    let given = with(alloc, value)?;
    let answer = environment.compile_expression(source)?.eval(ids, given)?;
    printing::to_text(alloc, &answer, &NoRecords)
}

/// Adds the expressions that don't have the expected value.
fn miss_expressions<P: Parties>(
    environment: &EnvironmentOf<'static, P>,
    ids: &mut StateIds,
    lines: &[&'static str],
    value: &Value,
    misses: &mut Vec<Miss>,
) -> Result<(), Error> {
    let alloc = *misses.allocator();
    for line in lines {
        let (source, wanted) = row_of(line);
        if !is_end(evaluate(alloc, environment, ids, source, value), wanted) {
            misses.push((Way::Evaluated, *line))?;
        }
    }
    Ok(())
}

/// The value that `v` is bound to in the state after a render of the source.
pub(crate) fn left<P: Parties>(
    environment: &EnvironmentOf<'static, P>,
    ids: &mut StateIds,
    source: &'static str,
) -> Result<Value, Error> {
    let template = environment.template_from_str(source)?;
    let captured = template.render_captured(ids, Value::undefined())?;
    let found = captured.state().lookup("v")?;
    Ok(found.unwrap_or(Value::undefined()))
}

/// A source whose state binds `v` to a loop.
pub(crate) const KEPT_LOOP: &str =
    "{% set n = namespace() %}{% for x in [1] recursive %}{% set n.l = loop %}{% endfor %}{% set v = n.l %}";

fn miss_namespaces<P: Parties>(
    environment: &mut EnvironmentOf<'static, P>,
    misses: &mut Vec<Miss>,
) -> Result<(), Error> {
    let mut ids = StateIds::new();
    let value = left(environment, &mut ids, "{% set v = namespace(a=1) %}")?;
    let values = [value, Value::namespace(u64::MAX, 0)];
    for found in &values {
        try_rows(environment, &mut ids, &NAMESPACE_ROWS, found, misses)?;
        miss_expressions(environment, &mut ids, &NAMESPACE_EXPRESSIONS, found, misses)?;
    }
    Ok(())
}

fn miss_loops<P: Parties>(
    environment: &mut EnvironmentOf<'static, P>,
    misses: &mut Vec<Miss>,
) -> Result<(), Error> {
    let mut ids = StateIds::new();
    let value = left(environment, &mut ids, KEPT_LOOP)?;
    let values = [value, Value::loop_record(0, 7)];
    for found in &values {
        try_rows(environment, &mut ids, &LOOP_ROWS, found, misses)?;
        miss_expressions(environment, &mut ids, &LOOP_EXPRESSIONS, found, misses)?;
    }
    Ok(())
}

fn miss_others<P: Parties>(
    environment: &mut EnvironmentOf<'static, P>,
    misses: &mut Vec<Miss>,
) -> Result<(), Error> {
    let mut ids = StateIds::new();
    let declared = left(environment, &mut ids, "{% macro v(x) %}a{% endmacro %}")?;
    let module = left(environment, &mut ids, "{% import \"d\" as v %}")?;
    let lacked = Value::function(30);
    let own = Value::undefined();
    try_rows(environment, &mut ids, &DECLARED_ROWS, &declared, misses)?;
    try_rows(environment, &mut ids, &MODULE_ROWS, &module, misses)?;
    try_rows(environment, &mut ids, &LACKED_ROWS, &lacked, misses)?;
    try_rows(environment, &mut ids, &OWN_ROWS, &own, misses)
}

/// Adds the failing rows of a macro whose state has the same number as theirs, and those of a
/// missing function.
fn miss_callables<P: Parties>(
    environment: &mut EnvironmentOf<'static, P>,
    misses: &mut Vec<Miss>,
) -> Result<(), Error> {
    let mut ids = StateIds::new();
    let declared = left(environment, &mut ids, "{% macro v() %}a{% endmacro %}")?;
    for line in &MACRO_ROWS {
        let mut ids = StateIds::new();
        miss_in(
            environment,
            &mut ids,
            &[*line],
            Way::Here,
            &declared,
            misses,
        )?;
    }
    let lacked = Value::function(3);
    miss_in(
        environment,
        &mut ids,
        &FUNCTION_ROWS,
        Way::Here,
        &lacked,
        misses,
    )
}

#[test]
fn values_of_others_are_refused(rt: HostRuntime) -> Result<(), Fail> {
    let alloc = rt.alloc();
    let mut environment = new_environment(alloc)?;
    let mut misses: Vec<Miss> = Vec::new(alloc);
    miss_callables(&mut environment, &mut misses)?;
    add_objects(alloc, &mut environment)?;
    miss_namespaces(&mut environment, &mut misses)?;
    miss_loops(&mut environment, &mut misses)?;
    miss_others(&mut environment, &mut misses)?;
    assert!(rt; misses.is_empty(), "{misses:?}");
    Ok(())
}

/// Whether a render gets the last number of a counter, and the next render is refused and writes
/// nothing.
fn is_full_after<P: Parties>(
    alloc: Global,
    environment: &EnvironmentOf<'static, P>,
) -> Result<bool, Error> {
    let mut ids = StateIds::resume(u64::MAX - 1);
    let template = environment.template_from_str("x")?;
    let mut writer = Counted::new(Vec::new(alloc));
    let last = template.render_captured_to(&mut ids, Value::undefined(), &mut writer)?;
    drop(last);
    let is_refused = match template.render_captured_to(&mut ids, Value::undefined(), &mut writer) {
        Ok(_captured) => false,
        Err(error) => error.kind() == ErrorKind::InvalidOperation && error.cause().is_none(),
    };
    Ok(is_refused && writer.inner().as_slice() == b"x".as_slice() && writer.failures() == 0)
}

#[test]
fn a_full_counter_refuses_a_render(rt: HostRuntime) -> Result<(), Fail> {
    let environment = Environment::new(rt.alloc())?;
    assert!(rt; is_full_after(rt.alloc(), &environment)?);
    Ok(())
}

/// A loop that is called from an include of a template with the same name.
const INCLUDING: &str = "{% for x in [[]] recursive %}{% include \"t\" %}{% endfor %}";

/// Whether a loop can't be called from an include: BadInclude, caused by InvalidOperation.
fn loop_stays_out<P: Parties>(environment: &EnvironmentOf<'static, P>) -> bool {
    match environment.render_named_str(&mut StateIds::new(), "t", INCLUDING, Value::undefined()) {
        Ok(_text) => false,
        Err(error) => match error.cause() {
            Some(cause) => {
                error.kind() == ErrorKind::BadInclude && cause.kind() == ErrorKind::InvalidOperation
            }
            None => false,
        },
    }
}

/// 1 in `count` pairs of brackets.
fn nested(alloc: Global, count: usize) -> Result<String, Error> {
    let mut source = String::new(alloc);
    source.push_str("{{ ")?;
    for _ in 0..count {
        source.push_str("(")?;
    }
    source.push_str("1")?;
    for _ in 0..count {
        source.push_str(")")?;
    }
    source.push_str(" }}")?;
    Ok(source)
}

/// Whether 150 levels of nesting are accepted, and one more is refused.
fn nests<P: Parties>(
    alloc: Global,
    environment: &EnvironmentOf<'static, P>,
) -> Result<bool, Error> {
    let (deep, deeper) = (nested(alloc, 150)?, nested(alloc, 151)?);
    let mut ids = StateIds::new();
    let text = environment.render_str(&mut ids, deep.as_str(), Value::undefined())?;
    let refused = environment.render_str(&mut ids, deeper.as_str(), Value::undefined());
    Ok(text.as_str() == "1" && is_end(refused, "!SyntaxError"))
}

#[test]
fn what_nests_has_its_limits(rt: HostRuntime) -> Result<(), Fail> {
    let mut environment = Environment::new(rt.alloc())?;
    environment.add_template("t", "{{ loop([]) }}")?;
    assert!(rt; loop_stays_out(&environment));
    assert!(rt; nests(rt.alloc(), &environment)?);
    Ok(())
}
