//! Calls that allocate: each has the same result as with enough memory, or runs out of memory and
//! has that result when it is repeated.

use crate::ends::{End, end_of, holds, refused_or, written_end};
use crate::rows::{last_kind, new_environment, row_of};
use std::alloc::Global;
use std::test::Fail;
use template_machine::*;

/// Sources with their text, or with the kinds of their faults after `!`.
static ROWS: [&str; 22] = [
    "{% for x in [1,2] %}{{ x }}{% endfor %} => 12",
    "{% for t in [[[]],[]] recursive %}{{ t }}({{ loop(t) }}){% endfor %} => [[]]([]())[]()",
    "{% for t in [[[]],[]] recursive %}{{ t ~ \"[\" ~ loop(t) ~ \"]\" }}{% endfor %} => [[]][[][]][][]",
    "{% for i in [1,2] %}{% macro m() %}{{ j }}{% endmacro %}{{ m() }}{% set j = i %}{{ m() }}{% endfor %} => 112",
    "{% for x in [1] %}{% break %}{% else %}E{% endfor %} => ",
    "{% extends \"base\" %}{% set y = 1 %}ignored{% block a %}[{{ super() }}{{ y }}]{% endblock %} => B:[x1]",
    "{% extends \"cycle\" %}x => !InvalidOperation",
    "{% set x %}{% extends \"base\" %}{% endset %} => !InvalidOperation",
    "{% include \"i\" %} => ab1",
    "{% macro m(a, b=2) %}{{ a }}{{ b }}{% endmacro %}{{ m(1) }}{{ m(b=5) }} => 125",
    "{% macro m(a, b=2) %}{{ a }}{{ b }}{% endmacro %}{{ m(1, a=3) }} => !TooManyArguments",
    "{% block b %}{% for x in [1] %}{{ y.z }}{% endfor %}{% endblock %} => !UndefinedError",
    "{{ range(5, 0, -2) }} => [5, 3, 1]",
    "{% set ns = namespace() %}{% set ns.a = ns %}{{ ns }} => !InvalidOperation",
    "{% block a %}{% include \"s\" %}{% endblock %} => !BadInclude",
    "{% for x in [[1]] recursive %}{% block b %}{{ loop(x) }}{% endblock %}{% endfor %} => !InvalidOperation",
    "{% for x in [\"a\",\"b\"] %}{{ loop.previtem }}{{ loop.cycle(\"x\",\"y\") }} {% endfor %} => x ay ",
    "{% for x in [1,2,3] if x > 1 %}{{ loop.index }}:{{ x }};{% endfor %} => 1:2;2:3;",
    "{% macro m() %}[{{ caller(2) }}]{% endmacro %}{% call(n) m() %}{{ n + 1 }}{% endcall %} => [3]",
    "{% import \"d\" as m %}{{ m.f(5) }}{{ m.q }}{{ m._p }} => <5>2",
    "{% from \"d\" import f as g %}{{ g(1) }} => <1>",
    "{% set x %}a{{ 1 }}{% endset %}{{ x }}{{ dict({\"a\": 1}, b=2) }} => a1{\"a\": 1, \"b\": 2}",
];

/// A source for questions to its state: it has blocks, and a macro that is called with 5.
const PARTS: &str =
    "{% set a = 1 %}{% macro m(x, y=3) %}[{{ x }}{{ y }}{{ a }}]{% endmacro %}{% if false %}{% block b %}{% for x in [1] %}{{ y.z }}{% endfor %}{% endblock %}{% endif %}{% block c %}{% set w = [1] %}{% include \"i\" %}{{ m(w) }}{% endblock %}";

fn renders<P: Parties>(alloc: Global, template: &TemplateOf<'_, '_, P>, wanted: &str) -> End {
    let mut writer = Counted::new(Vec::new(alloc));
    match template.render_captured_to(&mut StateIds::new(), Value::undefined(), &mut writer) {
        Ok(_captured) => written_end(Ok(()), &writer, wanted),
        Err(error) => written_end(Err(error), &writer, wanted),
    }
}

/// How a row ends when it is compiled and rendered.
pub(crate) fn row_end<P: Parties>(
    alloc: Global,
    environment: &EnvironmentOf<'static, P>,
    line: &'static str,
) -> End {
    let (source, wanted) = row_of(line);
    match environment.template_from_str(source) {
        Ok(template) => renders(alloc, &template, wanted),
        Err(error) => refused_or(&error, wanted),
    }
}

/// Whether all rows end as they say, even if one growth is refused.
pub(crate) fn rows_hold<P: Parties>(
    alloc: Global,
    environment: &EnvironmentOf<'static, P>,
    lines: &[&'static str],
) -> bool {
    for line in lines {
        let first = row_end(alloc, environment, line);
        if !holds(first, row_end(alloc, environment, line)) {
            return false;
        }
    }
    true
}

/// Whether the template `t` writes the expected text, even if one growth is refused.
fn gives<P: Parties>(environment: &EnvironmentOf<'static, P>, wanted: &str) -> bool {
    let Ok(template) = environment.get_template("t") else {
        return false;
    };
    let first = end_of(
        template.render(&mut StateIds::new(), Value::undefined()),
        wanted,
    );
    holds(
        first,
        end_of(
            template.render(&mut StateIds::new(), Value::undefined()),
            wanted,
        ),
    )
}

/// How an addition ended: after it `t` writes `new`, and before it `old`.
fn added<P: Parties>(
    environment: &EnvironmentOf<'static, P>,
    answer: Result<(), Error>,
    old: &str,
    new: &str,
) -> End {
    match answer {
        Ok(()) => if gives(environment, new) {
            End::Same
        } else {
            End::Wrong
        },
        Err(error) => if last_kind(&error) == ErrorKind::OutOfMemory && gives(environment, old) {
            End::Refused
        } else {
            End::Wrong
        },
    }
}

fn add_template<P: Parties>(
    environment: &mut EnvironmentOf<'static, P>,
    source: &'static str,
    old: &str,
    new: &str,
) -> End {
    let answer = environment.add_template("t", source);
    added(environment, answer, old, new)
}

fn add_global<P: Parties>(
    environment: &mut EnvironmentOf<'static, P>,
    number: i128,
    old: &str,
    new: &str,
) -> End {
    let answer = environment.add_global("g", Value::number(number));
    added(environment, answer, old, new)
}

fn adds_hold<P: Parties>(environment: &mut EnvironmentOf<'static, P>) -> bool {
    let first = add_template(environment, "{{ 1 }}[{{ g }}]", "old", "1[]");
    let old = if first == End::Same { "1[]" } else { "old" };
    let is_replaced = holds(
        first,
        add_template(environment, "{{ 1 }}[{{ g }}]", old, "1[]"),
    );
    let first = add_global(environment, 7, "1[]", "1[7]");
    let old = if first == End::Same { "1[7]" } else { "1[]" };
    is_replaced && holds(first, add_global(environment, 7, old, "1[7]"))
}

fn block<P: Parties>(state: &mut StateOf<'_, P>, name: &str, wanted: &str) -> End {
    end_of(state.render_block(name), wanted)
}

fn macro_end<P: Parties>(state: &mut StateOf<'_, P>, wanted: &str) -> End {
    end_of(state.call_macro("m", &[Value::number(5)]), wanted)
}

fn serves<P: Parties>(state: &mut StateOf<'_, P>) -> bool {
    let first = block(state, "b", "!UndefinedError");
    let is_faulty = holds(first, block(state, "b", "!UndefinedError"));
    let first = block(state, "c", "ab1[[1]31]");
    let is_block = holds(first, block(state, "c", "ab1[[1]31]"));
    let first = macro_end(state, "[531]");
    is_faulty && is_block && holds(first, macro_end(state, "[531]"))
}

/// The environment of the rows; one growth may be refused.
pub(crate) fn rows_environment(alloc: Global) -> Result<Environment<'static>, Error> {
    match new_environment(alloc) {
        Ok(environment) => Ok(environment),
        Err(_refused) => new_environment(alloc),
    }
}

fn state_serves<P: Parties>(environment: &EnvironmentOf<'static, P>) -> Result<bool, Error> {
    let template = environment.template_from_str(PARTS)?;
    let captured = template.render_captured(&mut StateIds::new(), Value::undefined())?;
    let (_output, mut state) = captured.into_parts();
    Ok(serves(&mut state))
}

#[test]
fn rows_answer_for_memory(rt: HostRuntime) -> Result<(), Fail> {
    let environment = rows_environment(rt.alloc())?;
    assert!(rt; rows_hold(rt.alloc(), &environment, &ROWS));
    Ok(())
}

#[test]
fn additions_answer_for_memory(rt: HostRuntime) -> Result<(), Fail> {
    let mut environment = rows_environment(rt.alloc())?;
    assert!(rt; adds_hold(&mut environment));
    Ok(())
}

#[test]
fn states_answer_for_memory(rt: HostRuntime) -> Result<(), Fail> {
    let environment = rows_environment(rt.alloc())?;
    let are_served = match state_serves(&environment) {
        Ok(are_served) => are_served,
        Err(_refused) => state_serves(&environment)?,
    };
    assert!(rt; are_served);
    Ok(())
}
