//! Queries and runs of a state, whichever growth is refused.

use crate::ends::{End, end_of, holds, is_fault, told, written_end};
use crate::objects::add_seven;
use crate::rows::new_environment;
use std::alloc::Global;
use std::test::Fail;
use template_machine::*;

/// The calls of a state that allocate.
#[derive(Clone, Copy)]
enum Asked {
    Local,
    Global,
    Nothing,
    Exports,
    Known,
    Template,
    Filter,
    NoFilter,
    Test,
    NoTest,
    Text,
    List,
    Block,
    NoBlock,
    Macro,
    Function,
    NoMacro,
}

static ASKED: [Asked; 17] = [
    Asked::Local,
    Asked::Global,
    Asked::Nothing,
    Asked::Exports,
    Asked::Known,
    Asked::Template,
    Asked::Filter,
    Asked::NoFilter,
    Asked::Test,
    Asked::NoTest,
    Asked::Text,
    Asked::List,
    Asked::Block,
    Asked::NoBlock,
    Asked::Macro,
    Asked::Function,
    Asked::NoMacro,
];

const SOURCE: &str =
    "{% set a = \"<\" %}{% set _b = 2 %}{% macro m(x, y=3) %}[{{ x }}{{ y }}{{ a }}]{% endmacro %}{% block b %}B{{ m(a) }}{{ _b }}{% endblock %}";

/// What the block and the macro write.
const BLOCK: &str = "B[&lt;3&lt;]2";

const MACRO: &str = "[73&lt;]";

/// Whether `a` and `m` are exported, and no other name.
fn exports<P: Parties>(state: &StateOf<'_, P>) -> Result<bool, Error> {
    let exports = state.exports()?;
    let mut count: usize = 0;
    for name in &exports {
        if *name == "a" || *name == "m" {
            count = count.saturating_add(1);
        }
    }
    Ok(count == 2 && exports.len() == 2)
}

fn formats<P: Parties>(alloc: Global, state: &StateOf<'_, P>) -> Result<bool, Error> {
    let mut items = Vec::new(alloc);
    items.push(Value::number(1))?;
    items.push(Value::text(alloc, "<")?)?;
    let list = Value::list(alloc, items)?;
    Ok(state.format(&list)?.as_str() == "[1, &quot;&lt;&quot;]")
}

/// Calls a state in a way that leaves it unchanged.
fn ask<P: Parties>(alloc: Global, state: &mut StateOf<'_, P>, of: Asked) -> Result<bool, Error> {
    let seven = [Value::number(7)];
    match of {
        Asked::Local => Ok(state.lookup("_b")? == Some(Value::number(2))),
        Asked::Global => Ok(state.lookup("range")? == Some(Value::function(0))),
        Asked::Nothing => Ok(state.lookup("no")?.is_none()),
        Asked::Exports => exports(state),
        Asked::Known => Ok(state.known_variables()?.len() == 7),
        Asked::Template => Ok(state.get_template("i")?.name() == "i"),
        Asked::Filter => Ok(state.apply_filter("f", &seven)? == Value::number(7)),
        Asked::NoFilter => is_fault(state.apply_filter("no", &seven), ErrorKind::UnknownFilter),
        Asked::Test => state.perform_test("f", &seven),
        Asked::NoTest => is_fault(state.perform_test("no", &seven), ErrorKind::UnknownTest),
        Asked::Text => Ok(state.format(&Value::number(42))?.as_str() == "42"),
        Asked::List => formats(alloc, state),
        Asked::Block => Ok(state.render_block("b")?.as_str() == BLOCK),
        Asked::NoBlock => is_fault(state.render_block("no"), ErrorKind::UnknownBlock),
        Asked::Macro => Ok(state.call_macro("m", &seven)?.as_str() == MACRO),
        Asked::Function => Ok(state.call_macro("f", &seven)?.as_str() == "7"),
        Asked::NoMacro => is_fault(state.call_macro("no", &seven), ErrorKind::UnknownFunction),
    }
}

/// Whether a state is as the render left it. Allocates nothing.
fn stands<P: Parties>(state: &StateOf<'_, P>) -> bool {
    state.name() == "a.html"
        && state.auto_escape() == AutoEscape::Html
        && state.current_block().is_none()
        && state.undefined_behavior() == UndefinedBehavior::Lenient
        && state.get_temp("k").is_none()
}

fn asked_end<P: Parties>(alloc: Global, state: &mut StateOf<'_, P>, of: Asked) -> End {
    let end = told(ask(alloc, state, of));
    if stands(state) { end } else { End::Wrong }
}

fn block_end<P: Parties>(alloc: Global, state: &mut StateOf<'_, P>) -> End {
    let mut writer = Counted::new(Vec::new(alloc));
    let answer = state.render_block_to_write("b", &mut writer);
    let end = written_end(answer, &writer, BLOCK);
    if stands(state) { end } else { End::Wrong }
}

/// Whether this number is kept, or none.
fn keeps<P: Parties>(state: &StateOf<'_, P>, number: Option<i128>) -> bool {
    match number {
        Some(number) => state.get_temp("k") == Some(&Value::number(number)),
        None => state.get_temp("k").is_none(),
    }
}

/// How keeping a number ended, after `before` was kept.
fn kept_end<P: Parties>(state: &mut StateOf<'_, P>, before: Option<i128>, number: i128) -> End {
    match state.set_temp("k", Value::number(number)) {
        Ok(given) => if given.is_some() == before.is_some() && keeps(state, Some(number)) {
            End::Same
        } else {
            End::Wrong
        },
        Err(error) => if error.kind() == ErrorKind::OutOfMemory && keeps(state, before) {
            End::Refused
        } else {
            End::Wrong
        },
    }
}

/// Whether all calls have their answers and leave the state unchanged, and values can then be kept
/// in it.
fn answers<P: Parties>(alloc: Global, state: &mut StateOf<'_, P>) -> bool {
    for of in &ASKED {
        let first = asked_end(alloc, state, *of);
        if !holds(first, asked_end(alloc, state, *of)) {
            return false;
        }
    }
    let first = block_end(alloc, state);
    let are_written = holds(first, block_end(alloc, state));
    let first = kept_end(state, None, 1);
    let before = if first == End::Same { Some(1) } else { None };
    are_written && holds(first, kept_end(state, before, 2))
}

fn state_answers<P: Parties>(
    alloc: Global,
    environment: &EnvironmentOf<'static, P>,
) -> Result<bool, Error> {
    let template = environment.template_from_named_str("a.html", SOURCE)?;
    let captured = template.render_captured(&mut StateIds::new(), Value::undefined())?;
    let (output, mut state) = captured.into_parts();
    Ok(output.as_str() == BLOCK && answers(alloc, &mut state))
}

/// The rows' environment with an object.
fn object_environment(alloc: Global) -> Result<Environment<'static>, Error> {
    let mut environment = new_environment(alloc)?;
    add_seven(alloc, &mut environment)?;
    Ok(environment)
}

/// Calls of an object in a template.
const CALLS: &str = "{{ f() }}{{ 1|f }}{{ 1 is f }}{{ f(*[1, 2]) }}{{ [f][0]() }}";

fn called<P: Parties>(environment: &EnvironmentOf<'static, P>) -> End {
    let answer = environment.render_str(&mut StateIds::new(), CALLS, Value::undefined());
    end_of(answer, "77true77")
}

#[test]
fn a_state_answers_for_memory(rt: HostRuntime) -> Result<(), Fail> {
    let environment = match object_environment(rt.alloc()) {
        Ok(environment) => environment,
        Err(_refused) => object_environment(rt.alloc())?,
    };
    let are_told = match state_answers(rt.alloc(), &environment) {
        Ok(are_told) => are_told,
        Err(_refused) => state_answers(rt.alloc(), &environment)?,
    };
    assert!(rt; are_told);
    let first = called(&environment);
    assert!(rt; holds(first, called(&environment)));
    Ok(())
}
