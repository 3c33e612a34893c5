//! Fuel that runs out at every charge.

use crate::objects::add_objects;
use refusal_tests::{last_kind, new_environment, row_of};
use std::alloc::Global;
use std::test::Fail;
use template_machine::*;

/// Sources that charge for each part of the language, with their texts.
static ROWS: [&str; 12] = [
    "a{{ 1 }}b => a1b",
    "{% for x in [1,2] %}{{ x }}{% endfor %} => 12",
    "{% for t in [[[]],[]] recursive %}{{ t }}({{ loop(t) }}){% endfor %} => [[]]([]())[]()",
    "{% for x in [1,2,3] if x > 1 %}{{ loop.index }}:{{ x }};{% endfor %} => 1:2;2:3;",
    "{% extends \"base\" %}{% set y = 1 %}ignored{% block a %}[{{ super() }}{{ y }}]{% endblock %} => B:[x1]",
    "{% include \"i\" %}{% include \"i\" %} => ab1ab1",
    "{% macro m(a, b=2) %}{{ a }}{{ b }}{% endmacro %}{{ m(1) }}{{ m(b=5) }} => 125",
    "{% macro m() %}[{{ caller(2) }}]{% endmacro %}{% call(n) m() %}{{ n + 1 }}{% endcall %} => [3]",
    "{% import \"d\" as m %}{{ m.f(5) }}{{ m.q }}{{ m._p }} => <5>2",
    "{% set x %}a{{ 1 }}{% endset %}{{ x }}{{ dict({\"a\": 1}, b=2) }} => a1{\"a\": 1, \"b\": 2}",
    "{% with a = 1 %}{{ a }}{% if a %}{{ a ~ \"x\" }}{% endif %}{% endwith %} => 11x",
    "{% set ns = namespace(n=0) %}{% for i in range(3) %}{% set ns.n = ns.n + i %}{% endfor %}{{ ns.n }} => 3",
];

/// Sources with further calls, and with jumps out of what they opened.
static FURTHER_ROWS: [&str; 9] = [
    "{% macro m() %}M{{ 1 }}{% endmacro %}[{{ by_macro() }}{{ 2|by_macro }}] => [M1M1]",
    "{% block b %}B{{ 1 }}{% endblock %}[{{ by_block() }}] => B1[B1]",
    "[{{ 1|same }}{{ by_filter() }}{{ 2|by_filter }}]{{ 1 is same }} => [1]true",
    "{% block a %}x{{ 1 }}{% endblock %}{{ self.a() ~ \"y\" }} => x1x1y",
    "{% extends \"base\" %}{% block a %}{{ super() ~ 1 }}{% endblock %} => B:x1",
    "{% filter same %}a{{ 1 }}{% endfilter %}{% set x|same %}b{% endset %}{{ x }} => a1b",
    "{% for x in [1,2,3] %}{% if x == 2 %}{% continue %}{% endif %}{% set z %}{{ x }}{% if x == 3 %}{% break %}{% endif %}{% endset %}{{ z }}{% endfor %} => 1",
    "{% from \"d\" import f as g %}{{ g(1) }}{% include [\"no\",\"i\"] %} => <1>ab1",
    "{% macro m(x) %}{{ x }}{% if x %}{{ m(x - 1) }}{% endif %}{% endmacro %}{{ m(2) }} => 210",
];

/// More fuel than any of the rows needs.
const AMPLE: u64 = 1000;

/// The fuel that a render with this much consumes, if it writes the expected text and all fuel is
/// accounted for.
fn taken<P: Parties>(
    alloc: Global,
    environment: &mut EnvironmentOf<'static, P>,
    line: &'static str,
    fuel: u64,
) -> Result<Option<u64>, Error> {
    let (source, wanted) = row_of(line);
    environment.set_fuel(Some(fuel));
    let template = environment.template_from_str(source)?;
    let mut writer = Counted::new(Vec::new(alloc));
    let captured = template.render_captured_to(
        &mut StateIds::new(),
        Value::undefined(),
        &mut writer,
    )?;
    let levels = captured.state().fuel_levels();
    if writer.inner().as_slice() != wanted.as_bytes() {
        return Ok(None);
    }
    match levels {
        Some((consumed, left)) if consumed <= fuel && fuel - consumed == left => Ok(Some(consumed)),
        _ => Ok(None),
    }
}

/// Whether a render with this much fuel runs out of it, after a prefix of the text.
fn runs_out<P: Parties>(
    alloc: Global,
    environment: &mut EnvironmentOf<'static, P>,
    line: &'static str,
    fuel: u64,
) -> Result<bool, Error> {
    let (source, wanted) = row_of(line);
    environment.set_fuel(Some(fuel));
    let template = environment.template_from_str(source)?;
    let mut writer = Counted::new(Vec::new(alloc));
    let is_out = match template.render_captured_to(
        &mut StateIds::new(),
        Value::undefined(),
        &mut writer,
    ) {
        Ok(_captured) => false,
        Err(error) => last_kind(&error) == ErrorKind::OutOfFuel,
    };
    Ok(is_out && wanted.as_bytes().starts_with(writer.inner().as_slice()))
}

/// Whether a row runs out of any fuel that is less than its charges, and is complete with just its
/// charges.
fn ends_anywhere<P: Parties>(
    alloc: Global,
    environment: &mut EnvironmentOf<'static, P>,
    line: &'static str,
) -> Result<bool, Error> {
    let Some(charges) = taken(alloc, environment, line, AMPLE)? else {
        return Ok(false);
    };
    for fuel in 0..charges {
        if !runs_out(alloc, environment, line, fuel)? {
            return Ok(false);
        }
    }
    Ok(charges > 0 && taken(alloc, environment, line, charges)? == Some(charges))
}

/// The number of rows for which this holds.
fn end_anywhere<P: Parties>(
    alloc: Global,
    environment: &mut EnvironmentOf<'static, P>,
    lines: &[&'static str],
) -> Result<usize, Error> {
    let mut count: usize = 0;
    for line in lines {
        if ends_anywhere(alloc, environment, line)? {
            count = count.saturating_add(1);
        }
    }
    Ok(count)
}

/// The number of `ROWS` for which this holds; one growth may be refused.
fn counted(alloc: Global) -> Result<usize, Error> {
    let mut environment = new_environment(alloc)?;
    end_anywhere(alloc, &mut environment, &ROWS)
}

#[test]
fn fuel_ends_anywhere(rt: HostRuntime) -> Result<(), Fail> {
    let count = match counted(rt.alloc()) {
        Ok(count) => count,
        Err(_refused) => counted(rt.alloc())?,
    };
    assert!(rt; count == ROWS.len(), "{count} rows");
    Ok(())
}

#[test]
fn fuel_ends_further_calls(rt: HostRuntime) -> Result<(), Fail> {
    let alloc = rt.alloc();
    let mut environment = new_environment(alloc)?;
    add_objects(alloc, &mut environment)?;
    let count = end_anywhere(alloc, &mut environment, &FURTHER_ROWS)?;
    assert!(rt; count == FURTHER_ROWS.len(), "{count} rows");
    Ok(())
}

/// A source for calls of the state after its render.
const PARTS: &str =
    "{% extends \"base\" %}{% macro m(x) %}<{{ x }}{{ caller }}>{% endmacro %}{% block a %}[{{ super() }}{{ m(2) }}]{% endblock %}";

/// The text of its block `a`.
const BLOCK: &str = "[x<2>]";

/// The charges of a render, of a block's run after it, and of a macro's call after that, each
/// including those before it.
#[derive(Clone, Copy)]
struct Charges {
    render: u64,
    block: u64,
    call: u64,
}

/// The fuel that a state has consumed.
fn consumed<P: Parties>(state: &StateOf<'_, P>) -> u64 {
    match state.fuel_levels() {
        Some((consumed, _left)) => consumed,
        None => 0,
    }
}

/// The charges of the calls of the state after `PARTS`, if their texts are the expected ones.
fn charges_of_calls<P: Parties>(
    environment: &mut EnvironmentOf<'static, P>,
) -> Result<Option<Charges>, Error> {
    environment.set_fuel(Some(AMPLE));
    let template = environment.template_from_str(PARTS)?;
    let captured = template.render_captured(&mut StateIds::new(), Value::undefined())?;
    let (output, mut state) = captured.into_parts();
    let render = consumed(&state);
    let is_block = state.render_block("a")?.as_str() == BLOCK;
    let block = consumed(&state);
    let is_call = state.call_macro("m", &[Value::number(5)])?.as_str() == "<5>";
    let call = consumed(&state);
    if output.as_str() == "B:[x<2>]" && is_block && is_call && render < block && block < call {
        return Ok(Some(Charges {
            render,
            block,
            call,
        }));
    }
    Ok(None)
}

/// Whether a state has consumed `consumed` of its fuel, and the rest is left.
fn has_consumed<P: Parties>(state: &StateOf<'_, P>, consumed: u64, fuel: u64) -> bool {
    match state.fuel_levels() {
        Some((taken, left)) => taken == consumed && fuel.checked_sub(taken) == Some(left),
        None => false,
    }
}

/// Whether the block is complete if there is fuel for its charges, and otherwise a prefix of it is
/// written and all fuel is consumed.
fn block_ends<P: Parties>(
    alloc: Global,
    state: &mut StateOf<'_, P>,
    charges: u64,
    fuel: u64,
) -> bool {
    let mut writer = Counted::new(Vec::new(alloc));
    let answer = state.render_block_to_write("a", &mut writer);
    let written = writer.inner().as_slice();
    match answer {
        Ok(()) => {
            fuel >= charges && written == BLOCK.as_bytes() && has_consumed(state, charges, fuel)
        }
        Err(error) => {
            fuel < charges
                && last_kind(&error) == ErrorKind::OutOfFuel
                && BLOCK.as_bytes().starts_with(written)
                && has_consumed(state, fuel, fuel)
        }
    }
}

/// The same for the macro's call, which writes nothing if it runs out.
fn call_ends<P: Parties>(state: &mut StateOf<'_, P>, charges: u64, fuel: u64) -> bool {
    match state.call_macro("m", &[Value::number(5)]) {
        Ok(text) => {
            fuel >= charges && text.as_str() == "<5>" && has_consumed(state, charges, fuel)
        }
        Err(error) => {
            fuel < charges
                && last_kind(&error) == ErrorKind::OutOfFuel
                && has_consumed(state, fuel, fuel)
        }
    }
}

/// Whether the calls of a state run out of fuel exactly when their charges exceed it.
fn calls_end_anywhere<P: Parties>(
    alloc: Global,
    environment: &mut EnvironmentOf<'static, P>,
) -> Result<bool, Error> {
    let Some(charges) = charges_of_calls(environment)? else {
        return Ok(false);
    };
    for fuel in charges.render..=charges.call {
        environment.set_fuel(Some(fuel));
        let template = environment.template_from_str(PARTS)?;
        let captured = template.render_captured(&mut StateIds::new(), Value::undefined())?;
        let (_output, mut state) = captured.into_parts();
        if !has_consumed(&state, charges.render, fuel)
            || !block_ends(alloc, &mut state, charges.block, fuel)
            || !call_ends(&mut state, charges.call, fuel)
        {
            return Ok(false);
        }
    }
    Ok(true)
}

#[test]
fn fuel_ends_calls_of_a_state(rt: HostRuntime) -> Result<(), Fail> {
    let mut environment = new_environment(rt.alloc())?;
    assert!(rt; calls_end_anywhere(rt.alloc(), &mut environment)?);
    Ok(())
}

/// A loop that calls itself over the context's tree; its render has 24 charges.
const TREE: &str = "{% for t in tree recursive %}{{ t.v ~ loop(t.c) }}{% endfor %}";

/// A node of the tree: its number and its children.
fn node(alloc: Global, number: i128, children: Vec<Value>) -> Result<Value, Error> {
    let mut map = ValueMap::new(alloc);
    map.insert(Value::text(alloc, "v")?, Value::number(number))?;
    map.insert(Value::text(alloc, "c")?, Value::list(alloc, children)?)?;
    Value::from_map(alloc, map)
}

/// A context with a tree whose root has one child.
fn tree(alloc: Global) -> Result<Value, Error> {
    let mut children = Vec::new(alloc);
    children.push(node(alloc, 2, Vec::new(alloc))?)?;
    let mut roots = Vec::new(alloc);
    roots.push(node(alloc, 1, children)?)?;
    let mut map = ValueMap::new(alloc);
    map.insert(Value::text(alloc, "tree")?, Value::list(alloc, roots)?)?;
    Value::from_map(alloc, map)
}

/// Whether a render of the tree with this much fuel ends as expected. The text is written before
/// the last two charges.
fn tree_ends<P: Parties>(
    alloc: Global,
    template: &TemplateOf<'_, '_, P>,
    given: Value,
    fuel: u64,
) -> bool {
    let mut writer = Counted::new(Vec::new(alloc));
    let wanted = if fuel < 22 { "" } else { "12" };
    let is_end = match template.render_captured_to(&mut StateIds::new(), given, &mut writer) {
        Ok(captured) => fuel == 24 && captured.state().fuel_levels() == Some((24, 0)),
        Err(error) => fuel < 24 && error.kind() == ErrorKind::OutOfFuel && error.cause().is_none(),
    };
    is_end && writer.inner().as_slice() == wanted.as_bytes()
}

fn tree_ends_anywhere<P: Parties>(
    alloc: Global,
    environment: &mut EnvironmentOf<'_, P>,
) -> Result<bool, Error> {
    let given = tree(alloc)?;
    for fuel in 0..25 {
        environment.set_fuel(Some(fuel));
        let template = environment.template_from_str(TREE)?;
        if !tree_ends(alloc, &template, given.share()?, fuel) {
            return Ok(false);
        }
    }
    Ok(true)
}

#[test]
fn fuel_ends_anywhere_in_a_tree(rt: HostRuntime) -> Result<(), Fail> {
    let mut environment = Environment::new(rt.alloc())?;
    assert!(rt; tree_ends_anywhere(rt.alloc(), &mut environment)?);
    Ok(())
}
