//! Streams that `generate` wrote, each with one instruction changed: each is refused, or runs
//! without getting stuck.
use crate::drawn::{Dice, any_instruction, lists};
use crate::library::Asking;
use crate::trials::{Outcome, STREAMS, Way, as_block, as_root, outcome_of};
use std::alloc::Global;
use std::collections::BTreeMap;
use std::mem;
use std::rc::RcStr;
use std::test::Fail;
use template_machine::machinery::BlockCode;
use template_machine::*;

/// Templates whose streams are changed; `a` and `b` are their only blocks.
static TEMPLATES: [&str; 38] = [
    "x{{ a }}{{ a.b }}{{ a[0] }}y",
    "{% for x in a %}{{ x }}{{ loop.index }}{% else %}n{% endfor %}",
    "{% for x in a if not x %}{{ x }}{% else %}{{ loop }}{% endfor %}",
    "{% for x in [[[]], []] recursive %}<{{ loop(x) }}>{% endfor %}",
    "{% for x in [[]] recursive %}{{ loop(x) ~ '!' }}{% else %}e{% endfor %}",
    "{% for x, y in [[1, 2], [0, 1]] %}{% if x %}{% continue %}{% endif %}{% set z %}{{ y }}{% break %}{% endset %}{% endfor %}",
    "{% macro m(x, y=x) %}{{ x }}{{ y }}{% endmacro %}{{ m(1) }}{{ m(1, y=2) }}",
    "{% macro m(x) %}{{ x }}{{ caller(2) }}{% endmacro %}{% call(z) m(1) %}{{ z }}{% endcall %}",
    "{% set q = 1 %}{% macro m() %}{{ q }}{% macro n() %}{{ q }}{% endmacro %}{{ n() }}{% endmacro %}{{ m() }}",
    "{% macro m(x) %}{% for y in x recursive %}{{ loop(y) }}{% endfor %}{% endmacro %}{{ m([[]]) }}",
    "{% set x %}a{{ 1 }}{% endset %}{{ x }}",
    "{% set x | f %}a{% endset %}{{ x }}",
    "{% filter f %}{% filter f(1) %}a{{ b }}{% endfilter %}b{% endfilter %}",
    "{% include 'no' ignore missing %}{% include 'base' %}",
    "{% include ['no', 'm'] %}{{ b }}",
    "{% import 'm' as m %}{{ m.m(1) }}{{ m.b }}",
    "{% import 'no' as m %}{{ m }}",
    "{% from 'm' import m, b as c %}{{ m(1) }}{{ c }}",
    "{% with x = 1, y = x %}{{ y }}{% set x = 2 %}{% endwith %}",
    "{% if b %}1{% elif a.b %}2{% elif range %}3{% else %}4{% endif %}",
    "{% extends 'base' %}{% block b %}{{ super() }}[{{ super() ~ 1 }}]{% endblock %}",
    "{% extends 'base' %}{% set x = 1 %}{% block a %}{{ self.b() }}{% endblock %}{% block b %}{% for x in a %}{{ x }}{{ super() }}{% endfor %}{% endblock %}",
    "{% block b %}{{ b }}{% block a %}{% set x = 1 %}{{ x }}{% endblock %}{% endblock %}{{ self.a() }}",
    "{% if a %}{% extends 'base' %}{% endif %}t{% block b %}{% include 'm' %}{% set x %}{{ super() }}{% endset %}{% endblock %}",
    "{% block b %}{% macro m(x) %}{{ x }}{% endmacro %}{% filter f %}{{ m(1) }}{% endfilter %}{% endblock %}",
    "{% autoescape 'html' %}{{ '<' }}{% autoescape false %}{{ '<' }}{% endautoescape %}{% endautoescape %}",
    "{% do range(3) %}{% do f(1, k=2) %}",
    "{{ 1 is f }}{{ 1 is not f(2) }}{% if 1 is f 2 %}x{% endif %}",
    "{{ 1|f }}{{ [1]|f(2, k=3)|f }}",
    "{{ f(*a, **{'k': 1}) }}{{ f(1, *a, k=2) }}{{ dict(**{'x': 1}, y=2) }}",
    "{{ 'abc'[0:2] }}{{ a[::1] }}{{ a[0][1:] }}",
    "{{ 1 < 2 < 3 }}{{ 1 == 1 != 2 }}{{ 1 in [1] not in [2] }}",
    "{{ a and b or 1 and 0 }}{{ not a or not b }}",
    "{{ 1 if a else 2 if b }}{{ 'x' if b }}",
    "{% set n = namespace(v=0) %}{% for x in [1, 2] %}{% set n.v = n.v + x %}{% endfor %}{{ n.v }}",
    "{{ [range][0](2) }}{{ {'k': range}.k(1) }}{{ (1, (2, [3])) }}",
    "{% set x, (y, z) = [1, [2, 3]] %}{{ x ~ y ~ z }}{{ -x + y * z // 2 % 3 ** 1 - 4 }}",
    "{% for x in a %}{% with y = x %}{% filter f %}{% if y %}{% break %}{% endif %}{{ y }}{% endfilter %}{% endwith %}{% endfor %}",
];

/// Expressions whose streams are changed.
static EXPRESSIONS: [&str; 9] = [
    "1 + a[0] * 2 if b else [a, 'x']",
    "a and b or not range",
    "1 < 2 < 3 in [3]",
    "f(1, *a, k=2)|f(3) is f",
    "{'x': (1, 2), 'y': a[0:1:1]}.x",
    "range(3)[1] ~ -1",
    "dict(**{'x': 1}, y=2).y is not f(1)",
    "super() if a else self.b()",
    "namespace(v=1).v.w(1, 2)",
];

/// The templates of the environment, to extend, include and import.
static OTHERS: [(&str, &str); 2] = [
    (
        "base",
        "{% block a %}x{% endblock %}{% block b %}y{% endblock %}",
    ),
    (
        "m",
        "{% set b = 1 %}{% macro m(x, y=2) %}{{ x }}{{ y }}{% endmacro %}",
    ),
];

/// The ways to run an accepted stream. An expression's runs too, and its value is dropped.
static WAYS: [Way; 3] = [Way::Root, Way::Block, Way::Placed];

/// A tree, and the form of its streams.
#[derive(Drop)]
struct Origin {
    tree: Tree,
    form: Form,
}

/// The trees of all sources.
fn origins(alloc: Global) -> Result<Vec<Origin>, Error> {
    let mut origins = Vec::new(alloc);
    for source in &TEMPLATES {
        let source = RcStr::from_str(alloc, source)?;
        origins.push(Origin {
            tree: parse(alloc, &source, &SyntaxConfig::default())?,
            form: Form::Template,
        })?;
    }
    for source in &EXPRESSIONS {
        origins.push(Origin {
            tree: parse_expr(alloc, source)?,
            form: Form::Expression,
        })?;
    }
    Ok(origins)
}

/// A stream taken out of its tree's streams.
#[derive(Drop)]
struct Loose {
    stream: Vec<Instruction>,
    /// The root stream, if the loose stream is that of block `b`.
    root: Option<Verified>,
    /// The remaining blocks.
    blocks: BTreeMap<&'static str, Verified>,
}

/// The stream of a block, if there is one.
fn code_of(alloc: Global, block: Option<BlockCode>) -> Option<Verified> {
    let mut block = block?;
    Some(mem::replace(&mut block.code, Verified::empty(alloc)))
}

/// Takes out the root stream, or sometimes that of block `b`, if there is one.
fn take_out(alloc: Global, tree: &Tree, dice: &mut Dice) -> Result<Loose, Error> {
    let Streams { root, mut blocks } = generate(alloc, tree)?;
    let mut beside = BTreeMap::new(alloc);
    if let Some(code) = code_of(alloc, blocks.remove("a")) {
        beside.insert("a", code)?;
    }
    let takes_block = dice.flip();
    if let Some(code) = code_of(alloc, blocks.remove("b")) {
        if takes_block {
            return Ok(Loose {
                stream: code.into_instructions(),
                root: Some(root),
                blocks: beside,
            });
        }
        beside.insert("b", code)?;
    }
    Ok(Loose {
        stream: root.into_instructions(),
        root: None,
        blocks: beside,
    })
}

/// Changes one instruction of a stream, if it has any: swaps it with another one, removes it
/// without adjusting jumps, or replaces it by a random one.
fn change(alloc: Global, stream: &mut Vec<Instruction>, dice: &mut Dice) -> Result<(), Error> {
    let size = stream.len();
    let place = dice.roll(size);
    let other = dice.roll(size);
    if place >= size || other >= size {
        return Ok(());
    }
    match dice.roll(8) {
        0 => stream.swap(place, other),
        1 => {
            let _taken = stream.remove(place);
        }
        _ => {
            let drawn = any_instruction(alloc, dice, size)?;
            if let Some(instruction) = stream.get_mut(place) {
                *instruction = drawn;
            }
        }
    }
    Ok(())
}

/// Runs a stream in the place that it was taken from.
fn as_placed<P: Parties>(
    alloc: Global,
    environment: &EnvironmentOf<'_, P>,
    stream: Verified,
    root: Option<Verified>,
    mut blocks: BTreeMap<&'static str, Verified>,
) -> Result<Outcome, Error> {
    let Some(root) = root else {
        return outcome_of(alloc, environment, stream, blocks);
    };
    blocks.insert("b", stream)?;
    outcome_of(alloc, environment, root, blocks)
}

/// The outcome of a changed stream of a tree, run in one way.
fn comes_to<P: Parties>(
    alloc: Global,
    environment: &EnvironmentOf<'_, P>,
    origin: &Origin,
    dice: &mut Dice,
    way: Way,
) -> Result<Outcome, Error> {
    let Loose {
        mut stream,
        root,
        blocks,
    } = take_out(alloc, &origin.tree, dice)?;
    change(alloc, &mut stream, dice)?;
    let Ok(verified) = verify(alloc, stream, origin.form) else {
        return Ok(Outcome::Refused);
    };
    match way {
        Way::Root => as_root(alloc, environment, verified),
        Way::Block => as_block(alloc, environment, verified),
        Way::Placed => as_placed(alloc, environment, verified, root, blocks),
    }
}

/// The outcome of the same changed stream in all ways. A run consumes the stream, so it is made
/// again for each way.
fn outcome_in_all<P: Parties>(
    alloc: Global,
    environment: &EnvironmentOf<'_, P>,
    origin: &Origin,
    dice: &mut Dice,
) -> Result<Outcome, Error> {
    let start = *dice;
    for way in &WAYS {
        *dice = start;
        match comes_to(alloc, environment, origin, dice, *way)? {
            Outcome::Sound => {}
            other => return Ok(other),
        }
    }
    Ok(Outcome::Sound)
}

/// The number of accepted streams; None if an accepted one gets stuck.
fn accepted<P: Parties>(
    alloc: Global,
    environment: &EnvironmentOf<'_, P>,
) -> Result<Option<usize>, Error> {
    let origins = origins(alloc)?;
    let mut dice = Dice { seed: 30 };
    let mut count: usize = 0;
    for _ in 0..STREAMS {
        let Some(origin) = origins.get(dice.roll(origins.len())) else {
            return Ok(None);
        };
        match outcome_in_all(alloc, environment, origin, &mut dice)? {
            Outcome::Refused => {}
            Outcome::Sound => count = count.wrapping_add(1),
            Outcome::Stuck => return Ok(None),
        }
    }
    Ok(Some(count))
}

/// Adds the templates and names that the sources use.
fn add_others<P: Parties>(
    alloc: Global,
    environment: &mut EnvironmentOf<'_, P>,
) -> Result<(), Error> {
    for (name, source) in &OTHERS {
        environment.add_template(name, source)?;
    }
    environment.add_global("a", lists(alloc, 2)?)
}

#[test]
fn changed_streams_are_refused_or_run(rt: HostRuntime) -> Result<(), Fail> {
    let alloc = rt.alloc();
    let mut environment = Environment::new(alloc)?;
    add_others(alloc, &mut environment)?;
    environment.add_function("f", Box::new(alloc, Asking::Title)?)?;
    environment.add_filter("f", Box::new(alloc, Asking::Title)?)?;
    environment.add_test("f", Box::new(alloc, Asking::Title)?)?;
    environment.set_fuel(Some(100));
    let count = accepted(alloc, &environment)?;
    assert!(rt; count >= Some(STREAMS / 10));
    Ok(())
}
