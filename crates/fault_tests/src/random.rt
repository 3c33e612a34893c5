//! Random templates over values of other states: each render returns, and its state still answers.

use crate::foreign::{KEPT_LOOP, left};
use crate::objects::add_objects;
use refusal_tests::new_environment;
use std::alloc::Global;
use std::test::Fail;
use template_machine::*;

/// The number of templates to render.
const RENDERS: usize = 5000;

/// The names to put for `^`.
static NAMES: [&str; 7] = ["v", "w", "ns", "m", "l", "f", "x"];

/// The templates' names, one for each escape.
static PAGES: [&str; 3] = ["t", "p.html", "p.json"];

/// The frames of templates: `$` is for a statement, `@` for an expression, and `^` for a name.
static FRAMES: [&str; 9] = [
    "$$$",
    "$$$$",
    "$$",
    "{% block b %}$${% endblock %}$",
    "$${% block a %}${% endblock %}{% block b %}{{ self.a() ~ @ }}{% endblock %}",
    "{% extends \"base\" %}{% set y = @ %}{% block a %}${{ super() }}${% endblock %}$",
    "{% if @ %}{% extends \"base\" %}{% endif %}${% block b %}${{ super() ~ @ }}{% endblock %}",
    "{% for x in @ %}{% block b %}${{ x }}{% endblock %}{% endfor %}$",
    "{% macro m(x) %}{% block b %}${% endblock %}${% endmacro %}{{ m(@) }}$",
];

/// Statements.
static STATEMENTS: [&str; 50] = [
    "text",
    "<b>{{ @ }}",
    "{{ @ }}",
    "{{ @ }}{{ @ }}",
    "{{ ^ }}",
    "{{ ^.a }}",
    "{{ [^, {\"a\": ^}] }}",
    "{# nothing #}",
    "{% set ^ = @ %}$",
    "{% set ^.x = @ %}{{ ^.x }}",
    "{% set ns = namespace(x=@) %}{% set ns.a = @ %}{{ ns.x }}$",
    "{% set ns = namespace() %}{% set ns.a = ^ %}{{ ns }}",
    "{% set ns = namespace() %}{% set ns.l = [ns] %}{{ ns == ns }}{{ ns.l }}",
    "{% set ^, x = @ %}",
    "{% set ^ %}${% endset %}{{ ^ }}",
    "{% set ^ | same %}${% endset %}$",
    "{% for ^ in @ %}$${% endfor %}",
    "{% for ^ in [1, @] %}${% else %}${% endfor %}",
    "{% for ^ in @ if @ %}${{ loop.index }}{% else %}${% endfor %}",
    "{% for ^, x in [[1, @]] %}${{ loop.previtem }}{% endfor %}",
    "{% for x in @ recursive %}${{ loop(@) }}{% endfor %}",
    "{% for x in [[[]], []] recursive %}<{{ loop(x) }}>{{ loop.depth }}{% endfor %}",
    "{% for x in [[], @] recursive %}{{ loop(x) ~ @ }}{% endfor %}",
    "{% for x in [1, 2] %}{% if @ %}{% break %}{% endif %}${% endfor %}",
    "{% for x in [1, 2] %}{% set w %}${% if @ %}{% continue %}{% endif %}{% endset %}{{ w }}{% endfor %}",
    "{% set l = namespace() %}{% for x in [1] recursive %}{% set l.l = loop %}{% endfor %}{{ l.l }}{{ l.l(@) }}",
    "{% for x in [1, 2] %}{% set l = loop %}{{ l.changed(@) }}{{ l.cycle(@, 2) }}{{ l.nextitem }}{% endfor %}",
    "{% if @ %}${% elif @ %}${% else %}${% endif %}",
    "{% if ^ %}${% endif %}",
    "{% with ^ = @, x = ^ %}${% endwith %}{{ x }}",
    "{% macro m(x, y=@) %}${{ x }}{{ y }}{% endmacro %}{{ m(@) }}",
    "{% macro ^(x) %}{{ x }}{{ ^ }}{% endmacro %}{{ ^(@) }}",
    "{% macro m(x) %}{{ caller(x) }}{% endmacro %}{% call(x) m(@) %}${{ x }}{% endcall %}",
    "{% macro f(x) %}{{ x }}{% if x %}{{ f(false) }}{% endif %}{% endmacro %}{{ f(@) }}",
    "{% call ^(@) %}${% endcall %}",
    "{% call(w) ^.m(@) %}${{ w }}{% endcall %}",
    "{% include \"i\" %}$",
    "{% include @ ignore missing %}",
    "{% include [\"no\", ^, \"i\"] %}",
    "{% import \"d\" as m %}{{ m.f(@) }}{{ m.q }}{{ m }}",
    "{% import ^ as ^ %}{{ ^ }}",
    "{% from \"d\" import f as m, q %}{{ m(@) }}{{ q }}$",
    "{% from \"d\" import f, nope as ^ %}${{ f(^) }}",
    "{% filter same %}${% endfilter %}",
    "{% filter by_macro(@) %}${% endfilter %}",
    "{% autoescape \"html\" %}${{ @ }}{% endautoescape %}",
    "{% autoescape \"json\" %}{{ @ }}{% endautoescape %}$",
    "{% autoescape \"none\" %}${{ @ }}{% autoescape @ %}${% endautoescape %}{% endautoescape %}",
    "{% do ^(@) %}{{ super() }}",
    "{{ self.b() }}{% extends ^ %}",
];

/// Statements that contain no others.
static LEAVES: [&str; 5] = ["a", "{{ @ }}", "{{ ^ }}", "{{ @ }}", "b<"];

/// Expressions.
static EXPRESSIONS: [&str; 46] = [
    "^",
    "^.a",
    "^.x",
    "^[\"a\"]",
    "^[0]",
    "^[1:]",
    "@[@:]",
    "@[::-1]",
    "@[@]",
    "(@ ~ @)",
    "(@ + @)",
    "(@ * 2 // @)",
    "(- @)",
    "(@ == @)",
    "(@ < @)",
    "(1 <= @ != @)",
    "(@ in @)",
    "(@ not in [@])",
    "(not @)",
    "(@ and @)",
    "(@ or @)",
    "(@ if @ else @)",
    "(@ if @)",
    "[@, @]",
    "{\"a\": @, \"x\": @}",
    "{@: 1}",
    "(@, @)",
    "^(@)",
    "^()",
    "^(@, a=@)",
    "^.m(@)",
    "^.f(1)",
    "^.changed(@)",
    "^.cycle(@, @)",
    "same(*@)",
    "same(**@)",
    "dict(@)",
    "dict(^, a=@)",
    "namespace(@)",
    "range(@)",
    "[^, @][0](@)",
    "(@|same)",
    "(@|by_macro)",
    "(@ is same)",
    "(by_block() ~ by_filter())",
    "(super() ~ self.b())",
];

/// Expressions that contain no others.
static ATOMS: [&str; 14] = [
    "^",
    "^",
    "^",
    "1",
    "2",
    "0",
    "\"<a>\"",
    "\"a\"",
    "none",
    "true",
    "[1, 2]",
    "{\"a\": 1}",
    "range(3)",
    "loop",
];

/// Sources whose states bind `v` to a value for other states.
static OTHERS: [&str; 5] = [
    "{% set v = namespace(a=1, x=[]) %}",
    "{% macro v(x) %}a{{ x }}{% endmacro %}",
    "{% import \"d\" as v %}",
    "{% macro m(x) %}{{ caller() }}{% endmacro %}{% set v = {\"a\": m, \"m\": m, \"x\": namespace()} %}",
    "{% set v = [namespace(), range] %}",
];

/// Numbers that look random and are the same in each run.
#[derive(Clone, Copy)]
struct Dice {
    seed: u64,
}

impl Dice {
    /// A number below `sides`, or 0 if `sides` is 0.
    fn roll(&mut self, sides: usize) -> usize {
        self.seed = self
            .seed
            .wrapping_mul(6_364_136_223_846_793_005)
            .wrapping_add(1_442_695_040_888_963_407);
        let high = (self.seed >> 33) as usize;
        match high.checked_rem(sides) {
            Some(number) => number,
            None => 0,
        }
    }

    /// One of these texts.
    fn pick(&mut self, texts: &[&'static str]) -> &'static str {
        match texts.get(self.roll(texts.len())) {
            Some(text) => text,
            None => "",
        }
    }

    /// One of these values.
    fn draw(&mut self, values: &[Value]) -> Result<Value, Error> {
        match values.get(self.roll(values.len())) {
            Some(value) => value.share(),
            None => Ok(Value::undefined()),
        }
    }
}

/// Replaces each mark in a text by one of the pieces.
fn fill(
    alloc: Global,
    text: &str,
    mark: char,
    pieces: &[&'static str],
    dice: &mut Dice,
) -> Result<String, Error> {
    let mut filled = String::new(alloc);
    let mut rest = text;
    for _ in 0..usize::MAX {
        let Some((before, after)) = rest.split_once(mark) else {
            break;
        };
        filled.push_str(before)?;
        filled.push_str(dice.pick(pieces))?;
        rest = after;
    }
    filled.push_str(rest)?;
    Ok(filled)
}

/// A random template's source.
fn source(alloc: Global, dice: &mut Dice) -> Result<String, Error> {
    let mut text = String::from_str(alloc, dice.pick(&FRAMES))?;
    for _ in 0..dice.roll(3) {
        text = fill(alloc, text.as_str(), '$', &STATEMENTS, dice)?;
    }
    text = fill(alloc, text.as_str(), '$', &LEAVES, dice)?;
    for _ in 0..dice.roll(3) {
        text = fill(alloc, text.as_str(), '@', &EXPRESSIONS, dice)?;
    }
    text = fill(alloc, text.as_str(), '@', &ATOMS, dice)?;
    fill(alloc, text.as_str(), '^', &NAMES, dice)
}

/// Values of the kinds that any state may have.
fn add_plain(alloc: Global, values: &mut Vec<Value>) -> Result<(), Error> {
    values.push(Value::number(2))?;
    values.push(Value::none())?;
    values.push(Value::boolean(true))?;
    values.push(Value::text(alloc, "<a>")?)?;
    values.push(Value::text(alloc, "i")?)?;
    let mut items = Vec::new(alloc);
    items.push(Value::number(1))?;
    items.push(Value::text(alloc, "a")?)?;
    values.push(Value::list(alloc, items)?)?;
    let mut map = ValueMap::new(alloc);
    map.insert(Value::text(alloc, "a")?, Value::number(1))?;
    map.insert(Value::text(alloc, "x")?, Value::safe_text(alloc, "<i>")?)?;
    values.push(Value::from_map(alloc, map)?)?;
    Ok(())
}

/// Records, macros, functions and modules of other states.
fn others<P: Parties>(
    alloc: Global,
    environment: &EnvironmentOf<'static, P>,
    ids: &mut StateIds,
) -> Result<Vec<Value>, Error> {
    let mut values = Vec::new(alloc);
    for source in &OTHERS {
        values.push(left(environment, ids, source)?)?;
    }
    values.push(left(environment, ids, KEPT_LOOP)?)?;
    values.push(Value::namespace(u64::MAX, 0))?;
    values.push(Value::loop_record(0, 9))?;
    values.push(Value::function(30))?;
    Ok(values)
}

/// The values for contexts: plain ones, those of other states, and lists and maps of these.
fn pool<P: Parties>(
    alloc: Global,
    environment: &EnvironmentOf<'static, P>,
    ids: &mut StateIds,
) -> Result<Vec<Value>, Error> {
    let mut values = Vec::new(alloc);
    add_plain(alloc, &mut values)?;
    add_plain(alloc, &mut values)?;
    for value in others(alloc, environment, ids)? {
        let mut items = Vec::new(alloc);
        items.push(value.share()?)?;
        let mut map = ValueMap::new(alloc);
        map.insert(Value::text(alloc, "a")?, value.share()?)?;
        map.insert(Value::text(alloc, "m")?, value.share()?)?;
        values.push(Value::list(alloc, items)?)?;
        values.push(Value::from_map(alloc, map)?)?;
        values.push(value)?;
    }
    Ok(values)
}

/// A map of some of the names, or sometimes any value.
fn context(alloc: Global, values: &[Value], dice: &mut Dice) -> Result<Value, Error> {
    if dice.roll(20) == 0 {
        return dice.draw(values);
    }
    let mut map = ValueMap::new(alloc);
    for name in &NAMES {
        if dice.roll(4) > 0 {
            map.insert(Value::text(alloc, name)?, dice.draw(values)?)?;
        }
    }
    Value::from_map(alloc, map)
}

/// Whether an error of a render, or a cause of it, may have this kind.
fn may_be(kind: ErrorKind) -> bool {
    match kind {
        ErrorKind::SyntaxError
        | ErrorKind::InvalidDelimiter
        | ErrorKind::WriteFailure
        | ErrorKind::OutOfMemory
        | ErrorKind::BadStream => false,
        _ => true,
    }
}

/// Whether a render may answer with this error: each of its kinds may occur in a render, and those
/// that wrap a fault have a cause.
fn is_named(error: &Error) -> bool {
    let mut rest = error;
    for _ in 0..usize::MAX {
        let kind = rest.kind();
        if !may_be(kind) {
            return false;
        }
        match rest.cause() {
            Some(cause) => rest = cause,
            None => return kind != ErrorKind::EvalBlock && kind != ErrorKind::BadInclude,
        }
    }
    false
}

/// Whether a call returned a value or an error that it may return.
fn is_answered<T: Drop>(answer: Result<T, Error>) -> bool {
    match answer {
        Ok(_answer) => true,
        Err(error) => is_named(&error),
    }
}

/// Whether the run of the block `b` is UnknownBlock exactly if there is no such block.
fn is_of_block(answer: Result<String, Error>, has_block: bool) -> bool {
    match answer {
        Ok(_text) => has_block,
        Err(error) => is_named(&error) && (error.kind() != ErrorKind::UnknownBlock) == has_block,
    }
}

/// Whether the state after a render still answers.
fn serves<P: Parties>(state: &mut StateOf<'_, P>, args: &[Value], has_block: bool) -> bool {
    let is_run = is_of_block(state.render_block("b"), has_block);
    let is_called = is_answered(state.call_macro("m", args));
    let is_filtered = is_answered(state.apply_filter("by_macro", args));
    let is_tested = is_answered(state.perform_test("same", args));
    let is_found = is_answered(state.lookup("v"));
    match state.format(&Value::number(1)) {
        Ok(text) => {
            is_run && is_called && is_filtered && is_tested && is_found && text.as_str() == "1"
        }
        Err(_error) => false,
    }
}

/// The numbers of renders by result.
#[derive(Clone, Copy)]
struct Counts {
    /// Renders that wrote their text.
    whole: usize,
    /// Renders that failed with an error that they may return.
    faulty: usize,
}

impl Counts {
    /// Counts a render, unless its result, or an answer of its state, isn't allowed.
    fn add<P: Parties>(
        &mut self,
        answer: Result<CapturedOf<StateOf<'_, P>>, Error>,
        args: &[Value],
        has_block: bool,
    ) {
        match answer {
            Ok(captured) => {
                let (_text, mut state) = captured.into_parts();
                if serves(&mut state, args, has_block) {
                    self.whole = self.whole.saturating_add(1);
                }
            }
            Err(error) => if is_named(&error) {
                self.faulty = self.faulty.saturating_add(1);
            },
        }
    }
}

/// Whether a fixed template still renders.
fn renders_on<P: Parties>(
    environment: &EnvironmentOf<'static, P>,
    ids: &mut StateIds,
) -> Result<bool, Error> {
    let text = environment.render_str(ids, "{{ 1 }}", Value::undefined())?;
    Ok(text.as_str() == "1")
}

/// Renders random templates, each followed by a fixed one, and counts those after which that one
/// wrote its text.
fn count_renders<P: Parties>(
    alloc: Global,
    environment: &EnvironmentOf<'static, P>,
) -> Result<Counts, Error> {
    let mut ids = StateIds::new();
    let values = pool(alloc, environment, &mut ids)?;
    let mut dice = Dice { seed: 40 };
    let mut counts = Counts {
        whole: 0,
        faulty: 0,
    };
    for _ in 0..RENDERS {
        let source = source(alloc, &mut dice)?;
        let has_block = source.as_str().split_once("{% block b %}").is_some();
        let name = dice.pick(&PAGES);
        let template = environment.template_from_named_str(name, source.as_str())?;
        let given = context(alloc, &values, &mut dice)?;
        let args = [dice.draw(&values)?];
        counts.add(template.render_captured(&mut ids, given), &args, has_block);
        if !renders_on(environment, &mut ids)? {
            break;
        }
    }
    Ok(counts)
}

#[test]
fn random_renders_answer(rt: HostRuntime) -> Result<(), Fail> {
    let alloc = rt.alloc();
    let mut environment = new_environment(alloc)?;
    add_objects(alloc, &mut environment)?;
    environment.set_fuel(Some(300));
    let counts = count_renders(alloc, &environment)?;
    let (whole, faulty) = (counts.whole, counts.faulty);
    assert!(rt;
        whole.saturating_add(faulty) == RENDERS,
        "{whole} whole, {faulty} faulty"
    );
    assert!(rt;
        whole >= RENDERS / 10 && faulty >= RENDERS / 10,
        "{whole}, {faulty}"
    );
    Ok(())
}
