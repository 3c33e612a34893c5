//! Calls of environments that allocate: additions, templates made and rendered in each way, and
//! expressions.

use crate::ends::{End, end_of, holds, is_fault, told, written_end};
use crate::objects::Seven;
use crate::rows::{last_kind, new_environment};
use std::alloc::Global;
use std::test::Fail;
use template_machine::*;

/// Something to add to an environment.
#[derive(Clone, Copy)]
enum Adding {
    Template,
    Owned,
    Function,
    Filter,
    Test,
    Global,
}

/// What is added, a source that uses it, and what that writes before and after.
static ADDITIONS: &[(Adding, &str, &str, &str)] = &[
    (
        Adding::Template,
        "{% include \"n\" %}",
        "!TemplateNotFound",
        "42",
    ),
    (
        Adding::Owned,
        "{% include \"o\" %}",
        "!TemplateNotFound",
        "42",
    ),
    (Adding::Function, "{{ f() }}", "!UnknownFunction", "7"),
    (Adding::Filter, "{{ 1|f }}", "!UnknownFilter", "7"),
    (Adding::Test, "{{ 1 is f }}", "!UnknownTest", "true"),
    (Adding::Global, "[{{ g }}]", "[]", "[5]"),
];

fn add(alloc: Global, environment: &mut Environment<'static>, adding: Adding) -> Result<(), Error> {
    match adding {
        Adding::Template => environment.add_template("n", "{{ 6 * 7 }}"),
        Adding::Owned => {
            let source = String::from_str(alloc, "{{ 6 * 7 }}")?;
            environment.add_template_owned("o", source)
        }
        Adding::Function => environment.add_function("f", Box::new(alloc, Plain::new(Seven))?),
        Adding::Filter => environment.add_filter("f", Box::new(alloc, Plain::new(Seven))?),
        Adding::Test => environment.add_test("f", Box::new(alloc, Plain::new(Seven))?),
        Adding::Global => environment.add_global("g", Value::number(5)),
    }
}

/// How many templates and globals there are. Allocates nothing.
fn counts<P: Parties>(environment: &EnvironmentOf<'static, P>) -> usize {
    let mut count: usize = 0;
    for (_name, _template) in environment.templates() {
        count = count.saturating_add(1000);
    }
    for (_name, _value) in environment.globals() {
        count = count.saturating_add(1);
    }
    count
}

fn shown<P: Parties>(
    environment: &EnvironmentOf<'static, P>,
    source: &'static str,
    wanted: &str,
) -> End {
    let answer = environment.render_str(&mut StateIds::new(), source, Value::undefined());
    end_of(answer, wanted)
}

/// Whether a source writes the expected text, even if one growth is refused.
fn shows<P: Parties>(
    environment: &EnvironmentOf<'static, P>,
    source: &'static str,
    wanted: &str,
) -> bool {
    let first = shown(environment, source, wanted);
    holds(first, shown(environment, source, wanted))
}

/// How an addition ended: after it a source writes `new`, and before it `old`.
fn addition_end(
    alloc: Global,
    environment: &mut Environment<'static>,
    adding: Adding,
    source: &'static str,
    old: &str,
    new: &str,
) -> End {
    let before = counts(environment);
    match add(alloc, environment, adding) {
        Ok(()) => if shows(environment, source, new) {
            End::Same
        } else {
            End::Wrong
        },
        Err(error) => {
            let stands = counts(environment) == before && shows(environment, source, old);
            if stands && last_kind(&error) == ErrorKind::OutOfMemory {
                End::Refused
            } else {
                End::Wrong
            }
        }
    }
}

fn additions_hold(alloc: Global, environment: &mut Environment<'static>) -> bool {
    for &(adding, source, old, new) in ADDITIONS {
        let first = addition_end(alloc, environment, adding, source, old, new);
        let old = if first == End::Same { new } else { old };
        let second = addition_end(alloc, environment, adding, source, old, new);
        if !holds(first, second) {
            return false;
        }
    }
    true
}

/// How the addition of a source that spells no template ended: nothing changes, whichever error it
/// is.
fn faulty_end(alloc: Global, environment: &mut Environment<'static>) -> End {
    let before = counts(environment);
    let answer = match String::from_str(alloc, "{{ 1") {
        Ok(source) => environment.add_template_owned("t", source),
        Err(error) => Err(Error::from(error)),
    };
    let end = told(is_fault(answer, ErrorKind::SyntaxError));
    if counts(environment) == before && shows(environment, "{% include \"t\" %}", "old") {
        end
    } else {
        End::Wrong
    }
}

#[test]
fn objects_are_added(rt: HostRuntime) -> Result<(), Fail> {
    let mut environment = match new_environment(rt.alloc()) {
        Ok(environment) => environment,
        Err(_refused) => new_environment(rt.alloc())?,
    };
    assert!(rt; additions_hold(rt.alloc(), &mut environment));
    let first = faulty_end(rt.alloc(), &mut environment);
    assert!(rt; holds(first, faulty_end(rt.alloc(), &mut environment)));
    Ok(())
}

/// A source that reads a name, and its text.
const SOURCE: &str = "{% include \"i\" %}[{{ w }}]{% block b %}B{% endblock %}";

const TEXT: &str = "ab1[World]B";

/// A context with one name.
fn context(alloc: Global) -> Result<Value, Error> {
    let mut map = ValueMap::new(alloc);
    map.insert(Value::text(alloc, "w")?, Value::text(alloc, "World")?)?;
    Value::from_map(alloc, map)
}

/// The ways from a source to its text.
#[derive(Clone, Copy)]
enum Way {
    Source,
    Named,
    Kept,
    Own,
    OwnNamed,
    Captured,
    Given,
}

static WAYS: [Way; 7] = [
    Way::Source,
    Way::Named,
    Way::Kept,
    Way::Own,
    Way::OwnNamed,
    Way::Captured,
    Way::Given,
];

/// The text of a template that was compiled outside the environment.
fn given_text<P: Parties>(
    alloc: Global,
    environment: &EnvironmentOf<'static, P>,
    given: Value,
) -> Result<String, Error> {
    let config = TemplateConfig::default();
    let compiled = CompiledTemplate::new(alloc, "n", Source::Lent(SOURCE), &config)?;
    let template = environment.template_from_compiled(compiled)?;
    template.render(&mut StateIds::new(), given)
}

fn text_by<P: Parties>(
    alloc: Global,
    environment: &EnvironmentOf<'static, P>,
    way: Way,
) -> Result<String, Error> {
    let (mut ids, given) = (StateIds::new(), context(alloc)?);
    match way {
        Way::Source => environment.render_str(&mut ids, SOURCE, given),
        Way::Named => environment.render_named_str(&mut ids, "n", SOURCE, given),
        Way::Kept => {
            let template = environment.get_template("page")?;
            template.render(&mut ids, given)
        }
        Way::Own => {
            let template = environment.template_from_str(SOURCE)?;
            template.render(&mut ids, given)
        }
        Way::OwnNamed => {
            let template = environment.template_from_named_str("n", SOURCE)?;
            template.render(&mut ids, given)
        }
        Way::Captured => {
            let template = environment.template_from_str(SOURCE)?;
            let captured = template.render_captured(&mut ids, given)?;
            Ok(captured.into_output())
        }
        Way::Given => given_text(alloc, environment, given),
    }
}

fn ways_hold<P: Parties>(alloc: Global, environment: &EnvironmentOf<'static, P>) -> bool {
    for way in &WAYS {
        let first = end_of(text_by(alloc, environment, *way), TEXT);
        if !holds(first, end_of(text_by(alloc, environment, *way), TEXT)) {
            return false;
        }
    }
    true
}

/// How a render into a writer ends.
fn written<P: Parties>(
    alloc: Global,
    template: &TemplateOf<'_, '_, P>,
    given: Result<Value, Error>,
) -> End {
    let given = match given {
        Ok(given) => given,
        Err(_refused) => return End::Refused,
    };
    let mut writer = Counted::new(Vec::new(alloc));
    match template.render_captured_to(&mut StateIds::new(), given, &mut writer) {
        Ok(captured) => if captured.output() == "" {
            written_end(Ok(()), &writer, TEXT)
        } else {
            End::Wrong
        },
        Err(error) => written_end(Err(error), &writer, TEXT),
    }
}

fn writes_hold<P: Parties>(alloc: Global, environment: &EnvironmentOf<'static, P>) -> bool {
    let Ok(template) = environment.get_template("page") else {
        return false;
    };
    let first = written(alloc, &template, context(alloc));
    holds(first, written(alloc, &template, context(alloc)))
}

/// The rows' environment with a page that writes the text.
fn page_environment(alloc: Global) -> Result<Environment<'static>, Error> {
    let mut environment = new_environment(alloc)?;
    environment.add_template("page", SOURCE)?;
    Ok(environment)
}

#[test]
fn texts_are_given_in_each_way(rt: HostRuntime) -> Result<(), Fail> {
    let environment = match page_environment(rt.alloc()) {
        Ok(environment) => environment,
        Err(_refused) => page_environment(rt.alloc())?,
    };
    assert!(rt; ways_hold(rt.alloc(), &environment));
    assert!(rt; writes_hold(rt.alloc(), &environment));
    Ok(())
}

/// Calls of an environment that return no text.
#[derive(Clone, Copy)]
enum Call {
    Names,
    NestedNames,
    NewState,
    EmptyState,
    Expression,
    OwnedExpression,
    ExpressionNames,
    Namespaces,
    NoTemplate,
    FaultyTemplate,
    FaultyExpression,
}

static CALLS: [Call; 11] = [
    Call::Names,
    Call::NestedNames,
    Call::NewState,
    Call::EmptyState,
    Call::Expression,
    Call::OwnedExpression,
    Call::ExpressionNames,
    Call::Namespaces,
    Call::NoTemplate,
    Call::FaultyTemplate,
    Call::FaultyExpression,
];

/// Whether a template reads these names.
fn reads<P: Parties>(
    environment: &EnvironmentOf<'static, P>,
    nested: bool,
    wanted: &str,
) -> Result<bool, Error> {
    let template = environment.template_from_str("{% set a = b %}{{ a }}{{ user.name }}")?;
    let names = template.undeclared_variables(nested)?;
    Ok(names.len() == 2 && names.contains("b") && names.contains(wanted))
}

/// Whether a new state renders its block and has no scope.
fn starts<P: Parties>(environment: &EnvironmentOf<'static, P>) -> Result<bool, Error> {
    let template = environment.template_from_str(SOURCE)?;
    let mut state = template.new_state(&mut StateIds::new())?;
    let block = state.render_block("b")?;
    Ok(block.as_str() == "B" && state.exports()?.is_empty() && state.name() == "<string>")
}

fn is_empty_state<P: Parties>(environment: &EnvironmentOf<'static, P>) -> Result<bool, Error> {
    let state = environment.empty_state(&mut StateIds::new())?;
    let range = state.lookup("range")?;
    Ok(state.name() == "<unknown>" && range == Some(Value::function(0)))
}

fn evaluates<P: Parties>(
    alloc: Global,
    environment: &EnvironmentOf<'static, P>,
) -> Result<bool, Error> {
    let given = context(alloc)?;
    let expression = environment.compile_expression("w ~ 1")?;
    let value = expression.eval(&mut StateIds::new(), given)?;
    Ok(value.as_str() == Some("World1"))
}

fn evaluates_owned<P: Parties>(
    alloc: Global,
    environment: &EnvironmentOf<'static, P>,
) -> Result<bool, Error> {
    let given = context(alloc)?;
    let source = String::from_str(alloc, "[w, 2][-1] + 1")?;
    let expression = environment.compile_expression_owned(source)?;
    let value = expression.eval(&mut StateIds::new(), given)?;
    Ok(value == Value::number(3))
}

fn expression_reads<P: Parties>(environment: &EnvironmentOf<'static, P>) -> Result<bool, Error> {
    let expression = environment.compile_expression("a.b + a.b")?;
    let names = expression.undeclared_variables(false)?;
    let nested = expression.undeclared_variables(true)?;
    Ok(names.len() == 1 && names.contains("a") && nested.len() == 1 && nested.contains("a.b"))
}

/// Whether namespaces in an expression's value become maps.
fn maps_namespaces<P: Parties>(
    alloc: Global,
    environment: &EnvironmentOf<'static, P>,
) -> Result<bool, Error> {
    let expression = environment.compile_expression("[namespace(a=namespace(b=1))]")?;
    let value = expression.eval(&mut StateIds::new(), Value::undefined())?;
    let text = printing::to_text(alloc, &value, &NoRecords)?;
    Ok(text.as_str() == "[{\"a\": {\"b\": 1}}]")
}

fn serves<P: Parties>(
    alloc: Global,
    environment: &EnvironmentOf<'static, P>,
    call: Call,
) -> Result<bool, Error> {
    match call {
        Call::Names => reads(environment, false, "user"),
        Call::NestedNames => reads(environment, true, "user.name"),
        Call::NewState => starts(environment),
        Call::EmptyState => is_empty_state(environment),
        Call::Expression => evaluates(alloc, environment),
        Call::OwnedExpression => evaluates_owned(alloc, environment),
        Call::ExpressionNames => expression_reads(environment),
        Call::Namespaces => maps_namespaces(alloc, environment),
        Call::NoTemplate => is_fault(environment.get_template("no"), ErrorKind::TemplateNotFound),
        Call::FaultyTemplate => is_fault(
            environment.template_from_str("{% if %}"),
            ErrorKind::SyntaxError,
        ),
        Call::FaultyExpression => is_fault(
            environment.compile_expression("1 +"),
            ErrorKind::SyntaxError,
        ),
    }
}

fn calls_hold<P: Parties>(alloc: Global, environment: &EnvironmentOf<'static, P>) -> bool {
    for call in &CALLS {
        let first = told(serves(alloc, environment, *call));
        if !holds(first, told(serves(alloc, environment, *call))) {
            return false;
        }
    }
    true
}

#[test]
fn calls_answer_for_memory(rt: HostRuntime) -> Result<(), Fail> {
    let environment = match page_environment(rt.alloc()) {
        Ok(environment) => environment,
        Err(_refused) => page_environment(rt.alloc())?,
    };
    assert!(rt; calls_hold(rt.alloc(), &environment));
    Ok(())
}
