//! The examples of docs/LIBRARY.md except the last ones; examples/check.sh compares them.

// example begins here
ghost use Rattle.std.specs.Prelude.{[], ◌∷◌, ◌++◌, Ok, false, true, codes, pos};
ghost use Rattle.tm_values.specs.Val.{boolean, number, text};
ghost use Rattle.tm_values.specs.declared.error.ErrorKind.TheVariants.{MissingArgument};
ghost use Rattle.tm_values.specs.declared.escape.AutoEscape.TheVariants.{Html};
ghost use Rattle.tm_meaning.specs.declared.reply.Reply.TheVariants.{Value as gives};
ghost use Rattle.tm_meaning.specs.declared.reply.Reply.TheVariants.{Fault as faults};
ghost use Rattle.tm_meaning.specs.declared.reply.Reply.TheVariants.{Further as asks_for};
ghost use Rattle.tm_meaning.specs.declared.reply.Call.TheVariants as further;
ghost use Rattle.tm_tables.specs.Stated.{just, keeping};
ghost use Rattle.render_tests.specs.Asked.{swapped};
ghost use Rattle.library_tests.specs.declared.library.Asking.TheVariants.{Title, Kept, Filter};
ghost use Rattle.library_tests.specs.declared.library.Asking.TheVariants.{Macro, Block};

use std::alloc::Global;
use std::cmp::Ordering;
use std::rc::RcStr;
use template_machine::*;
// example ends here

use crate::library_parts::{compiles, runs_streams};
use std::test::Fail;

// example begins here
/// Whether `answer` is an error of kind `kind`.
pub(crate) fn is_fault<T: Drop>(answer: Result<T, Error>, kind: ErrorKind) -> bool {
    match answer {
        Ok(_) => false,
        Err(error) => error.kind() == kind,
    }
}

fn tells_errors(alloc: Global) -> Result<bool, Error> {
    let error = Error::new(alloc, ErrorKind::BadInclude, "in the footer");
    let wrapped = error.with_source(alloc, Error::from(ErrorKind::OutOfFuel))?;
    let cause = match wrapped.cause() {
        Some(cause) => cause.kind().name(),
        None => "",
    };
    let printed = format!(in alloc; "{wrapped}")?;
    let is_told = wrapped.detail() == Some("in the footer") && printed.as_str() == "BadInclude";
    Ok(is_told && cause == "OutOfFuel" && wrapped.kind() == ErrorKind::BadInclude)
}

fn tells_values(alloc: Global) -> Result<bool, Error> {
    let plain = Value::text(alloc, "<b>")?;
    let safe = Value::safe_text(alloc, "<b>")?;
    let shared = Value::shared_text(SharedText::from_str(alloc, "<b>")?, true);
    let is_text = match plain.share()?.into_text() {
        Ok((content, is_safe)) => content.as_str() == "<b>" && !is_safe,
        Err(_value) => false,
    };
    Ok(
        is_text
            && plain.as_str() == Some("<b>")
            && plain == safe
            && plain.compare(&Value::number(7)) == Ordering::Greater
            && safe.is_safe()
            && shared.is_safe()
            && Value::from(7u64) == Value::number(7)
            && Value::boolean(true).as_i128() == Some(1)
            && Value::from(()).is_none()
            && Value::default().is_undefined()
            && Value::silent_undefined() == Value::undefined()
            && !Value::none().is_true(),
    )
}
/// A map with `value` under `name`.
pub(crate) fn named(alloc: Global, name: &str, value: Value) -> Result<Value, Error> {
    let mut map = ValueMap::new(alloc);
    map.insert(Value::text(alloc, name)?, value)?;
    Value::from_map(alloc, map)
}

fn makes_lists_and_maps(alloc: Global) -> Result<bool, Error> {
    let mut items = Vec::new(alloc);
    items.push(Value::number(1))?;
    items.push(Value::none())?;
    let list = Value::list(alloc, items)?;
    let is_list = list.items().len() == 2 && list.as_list().is_some();
    let map = named(alloc, "a", list)?;
    let text = printing::to_text(alloc, &map, &NoRecords)?;
    let key = Value::text(alloc, "b")?;
    Ok(
        is_list
            && text.as_str() == "{\"a\": [1, none]}"
            && map.pairs().len() == 1
            && map.member("a").is_some()
            && map.at_key(&key).is_none(),
    )
}

fn makes_maps_of_pairs(alloc: Global) -> Result<bool, Error> {
    let mut pairs = Vec::new(alloc);
    pairs.push((Value::number(1), Value::text(alloc, "old")?))?;
    pairs.push((Value::number(1), Value::text(alloc, "new")?))?;
    let map = ValueMap::from_pairs(pairs)?;
    for (_key, value) in &map {
        if value.as_str() != Some("new") {
            return Ok(false);
        }
    }
    let is_found = map.get(&Value::number(1)).is_some() && map.member("1").is_none();
    let is_one = map.len() == 1 && !map.is_empty() && map.pairs().len() == 1;
    let keywords = Value::keywords(alloc, map)?;
    let written = SharedText::from_str(alloc, "written")?;
    let module = Value::module(alloc, ValueMap::new(alloc), written)?;
    let text = printing::to_text(alloc, &module, &NoRecords)?;
    Ok(is_found && is_one && keywords.is_true() && text.as_str() == "written")
}

fn adds_templates<P: Parties>(
    alloc: Global,
    environment: &mut EnvironmentOf<'_, P>,
) -> Result<bool, Error> {
    environment.add_template("a.txt", "Hello {{ name }}!")?;
    environment.add_template_owned("b.txt", String::from_str(alloc, "{{ 6 * 7 }}")?)?;
    let template = environment.get_template("b.txt")?;
    let text = template.render(&mut StateIds::new(), Value::undefined())?;
    Ok(text.as_str() == "42")
}

fn lists_templates<P: Parties>(environment: &EnvironmentOf<'_, P>) -> bool {
    match environment.templates().next() {
        Some((name, template)) => name == "a.txt" && template.source() == "Hello {{ name }}!",
        None => false,
    }
}

fn removes_templates<P: Parties>(environment: &mut EnvironmentOf<'_, P>) -> bool {
    environment.remove_template("a.txt");
    let is_gone = is_fault(
        environment.get_template("a.txt"),
        ErrorKind::TemplateNotFound,
    );
    environment.clear_templates();
    is_gone && environment.templates().next().is_none()
}

fn renders_sources<P: Parties>(environment: &EnvironmentOf<'_, P>) -> Result<bool, Error> {
    let mut ids = StateIds::new();
    let sum = environment.render_str(&mut ids, "{{ 1 + 1 }}", Value::undefined())?;
    let page = environment.render_named_str(&mut ids, "a.html", "{{ '<' }}", Value::undefined())?;
    let template = environment.template_from_str("x")?;
    let is_unnamed = template.name() == "<string>";
    Ok(sum.as_str() == "2" && page.as_str() == "&lt;" && is_unnamed && ids.next()? == 2)
}

fn resumes_numbers<P: Parties>(environment: &EnvironmentOf<'_, P>) -> Result<bool, Error> {
    let mut ids = StateIds::resume(u64::MAX - 1);
    let last = environment.render_str(&mut ids, "x", Value::undefined())?;
    let none = environment.render_str(&mut ids, "x", Value::undefined());
    Ok(last.as_str() == "x" && is_fault(none, ErrorKind::InvalidOperation))
}

fn tells_names<P: Parties>(environment: &EnvironmentOf<'_, P>) -> Result<bool, Error> {
    let source = "{% set a = b %}{{ a }}{{ user.name }}";
    let template = environment.template_from_named_str("a.html", source)?;
    let names = template.undeclared_variables(false)?;
    let nested = template.undeclared_variables(true)?;
    let are_names = names.len() == 2 && names.contains("b") && names.contains("user");
    Ok(are_names && nested.contains("user.name") && template.source() == source)
}

fn follows_settings<P: Parties>(environment: &mut EnvironmentOf<'_, P>) -> Result<bool, Error> {
    let (mut ids, source) = (StateIds::new(), "{{ answer }}");
    environment.add_global("answer", Value::number(42))?;
    environment.set_fuel(Some(1));
    let spent = environment.render_str(&mut ids, source, Value::undefined());
    let is_spent = is_fault(spent, ErrorKind::OutOfFuel);
    environment.set_fuel(Some(2));
    let text = environment.render_str(&mut ids, source, Value::undefined())?;
    environment.remove_global("answer");
    environment.set_undefined_behavior(UndefinedBehavior::Strict);
    let refused = environment.render_str(&mut ids, source, Value::undefined());
    let is_refused = is_fault(refused, ErrorKind::UndefinedError);
    environment.set_recursion_limit(1000);
    environment.set_value_limit(64);
    Ok(
        text.as_str() == "42"
            && is_spent
            && is_refused
            && environment.fuel() == Some(2)
            && environment.undefined_behavior() == UndefinedBehavior::Strict
            && environment.recursion_limit() == 500
            && environment.value_limit() == 64,
    )
}

fn has_nothing<P: Parties>(environment: &EnvironmentOf<'_, P>) -> bool {
    environment.globals().next().is_none() && environment.templates().next().is_none()
}

fn limits_strangers<P: Parties>(environment: &mut EnvironmentOf<'_, P>) {
    environment.set_fuel(Some(100_000));
    environment.set_recursion_limit(50);
    environment.set_value_limit(1_000_000);
}

fn end_of_stranger<'source, P: Parties>(
    alloc: Global,
    environment: &EnvironmentOf<'source, P>,
    source: &'source str,
) -> Option<ErrorKind> {
    let template = match environment.template_from_str(source) {
        Ok(template) => template,
        Err(error) => return Some(error.kind()),
    };
    let mut writer = Limited::new(Counted::new(Vec::new(alloc)), 100_000);
    match template.render_captured_to(&mut StateIds::new(), Value::undefined(), &mut writer) {
        Ok(_captured) => None,
        Err(error) => Some(error.kind()),
    }
}

fn stops_strangers<P: Parties>(alloc: Global, environment: &EnvironmentOf<'_, P>) -> bool {
    let doubles =
        "{% set n = namespace(s=[1]) %}{% for i in range(60) %}{% set n.s = [n.s, n.s] %}{% endfor %}{{ n.s == n.s }}";
    let loops = "{% for a in range(100000) %}{% for b in range(100000) %}{% endfor %}{% endfor %}";
    let writes = "{% for a in range(1000) %}{{ range(100) }}{% endfor %}";
    let calls = "{% macro m() %}{{ m() }}{% endmacro %}{{ m() }}";
    end_of_stranger(alloc, environment, doubles) == Some(ErrorKind::OutOfMemory)
        && end_of_stranger(alloc, environment, loops) == Some(ErrorKind::OutOfFuel)
        && end_of_stranger(alloc, environment, writes) == Some(ErrorKind::WriteFailure)
        && end_of_stranger(alloc, environment, calls) == Some(ErrorKind::InvalidOperation)
        && end_of_stranger(alloc, environment, "{{ 1 + 1 }}").is_none()
}

fn own_syntax(alloc: Global) -> Result<SyntaxConfig, Error> {
    let builder = SyntaxConfig::builder()
        .block_delimiters(
            String::from_str(alloc, "<%")?,
            String::from_str(alloc, "%>")?,
        )
        .variable_delimiters(
            String::from_str(alloc, "${")?,
            String::from_str(alloc, "}")?,
        )
        .comment_delimiters(
            String::from_str(alloc, "<#")?,
            String::from_str(alloc, "#>")?,
        );
    builder
        .trim_blocks(true)
        .lstrip_blocks(true)
        .keep_trailing_newline(true)
        .build()
}

fn follows_syntax<P: Parties>(
    alloc: Global,
    environment: &mut EnvironmentOf<'_, P>,
) -> Result<bool, Error> {
    environment.set_syntax(own_syntax(alloc)?);
    let source = "  <% if 1 %>\n${ 6 * 7 }<# done #><% endif %>!\n";
    let text = environment.render_str(&mut StateIds::new(), source, Value::undefined())?;
    let empty = SyntaxConfig::builder().block_delimiters(String::new(alloc), String::new(alloc));
    let is_refused = is_fault(empty.build(), ErrorKind::InvalidDelimiter);
    Ok(text.as_str() == "42!\n" && is_refused && environment.syntax().keeps_newline())
}

fn evaluates<P: Parties>(alloc: Global, environment: &EnvironmentOf<'_, P>) -> Result<bool, Error> {
    let expression = environment.compile_expression("number > 10 and number < 20")?;
    let names = expression.undeclared_variables(false)?;
    let context = named(alloc, "number", Value::number(15))?;
    let value = expression.eval(&mut StateIds::new(), context)?;
    Ok(names.contains("number") && value == Value::boolean(true))
}

fn evaluates_owned<P: Parties>(
    alloc: Global,
    environment: &EnvironmentOf<'_, P>,
) -> Result<bool, Error> {
    let source = String::from_str(alloc, "[1, 2][-1]")?;
    let value = environment
        .compile_expression_owned(source)?
        .eval(&mut StateIds::new(), Value::undefined())?;
    Ok(value == Value::number(2))
}
/// Returns true.
#[derive(Drop)]
struct Yes;

impl Answering for Yes {
    ghost answers = { λ _ args. just (gives (boolean true)) };

    fn answer(&self, alloc: Global, _args: &[Value]) -> CallableAnswer {
        CallableAnswer::value(alloc, Value::boolean(true))
    }
}

/// Returns the template's name, keeps a value and fails, or asks for a further call.
#[derive(Clone, Copy)]
pub(crate) enum Asking {
    Title,
    Kept,
    Filter,
    Macro,
    Block,
}

impl Callable for Asking {
    ghost answers = { elim [
      | Title ↦ λ args view. just (gives (text view.name false))
      | Kept ↦ λ args view. keeping (codes "k") (number (pos 1))
          (just (faults (MissingArgument ∷ [])))
      | Filter ↦ λ args view. just (asks_for (further.Filter (codes "yes") []))
      | Macro ↦ λ args view. just (asks_for (further.Macro (codes "m") []))
      | Block ↦ λ args view. just (asks_for (further.Block (codes "b")))
    ] };

    fn call(&self, alloc: Global, _args: &[Value], view: &View<'_>) -> CallableAnswer {
        match self {
            Asking::Title => match Value::text(alloc, view.name()) {
                Ok(name) => CallableAnswer::value(alloc, name),
                Err(error) => CallableAnswer::fault(alloc, error),
            },
            Asking::Kept => CallableAnswer::fault(
                alloc,
                Error::from(ErrorKind::MissingArgument),
            ).keep(alloc, "k", Value::number(1)),
            Asking::Filter => CallableAnswer::further_filter(alloc, "yes", Vec::new(alloc)),
            Asking::Macro => CallableAnswer::further_macro(alloc, "m", Vec::new(alloc)),
            Asking::Block => CallableAnswer::further_block(alloc, "b"),
        }
    }
}

const CALLS: &str =
    "{% macro m() %}M{% endmacro %}{% block b %}B{% endblock %}{{ title() }} {{ 1|yes }} {{ 1 is yes }} {{ by_filter() }} {{ by_macro() }} {{ by_block() }}";

pub(crate) fn add_function(
    alloc: Global,
    environment: &mut Environment<'_>,
    name: &str,
    asking: Asking,
) -> Result<(), Error> {
    environment.add_function(name, Box::new(alloc, asking)?)
}

fn add_yes(alloc: Global, environment: &mut Environment<'_>) -> Result<(), Error> {
    environment.add_filter("yes", Box::new(alloc, Plain::new(Yes))?)?;
    environment.add_test("yes", Box::new(alloc, Plain::new(Yes))?)
}

fn add_objects(alloc: Global, environment: &mut Environment<'_>) -> Result<(), Error> {
    add_function(alloc, environment, "title", Asking::Title)?;
    add_function(alloc, environment, "by_filter", Asking::Filter)?;
    add_function(alloc, environment, "by_macro", Asking::Macro)?;
    add_function(alloc, environment, "by_block", Asking::Block)?;
    add_yes(alloc, environment)
}

fn removes_objects(environment: &mut Environment<'_>) -> bool {
    environment.remove_filter("yes");
    environment.remove_test("yes");
    let unknown = environment.render_str(&mut StateIds::new(), "{{ 1|yes }}", Value::undefined());
    is_fault(unknown, ErrorKind::UnknownFilter)
}

fn calls_objects<P: Parties>(environment: &EnvironmentOf<'_, P>) -> Result<bool, Error> {
    let text = environment.render_str(&mut StateIds::new(), CALLS, Value::undefined())?;
    Ok(text.as_str() == "B<string> true true true M B")
}
/// Rules for unknown methods, for the text of values, for escapes and for template names.
#[derive(Drop)]
pub(crate) struct OwnRules;

impl MethodFallback for OwnRules {
    ghost answers = { λ _ value name args view. just (gives (text name false)) };

    fn call(
        &self,
        alloc: Global,
        _value: &Value,
        name: &str,
        _args: &[Value],
        _view: &View<'_>,
    ) -> CallableAnswer {
        match Value::text(alloc, name) {
            Ok(name) => CallableAnswer::value(alloc, name),
            Err(error) => CallableAnswer::fault(alloc, error),
        }
    }
}

impl Formatter for OwnRules {
    ghost formats = { λ _. swapped };

    fn format(&self, alloc: Global, value: &Value, view: &View<'_>) -> Result<String, Error> {
        if *value == Value::none() {
            return escape_formatter(alloc, &Value::undefined(), view);
        }
        escape_formatter(alloc, value, view)
    }
}

impl EscapeRule for OwnRules {
    ghost escapes = { λ _ name. Html };

    fn escape(&self, _name: &str) -> AutoEscape {
        AutoEscape::Html
    }
}

impl PathJoin for OwnRules {
    ghost joins = { λ _ name parent. Ok (codes "lib/" ++ name) };

    fn join(&self, alloc: Global, name: &str, _parent: &str) -> Result<Name, Error> {
        let mut path = String::from_str(alloc, "lib/")?;
        path.push_str(name)?;
        Ok(Name::new(alloc, path.as_str())?)
    }
}

fn set_rules(alloc: Global, environment: &mut Environment<'_>) -> Result<(), Error> {
    environment.set_unknown_method_callback(Box::new(alloc, OwnRules)?);
    environment.set_formatter(Box::new(alloc, OwnRules)?);
    environment.set_auto_escape_callback(Box::new(alloc, OwnRules)?);
    environment.set_path_join_callback(Box::new(alloc, OwnRules)?);
    Ok(())
}

fn asks_rules<P: Parties>(environment: &mut EnvironmentOf<'_, P>) -> Result<bool, Error> {
    environment.add_template("lib/foot", "{{ none }}.")?;
    let source = "{{ x.twice() }}{{ '<' }}{% include 'foot' %}";
    let text = environment.render_str(&mut StateIds::new(), source, Value::undefined())?;
    Ok(text.as_str() == "twice&lt;.")
}
/// Keeps a value in `state`. Returns whether it had none of that name.
fn keeps<P: Parties>(state: &mut StateOf<'_, P>) -> Result<bool, Error> {
    Ok(state.set_temp("seen", Value::boolean(true))?.is_none())
}

fn tells<P: Parties>(state: &StateOf<'_, P>) -> bool {
    state.name() == "a.html"
        && state.auto_escape() == AutoEscape::Html
        && state.undefined_behavior() == UndefinedBehavior::Lenient
        && state.env().fuel() == Some(100)
        && state.fuel_levels() == Some((5, 95))
        && state.current_block().is_none()
        && state.get_temp("seen").is_some()
}

fn finds_names<P: Parties>(state: &StateOf<'_, P>) -> Result<bool, Error> {
    let found = state.lookup("_b")?;
    let (exports, known) = (state.exports()?, state.known_variables()?);
    Ok(found == Some(Value::number(2)) && exports.len() == 1 && known.len() == 5)
}

fn tells_all<P: Parties>(captured: &mut CapturedOf<StateOf<'_, P>>) -> Result<bool, Error> {
    let is_kept = captured.with_state_mut(|state| keeps(state))?;
    let is_told = tells(captured.state()) && finds_names(captured.state())?;
    Ok(is_kept && is_told && captured.output() == "x")
}

fn leaves_a_state<P: Parties>(environment: &mut EnvironmentOf<'_, P>) -> Result<bool, Error> {
    environment.set_fuel(Some(100));
    let source = "{% set a = 1 %}{% set _b = 2 %}x";
    let template = environment.template_from_named_str("a.html", source)?;
    let mut captured = template.render_captured(&mut StateIds::new(), Value::undefined())?;
    Ok(tells_all(&mut captured)? && captured.into_output().as_str() == "x")
}

const PARTS: &str = "{% macro m(a) %}[{{ a }}]{% endmacro %}{% block b %}B{% endblock %}";

fn calls_a_macro<P: Parties>(alloc: Global, state: &mut StateOf<'_, P>) -> Result<bool, Error> {
    let mut args = Vec::new(alloc);
    args.push(Value::number(5))?;
    Ok(state.call_macro("m", &args)?.as_str() == "[5]")
}

fn runs_blocks<P: Parties>(alloc: Global, state: &mut StateOf<'_, P>) -> Result<bool, Error> {
    let block = state.render_block("b")?;
    let mut writer = Counted::new(Vec::new(alloc));
    state.render_block_to_write("b", &mut writer)?;
    Ok(block.as_str() == "B" && writer.inner().as_slice() == "B".as_bytes())
}

fn asks_objects<P: Parties>(state: &mut StateOf<'_, P>) -> Result<bool, Error> {
    let filtered = state.apply_filter("yes", &[])?;
    let holds = state.perform_test("yes", &[])?;
    let is_refused = is_fault(state.apply_filter("kept", &[]), ErrorKind::MissingArgument);
    Ok(filtered.is_true() && holds && is_refused && state.get_temp("k").is_some())
}

fn formats<P: Parties>(state: &StateOf<'_, P>) -> Result<bool, Error> {
    let text = state.format(&Value::number(42))?;
    let template = state.get_template("parts")?;
    Ok(text.as_str() == "42" && template.source() == PARTS)
}

fn is_served<P: Parties>(alloc: Global, state: &mut StateOf<'_, P>) -> Result<bool, Error> {
    let are_run = calls_a_macro(alloc, state)? && runs_blocks(alloc, state)?;
    Ok(are_run && asks_objects(state)? && formats(state)?)
}

fn add_parts(alloc: Global, environment: &mut Environment<'_>) -> Result<(), Error> {
    add_objects(alloc, environment)?;
    environment.add_filter("kept", Box::new(alloc, Asking::Kept)?)?;
    environment.add_template("parts", PARTS)
}

fn serves_states<P: Parties>(
    alloc: Global,
    environment: &EnvironmentOf<'_, P>,
) -> Result<bool, Error> {
    let template = environment.get_template("parts")?;
    let captured = template.render_captured(&mut StateIds::new(), Value::undefined())?;
    let (output, mut state) = captured.into_parts();
    Ok(is_served(alloc, &mut state)? && output.as_str() == "B")
}

fn makes_states<P: Parties>(environment: &EnvironmentOf<'_, P>) -> Result<bool, Error> {
    let mut ids = StateIds::new();
    let template = environment.template_from_str("{% block b %}B{% endblock %}")?;
    let block = template.new_state(&mut ids)?.render_block("b")?;
    let empty = environment.empty_state(&mut ids)?;
    let range = empty.lookup("range")?;
    Ok(block.as_str() == "B" && empty.name() == "<unknown>" && range == Some(Value::function(0)))
}

fn writes<P: Parties>(alloc: Global, template: &TemplateOf<'_, '_, P>) -> Result<bool, Error> {
    let mut ids = StateIds::new();
    let mut writer = Counted::new(Vec::new(alloc));
    let captured = template.render_captured_to(&mut ids, Value::undefined(), &mut writer)?;
    let dropped = template.render_captured_to(&mut ids, Value::undefined(), &mut NullWriter);
    let is_whole = captured.output().is_empty() && writer.flush().is_ok() && dropped.is_ok();
    let has_none = writer.failures() == 0;
    let bytes = writer.into_inner();
    Ok(is_whole && has_none && bytes.as_slice() == "Hello".as_bytes())
}

fn stops_at_a_limit<P: Parties>(alloc: Global, template: &TemplateOf<'_, '_, P>) -> bool {
    let mut limited = Limited::new(Counted::new(Vec::new(alloc)), 3);
    let cut = template.render_captured_to(&mut StateIds::new(), Value::undefined(), &mut limited);
    let is_cut = is_fault(cut, ErrorKind::WriteFailure) && limited.left() == 0;
    let is_counted = limited.failures() == 1 && limited.inner().failures() == 0;
    let bytes = limited.into_inner().into_inner();
    is_cut && is_counted && bytes.as_slice() == "Hel".as_bytes()
}
// example ends here

/// Whether a template is written to both writers.
fn writes_hello<P: Parties>(
    alloc: Global,
    environment: &EnvironmentOf<'_, P>,
) -> Result<bool, Error> {
    let template = environment.template_from_str("Hello")?;
    Ok(writes(alloc, &template)? && stops_at_a_limit(alloc, &template))
}

#[test]
fn values_are_told(rt: HostRuntime) -> Result<(), Fail> {
    let alloc = rt.alloc();
    assert!(rt; tells_errors(alloc)?);
    assert!(rt; tells_values(alloc)?);
    assert!(rt; makes_lists_and_maps(alloc)?);
    assert!(rt; makes_maps_of_pairs(alloc)?);
    Ok(())
}

#[test]
fn sources_serve(rt: HostRuntime) -> Result<(), Fail> {
    let alloc = rt.alloc();
    let environment = Environment::new(alloc)?;
    assert!(rt; renders_sources(&environment)?);
    assert!(rt; resumes_numbers(&environment)?);
    assert!(rt; tells_names(&environment)?);
    assert!(rt; evaluates(alloc, &environment)?);
    assert!(rt; evaluates_owned(alloc, &environment)?);
    assert!(rt; makes_states(&environment)?);
    Ok(())
}

#[test]
fn settings_serve(rt: HostRuntime) -> Result<(), Fail> {
    let alloc = rt.alloc();
    let mut environment = Environment::new(alloc)?;
    assert!(rt; writes_hello(alloc, &environment)?);
    assert!(rt; compiles(alloc, &environment)?);
    assert!(rt; runs_streams(alloc, &environment)?);
    assert!(rt; follows_settings(&mut environment)?);
    limits_strangers(&mut environment);
    assert!(rt; stops_strangers(alloc, &environment));
    assert!(rt; has_nothing(&Environment::empty(alloc)));
    Ok(())
}

#[test]
fn templates_change(rt: HostRuntime) -> Result<(), Fail> {
    let alloc = rt.alloc();
    let mut environment = Environment::new(alloc)?;
    assert!(rt; adds_templates(alloc, &mut environment)?);
    assert!(rt; lists_templates(&environment) && removes_templates(&mut environment));
    assert!(rt; leaves_a_state(&mut environment)?);
    Ok(())
}

#[test]
fn objects_change(rt: HostRuntime) -> Result<(), Fail> {
    let alloc = rt.alloc();
    let mut environment = Environment::new(alloc)?;
    add_parts(alloc, &mut environment)?;
    assert!(rt; serves_states(alloc, &environment)?);
    assert!(rt; calls_objects(&environment)? && removes_objects(&mut environment));
    Ok(())
}

#[test]
fn rules_change(rt: HostRuntime) -> Result<(), Fail> {
    let alloc = rt.alloc();
    let mut environment = Environment::new(alloc)?;
    set_rules(alloc, &mut environment)?;
    assert!(rt; asks_rules(&mut environment)?);
    assert!(rt; follows_syntax(alloc, &mut environment)?);
    Ok(())
}
