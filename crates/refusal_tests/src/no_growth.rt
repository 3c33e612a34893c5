//! Calls that don't allocate. A mark is a growth of a size that no call asks for, with the name of
//! what was done since the previous mark; `tools/refusals` counts the growths between marks.
//! Preparations have no name. A name after `*` is of a call that has to allocate, which shows that
//! growths are counted.

use crate::objects::{Escapes, add_seven};
use std::alloc::Global;
use std::rc::Rc;
use std::test::Fail;
use template_machine::*;
use tm_meaning::{StreamId, TemplateId};
use tm_tables::{Context, Frame, LoopState};

/// The size of a mark.
const MARK: usize = 7919;

/// Grows by a mark and frees it at once. It reads what it wrote there, so that no compiler removes
/// the growth.
#[inline(never)]
fn mark(alloc: Global, name: &str) -> Result<(), Error> {
    let mut text = String::with_capacity(alloc, MARK)?;
    text.push_str(name)?;
    if text.as_str() == name {
        Ok(())
    } else {
        Err(Error::from(ErrorKind::InvalidOperation))
    }
}

/// Names that are added in no order.
static NAMES: [&str; 7] = ["z", "y", "x", "w", "b", "c", "a"];

/// An environment with templates, objects and globals.
fn new_environment(alloc: Global) -> Result<Environment<'static>, Error> {
    let mut environment: Environment<'static> = Environment::new(alloc)?;
    environment.add_template("t", "{% set a = 1 %}{% block b %}{% endblock %}x")?;
    environment.add_template("u", "u")?;
    add_seven(alloc, &mut environment)?;
    environment.add_global("g", Value::number(1))?;
    for name in &NAMES {
        environment.add_template(name, "x")?;
        environment.add_global(name, Value::number(1))?;
    }
    Ok(environment)
}

fn has_no_globals<P: Parties>(environment: &EnvironmentOf<'static, P>) -> bool {
    environment.globals().next().is_none()
}

/// Calls that need no environment's data.
fn makes_beginnings(alloc: Global) -> Result<bool, Error> {
    mark(alloc, "")?;
    let environment: Environment<'static> = Environment::empty(alloc);
    mark(alloc, "Environment::empty")?;
    let has_none = has_no_globals(&environment);
    mark(alloc, "globals of an empty one")?;
    let first = StateIds::new().next()?;
    mark(alloc, "StateIds::new")?;
    let later = StateIds::resume(7).next()?;
    mark(alloc, "StateIds::resume")?;
    let syntax = SyntaxConfig::default();
    mark(alloc, "SyntaxConfig::default")?;
    let is_kept = syntax.keeps_newline();
    mark(alloc, "keeps_newline")?;
    let escape = default_auto_escape_callback("a.html.j2");
    mark(alloc, "default_auto_escape_callback")?;
    let error = Error::from(ErrorKind::BadInclude);
    mark(alloc, "Error::from")?;
    let is_bare = error.cause().is_none() && error.detail().is_none();
    let kind = error.kind();
    mark(alloc, "kind, cause, detail")?;
    let text = Value::text(alloc, "a")?;
    mark(alloc, "*Value::text")?;
    let is_text = text.as_str() == Some("a");
    let is_first = first == 0 && later == 7 && !is_kept && escape == AutoEscape::Html;
    Ok(has_none && is_first && is_bare && is_text && kind == ErrorKind::BadInclude)
}

/// Fuel and a writer's error.
fn tracks_and_writes(alloc: Global) -> Result<bool, Error> {
    let instruction = Instruction::Emit;
    mark(alloc, "")?;
    let mut tracker = FuelTracker::new(1);
    mark(alloc, "FuelTracker::new")?;
    tracker.track(&instruction)?;
    mark(alloc, "FuelTracker::track")?;
    let is_out = tracker.track(&instruction).is_err();
    mark(alloc, "FuelTracker::track without fuel")?;
    let levels = (tracker.initial(), tracker.consumed(), tracker.remaining());
    mark(alloc, "initial, consumed, remaining")?;
    let mut wrapper = WriteWrapper::new(Limited::new(NullWriter, 0));
    let Err(error) = wrapper.write_str("x") else {
        return Ok(false);
    };
    mark(alloc, "")?;
    let taken = wrapper.take_err(error);
    mark(alloc, "take_err")?;
    let given = wrapper.take_err(Error::from(ErrorKind::OutOfFuel));
    mark(alloc, "take_err of another")?;
    let are_taken = taken.kind() == ErrorKind::WriteFailure && given.kind() == ErrorKind::OutOfFuel;
    Ok(is_out && are_taken && levels == (1, 1, 0))
}

/// Sets an environment's settings.
fn sets(alloc: Global, environment: &mut Environment<'static>) -> Result<bool, Error> {
    let boxed = Box::new(alloc, Escapes)?;
    mark(alloc, "")?;
    environment.set_auto_escape_callback(boxed);
    mark(alloc, "set_auto_escape_callback")?;
    environment.set_fuel(Some(1000));
    mark(alloc, "set_fuel")?;
    let fuel = environment.fuel();
    mark(alloc, "fuel")?;
    environment.set_recursion_limit(1000);
    mark(alloc, "set_recursion_limit")?;
    let limit = environment.recursion_limit();
    mark(alloc, "recursion_limit")?;
    environment.set_value_limit(1_000_000);
    mark(alloc, "set_value_limit")?;
    let largest = environment.value_limit();
    mark(alloc, "value_limit")?;
    environment.set_undefined_behavior(UndefinedBehavior::Chainable);
    mark(alloc, "set_undefined_behavior")?;
    let behavior = environment.undefined_behavior();
    mark(alloc, "undefined_behavior")?;
    environment.set_syntax(SyntaxConfig::default());
    mark(alloc, "set_syntax")?;
    let is_kept = environment.syntax().keeps_newline();
    mark(alloc, "syntax")?;
    let are_set = fuel == Some(1000) && limit == 500 && largest == 1_000_000 && !is_kept;
    Ok(are_set && behavior == UndefinedBehavior::Chainable)
}

/// Queries an environment.
fn tells<P: Parties>(alloc: Global, environment: &EnvironmentOf<'_, P>) -> Result<bool, Error> {
    let mut count: usize = 0;
    mark(alloc, "")?;
    for (_name, _template) in environment.templates() {
        count = count.saturating_add(1);
    }
    mark(alloc, "templates")?;
    for (_name, _value) in environment.globals() {
        count = count.saturating_add(1);
    }
    mark(alloc, "globals")?;
    let template = environment.get_template("t")?;
    mark(alloc, "get_template of a name that is there")?;
    let is_named = template.name() == "t" && !template.source().is_empty();
    mark(alloc, "name, source of a template")?;
    let absent = environment.get_template("no").is_err();
    mark(alloc, "get_template of another name")?;
    Ok(count == 21 && is_named && absent)
}

/// Queries the state of a render.
fn state_tells<P: Parties>(
    alloc: Global,
    environment: &EnvironmentOf<'_, P>,
) -> Result<bool, Error> {
    let template = environment.get_template("t")?;
    let captured = template.render_captured(&mut StateIds::new(), Value::undefined())?;
    mark(alloc, "")?;
    let is_output = captured.output() == "x";
    mark(alloc, "output")?;
    let state = captured.state();
    let is_named = state.name() == "t" && state.current_block().is_none();
    mark(alloc, "state, name, current_block")?;
    let is_escaped = state.auto_escape() == AutoEscape::Html;
    mark(alloc, "auto_escape")?;
    let is_chained = state.undefined_behavior() == UndefinedBehavior::Chainable;
    mark(alloc, "undefined_behavior of a state")?;
    let has_fuel = state.env().fuel().is_some() && state.fuel_levels().is_some();
    mark(alloc, "env, fuel_levels")?;
    let has_none = state.get_temp("k").is_none();
    mark(alloc, "get_temp of no name")?;
    let (output, mut state) = captured.into_parts();
    mark(alloc, "into_parts")?;
    let before = state.set_temp("k", Value::number(1))?;
    mark(alloc, "*set_temp")?;
    let is_kept = before.is_none() && state.get_temp("k").is_some();
    mark(alloc, "get_temp")?;
    let is_told = is_output && is_named && is_escaped && is_chained && has_fuel;
    Ok(is_told && has_none && is_kept && output.as_str() == "x")
}

fn gives_output<P: Parties>(
    alloc: Global,
    environment: &EnvironmentOf<'_, P>,
) -> Result<bool, Error> {
    let template = environment.get_template("t")?;
    let captured = template.render_captured(&mut StateIds::new(), Value::undefined())?;
    mark(alloc, "")?;
    let output = captured.into_output();
    mark(alloc, "into_output")?;
    Ok(output.as_str() == "x")
}

/// Removes from an environment.
fn drops(alloc: Global, environment: &mut Environment<'static>) -> Result<bool, Error> {
    mark(alloc, "")?;
    environment.remove_filter("f");
    mark(alloc, "remove_filter")?;
    environment.remove_test("f");
    mark(alloc, "remove_test")?;
    environment.remove_global("g");
    mark(alloc, "remove_global")?;
    environment.remove_global("range");
    mark(alloc, "remove_global of a function")?;
    environment.remove_global("no");
    mark(alloc, "remove_global of no name")?;
    environment.remove_template("w");
    mark(alloc, "remove_template")?;
    environment.remove_template("no");
    mark(alloc, "remove_template of no name")?;
    environment.clear_templates();
    mark(alloc, "clear_templates")?;
    environment.add_template("t", "x")?;
    mark(alloc, "*add_template")?;
    Ok(environment.templates().next().is_some())
}

/// Moves in a block's stack and between depths of scopes.
fn moves(alloc: Global) -> Result<bool, Error> {
    let mut stack = BlockStack::new(alloc, TemplateId::Own)?;
    stack.append(TemplateId::Own)?;
    let mut context = Context::new(alloc);
    context.push_frame(Frame::new(Value::undefined()), 500)?;
    mark(alloc, "")?;
    let is_moved = stack.push();
    mark(alloc, "BlockStack::push")?;
    let is_last = !stack.push();
    mark(alloc, "BlockStack::push at the last place")?;
    stack.pop();
    mark(alloc, "BlockStack::pop")?;
    let is_first = stack.len() == 2 && stack.place() == 0;
    mark(alloc, "BlockStack::len, place")?;
    context.set_outer(4);
    mark(alloc, "Context::set_outer")?;
    let is_deep = context.depth() == 5 && context.outer() == 4 && context.height() == 1;
    mark(alloc, "Context::depth, outer, height")?;
    let is_refused = context
        .push_frame(Frame::new(Value::undefined()), 5)
        .is_err();
    mark(alloc, "Context::push_frame beyond the limit")?;
    context.pop_frame();
    mark(alloc, "Context::pop_frame")?;
    context.push_frame(Frame::new(Value::undefined()), 5)?;
    mark(alloc, "Context::push_frame into room that is there")?;
    context.cut_to(0, 0);
    mark(alloc, "Context::cut_to")?;
    Ok(is_moved && is_last && is_first && is_deep && is_refused && context.depth() == 0)
}

/// A loop over two items.
fn new_loop(alloc: Global) -> Result<LoopState, Error> {
    let mut items = Vec::new(alloc);
    items.push(Value::number(1))?;
    items.push(Value::number(2))?;
    let stream = StreamId {
        template: TemplateId::Own,
        block: None,
    };
    let stream = Rc::new(alloc, stream)?;
    Ok(LoopState::new(Rc::new(alloc, items)?, 0, 0, true, stream))
}

/// Advances and queries a loop.
fn turns(alloc: Global) -> Result<bool, Error> {
    let mut state = new_loop(alloc)?;
    mark(alloc, "")?;
    state.turn();
    mark(alloc, "LoopState::turn")?;
    let position = state.position();
    mark(alloc, "LoopState::position")?;
    let is_first = position.place == Some(0) && position.count == 2 && position.depth == 0;
    mark(alloc, "numbers of a loop")?;
    let has_next = state.next_item().is_some() && state.following_item().is_some();
    mark(alloc, "next_item, following_item")?;
    let has_previous = state.previous_item().is_some();
    mark(alloc, "previous_item")?;
    let has_items = !state.did_not_iterate() && state.depth_inside() == Some(1);
    mark(alloc, "did_not_iterate, depth_inside")?;
    let item = state.cycle(&[Value::number(5)])?;
    mark(alloc, "LoopState::cycle of a number")?;
    let is_item = item == Value::number(5);
    state.leave()?;
    mark(alloc, "LoopState::leave")?;
    Ok(is_first && has_next && !has_previous && has_items && is_item && state.number() == 0)
}

#[test]
fn calls_grow_nothing(rt: HostRuntime) -> Result<(), Fail> {
    assert!(rt; makes_beginnings(rt.alloc())?);
    assert!(rt; tracks_and_writes(rt.alloc())?);
    assert!(rt; moves(rt.alloc())?);
    assert!(rt; turns(rt.alloc())?);
    Ok(())
}

#[test]
fn environments_grow_nothing(rt: HostRuntime) -> Result<(), Fail> {
    let alloc = rt.alloc();
    let mut environment = new_environment(alloc)?;
    assert!(rt; tells(alloc, &environment)?);
    assert!(rt; sets(alloc, &mut environment)?);
    environment.add_template("t", "{% set a = 1 %}{% block b %}{% endblock %}x")?;
    assert!(rt; state_tells(alloc, &environment)?);
    assert!(rt; gives_output(alloc, &environment)?);
    assert!(rt; drops(alloc, &mut environment)?);
    Ok(())
}
