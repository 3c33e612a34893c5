//! Calls of environments and templates that the examples don't show.

use crate::library::{Asking, add_function};
use std::alloc::Global;
use std::test::Fail;
use template_machine::*;

/// Writes the name of the running template.
const TITLE: &str = "{{ title() }}";

fn is_text(found: Result<String, Error>, wanted: &str) -> bool {
    match found {
        Ok(text) => text.as_str() == wanted,
        Err(_) => false,
    }
}

fn captured_text<P: Parties>(
    template: &TemplateOf<'_, '_, P>,
    ids: &mut StateIds,
) -> Result<String, Error> {
    let captured = template.render_captured(ids, Value::undefined())?;
    Ok(captured.into_output())
}

/// Whether a template has this source and name, and renders its name.
fn is_rendered<P: Parties>(
    template: &TemplateOf<'_, '_, P>,
    ids: &mut StateIds,
    source: &str,
    name: &str,
) -> bool {
    template.source() == source
        && template.name() == name
        && is_text(template.render(ids, Value::undefined()), name)
        && is_text(captured_text(template, ids), name)
}

/// Whether a source that writes its template's name renders, however its template is made.
fn renders_each<P: Parties>(environment: &EnvironmentOf<'_, P>) -> Result<bool, Error> {
    let mut ids = StateIds::new();
    let kept = is_rendered(&environment.get_template("b")?, &mut ids, TITLE, "b");
    let template = environment.template_from_str(TITLE)?;
    let unnamed = is_rendered(&template, &mut ids, TITLE, "<string>");
    let template = environment.template_from_named_str("n", TITLE)?;
    Ok(kept && unnamed && is_rendered(&template, &mut ids, TITLE, "n"))
}

/// Whether such a source renders directly, with and without a name.
fn renders_at_once<P: Parties>(environment: &EnvironmentOf<'_, P>) -> bool {
    let mut ids = StateIds::new();
    let unnamed = environment.render_str(&mut ids, TITLE, Value::undefined());
    let named = environment.render_named_str(&mut ids, "n", TITLE, Value::undefined());
    is_text(unnamed, "<string>") && is_text(named, "n")
}

/// Whether the environment's templates have these names, in this order.
fn has_templates<P: Parties>(environment: &EnvironmentOf<'_, P>, wanted: &str) -> bool {
    let mut rest = wanted.split_whitespace();
    for (name, template) in environment.templates() {
        if rest.next() != Some(name) || template.name() != name {
            return false;
        }
    }
    rest.next().is_none()
}

/// Whether templates are iterated in order, and removed.
fn drops_templates<P: Parties>(environment: &mut EnvironmentOf<'_, P>) -> bool {
    let is_walked = has_templates(environment, "a b t");
    environment.remove_template("no");
    let is_whole = has_templates(environment, "a b t");
    environment.remove_template("b");
    let is_gone = has_templates(environment, "a t");
    environment.clear_templates();
    is_walked && is_whole && is_gone && has_templates(environment, "")
}

/// Whether templates render, with `title` as a function that returns the running template's name.
fn are_rendered<P: Parties>(
    alloc: Global,
    environment: &mut EnvironmentOf<'_, P>,
) -> Result<bool, Error> {
    environment.add_template("t", "t")?;
    environment.add_template("a", "a")?;
    environment.add_template_owned("b", String::from_str(alloc, TITLE)?)?;
    let are_rendered = renders_at_once(environment) && renders_each(environment)?;
    Ok(are_rendered && drops_templates(environment))
}

#[test]
fn calls_serve(rt: HostRuntime) -> Result<(), Fail> {
    let alloc = rt.alloc();
    let mut environment = Environment::new(alloc)?;
    add_function(alloc, &mut environment, "title", Asking::Title)?;
    assert!(rt; are_rendered(alloc, &mut environment)?);
    Ok(())
}
