//! The render of a command line.
ghost use Rattle.std.specs.Prelude.{◌≡◌, List, [], ◌∷◌, map, min, MatchResult, OnOk, IfErr};
ghost use Rattle.tm_values.specs.Val.{Val};
ghost use Rattle.mj_words.specs.CommandLine.{plain};
ghost use Rattle.template_machine.specs.Environment.{greatest_limit, new_environment};
ghost use Rattle.tm_syntax.specs.Named.{Named};
ghost use Rattle.tm_templates.specs.Templates.{Compiled};
ghost use Rattle.tm_values.specs.Answer.{Refused};
ghost use Rattle.mj.specs.Program.{Input, input_of, context_of, limit_of, named, IsMeant, IsRendered, IsFault};
ghost use Rattle.mj.specs.Program.{AreAdded, BeginWith, SpellNone};

use mj_words::Arguments;
use std::alloc::Global;
use std::io::Write;
use std::mem;
use template_machine::{
    Counted, Environment, EnvironmentOf, Error, ErrorKind, Parties, StateIds, TemplateOf, Value,
    ValueMap,
};

/// Renders the first source, with all sources as templates, and flushes the output, even if the
/// render fails; then the error of the render is returned. SyntaxError if a source isn't a valid
/// template. WriteFailure if a write or the flush fails. OutOfMemory if memory runs out. Otherwise,
/// the fault that the render means.
pub fn render<O: Write + Drop>(
    alloc: Global,
    arguments: &Arguments<'_>,
    members: Vec<(Value, Value)>,
    sources: Vec<(&str, String)>,
    out: &mut Counted<O>,
) -> Result<(), Error>
    requires { BeginWith arguments.now.file.now (map named sources.items) }
    ensures { let input = input_of arguments.now members.items (map named sources.entry.items) in
        MatchResult result
        (λ _. IsRendered O.contents input out.old out.new)
        (λ e. IsFault O.contents input e out.old out.new) }
{
    let rendered = render_unflushed(alloc, arguments, members, sources, out);
    let flushed = out.flush();
    rendered?;
    match flushed {
        Ok(()) => Ok(()),
        Err(_error) => Err(Error::from(ErrorKind::WriteFailure)),
    }
}

/// Renders the first source. The end of its text may still be in the writer's buffer.
fn render_unflushed<O: Write + Drop>(
    alloc: Global,
    arguments: &Arguments<'_>,
    members: Vec<(Value, Value)>,
    sources: Vec<(&str, String)>,
    out: &mut Counted<O>,
) -> Result<(), Error>
    requires { BeginWith arguments.now.file.now (map named sources.items) }
    ensures { let input = input_of arguments.now members.items (map named sources.entry.items) in
        MatchResult result
        (λ _. IsRendered O.contents input out.old out.new)
        (λ e. IsFault O.contents input e out.old out.new) }
{
    let context = context(alloc, members, arguments.texts.as_slice())?;
    // The process ends after the render, so neither the context nor the environment is freed.
    mem::forget(context.share()?);
    let mut environment = Environment::new(alloc)?;
    let rendered = render_in(&mut environment, arguments, sources, context, out);
    mem::forget(environment);
    rendered
}

/// Renders the first source in a new environment, over the context of the command line and the
/// members.
fn render_in<O: Write + Drop>(
    environment: &mut Environment<'_>,
    arguments: &Arguments<'_>,
    sources: Vec<(&str, String)>,
    context: Value,
    out: &mut Counted<O>,
) -> Result<(), Error>
    requires new { environment.now ≡ new_environment }
    requires first { BeginWith arguments.now.file.now (map named sources.items) }
    ensures { (members : List (Val × Val)) →
        context ≡ context_of members (map plain arguments.now.texts.items) →
        let input = input_of arguments.now members (map named sources.entry.items) in
        MatchResult result
        (λ _. IsRendered O.contents input out.old out.new)
        (λ e. IsFault O.contents input e out.old out.new) }
{
    environment.set_fuel(arguments.fuel);
    environment.set_recursion_limit(limit(arguments.limit));
    add_templates(environment, sources)?;
    let template = environment.get_template(arguments.file)?;
    render_template(&template, context, out)
}

/// Adds each source as the template of its file's name, in order, replacing an earlier one.
fn add_templates<P: Parties>(
    environment: &mut EnvironmentOf<'_, P>,
    sources: Vec<(&str, String)>,
) -> Result<(), Error>
    ensures ok { OnOk result ((after : Named Compiled)
        × AreAdded environment.old.syntax (P.stated environment.old.objects).escapes
        (map named sources.entry.items) environment.old.templates after
        × (environment.new ≡ record environment.old { templates = after })) }
    ensures refused { IfErr result (λ e.
        Refused e (SpellNone environment.old.syntax (map named sources.entry.items))) }
{
    for (file, source) in sources {
        environment.add_template_owned(file, source)?;
    }
    Ok(())
}

/// Renders the template in the first state. The result is the meaning of any input that means this
/// template.
fn render_template<P: Parties, O: Write + Drop>(
    template: &TemplateOf<'_, '_, P>,
    context: Value,
    out: &mut Counted<O>,
) -> Result<(), Error>
    ensures { (input : Input) → IsMeant P.stated template.now context input →
        MatchResult result (λ _. IsRendered O.contents input out.old out.new)
        (λ e. IsFault O.contents input e out.old out.new) }
{
    template.render_captured_to(&mut StateIds::new(), context, out)?;
    Ok(())
}

/// The recursion limit of the command line, if it is set.
fn limit(given: Option<u64>) -> usize
    ensures { min result greatest_limit ≡ limit_of given }
{
    match given {
        Some(limit) => limit as usize,
        None => usize::MAX,
    }
}

/// The map of the members, with the texts of the command line added. OutOfMemory is the only error.
fn context(
    alloc: Global,
    mut members: Vec<(Value, Value)>,
    texts: &[(&str, &str)],
) -> Result<Value, Error>
    ensures { MatchResult result (λ v. v ≡ context_of members.items (map plain texts.now))
        (λ e. e ≡ ErrorKind.OutOfMemory ∷ []) }
{
    for (name, text) in texts {
        members.push((Value::text(alloc, name)?, Value::text(alloc, text)?))?;
    }
    Value::from_map(alloc, ValueMap::from_pairs(members)?)
}
