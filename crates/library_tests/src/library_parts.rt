//! The last examples of docs/LIBRARY.md: captures, writers, trees and code; examples/check.sh
//! compares them.

use crate::library::{OwnRules, is_fault, named};
use std::alloc::Global;
use std::collections::BTreeMap;
use std::rc::RcStr;
use std::test::Fail;
use template_machine::*;

// example begins here
fn captures_text(alloc: Global) -> Result<bool, Error> {
    let mut output = Output::new(alloc, Counted::new(Vec::new(alloc)));
    output.write_str("a")?;
    output.begin_capture(CaptureMode::Capture)?;
    output.write_str("<")?;
    let value = output.end_capture(AutoEscape::Html)?;
    output.begin_capture(CaptureMode::Discard)?;
    let is_dropped = output.is_discarding() && output.end_capture(AutoEscape::None)?.is_undefined();
    let is_written = output.writer().inner().as_slice() == "a".as_bytes();
    let failures = output.into_writer().failures();
    Ok(value.is_safe() && value.as_str() == Some("<") && is_dropped && is_written && failures == 0)
}

fn keeps_an_error(alloc: Global) -> bool {
    let mut wrapper = WriteWrapper::new(Limited::new(Counted::new(Vec::new(alloc)), 1));
    let is_taken = wrapper.write_str("a").is_ok() && wrapper.err.is_none();
    let Err(error) = wrapper.write_str("b") else {
        return false;
    };
    let is_kept = wrapper.err.is_some();
    let taken = wrapper.take_err(error);
    let is_dropped = NullWriter.write_str("lost").is_ok();
    is_dropped
        && is_taken
        && is_kept
        && taken.kind() == ErrorKind::WriteFailure
        && wrapper.err.is_none()
}

fn makes_trees(alloc: Global) -> Result<bool, Error> {
    let is_expression = match &parse_expr(alloc, "1 + 2")? {
        Tree::Expression(_) => true,
        Tree::Statements(_) => false,
    };
    Ok(is_expression && is_fault(parse_expr(alloc, "1 +"), ErrorKind::SyntaxError))
}

fn charges_code(alloc: Global) -> Result<bool, Error> {
    let source = RcStr::from_str(alloc, "{{ name }}")?;
    let tree = parse(alloc, &source, &SyntaxConfig::default())?;
    let streams = generate(alloc, &tree)?;
    let mut fuel = FuelTracker::new(10);
    for instruction in streams.root.as_slice() {
        fuel.track(instruction)?;
    }
    Ok(fuel.initial() == 10 && fuel.consumed() == 2 && fuel.remaining() == 8)
}

pub(crate) fn compiles<P: Parties>(
    alloc: Global,
    environment: &EnvironmentOf<'_, P>,
) -> Result<bool, Error> {
    let mut config = TemplateConfig::default();
    let usual = CompiledTemplate::new(alloc, "a.html", Source::Lent("{{ 1 }}"), &config)?;
    config.default_auto_escape = EscapeSetting::Own(Box::new(alloc, OwnRules)?);
    let compiled = CompiledTemplate::new(alloc, "a.txt", Source::Lent("{{ '<' }}"), &config)?;
    let is_named = compiled.name() == "a.txt" && compiled.source() == "{{ '<' }}";
    let is_escaped = compiled.escape() == AutoEscape::Html && usual.escape() == AutoEscape::Html;
    let reads_nothing = compiled.undeclared_variables(alloc, false)?.is_empty();
    let template = environment.template_from_compiled(compiled)?;
    let text = template.render(&mut StateIds::new(), Value::undefined())?;
    let by_name = default_auto_escape_callback("a.txt");
    Ok(
        is_named
            && is_escaped
            && reads_nothing
            && text.as_str() == "&lt;"
            && by_name == AutoEscape::None,
    )
}

/// The instructions of a greeting of a name.
fn greeting(alloc: Global) -> Result<Vec<Instruction>, Error> {
    let mut stream = Vec::new(alloc);
    stream.push(Instruction::LoadConst(Value::text(alloc, "Hello ")?))?;
    stream.push(Instruction::Emit)?;
    stream.push(Instruction::Lookup(Name::new(alloc, "name")?))?;
    stream.push(Instruction::Emit)?;
    Ok(stream)
}

pub(crate) fn runs_streams<P: Parties>(
    alloc: Global,
    environment: &EnvironmentOf<'_, P>,
) -> Result<bool, Error> {
    let root = verify(alloc, greeting(alloc)?, Form::Template)?;
    let blocks = BTreeMap::new(alloc);
    let compiled = CompiledTemplate::from_streams(alloc, "hello", root, blocks, AutoEscape::None)?;
    let template = environment.template_from_compiled(compiled)?;
    let context = named(alloc, "name", Value::text(alloc, "World")?)?;
    let text = template.render(&mut StateIds::new(), context)?;
    let mut stuck = Vec::new(alloc);
    stuck.push(Instruction::Emit)?;
    let is_refused = is_fault(verify(alloc, stuck, Form::Template), ErrorKind::BadStream);
    Ok(is_refused && text.as_str() == "Hello World")
}
// example ends here

#[test]
fn parts_serve(rt: HostRuntime) -> Result<(), Fail> {
    let alloc = rt.alloc();
    assert!(rt; captures_text(alloc)?);
    assert!(rt; keeps_an_error(alloc));
    assert!(rt; makes_trees(alloc)?);
    assert!(rt; charges_code(alloc)?);
    Ok(())
}
