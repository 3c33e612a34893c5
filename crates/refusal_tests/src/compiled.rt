//! Trees, code, streams and delimiters, whichever growth is refused.

use crate::ends::{holds, is_fault, told};
use std::alloc::Global;
use std::collections::BTreeMap;
use std::rc::RcStr;
use std::test::Fail;
use template_machine::*;

/// What is made of sources and streams.
#[derive(Clone, Copy)]
enum Making {
    Tree,
    ExpressionTree,
    Code,
    Names,
    FaultyTree,
    FaultyExpression,
    Template,
    Verified,
    Refused,
    Delimiters,
    FaultyDelimiters,
}

static MAKINGS: [Making; 11] = [
    Making::Tree,
    Making::ExpressionTree,
    Making::Code,
    Making::Names,
    Making::FaultyTree,
    Making::FaultyExpression,
    Making::Template,
    Making::Verified,
    Making::Refused,
    Making::Delimiters,
    Making::FaultyDelimiters,
];

const SOURCE: &str = "{% block b %}{{ a.b }}{% endblock %}{% for x in c %}{{ x }}{% endfor %}";

fn tree_of(alloc: Global, source: &str) -> Result<Tree, Error> {
    let source = RcStr::from_str(alloc, source)?;
    parse(alloc, &source, &SyntaxConfig::default())
}

fn makes_trees(alloc: Global) -> Result<bool, Error> {
    match &tree_of(alloc, SOURCE)? {
        Tree::Statements(statements) => Ok(statements.len() == 2),
        Tree::Expression(_expression) => Ok(false),
    }
}

fn makes_expressions(alloc: Global) -> Result<bool, Error> {
    match &parse_expr(alloc, "1 + a.b|f")? {
        Tree::Statements(_statements) => Ok(false),
        Tree::Expression(_expression) => Ok(true),
    }
}

fn makes_code(alloc: Global) -> Result<bool, Error> {
    let tree = tree_of(alloc, SOURCE)?;
    let streams = generate(alloc, &tree)?;
    let mut fuel = FuelTracker::new(100);
    for instruction in streams.root.as_slice() {
        fuel.track(instruction)?;
    }
    Ok(fuel.consumed() > 0)
}

fn finds_names(alloc: Global) -> Result<bool, Error> {
    let tree = tree_of(alloc, SOURCE)?;
    let names = undeclared(alloc, &tree, false)?;
    let nested = undeclared(alloc, &tree, true)?;
    Ok(names.len() == 2 && names.contains("a") && nested.contains("a.b"))
}

/// A template that needs no environment until it renders.
fn compiles(alloc: Global) -> Result<bool, Error> {
    let config = TemplateConfig::default();
    let compiled = CompiledTemplate::new(alloc, "a.html", Source::Lent(SOURCE), &config)?;
    let names = compiled.undeclared_variables(alloc, true)?;
    let is_whole = compiled.name() == "a.html" && compiled.source() == SOURCE;
    Ok(is_whole && compiled.escape() == AutoEscape::Html && names.contains("a.b"))
}

/// A stream that greets a name.
fn greeting(alloc: Global) -> Result<Vec<Instruction>, Error> {
    let mut stream = Vec::new(alloc);
    stream.push(Instruction::LoadConst(Value::text(alloc, "Hello ")?))?;
    stream.push(Instruction::Emit)?;
    stream.push(Instruction::Lookup(Name::new(alloc, "name")?))?;
    stream.push(Instruction::Emit)?;
    Ok(stream)
}

fn verifies(alloc: Global) -> Result<bool, Error> {
    let verified = verify(alloc, greeting(alloc)?, Form::Template)?;
    Ok(verified.into_instructions().len() == 4)
}

/// Whether a stream that emits more values than it has is refused.
fn refuses(alloc: Global) -> Result<bool, Error> {
    let mut stream = greeting(alloc)?;
    stream.push(Instruction::Emit)?;
    is_fault(verify(alloc, stream, Form::Template), ErrorKind::BadStream)
}

fn has_delimiters(alloc: Global) -> Result<bool, Error> {
    let (start, end) = (
        String::from_str(alloc, "<%")?,
        String::from_str(alloc, "%>")?,
    );
    let builder = SyntaxConfig::builder().block_delimiters(start, end);
    let syntax = builder.keep_trailing_newline(true).build()?;
    Ok(syntax.keeps_newline())
}

fn refuses_delimiters(alloc: Global) -> Result<bool, Error> {
    let (start, end) = (
        String::from_str(alloc, "{{")?,
        String::from_str(alloc, "}}")?,
    );
    let builder = SyntaxConfig::builder().block_delimiters(start, end);
    is_fault(builder.build(), ErrorKind::InvalidDelimiter)
}

fn makes(alloc: Global, making: Making) -> Result<bool, Error> {
    match making {
        Making::Tree => makes_trees(alloc),
        Making::ExpressionTree => makes_expressions(alloc),
        Making::Code => makes_code(alloc),
        Making::Names => finds_names(alloc),
        Making::FaultyTree => is_fault(tree_of(alloc, "a{% if 1 %}b"), ErrorKind::SyntaxError),
        Making::FaultyExpression => is_fault(parse_expr(alloc, "1 +"), ErrorKind::SyntaxError),
        Making::Template => compiles(alloc),
        Making::Verified => verifies(alloc),
        Making::Refused => refuses(alloc),
        Making::Delimiters => has_delimiters(alloc),
        Making::FaultyDelimiters => refuses_delimiters(alloc),
    }
}

#[test]
fn what_compiles_answers_for_memory(rt: HostRuntime) -> Result<(), Fail> {
    for making in &MAKINGS {
        let first = told(makes(rt.alloc(), *making));
        assert!(rt; holds(first, told(makes(rt.alloc(), *making))));
    }
    Ok(())
}

/// Whether a stream and that of its block write a greeting of the name in the context.
fn runs<P: Parties>(alloc: Global, environment: &EnvironmentOf<'static, P>) -> Result<bool, Error> {
    let root = verify(alloc, greeting(alloc)?, Form::Template)?;
    let mut blocks = BTreeMap::new(alloc);
    blocks.insert("b", verify(alloc, greeting(alloc)?, Form::Template)?)?;
    let compiled = CompiledTemplate::from_streams(alloc, "hello", root, blocks, AutoEscape::None)?;
    let template = environment.template_from_compiled(compiled)?;
    let mut map = ValueMap::new(alloc);
    map.insert(Value::text(alloc, "name")?, Value::text(alloc, "World")?)?;
    let given = Value::from_map(alloc, map)?;
    let captured = template.render_captured(&mut StateIds::new(), given)?;
    let (output, mut state) = captured.into_parts();
    let block = state.render_block("b")?;
    Ok(output.as_str() == "Hello World" && block.as_str() == "Hello World")
}

#[test]
fn streams_answer_for_memory(rt: HostRuntime) -> Result<(), Fail> {
    let environment: Environment<'static> = match Environment::new(rt.alloc()) {
        Ok(environment) => environment,
        Err(_refused) => Environment::new(rt.alloc())?,
    };
    let first = told(runs(rt.alloc(), &environment));
    assert!(rt; holds(first, told(runs(rt.alloc(), &environment))));
    Ok(())
}
