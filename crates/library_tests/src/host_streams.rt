//! Streams that no compiler wrote, as templates of an environment.
use std::alloc::Global;
use std::collections::BTreeMap;
use std::test::Fail;
use template_machine::machinery::LoopFlags;
use template_machine::*;

/// A template made of a root stream and the stream of its block `b`.
fn template_of<'source>(
    alloc: Global,
    root: Vec<Instruction>,
    block: Vec<Instruction>,
) -> Result<CompiledTemplate<'source>, Error> {
    let root = verify(alloc, root, Form::Template)?;
    let mut blocks = BTreeMap::new(alloc);
    blocks.insert("b", verify(alloc, block, Form::Template)?)?;
    CompiledTemplate::from_streams(alloc, "streams", root, blocks, AutoEscape::None)
}

/// The text or error of a block `b` in an otherwise empty template, and the fuel consumed and left.
fn block_of<P: Parties>(
    alloc: Global,
    environment: &EnvironmentOf<'_, P>,
    block: Vec<Instruction>,
) -> Result<(Result<String, Error>, Option<(u64, u64)>), Error> {
    let compiled = template_of(alloc, Vec::new(alloc), block)?;
    let template = environment.template_from_compiled(compiled)?;
    let captured = template.render_captured(&mut StateIds::new(), Value::undefined())?;
    let (_text, mut state) = captured.into_parts();
    let answer = state.render_block("b");
    Ok((answer, state.fuel_levels()))
}

fn one_list(alloc: Global) -> Result<Value, Error> {
    let mut items = Vec::new(alloc);
    items.push(Value::list(alloc, Vec::new(alloc))?)?;
    Value::list(alloc, items)
}

/// A loop over one empty list that calls itself with that list.
fn calling_itself(alloc: Global) -> Result<Vec<Instruction>, Error> {
    let mut stream = Vec::new(alloc);
    stream.push(Instruction::LoadConst(one_list(alloc)?))?;
    stream.push(Instruction::PushLoop(LoopFlags {
        variable: true,
        recursive: true,
    }))?;
    stream.push(Instruction::Iterate(5))?;
    stream.push(Instruction::FastRecurse)?;
    stream.push(Instruction::Jump(2))?;
    stream.push(Instruction::PopLoopFrame)?;
    Ok(stream)
}

fn calls_itself<P: Parties>(
    alloc: Global,
    environment: &mut EnvironmentOf<'_, P>,
) -> Result<bool, Error> {
    environment.set_fuel(Some(6));
    let (answer, levels) = block_of(alloc, environment, calling_itself(alloc)?)?;
    let is_empty = match answer {
        Ok(text) => text.as_str() == "",
        Err(_error) => false,
    };
    Ok(is_empty && levels == Some((6, 0)))
}

fn runs_out_of_fuel<P: Parties>(
    alloc: Global,
    environment: &mut EnvironmentOf<'_, P>,
) -> Result<bool, Error> {
    environment.set_fuel(Some(3));
    let mut stream = Vec::new(alloc);
    stream.push(Instruction::Jump(0))?;
    let (answer, levels) = block_of(alloc, environment, stream)?;
    let is_out = match answer {
        Ok(_text) => false,
        Err(error) => error.kind() == ErrorKind::OutOfFuel,
    };
    Ok(is_out && levels == Some((3, 0)))
}

/// Loads numbers and then performs the other instructions.
fn with_numbers(
    alloc: Global,
    numbers: &[i128],
    rest: &[Instruction],
) -> Result<Vec<Instruction>, Error> {
    let mut stream = Vec::new(alloc);
    for number in numbers {
        stream.push(Instruction::LoadConst(Value::number(*number)))?;
    }
    for instruction in rest {
        stream.push(match instruction {
            Instruction::ExportLocals => Instruction::ExportLocals,
            Instruction::DiscardTop => Instruction::DiscardTop,
            _ => Instruction::Emit,
        })?;
    }
    Ok(stream)
}

/// The text of a stream as a template of its own.
fn text_of<P: Parties>(
    alloc: Global,
    environment: &EnvironmentOf<'_, P>,
    stream: Vec<Instruction>,
) -> Result<String, Error> {
    let compiled = template_of(alloc, stream, Vec::new(alloc))?;
    let template = environment.template_from_compiled(compiled)?;
    template.render(&mut StateIds::new(), Value::undefined())
}

/// `ExportLocals` also takes an operand that isn't text.
fn exports_a_number<P: Parties>(
    alloc: Global,
    environment: &EnvironmentOf<'_, P>,
) -> Result<bool, Error> {
    let rest = [Instruction::ExportLocals, Instruction::DiscardTop];
    let text = text_of(alloc, environment, with_numbers(alloc, &[1], &rest)?)?;
    Ok(text.as_str() == "")
}

/// A constant 0 that something is added to is read as a number, not as a count of no operands.
fn adds_to_nothing<P: Parties>(
    alloc: Global,
    environment: &EnvironmentOf<'_, P>,
) -> Result<bool, Error> {
    let mut stream = with_numbers(alloc, &[0, 1], &[])?;
    stream.push(Instruction::Swap)?;
    stream.push(Instruction::LoadConst(Value::number(1)))?;
    stream.push(Instruction::Add)?;
    stream.push(Instruction::Emit)?;
    stream.push(Instruction::Emit)?;
    let text = text_of(alloc, environment, stream)?;
    Ok(text.as_str() == "11")
}

/// A template made of streams has no source and reads no names, and its block is found by name.
fn tells_of_itself(alloc: Global) -> Result<bool, Error> {
    let mut stream = Vec::new(alloc);
    stream.push(Instruction::Lookup(Name::new(alloc, "name")?))?;
    stream.push(Instruction::DiscardTop)?;
    let compiled = template_of(alloc, stream, Vec::new(alloc))?;
    let reads_nothing = compiled.undeclared_variables(alloc, true)?.is_empty();
    let has_block = match compiled.block("b") {
        Some(block) => !block.required,
        None => false,
    };
    Ok(reads_nothing && has_block && compiled.source() == "" && compiled.name() == "streams")
}

/// The value of an expression's stream is dropped.
fn drops_a_value<P: Parties>(
    alloc: Global,
    environment: &EnvironmentOf<'_, P>,
) -> Result<bool, Error> {
    let root = verify(alloc, with_numbers(alloc, &[1], &[])?, Form::Expression)?;
    let blocks = BTreeMap::new(alloc);
    let compiled = CompiledTemplate::from_streams(
        alloc,
        "streams",
        root,
        blocks,
        AutoEscape::None,
    )?;
    let template = environment.template_from_compiled(compiled)?;
    let text = template.render(&mut StateIds::new(), Value::undefined())?;
    Ok(text.as_str() == "")
}

#[test]
fn streams_of_a_host_run(rt: HostRuntime) -> Result<(), Fail> {
    let alloc = rt.alloc();
    let mut environment = Environment::new(alloc)?;
    assert!(rt; calls_itself(alloc, &mut environment)?);
    assert!(rt; runs_out_of_fuel(alloc, &mut environment)?);
    environment.set_fuel(None);
    assert!(rt; exports_a_number(alloc, &environment)?);
    assert!(rt; adds_to_nothing(alloc, &environment)?);
    assert!(rt; drops_a_value(alloc, &environment)?);
    assert!(rt; tells_of_itself(alloc)?);
    Ok(())
}
