//! The code of a tree as text.
use std::alloc::Global;
use tm_compiler::{Instruction, Streams, Tree, generate};
use tm_printing::to_text;
use tm_syntax::{BinaryOperator, CaptureMode};
use tm_values::{Error, NoRecords, Node, Value};

static NUMERALS: [&str; 23] = [
    "0", "1", "2", "3", "4", "5", "6", "7", "8", "9", "10", "11", "12", "13", "14", "15", "16",
    "17", "18", "19", "20", "21", "22",
];

fn numeral(number: usize) -> &'static str {
    match NUMERALS.get(number) {
        Some(text) => text,
        None => "?",
    }
}

/// Writes a constant as it is printed, and an undefined one as `silent`; no other undefined value
/// is a constant.
fn write_constant(alloc: Global, out: &mut String, value: &Value) -> Result<(), Error> {
    if let Node::Undefined(_) = &value.node {
        out.push_str("silent")?;
        return Ok(());
    }
    let text = to_text(alloc, value, &NoRecords)?;
    out.push_str(text.as_str())?;
    Ok(())
}

fn word(instruction: &Instruction) -> &'static str {
    match instruction {
        Instruction::EmitRaw(_) => "raw:",
        Instruction::Emit => "emit",
        Instruction::Lookup(_) => "$",
        Instruction::LoadConst(_) => "#",
        Instruction::GetAttr(_) => ".",
        Instruction::GetItem => "item",
        Instruction::Slice => "slice",
        Instruction::BuildList(Some(_)) => "list:",
        Instruction::BuildList(None) => "list",
        Instruction::BuildTuple(_) => "tuple:",
        Instruction::BuildMap(_) => "map:",
        Instruction::BuildKwargs(_) => "named:",
        Instruction::MergeKwargs(_) => "merge:",
        Instruction::UnpackLists(_) => "lists:",
        Instruction::Neg => "-",
        Instruction::Not => "not",
        Instruction::IsUndefined => "undefined",
        Instruction::CompareAndPreserve(_) => "keep:",
        Instruction::Swap => "swap",
        Instruction::DupTop => "copy",
        Instruction::DiscardTop => "drop",
        Instruction::Jump(_) => "jump:",
        Instruction::JumpIfFalse(_) => "if-false:",
        Instruction::JumpIfFalseOrPop(_) => "and:",
        Instruction::JumpIfTrueOrPop(_) => "or:",
        Instruction::CallFunction(_, _) => "call:",
        Instruction::CallMethod(_, _) => "method:",
        Instruction::CallObject(_) => "value:",
        Instruction::ApplyFilter(_, _, _) => "filter:",
        Instruction::PerformTest(_, _, _) => "test:",
        Instruction::CallBlock(_) => "block:",
        Instruction::StoreLocal(_) => "store:",
        Instruction::Enclose(_) => "enclose:",
        Instruction::GetClosure => "closure",
        Instruction::BuildMacro(_, _, true) => "macro!:",
        Instruction::BuildMacro(_, _, false) => "macro:",
        Instruction::Return => "return",
        Instruction::UnpackList(_) => "unpack:",
        Instruction::SetAttr(_) => "set:",
        Instruction::PushLoop(flags) if flags.recursive => "loop!",
        Instruction::PushLoop(flags) if flags.variable => "loop",
        Instruction::PushLoop(_) => "pass",
        Instruction::Iterate(_) => "iterate:",
        Instruction::PushDidNotIterate => "empty",
        Instruction::PopLoopFrame => "looped",
        Instruction::FastRecurse => "recurse",
        Instruction::FastSuper => "super",
        Instruction::LoadBlocks => "extends",
        Instruction::Include(true) => "include?",
        Instruction::Include(false) => "include",
        Instruction::IncludeModule => "include!",
        Instruction::ExportLocals => "module",
        Instruction::PushWith => "with",
        Instruction::PopFrame => "leave",
        Instruction::BeginCapture(CaptureMode::Capture) => "capture",
        Instruction::BeginCapture(_) => "discard",
        Instruction::EndCapture => "captured",
        Instruction::PushAutoEscape => "escape",
        Instruction::PopAutoEscape => "escaped",
        Instruction::Eq => "==",
        Instruction::Ne => "!=",
        Instruction::Lt => "<",
        Instruction::Lte => "<=",
        Instruction::Gt => ">",
        Instruction::Gte => ">=",
        Instruction::In => "in",
        Instruction::Add => "+",
        Instruction::Sub => "minus",
        Instruction::StringConcat => "~",
        Instruction::Mul => "*",
        Instruction::Div => "/",
        Instruction::IntDiv => "//",
        Instruction::Rem => "%",
        Instruction::Pow => "**",
    }
}

// The word of a comparison.
fn comparison(operator: BinaryOperator) -> &'static str {
    match operator {
        BinaryOperator::Equal => "==",
        BinaryOperator::NotEqual => "!=",
        BinaryOperator::Less => "<",
        BinaryOperator::LessOrEqual => "<=",
        BinaryOperator::Greater => ">",
        BinaryOperator::GreaterOrEqual => ">=",
        BinaryOperator::In => "in",
        BinaryOperator::NotIn => "not-in",
        BinaryOperator::Add
        | BinaryOperator::Subtract
        | BinaryOperator::Concatenate
        | BinaryOperator::Multiply
        | BinaryOperator::Divide
        | BinaryOperator::FloorDivide
        | BinaryOperator::Remainder
        | BinaryOperator::Power => "?",
    }
}

// The name, place, number or operator of an instruction.
fn detail(instruction: &Instruction) -> &str {
    match instruction {
        Instruction::EmitRaw(text) => text.as_str(),
        Instruction::Lookup(name)
        | Instruction::GetAttr(name)
        | Instruction::CallFunction(name, _)
        | Instruction::CallMethod(name, _)
        | Instruction::ApplyFilter(name, _, _)
        | Instruction::PerformTest(name, _, _)
        | Instruction::CallBlock(name)
        | Instruction::StoreLocal(name)
        | Instruction::Enclose(name)
        | Instruction::BuildMacro(name, _, _)
        | Instruction::SetAttr(name) => name.as_str(),
        Instruction::CompareAndPreserve(operator) => comparison(*operator),
        Instruction::BuildList(Some(number))
        | Instruction::BuildTuple(number)
        | Instruction::BuildMap(number)
        | Instruction::BuildKwargs(number)
        | Instruction::MergeKwargs(number)
        | Instruction::UnpackLists(number)
        | Instruction::UnpackList(number)
        | Instruction::Iterate(number)
        | Instruction::Jump(number)
        | Instruction::JumpIfFalse(number)
        | Instruction::JumpIfFalseOrPop(number)
        | Instruction::JumpIfTrueOrPop(number) => numeral(*number),
        _ => "",
    }
}

// The number of a call's values, or `*` if it is on top of them; or the place where a macro is
// entered.
fn count(instruction: &Instruction) -> &'static str {
    match instruction {
        Instruction::CallFunction(_, number)
        | Instruction::CallMethod(_, number)
        | Instruction::CallObject(number)
        | Instruction::ApplyFilter(_, number, _)
        | Instruction::PerformTest(_, number, _) => match number {
            Some(number) => numeral(*number),
            None => "*",
        },
        Instruction::BuildMacro(_, place, _) => numeral(*place),
        _ => "",
    }
}

// Writes an instruction's cache number after `@`.
fn write_cache(alloc: Global, out: &mut String, instruction: &Instruction) -> Result<(), Error> {
    match instruction {
        Instruction::ApplyFilter(_, _, cache) | Instruction::PerformTest(_, _, cache) => {
            out.push_str("@")?;
            write_constant(alloc, out, &Value::number(*cache as i128))
        }
        _ => Ok(()),
    }
}

/// Writes the words of an instruction.
fn write_instruction(
    alloc: Global,
    out: &mut String,
    instruction: &Instruction,
) -> Result<(), Error> {
    out.push_str(" ")?;
    out.push_str(word(instruction))?;
    if let Instruction::LoadConst(value) = instruction {
        return write_constant(alloc, out, value);
    }
    out.push_str(detail(instruction))?;
    out.push_str(count(instruction))?;
    write_cache(alloc, out, instruction)
}

fn write_code(alloc: Global, out: &mut String, code: &[Instruction]) -> Result<(), Error> {
    for instruction in code {
        write_instruction(alloc, out, instruction)?;
    }
    Ok(())
}

fn write_block(
    alloc: Global,
    out: &mut String,
    streams: &Streams,
    name: &str,
) -> Result<(), Error> {
    match streams.blocks.get(name) {
        Some(block) => {
            out.push_str(" | ")?;
            out.push_str(name)?;
            if block.required {
                out.push_str("!")?;
            }
            write_code(alloc, out, block.code.as_slice())
        }
        None => Ok(()),
    }
}

fn write_streams(alloc: Global, out: &mut String, streams: &Streams) -> Result<(), Error> {
    write_code(alloc, out, streams.root.as_slice())?;
    write_block(alloc, out, streams, "x")?;
    write_block(alloc, out, streams, "y")
}

/// Whether this is the code of a tree, and of its blocks x and y.
pub fn has_code(alloc: Global, tree: &Tree, wanted: &str) -> Result<bool, Error> {
    let streams = generate(alloc, tree)?;
    let mut out = String::new(alloc);
    write_streams(alloc, &mut out, &streams)?;
    Ok(out.as_str() == wanted)
}
