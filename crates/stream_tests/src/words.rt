//! Short names for instructions.
use std::alloc::Global;
use tm_shapes::{Form, verify};
use tm_syntax::{CaptureMode, Instruction, LoopFlags, Name};
use tm_values::{Error, ErrorKind, Value};

/// An instruction.
#[derive(Clone, Copy)]
pub(crate) enum Word {
    /// Pushes a number.
    Number(i128),
    /// Pushes an empty list, or a list that contains one.
    Nothing,
    OneList,
    /// Looks up the name `a`.
    Lookup,
    Emit,
    DiscardTop,
    Swap,
    Add,
    StringConcat,
    BuildList(Option<usize>),
    BuildTuple(usize),
    UnpackLists(usize),
    UnpackList(usize),
    Jump(usize),
    JumpIfFalse(usize),
    /// Begins a loop; the flag tells whether it can be called.
    PushLoop(bool),
    Iterate(usize),
    PopLoopFrame,
    FastRecurse,
    PushWith,
    PopFrame,
    /// Begins a capture; the flag tells whether its text is dropped.
    BeginCapture(bool),
    EndCapture,
    PushAutoEscape,
    PopAutoEscape,
    GetClosure,
    /// Builds the macro `m` that is entered at this place.
    BuildMacro(usize),
    Return,
    /// Calls the filter or test of this name, with a cache number.
    Filter(&'static str, u8),
    Test(&'static str, u8),
    IncludeModule,
    ExportLocals,
}

fn one_list(alloc: Global) -> Result<Value, Error> {
    let mut items = Vec::new(alloc);
    items.push(Value::list(alloc, Vec::new(alloc))?)?;
    Value::list(alloc, items)
}

fn capture_mode(is_dropped: bool) -> CaptureMode {
    if is_dropped {
        CaptureMode::Discard
    } else {
        CaptureMode::Capture
    }
}

fn value(alloc: Global, word: Word) -> Result<Value, Error> {
    match word {
        Word::Number(number) => Ok(Value::number(number)),
        Word::Nothing => Value::list(alloc, Vec::new(alloc)),
        _ => one_list(alloc),
    }
}

fn plain(word: Word) -> Instruction {
    match word {
        Word::Emit => Instruction::Emit,
        Word::DiscardTop => Instruction::DiscardTop,
        Word::Swap => Instruction::Swap,
        Word::Add => Instruction::Add,
        Word::StringConcat => Instruction::StringConcat,
        Word::BuildList(count) => Instruction::BuildList(count),
        Word::BuildTuple(count) => Instruction::BuildTuple(count),
        Word::UnpackLists(count) => Instruction::UnpackLists(count),
        Word::UnpackList(count) => Instruction::UnpackList(count),
        Word::Jump(place) => Instruction::Jump(place),
        Word::JumpIfFalse(place) => Instruction::JumpIfFalse(place),
        Word::PushLoop(recursive) => Instruction::PushLoop(LoopFlags {
            variable: true,
            recursive,
        }),
        Word::Iterate(place) => Instruction::Iterate(place),
        Word::PopLoopFrame => Instruction::PopLoopFrame,
        Word::FastRecurse => Instruction::FastRecurse,
        Word::PushWith => Instruction::PushWith,
        Word::PopFrame => Instruction::PopFrame,
        Word::BeginCapture(is_dropped) => Instruction::BeginCapture(capture_mode(is_dropped)),
        Word::EndCapture => Instruction::EndCapture,
        Word::PushAutoEscape => Instruction::PushAutoEscape,
        Word::PopAutoEscape => Instruction::PopAutoEscape,
        Word::GetClosure => Instruction::GetClosure,
        Word::IncludeModule => Instruction::IncludeModule,
        Word::ExportLocals => Instruction::ExportLocals,
        _ => Instruction::Return,
    }
}

fn instruction(alloc: Global, word: Word) -> Result<Instruction, Error> {
    match word {
        Word::Number(_) | Word::Nothing | Word::OneList => {
            Ok(Instruction::LoadConst(value(alloc, word)?))
        }
        Word::Lookup => Ok(Instruction::Lookup(Name::new(alloc, "a")?)),
        Word::BuildMacro(place) => Ok(Instruction::BuildMacro(
            Name::new(alloc, "m")?,
            place,
            false,
        )),
        Word::Filter(name, cache) => Ok(Instruction::ApplyFilter(
            Name::new(alloc, name)?,
            Some(1),
            cache,
        )),
        Word::Test(name, cache) => Ok(Instruction::PerformTest(
            Name::new(alloc, name)?,
            Some(1),
            cache,
        )),
        _ => Ok(plain(word)),
    }
}

/// Whether a stream is accepted; errors other than BadStream are passed on.
pub(crate) fn is_accepted(alloc: Global, words: &[Word], form: Form) -> Result<bool, Error> {
    let mut instructions = Vec::new(alloc);
    for word in words {
        instructions.push(instruction(alloc, *word)?)?;
    }
    match verify(alloc, instructions, form) {
        Ok(_verified) => Ok(true),
        Err(error) => {
            if error.kind() == ErrorKind::BadStream {
                Ok(false)
            } else {
                Err(error)
            }
        }
    }
}
