//! Random instructions, from numbers that are the same in each run.
use std::alloc::Global;
use std::rc::RcStr;
use template_machine::machinery::LoopFlags;
use template_machine::*;

/// Numbers that look random and are the same in each run. A copy repeats them.
#[derive(Clone, Copy)]
pub(crate) struct Dice {
    pub(crate) seed: u64,
}

impl Dice {
    /// A number below `sides`, or 0 if `sides` is 0.
    pub(crate) fn roll(&mut self, sides: usize) -> usize {
        self.seed = self
            .seed
            .wrapping_mul(6_364_136_223_846_793_005)
            .wrapping_add(1_442_695_040_888_963_407);
        let high = (self.seed >> 33) as usize;
        match high.checked_rem(sides) {
            Some(number) => number,
            None => 0,
        }
    }

    /// True or false.
    pub(crate) fn flip(&mut self) -> bool {
        self.roll(2) == 0
    }
}

/// A list of `count` empty lists.
pub(crate) fn lists(alloc: Global, count: usize) -> Result<Value, Error> {
    let mut items = Vec::new(alloc);
    for _ in 0..count {
        items.push(Value::list(alloc, Vec::new(alloc))?)?;
    }
    Value::list(alloc, items)
}

/// A list of `count` names, like those of a macro's arguments.
fn names(alloc: Global, count: usize) -> Result<Value, Error> {
    let mut items = Vec::new(alloc);
    for _ in 0..count {
        items.push(Value::text(alloc, "a")?)?;
    }
    Value::list(alloc, items)
}

fn constant(alloc: Global, dice: &mut Dice) -> Result<Instruction, Error> {
    let value = match dice.roll(8) {
        0 => Value::number(0),
        1 => Value::number(1),
        2 => Value::text(alloc, "b")?,
        3 => Value::text(alloc, "base")?,
        4 => Value::boolean(true),
        5 => lists(alloc, dice.roll(3))?,
        6 => names(alloc, dice.roll(3))?,
        _ => Value::none(),
    };
    Ok(Instruction::LoadConst(value))
}

fn name(alloc: Global, dice: &mut Dice) -> Result<Name, Error> {
    let text = match dice.roll(4) {
        0 => "a",
        1 => "b",
        2 => "f",
        _ => "range",
    };
    Ok(Name::new(alloc, text)?)
}

fn raw(alloc: Global) -> Result<Instruction, Error> {
    let source = RcStr::from_str(alloc, "x")?;
    Ok(Instruction::EmitRaw(RawText::within(alloc, &source, 0, "x")?))
}

/// How many values an instruction takes: a fixed number, or None to take the number from the stack.
fn count(dice: &mut Dice) -> Option<usize> {
    match dice.roll(4) {
        0 => None,
        1 => Some(0),
        2 => Some(2),
        _ => Some(1),
    }
}

/// A cache number: a valid one, that of no cache, or one that is too great.
fn cache(dice: &mut Dice) -> u8 {
    match dice.roll(8) {
        0 => 50,
        1 => 49,
        2 | 3 => 0,
        _ => 255,
    }
}

/// An instruction that needs at most one operand.
fn usual(alloc: Global, dice: &mut Dice) -> Result<Instruction, Error> {
    Ok(match dice.roll(7) {
        0 => Instruction::Lookup(name(alloc, dice)?),
        1 | 2 => constant(alloc, dice)?,
        3 => Instruction::Emit,
        4 => Instruction::StoreLocal(name(alloc, dice)?),
        5 => raw(alloc)?,
        _ => Instruction::DiscardTop,
    })
}

/// An instruction that replaces operands by others.
fn operating(alloc: Global, dice: &mut Dice) -> Result<Instruction, Error> {
    Ok(match dice.roll(13) {
        0 => Instruction::GetAttr(name(alloc, dice)?),
        1 => Instruction::GetItem,
        2 => Instruction::Slice,
        3 => Instruction::BuildList(count(dice)),
        4 => Instruction::BuildTuple(dice.roll(3)),
        5 => Instruction::BuildMap(dice.roll(2)),
        6 => Instruction::BuildKwargs(dice.roll(2)),
        7 => Instruction::MergeKwargs(dice.roll(3)),
        8 => Instruction::UnpackLists(dice.roll(3)),
        9 => Instruction::UnpackList(dice.roll(3)),
        10 => Instruction::SetAttr(name(alloc, dice)?),
        11 => Instruction::Swap,
        _ => Instruction::DupTop,
    })
}

/// A comparison that keeps its second operand, sometimes with an operator that doesn't compare.
fn preserving(dice: &mut Dice) -> Instruction {
    Instruction::CompareAndPreserve(match dice.roll(9) {
        0 => BinaryOperator::Equal,
        1 => BinaryOperator::NotEqual,
        2 => BinaryOperator::Less,
        3 => BinaryOperator::LessOrEqual,
        4 => BinaryOperator::Greater,
        5 => BinaryOperator::GreaterOrEqual,
        6 => BinaryOperator::In,
        7 => BinaryOperator::NotIn,
        _ => BinaryOperator::Add,
    })
}

/// An instruction for an operator.
fn reckoning(dice: &mut Dice) -> Instruction {
    match dice.roll(19) {
        0 => Instruction::Eq,
        1 => Instruction::Ne,
        2 => Instruction::Lt,
        3 => Instruction::Lte,
        4 => Instruction::Gt,
        5 => Instruction::Gte,
        6 => Instruction::In,
        7 => preserving(dice),
        8 => Instruction::Add,
        9 => Instruction::Sub,
        10 => Instruction::StringConcat,
        11 => Instruction::Mul,
        12 => Instruction::Div,
        13 => Instruction::IntDiv,
        14 => Instruction::Rem,
        15 => Instruction::Pow,
        16 => Instruction::Neg,
        17 => Instruction::Not,
        _ => Instruction::IsUndefined,
    }
}

/// An instruction that calls something, or runs a block or a template.
fn calling(alloc: Global, dice: &mut Dice) -> Result<Instruction, Error> {
    Ok(match dice.roll(11) {
        0 => Instruction::CallFunction(name(alloc, dice)?, count(dice)),
        1 => Instruction::CallMethod(name(alloc, dice)?, count(dice)),
        2 => Instruction::CallObject(count(dice)),
        3 => Instruction::ApplyFilter(name(alloc, dice)?, count(dice), cache(dice)),
        4 => Instruction::PerformTest(name(alloc, dice)?, count(dice), cache(dice)),
        5 => Instruction::CallBlock(name(alloc, dice)?),
        6 => Instruction::FastSuper,
        7 => Instruction::LoadBlocks,
        8 => Instruction::Include(dice.flip()),
        9 => Instruction::IncludeModule,
        _ => Instruction::ExportLocals,
    })
}

/// A jump, or an instruction for a loop or a macro; sometimes its target is the end of a stream of
/// this size.
fn leading(alloc: Global, dice: &mut Dice, size: usize) -> Result<Instruction, Error> {
    let place = dice.roll(size.wrapping_add(1));
    Ok(match dice.roll(11) {
        0 => Instruction::Jump(place),
        1 => Instruction::JumpIfFalse(place),
        2 => Instruction::JumpIfFalseOrPop(place),
        3 => Instruction::JumpIfTrueOrPop(place),
        4 => Instruction::PushLoop(LoopFlags {
            variable: dice.flip(),
            recursive: dice.flip(),
        }),
        5 => Instruction::Iterate(place),
        6 => Instruction::PushDidNotIterate,
        7 => Instruction::PopLoopFrame,
        8 => Instruction::FastRecurse,
        9 => Instruction::BuildMacro(name(alloc, dice)?, place, dice.flip()),
        _ => Instruction::Return,
    })
}

/// An instruction that opens or ends a scope, a capture or an escape, or is for a closure.
fn scoping(alloc: Global, dice: &mut Dice) -> Result<Instruction, Error> {
    Ok(match dice.roll(9) {
        0 => Instruction::PushWith,
        1 => Instruction::PopFrame,
        2 => Instruction::BeginCapture(CaptureMode::Capture),
        3 => Instruction::BeginCapture(CaptureMode::Discard),
        4 => Instruction::EndCapture,
        5 => Instruction::PushAutoEscape,
        6 => Instruction::PopAutoEscape,
        7 => Instruction::Enclose(name(alloc, dice)?),
        _ => Instruction::GetClosure,
    })
}

/// Any instruction, for a stream of this size.
pub(crate) fn any_instruction(
    alloc: Global,
    dice: &mut Dice,
    size: usize,
) -> Result<Instruction, Error> {
    match dice.roll(12) {
        0..=5 => usual(alloc, dice),
        6 => operating(alloc, dice),
        7 => Ok(reckoning(dice)),
        8 => calling(alloc, dice),
        9 | 10 => leading(alloc, dice, size),
        _ => scoping(alloc, dice),
    }
}
