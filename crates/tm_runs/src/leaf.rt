//! Leaves: runs of macros that need nothing from the state, and so no scopes, captures and streams
//! of their own.
ghost use Rattle.std.specs.Prelude.{◌≡◌, ◌≤◌, ◌<◌, ◌+◌, ◌-◌, ◌^◌, ◌++◌, [], ◌∷◌, IfSome, IsTrue, OnOk, Some, slice_get};
ghost use Rattle.tm_values.specs.Answer.{IsLent, OkOrOutOfMemory, OrStays};
ghost use Rattle.tm_values.specs.Val.{text};
ghost use Rattle.tm_syntax.specs.declared.instruction.Instruction.TheVariants as instruction;
ghost use Rattle.tm_meaning.specs.World.{is_escaping, CanPay};
ghost use Rattle.tm_parts.specs.Operate.{Doubles, Operates, TakesMember, TestsUndefined};
ghost use Rattle.tm_runs.specs.Leaves.{CanAdvance, Changes, ChangesFree, Does, Drops, EmitsTop, JumpsIfFalse, LooksUp, RunsOn, RunsOut};
ghost use Rattle.tm_runs.specs.Leaves.{SkipsTest, Stores, Strides, advanced, begun, leaf_flow_of};

use std::alloc::{AllocError, Global};
use std::marker::Model;
use std::mem;
use tm_parts::Stack;
use tm_printing::emit_at_once;
use tm_scopes::Pairs;
use tm_shapes::Verified;
use tm_syntax::{BinaryOperator, Instruction, Name};
use tm_values::{AutoEscape, Error, ErrorKind, SharedText, Value};

/// The greatest number of steps of a leaf, so that a run that is given up costs little and the fuel
/// is checked soon.
const MOST: usize = 64;

/// How a leaf's run continues after a step.
#[derive(Clone, Copy, PartialEq, Eq)]
pub(crate) enum LeafFlow {
    /// At its place.
    GoOn,
    /// Not at all: the macro is finished.
    Over,
    /// As a normal run of the machine, from the start: the macro is no leaf.
    Left,
}

/// The instruction at `place` in `code`, if there is one.
#[inline(always)]
fn instruction_at(code: &Verified, place: usize) -> Option<&Instruction>
    ensures found { IsLent result (slice_get code.now place) }
    ensures within { IfSome result (λ _. place + 2 < 2 ^ 64 - 1) }
{
    code.as_slice().get(place)
}

impl LeafFlow {
    /// `GoOn` or `Left`.
    #[inline(always)]
    fn of(goes_on: bool) -> LeafFlow
        ensures { result ≡ leaf_flow_of goes_on }
    {
        if goes_on {
            LeafFlow::GoOn
        } else {
            LeafFlow::Left
        }
    }
}

/// The data of a leaf's run. Its memory is reused by the next one.
pub struct Leaf {
    place: usize,
    operands: Stack,
    names: Pairs,
    text: Option<SharedText>,
    fuel: u64,
    // A bit per macro entry for the macros that aren't tried again.
    others: u64,
}

// Written by hand: one drop call per owner instead of dropping each part.
impl Drop for Leaf {
    fn drop(self) {
        let Leaf {
            place: _place,
            operands: _operands,
            names: _names,
            text: _text,
            fuel: _fuel,
            others: _others,
        } = self;
    }
}

impl Model for Leaf {
    ghost use Rattle.std.specs.Coded.{codes};
    ghost use Rattle.tm_values.specs.Code.{coded_Val};
    ghost use Rattle.tm_runs.specs.Leaves.{LeafRun, text_of};

    ghost Value = { LeafRun };

    ghost coded = { Prim.hlevel (codes, coded_Val) };

    ghost view = { λ l. record {
      place = l.place;
      operands = l.operands;
      names = l.names;
      text = text_of l.text;
      fuel = l.fuel;
    } };
}

impl Leaf {
    /// A leaf's run that hasn't begun; allocates nothing.
    pub fn new(alloc: Global) -> Leaf {
        Leaf {
            place: 0,
            operands: Stack::new(alloc),
            names: Pairs::new(alloc),
            text: None,
            fuel: 0,
            others: 0,
        }
    }

    /// Drops the operands and returns the memory of their vector.
    pub fn take_room(&mut self, alloc: Global) -> Vec<Value>
        ensures { result.items ≡ [] }
    {
        let mut room = mem::replace(&mut self.operands, Stack::new(alloc)).into_values();
        room.clear();
        room
    }

    /// Whether the macro of `entry`, or another one with the same bit, is known not to be a leaf.
    pub fn is_other(&self, entry: usize) -> bool {
        self.others >> (entry % 64) & 1 == 1
    }

    /// Notes that the macro of `entry` isn't a leaf.
    pub fn note_other(&mut self, entry: usize)
        ensures { self.new ≡ self.old }
    {
        self.others |= 1 << (entry % 64);
    }

    /// Begins at `place`, with `given` as operands, the last of them on top, and with `fuel`.
    /// AllocError if memory runs out.
    pub fn begin(
        &mut self,
        alloc: Global,
        place: usize,
        given: Vec<Value>,
        fuel: u64,
    ) -> Result<(), AllocError>
        ensures { OnOk result (self.new ≡ begun place given.items fuel) }
    {
        self.place = place;
        self.operands = Stack::of(given);
        self.names.clear();
        self.fuel = fuel;
        // The previous run's text may be a value that is still in use.
        let is_alone = match &mut self.text {
            Some(text) => text.clear(),
            None => false,
        };
        if !is_alone {
            self.text = Some(SharedText::from_string(String::new(alloc))?);
        }
        Ok(())
    }

    /// The fuel left.
    pub fn fuel(&self) -> u64
        ensures { result ≡ self.now.fuel }
    {
        self.fuel
    }

    /// The text as a shared value, marked safe if there is an escape. OutOfMemory.
    pub fn value(&self, escape: AutoEscape) -> Result<Value, Error>
        ensures { OkOrOutOfMemory result (λ v. v ≡ text self.now.text (is_escaping escape)) }
    {
        let is_safe = match escape {
            AutoEscape::None => false,
            AutoEscape::Html | AutoEscape::Json | AutoEscape::Custom(_) => true,
        };
        match &self.text {
            Some(text) => Ok(Value::shared_text(text.share()?, is_safe)),
            None => Err(Error::from(ErrorKind::OutOfMemory)),
        }
    }

    /// Pays a charge of 1 and moves to the next place.
    #[inline(always)]
    fn advance(&mut self)
        requires { CanAdvance self.old }
        ensures { self.new ≡ advanced self.old }
    {
        self.fuel -= 1;
        self.place += 1;
    }

    /// Appends `text` without escaping it.
    #[inline(always)]
    fn put(&mut self, text: &str) -> bool
        requires { CanAdvance self.old }
        ensures puts { IsTrue result →
            self.new ≡ record (advanced self.old) { text = self.old.text ++ text.now } }
        ensures fuel { self.new.fuel ≤ self.old.fuel }
    {
        self.advance();
        match &mut self.text {
            Some(own) => own.append(text).is_ok(),
            None => false,
        }
    }

    /// Pops a number or a text and appends it, escaped.
    #[inline(always)]
    fn emit(&mut self, escape: AutoEscape) -> bool
        requires { CanAdvance self.old }
        ensures emits { IsTrue result → EmitsTop escape self.old self.new }
        ensures fuel { self.new.fuel ≤ self.old.fuel }
    {
        let Some(value) = self.operands.peek() else {
            return false;
        };
        let Some(text) = &mut self.text else {
            return false;
        };
        let Some(Ok(())) = emit_at_once(value, escape, text) else {
            return false;
        };
        self.operands.drop_top();
        self.advance();
        true
    }

    /// Pushes the value that its scope binds to `name`.
    #[inline(always)]
    fn lookup(&mut self, name: &Name) -> bool
        requires { CanAdvance self.old }
        ensures looks_up { IsTrue result → LooksUp name.now self.old self.new }
        ensures fuel { self.new.fuel ≤ self.old.fuel }
    {
        let Some(value) = self.names.get(name) else {
            return false;
        };
        if !self.operands.push_shared(value) {
            return false;
        }
        self.advance();
        true
    }

    /// Pushes a literal.
    #[inline(always)]
    fn load(&mut self, literal: &Value) -> bool
        requires { CanAdvance self.old }
        ensures loads { IsTrue result →
            self.new ≡ record (advanced self.old) { operands = literal.now ∷ self.old.operands } }
        ensures fuel { self.new.fuel ≤ self.old.fuel }
    {
        if !self.operands.push_shared(literal) {
            return false;
        }
        self.advance();
        true
    }

    /// Replaces a map by its member `name`.
    #[inline(always)]
    fn get_attr(&mut self, name: &Name) -> bool
        requires { CanAdvance self.old }
        ensures changes { IsTrue result → Changes (TakesMember name.now) self.old self.new }
        ensures fuel { self.new.fuel ≤ self.old.fuel }
    {
        if !self.operands.replace_by_member(name.as_str()) {
            return false;
        }
        self.advance();
        true
    }

    /// Replaces two numbers by the result of `operator`.
    #[inline(always)]
    fn binary(&mut self, operator: BinaryOperator) -> bool
        requires { CanAdvance self.old }
        ensures changes { IsTrue result → Changes (Operates operator) self.old self.new }
        ensures fuel { self.new.fuel ≤ self.old.fuel }
    {
        if !self.operands.operate(operator) {
            return false;
        }
        self.advance();
        true
    }

    /// Pops a value and binds `name` to it in its scope.
    #[inline(always)]
    fn store(&mut self, name: &Name) -> bool
        requires { CanAdvance self.old }
        ensures stores { IsTrue result → Stores name.now self.old self.new }
        ensures fuel { self.new.fuel ≤ self.old.fuel }
    {
        let Some(value) = self.operands.pop() else {
            return false;
        };
        self.advance();
        self.names.put(name, value)
    }

    /// Replaces a value by whether it is undefined.
    #[inline(always)]
    fn is_undefined(&mut self) -> bool
        requires { CanAdvance self.old }
        ensures changes { IsTrue result → Changes TestsUndefined self.old self.new }
        ensures fuel { self.new.fuel ≤ self.old.fuel }
    {
        if !self.operands.test_undefined() {
            return false;
        }
        self.advance();
        true
    }

    /// Pays a charge of 1 and moves to `target`.
    #[inline(always)]
    fn jump(&mut self, target: usize) -> bool
        requires { CanAdvance self.old }
        ensures jumps { self.new ≡ record (advanced self.old) { place = target } }
        ensures fuel { self.new.fuel ≤ self.old.fuel }
    {
        self.fuel -= 1;
        self.place = target;
        true
    }

    /// Pops a boolean and moves to `place` if it is false.
    #[inline(always)]
    fn jump_if_false(&mut self, place: usize) -> bool
        requires { CanAdvance self.old }
        ensures jumps { IsTrue result → JumpsIfFalse place self.old self.new }
        ensures fuel { self.new.fuel ≤ self.old.fuel }
    {
        match self.operands.take_boolean() {
            Some(true) => {
                self.advance();
                true
            }
            Some(false) => self.jump(place),
            None => false,
        }
    }

    /// Pushes the top value again.
    #[inline(always)]
    fn dup_top(&mut self) -> bool
        requires { CanAdvance self.old }
        ensures changes { IsTrue result → ChangesFree Doubles self.old self.new }
        ensures fuel { self.new.fuel ≤ self.old.fuel }
    {
        if !self.operands.double_top() {
            return false;
        }
        self.place += 1;
        true
    }

    /// Drops the top value.
    #[inline(always)]
    fn discard_top(&mut self) -> bool
        requires { CanAdvance self.old }
        ensures changes { IsTrue result → ChangesFree Drops self.old self.new }
        ensures fuel { self.new.fuel ≤ self.old.fuel }
    {
        let Some(_dropped) = self.operands.pop() else {
            return false;
        };
        self.place += 1;
        true
    }

    /// Pays for an instruction and performs it if it needs nothing from the state.
    #[inline(always)]
    fn perform(&mut self, instruction: &Instruction, escape: AutoEscape) -> bool
        requires { CanAdvance self.old }
        ensures does { IsTrue result → Does escape instruction.now self.old self.new }
        ensures fuel { self.new.fuel ≤ self.old.fuel }
    {
        match instruction {
            Instruction::EmitRaw(text) => self.put(text.as_str()),
            Instruction::Emit => self.emit(escape),
            Instruction::Lookup(name) => self.lookup(name),
            Instruction::LoadConst(value) => self.load(value),
            Instruction::GetAttr(name) => self.get_attr(name),
            Instruction::Eq => self.binary(BinaryOperator::Equal),
            Instruction::Ne => self.binary(BinaryOperator::NotEqual),
            Instruction::Lt => self.binary(BinaryOperator::Less),
            Instruction::Lte => self.binary(BinaryOperator::LessOrEqual),
            Instruction::Gt => self.binary(BinaryOperator::Greater),
            Instruction::Gte => self.binary(BinaryOperator::GreaterOrEqual),
            Instruction::Add => self.binary(BinaryOperator::Add),
            Instruction::Sub => self.binary(BinaryOperator::Subtract),
            Instruction::StoreLocal(name) => self.store(name),
            Instruction::IsUndefined => self.is_undefined(),
            Instruction::JumpIfFalse(place) => self.jump_if_false(*place),
            Instruction::Jump(place) => self.jump(*place),
            Instruction::DiscardTop => self.discard_top(),
            _ => false,
        }
    }

    /// Performs the three instructions that test whether an argument is undefined, of which the
    /// first is at the present place, and moves past them. Otherwise nothing changes and the result
    /// is false.
    #[inline(always)]
    fn skip_test(&mut self, code: &Verified) -> bool
        requires in_place { self.old.place + 2 < 2 ^ 64 - 1 }
        requires can_pay { CanPay 2 self.old.fuel }
        ensures { OrStays result self.old self.new (SkipsTest code.now self.old self.new) }
    {
        let Some(Instruction::IsUndefined) = instruction_at(code, self.place + 1) else {
            return false;
        };
        let Some(Instruction::JumpIfFalse(place)) = instruction_at(code, self.place + 2) else {
            return false;
        };
        let Some(top) = self.operands.peek() else {
            return false;
        };
        let next = if top.is_undefined() {
            self.place + 3
        } else {
            *place
        };
        self.place = next;
        self.fuel -= 2;
        true
    }

    /// The whole test of an argument, or only its first instruction.
    #[inline(always)]
    fn test_or_double(&mut self, code: &Verified) -> bool
        requires in_place { self.old.place + 2 < 2 ^ 64 - 1 }
        requires can_pay { CanPay 2 self.old.fuel }
        requires here { slice_get code.now self.old.place ≡ Some instruction.DupTop }
        ensures runs { (escape : AutoEscape) → IsTrue result →
            RunsOn code.now escape self.old self.new }
        ensures fuel { self.new.fuel ≤ self.old.fuel }
    {
        self.skip_test(code) || self.dup_top()
    }

    /// One step of `code` under `escape`.
    #[inline(always)]
    fn step(&mut self, code: &Verified, escape: AutoEscape) -> LeafFlow
        ensures strides { Strides result code.now escape self.old self.new }
        ensures fuel { self.new.fuel ≤ self.old.fuel }
    {
        let Some(instruction) = instruction_at(code, self.place) else {
            return LeafFlow::Left;
        };
        if self.fuel < 2 {
            return LeafFlow::Left;
        }
        match instruction {
            Instruction::Return => LeafFlow::Over,
            Instruction::DupTop => LeafFlow::of(self.test_or_double(code)),
            instruction => LeafFlow::of(self.perform(instruction, escape)),
        }
    }

    /// Runs `code` to the macro's end under `escape`; false if the macro is no leaf.
    #[inline(never)]
    pub fn run(&mut self, code: &Verified, escape: AutoEscape) -> bool
        ensures runs { IsTrue result → RunsOut code.now escape self.old self.new }
        ensures fuel { self.new.fuel ≤ self.old.fuel }
    {
        let mut left = MOST;
        while left > 0 {
            left -= 1;
            match self.step(code, escape) {
                LeafFlow::GoOn => {}
                LeafFlow::Over => return true,
                LeafFlow::Left => return false,
            }
        }
        false
    }
}
