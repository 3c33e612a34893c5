//! The instructions that are paid for and done at once where they can be: where they run nothing, and fail only by the
//! writer or where a capture finds no memory.
ghost use Rattle.std.specs.Prelude.{◌≡◌, ◌+◌, ℕ, None, true};
ghost use Rattle.tm_meaning.specs.World.{CanPay, HostValue};
ghost use Rattle.tm_meaning.specs.Machine.{audible};
ghost use Rattle.tm_meaning.specs.Instructions.{binary_of, discard_top_of, dup_top_of, emit_of, emit_raw_of, get_attr_of, iterate_of, jump_if_false_of};
ghost use Rattle.tm_meaning.specs.Instructions.{is_undefined_of, load_const_of, lookup_of, store_local_of, unary_of};
ghost use Rattle.tm_trees.specs.Trees.{UnaryOperator};
ghost use Rattle.tm_meaning.specs.Steps.{effect};
ghost use Rattle.tm_runs.specs.Runs.{CanGoOn};
ghost use Rattle.tm_vm.specs.Answers.{jump_or_pop_of};
ghost use Rattle.tm_vm.specs.AtOnce.{Attempted, AttemptedUntold, IsAtOnce, IsCharged, IsFree, IsPaid, paid};

use crate::machine::Machine;
use tm_meaning::Base;
use tm_output::put_text;
use tm_parts::Sink;
use tm_printing::emit_at_once;
use tm_runs::Attempt;
use tm_syntax::{BinaryOperator, Instruction, Name, RawText};
use tm_tables::{Host, Parties};
use tm_values::Value;

impl Machine {
    /// Pays a charge of 1 and moves to the next place.
    #[inline(always)]
    fn pay_and_advance(&mut self)
        requires in_place { CanGoOn self.old.run }
        requires can_pay { CanPay 1 self.old.world.fuel }
        ensures { self.new ≡ record (paid self.old) {
          run = record self.old.run { place = self.old.run.place + 1 };
        } }
    {
        self.state.pay_one();
        self.run.advance();
    }

    /// Pushes the value that a scope binds to `name`, if it is found at once.
    #[inline(always)]
    fn lookup_at_once(&mut self, name: &Name) -> bool
        requires in_place { CanGoOn self.old.run }
        requires can_pay { CanPay 1 self.old.world.fuel }
        ensures { (host : HostValue) →
            IsAtOnce result (lookup_of host name.now) self.old self.new }
    {
        let Some(value) = self.state.find_at_once(name) else {
            return false;
        };
        if !self.run.push_shared(value) {
            return false;
        }
        self.pay_and_advance();
        true
    }

    /// Replaces a map by its member `name`.
    #[inline(always)]
    fn get_attr_at_once(&mut self, name: &Name) -> bool
        requires in_place { CanGoOn self.old.run }
        requires can_pay { CanPay 1 self.old.world.fuel }
        ensures { (host : HostValue) →
            IsAtOnce result (get_attr_of host name.now) self.old self.new }
    {
        if !self.run.replace_by_member(name.as_str()) {
            return false;
        }
        self.pay_and_advance();
        true
    }

    /// Pushes a literal.
    #[inline(always)]
    fn load_const_at_once(&mut self, value: &Value) -> bool
        requires in_place { CanGoOn self.old.run }
        requires can_pay { CanPay 1 self.old.world.fuel }
        ensures { IsAtOnce result (load_const_of value.now) self.old self.new }
    {
        if !self.run.push_shared(value) {
            return false;
        }
        self.pay_and_advance();
        true
    }

    /// Replaces two numbers by the result of `operator`.
    #[inline(always)]
    fn binary_at_once(&mut self, operator: BinaryOperator) -> bool
        requires in_place { CanGoOn self.old.run }
        requires can_pay { CanPay 1 self.old.world.fuel }
        ensures { (host : HostValue) →
            IsAtOnce result (binary_of host operator) self.old self.new }
    {
        if !self.run.operate(operator) {
            return self.compare_at_once(operator);
        }
        self.pay_and_advance();
        true
    }

    /// Replaces two texts by the result of a comparison.
    #[inline(never)]
    fn compare_at_once(&mut self, operator: BinaryOperator) -> bool
        requires in_place { CanGoOn self.old.run }
        requires can_pay { CanPay 1 self.old.world.fuel }
        ensures { (host : HostValue) →
            IsAtOnce result (binary_of host operator) self.old self.new }
    {
        if !self.run.compare_texts(operator) {
            return false;
        }
        self.pay_and_advance();
        true
    }

    /// Replaces a value that isn't undefined by the negation of its truth.
    #[inline(never)]
    fn not_at_once(&mut self) -> bool
        requires in_place { CanGoOn self.old.run }
        requires can_pay { CanPay 1 self.old.world.fuel }
        ensures { (host : HostValue) →
            IsAtOnce result (unary_of host UnaryOperator.Not) self.old self.new }
    {
        if !self.run.negate() {
            return false;
        }
        self.pay_and_advance();
        true
    }

    /// Pops a boolean and jumps to `place` if it is false.
    #[inline(always)]
    fn jump_if_false_at_once(&mut self, place: usize) -> bool
        requires in_place { CanGoOn self.old.run }
        requires can_pay { CanPay 1 self.old.world.fuel }
        ensures { (host : HostValue) →
            IsAtOnce result (jump_if_false_of host place) self.old self.new }
    {
        match self.run.take_boolean() {
            Some(true) => self.run.advance(),
            Some(false) => self.run.jump(place),
            None => return self.test_at_once(place),
        }
        self.state.pay_one();
        true
    }

    /// `jump_if_false_at_once` for a value of another kind, if it isn't undefined.
    #[inline(never)]
    fn test_at_once(&mut self, place: usize) -> bool
        requires in_place { CanGoOn self.old.run }
        requires can_pay { CanPay 1 self.old.world.fuel }
        ensures { (host : HostValue) →
            IsAtOnce result (jump_if_false_of host place) self.old self.new }
    {
        match self.run.defined_truth() {
            Some(true) => self.run.advance(),
            Some(false) => self.run.jump(place),
            None => return false,
        }
        self.run.drop_top();
        self.state.pay_one();
        true
    }

    /// Jumps to `place` if the truth of the top value is `jumps`, and leaves the value there;
    /// otherwise pops it. Only if it isn't undefined.
    #[inline(never)]
    fn jump_or_pop_at_once(&mut self, place: usize, jumps: bool) -> bool
        requires in_place { CanGoOn self.old.run }
        requires can_pay { CanPay 1 self.old.world.fuel }
        ensures { (host : HostValue) →
            IsAtOnce result (jump_or_pop_of host jumps place) self.old self.new }
    {
        let Some(truth) = self.run.defined_truth() else {
            return false;
        };
        if truth == jumps {
            self.run.jump(place);
        } else {
            self.run.advance();
            self.run.drop_top();
        }
        self.state.pay_one();
        true
    }

    /// Pops a value and binds `name` to it in the innermost scope.
    #[inline(always)]
    fn store_local_at_once(&mut self, name: &Name) -> bool
        requires in_place { CanGoOn self.old.run }
        requires can_pay { CanPay 1 self.old.world.fuel }
        ensures { IsAtOnce result (store_local_of name.now) self.old self.new }
    {
        let Some(value) = self.run.top() else {
            return false;
        };
        if !self.state.store_at_once(name, value) {
            return false;
        }
        self.run.drop_top();
        self.pay_and_advance();
        true
    }

    /// Pushes the next item of the innermost loop, if one is left.
    #[inline(always)]
    fn iterate_at_once(&mut self) -> bool
        requires in_place { CanGoOn self.old.run }
        requires can_pay { CanPay 1 self.old.world.fuel }
        ensures { (place : ℕ) → IsAtOnce result (iterate_of place) self.old self.new }
    {
        if !self.run.has_loop() {
            return false;
        }
        let Some(state) = self.state.top_loop() else {
            return false;
        };
        let Some(item) = state.next_item() else {
            return false;
        };
        if !self.run.push_shared(item) {
            return false;
        }
        self.state.next_turn();
        self.state.clear_locals();
        self.pay_and_advance();
        true
    }

    /// Replaces a value by whether it is undefined.
    #[inline(always)]
    fn is_undefined_at_once(&mut self) -> bool
        requires in_place { CanGoOn self.old.run }
        requires can_pay { CanPay 1 self.old.world.fuel }
        ensures { IsAtOnce result is_undefined_of self.old self.new }
    {
        if !self.run.test_undefined() {
            return false;
        }
        self.pay_and_advance();
        true
    }

    /// Pushes the top value again.
    #[inline(always)]
    fn dup_top_at_once(&mut self) -> bool
        requires { CanGoOn self.old.run }
        ensures { IsFree result dup_top_of self.old self.new }
    {
        if !self.run.double_top() {
            return false;
        }
        self.run.advance();
        true
    }

    /// Drops the top value.
    #[inline(always)]
    fn discard_top_at_once(&mut self) -> bool
        requires { CanGoOn self.old.run }
        ensures { IsFree result discard_top_of self.old self.new }
    {
        if self.run.top().is_none() {
            return false;
        }
        self.run.drop_top();
        self.run.advance();
        true
    }

    /// Appends a raw text to the innermost capture, or drops it if it isn't heard.
    #[inline(never)]
    fn put_raw_at_once(&mut self, base: &Base, text: &RawText) -> bool
        requires in_place { CanGoOn self.old.run }
        requires can_pay { CanPay 1 self.old.world.fuel }
        ensures { IsAtOnce result (emit_raw_of base.now text.now) self.old self.new }
    {
        if self.is_audible(base) && !self.captures.put_at_once(text.as_str()) {
            return false;
        }
        self.pay_and_advance();
        true
    }

    /// Writes a raw text, or appends it to the innermost capture; drops it if it isn't heard.
    #[inline(always)]
    #[tactic(auto, using(crate::proofs::Performed::at_once, crate::proofs::Performed::charged))]
    fn emit_raw_at_once<W: Sink>(&mut self, base: &Base, text: &RawText, writer: &mut W) -> Attempt
        requires in_place { CanGoOn self.old.run }
        requires can_pay { CanPay 1 self.old.world.fuel }
        ensures done { Attempted result (emit_raw_of base.now text.now) self.old self.new
            (W.told writer.old) (W.told writer.new) }
        ensures charged { IsCharged result }
    {
        if !self.captures.is_empty() || !self.is_audible(base) {
            return Attempt::of(self.put_raw_at_once(base, text));
        }
        self.pay_and_advance();
        match put_text(writer, text.as_str().as_bytes()) {
            Ok(()) => Attempt::Done,
            Err(_failed) => Attempt::WriterFailed,
        }
    }

    /// Pops a number or a text and appends what it emits to the innermost capture. Only for a run
    /// that has no formatter and is heard.
    #[inline(never)]
    #[tactic(auto, using(crate::proofs::Performed::charged))]
    fn capture_at_once(&mut self) -> Attempt
        requires in_place { CanGoOn self.old.run }
        requires can_pay { CanPay 1 self.old.world.fuel }
        ensures done { (host : HostValue) (base : Base) →
            host.formatter ≡ None → audible base self.old ≡ true →
            AttemptedUntold result (emit_of host base) self.old self.new }
        ensures charged { IsCharged result }
    {
        let Some(value) = self.run.top() else {
            return Attempt::Left;
        };
        let Some(answer) = self.captures.emit_at_once(value, self.state.escape()) else {
            return Attempt::Left;
        };
        self.run.drop_top();
        self.pay_and_advance();
        Attempt::captured(answer)
    }

    /// Pops a number or a text and writes what it emits, or appends it to the innermost capture, if
    /// there is no formatter and the text is heard.
    #[inline(always)]
    #[tactic(auto, using(crate::proofs::Performed::charged, crate::proofs::Emitted::no_formatter))]
    fn emit_at_once<H: Host, W: Sink>(&mut self, host: &H, base: &Base, writer: &mut W) -> Attempt
        requires in_place { CanGoOn self.old.run }
        requires can_pay { CanPay 1 self.old.world.fuel }
        ensures done { Attempted result (emit_of (H.program host.now).host base.now)
            self.old self.new (W.told writer.old) (W.told writer.new) }
        ensures charged { IsCharged result }
    {
        if host.objects().has_formatter() {
            return Attempt::Left;
        }
        if !self.is_audible(base) {
            return Attempt::Left;
        }
        if !self.captures.is_empty() {
            return self.capture_at_once();
        }
        let Some(value) = self.run.top() else {
            return Attempt::Left;
        };
        let Some(answer) = emit_at_once(value, self.state.escape(), writer) else {
            return Attempt::Left;
        };
        self.run.drop_top();
        self.pay_and_advance();
        Attempt::written(answer)
    }

    /// Charges and performs an instruction, if it can be done at once.
    #[inline(always)]
    #[tactic(auto, using(crate::proofs::Performed::attempts))]
    pub(crate) fn attempt<H: Host, W: Sink>(
        &mut self,
        host: &H,
        base: &Base,
        instruction: &Instruction,
        writer: &mut W,
    ) -> Attempt
        requires { CanGoOn self.old.run }
        ensures done { Attempted result
            (effect (H.program host.now) base.now instruction.now)
            self.old self.new
            (W.told writer.old) (W.told writer.new) }
        ensures paid { IsPaid result instruction.now self.old.world.fuel }
    {
        if !self.state.can_pay() {
            return Attempt::Left;
        }
        match instruction {
            Instruction::EmitRaw(text) => self.emit_raw_at_once(base, text, writer),
            Instruction::Emit => self.emit_at_once(host, base, writer),
            Instruction::Lookup(name) => Attempt::of(self.lookup_at_once(name)),
            Instruction::GetAttr(name) => Attempt::of(self.get_attr_at_once(name)),
            Instruction::LoadConst(value) => Attempt::of(self.load_const_at_once(value)),
            Instruction::Eq => Attempt::of(self.binary_at_once(BinaryOperator::Equal)),
            Instruction::Ne => Attempt::of(self.binary_at_once(BinaryOperator::NotEqual)),
            Instruction::Lt => Attempt::of(self.binary_at_once(BinaryOperator::Less)),
            Instruction::Lte => Attempt::of(self.binary_at_once(BinaryOperator::LessOrEqual)),
            Instruction::Gt => Attempt::of(self.binary_at_once(BinaryOperator::Greater)),
            Instruction::Gte => Attempt::of(self.binary_at_once(BinaryOperator::GreaterOrEqual)),
            Instruction::Add => Attempt::of(self.binary_at_once(BinaryOperator::Add)),
            Instruction::Sub => Attempt::of(self.binary_at_once(BinaryOperator::Subtract)),
            Instruction::Mul => Attempt::of(self.binary_at_once(BinaryOperator::Multiply)),
            Instruction::IntDiv => Attempt::of(self.binary_at_once(BinaryOperator::FloorDivide)),
            Instruction::Rem => Attempt::of(self.binary_at_once(BinaryOperator::Remainder)),
            Instruction::Not => Attempt::of(self.not_at_once()),
            Instruction::Jump(place) => {
                self.state.pay_one();
                self.run.jump(*place);
                Attempt::Done
            }
            Instruction::JumpIfFalse(place) => Attempt::of(self.jump_if_false_at_once(*place)),
            Instruction::JumpIfFalseOrPop(place) => {
                Attempt::of(self.jump_or_pop_at_once(*place, false))
            }
            Instruction::JumpIfTrueOrPop(place) => {
                Attempt::of(self.jump_or_pop_at_once(*place, true))
            }
            Instruction::StoreLocal(name) => Attempt::of(self.store_local_at_once(name)),
            Instruction::Iterate(_) => Attempt::of(self.iterate_at_once()),
            Instruction::IsUndefined => Attempt::of(self.is_undefined_at_once()),
            Instruction::DupTop => Attempt::free(self.dup_top_at_once()),
            Instruction::DiscardTop => Attempt::free(self.discard_top_at_once()),
            _ => Attempt::Left,
        }
    }
}
