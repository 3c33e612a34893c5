//! A step: an instruction is charged and performed.
ghost use Rattle.std.specs.Prelude.{◌≡◌, ◌≤◌, ◌+◌, [], ◌∷◌, IsFalse, OnOk, OnErr, length, true};
ghost use Rattle.tm_values.specs.declared.error.ErrorKind.TheVariants.{OutOfFuel};
ghost use Rattle.tm_meaning.specs.World.{Good, Bad};
ghost use Rattle.tm_meaning.specs.Steps.{charge_of, closed, pay, effect, finish, return_of, step};
ghost use Rattle.tm_runs.specs.Runs.{CanGoOn};
ghost use Rattle.tm_vm.specs.Answers.{Performs, Finishes, Paid};
ghost use Rattle.tm_vm.specs.AtOnce.{StepAttempted};
ghost use Rattle.tm_runs.specs.Making.{makes, size_on_top};
ghost use Rattle.tm_vm.specs.Limits.{MakesWithin};
ghost use Rattle.tm_state.specs.Answers.{KeepsFixedAndNames};

use crate::flow::Flow;
use crate::machine::Machine;
use std::alloc::Global;
use tm_meaning::Base;
use tm_parts::{Halt, Sink};
use tm_runs::{Activation, Attempt, makes, too_large};
use tm_shapes::Verified;
use tm_syntax::{Application, BinaryOperator, Instruction, UnaryOperator};
use tm_tables::{Exhausted, Host, NO_PLACE};
use tm_values::{Error, ErrorKind};

impl Machine {
    /// Performs an instruction that was charged.
    #[inline(always)]
    #[tactic(auto, using(crate::proofs::Performed::kinds))]
    pub(crate) fn perform<H: Host, W: Sink>(
        &mut self,
        alloc: Global,
        host: &H,
        base: &Base,
        code: &Verified,
        instruction: &Instruction,
        writer: &mut W,
    ) -> Result<Flow, Halt>
        requires in_place { CanGoOn self.old.run }
        requires its_code { code.now ≡ (H.program host.now).code self.old.run.stream }
        ensures { Performs (H.program host.now) base.now
            (effect (H.program host.now) base.now instruction.now
            self.old)
            self.old self.new
            (W.told writer.old) (W.told writer.new) result }
    {
        match instruction {
            Instruction::EmitRaw(text) => self.do_emit_raw(base, text, writer),
            Instruction::Emit => self.do_emit(alloc, host, base, writer),
            Instruction::Lookup(name) => self.do_lookup(host, name),
            Instruction::LoadConst(value) => self.do_load_const(value),
            Instruction::GetAttr(name) => self.do_get_attr(alloc, host, name),
            Instruction::GetItem => self.do_get_item(alloc, host),
            Instruction::Slice => self.do_slice(alloc, host),
            Instruction::BuildList(count) => self.do_build_list(alloc, *count),
            Instruction::BuildTuple(count) => self.do_build_list(alloc, Some(*count)),
            Instruction::BuildMap(count) => self.do_build_map(alloc, *count),
            Instruction::BuildKwargs(count) => self.do_build_kwargs(alloc, *count),
            Instruction::MergeKwargs(count) => self.do_merge_kwargs(alloc, host, *count),
            Instruction::UnpackLists(count) => self.do_unpack_lists(alloc, host, *count),
            Instruction::Eq => self.do_binary(alloc, host, BinaryOperator::Equal),
            Instruction::Ne => self.do_binary(alloc, host, BinaryOperator::NotEqual),
            Instruction::Lt => self.do_binary(alloc, host, BinaryOperator::Less),
            Instruction::Lte => self.do_binary(alloc, host, BinaryOperator::LessOrEqual),
            Instruction::Gt => self.do_binary(alloc, host, BinaryOperator::Greater),
            Instruction::Gte => self.do_binary(alloc, host, BinaryOperator::GreaterOrEqual),
            Instruction::In => self.do_binary(alloc, host, BinaryOperator::In),
            Instruction::CompareAndPreserve(operator) => {
                self.do_compare_and_preserve(alloc, host, *operator)
            }
            Instruction::Add => self.do_sum(alloc, host, code, BinaryOperator::Add),
            Instruction::Sub => self.do_binary(alloc, host, BinaryOperator::Subtract),
            Instruction::StringConcat => {
                self.do_sum(alloc, host, code, BinaryOperator::Concatenate)
            }
            Instruction::Mul => self.do_binary(alloc, host, BinaryOperator::Multiply),
            Instruction::Div => self.do_binary(alloc, host, BinaryOperator::Divide),
            Instruction::IntDiv => self.do_binary(alloc, host, BinaryOperator::FloorDivide),
            Instruction::Rem => self.do_binary(alloc, host, BinaryOperator::Remainder),
            Instruction::Pow => self.do_binary(alloc, host, BinaryOperator::Power),
            Instruction::Neg => self.do_unary(alloc, host, UnaryOperator::Negate),
            Instruction::Not => self.do_unary(alloc, host, UnaryOperator::Not),
            Instruction::IsUndefined => self.do_is_undefined(),
            Instruction::Swap => self.do_swap(),
            Instruction::DupTop => self.do_dup_top(),
            Instruction::DiscardTop => self.do_discard_top(),
            Instruction::Jump(place) => self.do_jump(*place),
            Instruction::JumpIfFalse(place) => self.do_jump_if_false(host, *place),
            Instruction::JumpIfFalseOrPop(place) => self.jump_or_pop(host, *place, false),
            Instruction::JumpIfTrueOrPop(place) => self.jump_or_pop(host, *place, true),
            Instruction::CallFunction(name, count) => {
                self.do_call_function(alloc, host, code, name, *count)
            }
            Instruction::CallMethod(name, count) => {
                self.do_apply(
                    alloc,
                    host,
                    code,
                    Application::Method,
                    name,
                    NO_PLACE,
                    *count,
                )
            }
            Instruction::CallObject(count) => self.do_call_object(alloc, host, code, *count),
            Instruction::ApplyFilter(name, count, cache) => {
                self.do_apply_filter(alloc, host, code, name, *count, *cache)
            }
            Instruction::PerformTest(name, count, cache) => {
                self.do_perform_test(alloc, host, code, name, *count, *cache)
            }
            Instruction::FastRecurse => self.do_fast_recurse(alloc, host, base, code),
            Instruction::CallBlock(name) => self.do_call_block(alloc, host, base, name),
            Instruction::FastSuper => self.do_fast_super(alloc, host, base),
            Instruction::LoadBlocks => self.do_load_blocks(alloc, host, base),
            Instruction::Include(missing) => self.do_include(alloc, host, base, true, *missing),
            Instruction::IncludeModule => self.do_include(alloc, host, base, false, false),
            Instruction::ExportLocals => self.do_export_locals(alloc),
            Instruction::StoreLocal(name) => self.do_store_local(name),
            Instruction::Enclose(name) => self.do_enclose(alloc, host, name),
            Instruction::GetClosure => self.do_get_closure(),
            Instruction::BuildMacro(name, place, caller) => {
                self.do_build_macro(alloc, code, name, *place, *caller)
            }
            Instruction::Return => self.do_return(base),
            Instruction::UnpackList(count) => self.do_unpack_list(alloc, *count),
            Instruction::SetAttr(name) => self.do_set_attr(alloc, name),
            Instruction::PushWith => self.do_push_with(alloc, host),
            Instruction::PopFrame => self.do_pop_frame(base),
            Instruction::PushLoop(flags) => self.do_push_loop(alloc, host, code, *flags),
            Instruction::Iterate(place) => self.do_iterate(*place),
            Instruction::PushDidNotIterate => self.do_push_did_not_iterate(),
            Instruction::PopLoopFrame => self.do_pop_loop_frame(alloc, host, base),
            Instruction::BeginCapture(mode) => self.do_begin_capture(alloc, *mode),
            Instruction::EndCapture => self.do_end_capture(alloc),
            Instruction::PushAutoEscape => self.do_push_auto_escape(base),
            Instruction::PopAutoEscape => self.do_pop_auto_escape(),
        }
    }

    /// Performs an instruction that was charged. OutOfMemory also if a value that it made is larger
    /// than `host` allows.
    #[inline(always)]
    #[tactic(auto, using(crate::proofs::Within::no_memory_after))]
    fn perform_within<H: Host, W: Sink>(
        &mut self,
        alloc: Global,
        host: &H,
        base: &Base,
        code: &Verified,
        instruction: &Instruction,
        writer: &mut W,
    ) -> Result<Flow, Halt>
        requires in_place { CanGoOn self.old.run }
        requires its_code { code.now ≡ (H.program host.now).code self.old.run.stream }
        ensures performs { Performs (H.program host.now) base.now
            (effect (H.program host.now) base.now instruction.now self.old)
            self.old self.new (W.told writer.old) (W.told writer.new) result }
        ensures within { MakesWithin (H.largest host.now) instruction.now result
            self.new.run.operands }
    {
        match self.perform(alloc, host, base, code, instruction, writer)? {
            Flow::GoOn if self.exceeds(host, instruction) => Err(too_large()),
            Flow::Called if self.exceeds(host, instruction) => Err(too_large()),
            flow => Ok(flow),
        }
    }

    /// Whether `instruction` made the value on top, and that is larger than `host` allows.
    #[inline(always)]
    fn exceeds<H: Host>(&self, host: &H, instruction: &Instruction) -> bool
        ensures { IsFalse result → makes instruction.now ≡ true →
            size_on_top self.now.run.operands ≤ H.largest host.now }
    {
        if !makes(instruction) {
            return false;
        }
        match self.run.top() {
            Some(value) => value.size() > host.value_limit() as u64,
            None => false,
        }
    }

    /// The place in the stream.
    pub(crate) fn place(&self) -> usize
        ensures { result ≡ self.now.run.place }
    {
        self.run.place()
    }

    /// Charges an instruction; Exhausted if less than its charge is left.
    #[inline(always)]
    pub(crate) fn charge(&mut self, instruction: &Instruction) -> Result<(), Exhausted>
        ensures ok { OnOk result
            (pay instruction.now self.old.world ≡ Good tt self.new.world) }
        ensures err { OnErr result
            (pay instruction.now self.old.world ≡ Bad (OutOfFuel ∷ []) self.new.world) }
        ensures spent { OnOk result
            (self.new.world.fuel + charge_of instruction.now ≡ self.old.world.fuel) }
        ensures kept { KeepsFixedAndNames self.old.world self.new.world }
        ensures rest { self.new ≡ record self.old {
          world = record self.old.world { fuel = self.new.world.fuel };
        } }
    {
        self.state.charge(instruction)
    }

    /// Whether the run has closed all that it opened.
    fn is_closed(&self, base: &Base) -> bool
        ensures { result ≡ closed base.now self.now }
    {
        base.captures == self.captures.depth()
            && base.scopes == self.state.height()
            && self.run.escapes_are_closed()
            && !self.run.has_loop()
    }

    /// Ends the run after its last instruction: at once if it has closed everything and no parent
    /// is waiting, and otherwise as `finish` does.
    #[inline(always)]
    fn end_run(&mut self, alloc: Global, base: &Base, size: usize) -> Result<Flow, Halt>
        ensures { Finishes result base.now self.old self.new (finish size base.now self.old) }
    {
        if self.run.place() == size && self.is_closed(base) && self.run.none_waits() {
            return Ok(Flow::Done);
        }
        self.finish(alloc, base, size)
    }

    /// Ends the run after its last instruction, or restarts it in the root of the waiting parent.
    /// Stuck if something is still open.
    #[inline(never)]
    pub(crate) fn finish(&mut self, alloc: Global, base: &Base, size: usize) -> Result<Flow, Halt>
        ensures { Finishes result base.now self.old self.new (finish size base.now self.old) }
    {
        if self.run.place() != size || !self.is_closed(base) {
            return Err(Halt::Stuck);
        }
        let Some(root) = self.run.parent_root()? else {
            return Ok(Flow::Done);
        };
        self.state.set_stream(&root)?;
        self.run = Activation::new(alloc, root, self.run.floor());
        Ok(Flow::Restart)
    }

    /// Ends the run at its place. Stuck if something is still open.
    pub(crate) fn do_return(&self, base: &Base) -> Result<Flow, Halt>
        ensures { Finishes result base.now self.now self.now (return_of base.now self.now) }
    {
        if self.is_closed(base) {
            return Ok(Flow::Done);
        }
        Err(Halt::Stuck)
    }

    /// Charges the instruction at the place and performs it by its method; tells how the run
    /// continues.
    #[inline(always)]
    fn step_by_method<H: Host, W: Sink>(
        &mut self,
        alloc: Global,
        host: &H,
        base: &Base,
        code: &Verified,
        writer: &mut W,
    ) -> Result<Flow, Halt>
        requires { code.now ≡ (H.program host.now).code self.old.run.stream }
        ensures performs { Performs (H.program host.now) base.now
            (step (H.program host.now) base.now self.old)
            self.old self.new (W.told writer.old) (W.told writer.new) result }
        ensures paid { Paid (H.program host.now)
            (length code.now) result self.old self.new }
    {
        let instructions = code.as_slice();
        let Some(instruction) = instructions.get(self.place()) else {
            return self.end_run(alloc, base, instructions.len());
        };
        if let Err(_exhausted) = self.charge(instruction) {
            return Err(Halt::Fault(Error::from(ErrorKind::OutOfFuel)));
        }
        self.perform_within(alloc, host, base, code, instruction, writer)
    }

    /// Charges and performs the instruction at the place, if there is one and it can be done at
    /// once.
    #[inline(always)]
    fn attempt_next<H: Host, W: Sink>(
        &mut self,
        host: &H,
        base: &Base,
        code: &Verified,
        writer: &mut W,
    ) -> Attempt
        requires { code.now ≡ (H.program host.now).code self.old.run.stream }
        ensures { StepAttempted result base.now (H.program host.now)
            (length code.now) self.old self.new
            (W.told writer.old) (W.told writer.new) }
    {
        match code.as_slice().get(self.place()) {
            Some(instruction) => self.attempt(host, base, instruction, writer),
            None => Attempt::Left,
        }
    }

    /// Charges the instruction at the place and performs it, at once if possible; tells how the run
    /// continues.
    #[inline(always)]
    pub fn step<H: Host, W: Sink>(
        &mut self,
        alloc: Global,
        host: &H,
        base: &Base,
        code: &Verified,
        writer: &mut W,
    ) -> Result<Flow, Halt>
        requires { code.now ≡ (H.program host.now).code self.old.run.stream }
        ensures performs { Performs (H.program host.now) base.now
            (step (H.program host.now) base.now self.old)
            self.old self.new (W.told writer.old) (W.told writer.new) result }
        ensures paid { Paid (H.program host.now)
            (length code.now) result self.old self.new }
    {
        match self.attempt_next(host, base, code, writer) {
            Attempt::Done => Ok(Flow::GoOn),
            Attempt::DoneFree => Ok(Flow::GoOn),
            Attempt::WriterFailed => Err(Halt::Writer),
            Attempt::NoMemory => Err(Halt::Fault(Error::from(ErrorKind::OutOfMemory))),
            Attempt::Left => self.step_by_method(alloc, host, base, code, writer),
        }
    }
}
