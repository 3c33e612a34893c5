//! Sums that are stored where their left operand is bound.
ghost use Rattle.std.specs.Prelude.{◌≡◌, ◌+◌, IfSome, IsTrue, Ok, Some, slice_get};
ghost use Rattle.tm_meaning.specs.Instructions.{binary_of};
ghost use Rattle.tm_meaning.specs.World.{CanPay, find_name, view_of};
ghost use Rattle.tm_runs.specs.Runs.{CanGoOn};
ghost use Rattle.tm_runs.specs.Sums.{AddsUp};
ghost use Rattle.tm_trees.specs.Instructions.instructions;
ghost use Rattle.tm_vm.specs.Answers.{SilentlyAhead};
ghost use Rattle.tm_vm.specs.Sums.{IsFoundNext};

use crate::flow::Flow;
use crate::machine::Machine;
use std::alloc::Global;
use tm_parts::Halt;
use tm_runs::{adds_up, summand};
use tm_shapes::Verified;
use tm_syntax::{BinaryOperator, Instruction, Name};
use tm_tables::Host;
use tm_values::Value;

impl Machine {
    /// Replaces two values by the result of a binary operator. If the next instructions store it
    /// where the left value is bound, they are done too, so that nothing is copied: else a text or a
    /// list that grows in a loop would be copied in each round.
    pub(crate) fn do_sum<H: Host>(
        &mut self,
        alloc: Global,
        host: &H,
        code: &Verified,
        operator: BinaryOperator,
    ) -> Result<Flow, Halt>
        requires in_place { CanGoOn self.old.run }
        requires its_code { code.now ≡ (H.program host.now).code self.old.run.stream }
        ensures { SilentlyAhead (H.program host.now)
            (binary_of (H.program host.now).host operator self.old) self.old self.new result }
    {
        let Some(after) = self.place().checked_add(3) else {
            return self.do_binary(alloc, host, operator);
        };
        let instructions = code.as_slice();
        match (instructions.get(after - 2), instructions.get(after - 1)) {
            (Some(Instruction::StoreLocal(name)), _) => {
                if self.grows_local(host, operator, name) {
                    return self.store_sum(alloc, host, operator, name, after - 1);
                }
            }
            (Some(Instruction::Lookup(object)), Some(Instruction::SetAttr(name))) => {
                if let Some(object) = self.grown_object(host, operator, object, name) {
                    return self.set_sum(alloc, host, operator, &object, name, after);
                }
            }
            _ => {}
        }
        self.do_binary(alloc, host, operator)
    }

    /// Whether `operator` adds the two values on top up, and the sum is within the limit.
    fn grows<H: Host>(&self, host: &H, operator: BinaryOperator) -> bool
        ensures { IsTrue result → AddsUp operator self.now.run.operands }
    {
        let Some(args) = self.run.args(2) else {
            return false;
        };
        adds_up(operator, &args[0], &args[1])
            && args[0].size().saturating_add(args[1].size()) <= host.value_limit() as u64
    }

    /// Whether that is so, the innermost scope binds `name` to what shares the content of the left
    /// value, and a charge of 1 can be paid.
    fn grows_local<H: Host>(&self, host: &H, operator: BinaryOperator, name: &Name) -> bool
        ensures { IsTrue result → CanPay 1 self.now.world.fuel
            × AddsUp operator self.now.run.operands }
    {
        let Some(args) = self.run.args(2) else {
            return false;
        };
        self.state.can_pay()
            && self.grows(host, operator)
            && self.state.shares_local(name, &args[0])
    }

    /// The object that the name `object` is bound to, if that is so of its attribute `name`, and a
    /// charge of 2 can be paid.
    fn grown_object<H: Host>(
        &self,
        host: &H,
        operator: BinaryOperator,
        object: &Name,
        name: &Name,
    ) -> Option<Value>
        ensures pays { IfSome result (λ _. CanPay 2 self.now.world.fuel) }
        ensures adds_up { IfSome result (λ _. AddsUp operator self.now.run.operands) }
        ensures found { IfSome result (λ v. find_name
            (view_of (H.program host.now).host self.now.world) object.now ≡ Ok (Some v)) }
    {
        let args = self.run.args(2)?;
        if self.state.fuel_left() < 2 || !self.grows(host, operator) {
            return None;
        }
        let Ok(Some(object)) = self.state.lookup(host, object) else {
            return None;
        };
        if !self.state.shares_member(&object, name, &args[0]) {
            return None;
        }
        Some(object)
    }

    /// Pops two values, binds `name` to their sum and moves to `after`, past the next instruction.
    fn store_sum<H: Host>(
        &mut self,
        alloc: Global,
        host: &H,
        operator: BinaryOperator,
        name: &Name,
        after: usize,
    ) -> Result<Flow, Halt>
        requires two { after ≡ self.old.run.place + 2 }
        requires stored { slice_get ((H.program host.now).code self.old.run.stream)
            (self.old.run.place + 1) ≡ Some (instructions.StoreLocal name.now) }
        requires pays { CanPay 1 self.old.world.fuel }
        requires adds_up { AddsUp operator self.old.run.operands }
        ensures { SilentlyAhead (H.program host.now)
            (binary_of (H.program host.now).host operator self.old) self.old self.new result }
    {
        let right = self.run.popped()?;
        let left = self.run.popped()?;
        let right = summand(alloc, right)?;
        self.state.pay_one();
        self.state
            .store_sum(alloc, name, left, &right, host.value_limit() as u64)?;
        self.run.jump(after);
        Ok(Flow::Ahead)
    }

    /// Pops two values, sets the attribute `name` of `object` to their sum and moves to `after`, past
    /// the next two instructions.
    fn set_sum<H: Host>(
        &mut self,
        alloc: Global,
        host: &H,
        operator: BinaryOperator,
        object: &Value,
        name: &Name,
        after: usize,
    ) -> Result<Flow, Halt>
        requires three { after ≡ self.old.run.place + 3 }
        requires found { IsFoundNext (H.program host.now) self.old object.now }
        requires set { slice_get ((H.program host.now).code self.old.run.stream)
            (self.old.run.place + 2) ≡ Some (instructions.SetAttr name.now) }
        requires pays { CanPay 2 self.old.world.fuel }
        requires adds_up { AddsUp operator self.old.run.operands }
        ensures { SilentlyAhead (H.program host.now)
            (binary_of (H.program host.now).host operator self.old) self.old self.new result }
    {
        let right = self.run.popped()?;
        let left = self.run.popped()?;
        let right = summand(alloc, right)?;
        self.state.pay_down_to(self.state.fuel_left() - 2);
        let most = host.value_limit() as u64;
        self.state
            .set_member_sum(alloc, object, name, left, &right, most)?;
        self.run.jump(after);
        Ok(Flow::Ahead)
    }
}
