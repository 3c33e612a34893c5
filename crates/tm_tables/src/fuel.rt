//! Fuel: how many charges a run may take.
ghost use Rattle.std.specs.Prelude.{◌≡◌, ◌+◌, ◌≤◌, [], ◌∷◌, Some, None, OnOk, IfErr, ◌<◌, ◌-◌};
ghost use Rattle.tm_values.specs.declared.error.ErrorKind.TheVariants.{OutOfFuel};
ghost use Rattle.tm_meaning.specs.World.{charged, can_be_paid, CanPay};
ghost use Rattle.tm_meaning.specs.Steps.{charge_of};

use std::marker::Model;
use tm_syntax::Instruction;
use tm_values::{Error, ErrorKind};

/// The fuel of a run: the amount set at its start, and what is left of it.
#[derive(Drop)]
pub struct FuelTracker {
    initial: u64,
    remaining: u64,
}

impl Model for FuelTracker {
    ghost use Rattle.std.specs.Prelude.{◌≤◌};
    ghost use Rattle.tm_tables.specs.Fuel.{Fuel};

    ghost Value = { Fuel };

    ghost view = { λ tracker. record { set = tracker.initial; left = tracker.remaining } };

    ghost invariant = { λ tracker. tracker.remaining ≤ tracker.initial };
}

/// The error that less fuel is left than the charge.
#[derive(Clone, Copy, Debug, PartialEq, Eq)]
pub struct Exhausted;

/// The charge of an instruction; 0 if it is free.
#[inline(always)]
fn charge(instruction: &Instruction) -> u64
    ensures { result ≡ charge_of instruction.now }
{
    match instruction {
        Instruction::DupTop
        | Instruction::DiscardTop
        | Instruction::PushWith
        | Instruction::PopFrame
        | Instruction::PushLoop(_)
        | Instruction::PushDidNotIterate
        | Instruction::PopLoopFrame
        | Instruction::BeginCapture(_)
        | Instruction::PushAutoEscape
        | Instruction::PopAutoEscape
        | Instruction::BuildMacro(_, _, _)
        | Instruction::Return
        | Instruction::LoadBlocks
        | Instruction::ExportLocals => 0,
        _ => 1,
    }
}

impl FuelTracker {
    /// A tracker with `fuel`, none of it spent.
    pub fn new(fuel: u64) -> FuelTracker
        ensures { result ≡ record { set = fuel; left = fuel } }
    {
        FuelTracker {
            initial: fuel,
            remaining: fuel,
        }
    }

    /// Charges an instruction; a free one costs nothing. OutOfFuel if less than the charge is left;
    /// then nothing is left.
    pub fn track(&mut self, instruction: &Instruction) -> Result<(), Error>
        ensures ok { OnOk result
            (charged (charge_of instruction.now) self.old.left ≡ Some self.new.left) }
        ensures err { IfErr result (λ e. (e ≡ OutOfFuel ∷ []) × (self.new.left ≡ 0)
            × (charged (charge_of instruction.now) self.old.left ≡ None)) }
        ensures set { self.new.set ≡ self.old.set }
        ensures falls { self.new.left ≤ self.old.left }
        ensures spent { OnOk result
            (self.new.left + charge_of instruction.now ≡ self.old.left) }
    {
        match self.pay(instruction) {
            Ok(()) => Ok(()),
            Err(_exhausted) => Err(Error::from(ErrorKind::OutOfFuel)),
        }
    }

    /// Charges an instruction as `track` does. Its error needs no memory, which makes it faster.
    #[inline(always)]
    pub fn pay(&mut self, instruction: &Instruction) -> Result<(), Exhausted>
        ensures ok { OnOk result
            (charged (charge_of instruction.now) self.old.left ≡ Some self.new.left) }
        ensures err { IfErr result (λ _. (self.new.left ≡ 0)
            × (charged (charge_of instruction.now) self.old.left ≡ None)) }
        ensures set { self.new.set ≡ self.old.set }
        ensures falls { self.new.left ≤ self.old.left }
        ensures spent { OnOk result
            (self.new.left + charge_of instruction.now ≡ self.old.left) }
    {
        let charge = charge(instruction);
        if charge == 0 {
            return Ok(());
        }
        if self.remaining < charge {
            self.remaining = 0;
            return Err(Exhausted);
        }
        self.remaining -= charge;
        Ok(())
    }

    /// Whether a charge of 1 can be paid.
    #[inline(always)]
    pub fn can_pay(&self) -> bool
        ensures { result ≡ can_be_paid 1 self.now.left }
    {
        1 <= self.remaining
    }

    /// Pays a charge of 1.
    #[inline(always)]
    pub fn pay_one(&mut self)
        requires { CanPay 1 self.old.left }
        ensures { self.new ≡ record self.old { left = self.old.left - 1 } }
    {
        self.remaining -= 1;
    }

    /// Pays all but `left`.
    #[inline(always)]
    pub fn pay_down_to(&mut self, left: u64)
        requires { left ≤ self.old.left }
        ensures { self.new ≡ record self.old { left = left } }
    {
        self.remaining = left;
    }

    /// The fuel left.
    pub fn remaining(&self) -> u64
        ensures { result ≡ self.now.left }
    {
        self.remaining
    }

    /// The fuel spent.
    pub fn consumed(&self) -> u64
        ensures { result + self.now.left ≡ self.now.set }
    {
        self.initial - self.remaining
    }

    /// The fuel set at the start.
    pub fn initial(&self) -> u64
        ensures { result ≡ self.now.set }
    {
        self.initial
    }
}
