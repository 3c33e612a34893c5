//! The fuel of a state.
ghost use Rattle.std.specs.Prelude.{◌≡◌, ◌+◌, ◌-◌, ◌<◌, ◌≤◌, [], ◌∷◌, Some, IfSome, OnOk, OnErr};
ghost use Rattle.tm_values.specs.declared.error.ErrorKind.TheVariants.{OutOfFuel};
ghost use Rattle.tm_meaning.specs.World.{fuel_levels, can_be_paid, CanPay, Good, Bad};
ghost use Rattle.tm_meaning.specs.Steps.{charge_of, pay};
ghost use Rattle.tm_state.specs.Answers.{KeepsFixedAndNames};

use crate::state::StateData;
use tm_syntax::Instruction;
use tm_tables::Exhausted;

impl StateData {
    /// The fuel consumed and the fuel left, if fuel was set; their sum is the fuel that was set.
    pub fn fuel_levels(&self) -> Option<(u64, u64)>
        ensures levels { result ≡ fuel_levels self.now }
        ensures sum { IfSome result (λ p. Some (p.0 + p.1) ≡ self.now.fuel_set) }
    {
        if self.fuel_is_set {
            Some((self.fuel.consumed(), self.fuel.remaining()))
        } else {
            None
        }
    }

    /// Charges an instruction; Exhausted if less than its charge is left.
    #[inline(always)]
    pub fn charge(&mut self, instruction: &Instruction) -> Result<(), Exhausted>
        ensures ok { OnOk result (pay instruction.now self.old ≡ Good tt self.new) }
        ensures err { OnErr result
            (pay instruction.now self.old ≡ Bad (OutOfFuel ∷ []) self.new) }
        ensures spent { OnOk result
            (self.new.fuel + charge_of instruction.now ≡ self.old.fuel) }
        ensures kept { KeepsFixedAndNames self.old self.new }
        ensures rest { self.new ≡ record self.old { fuel = self.new.fuel } }
    {
        self.fuel.pay(instruction)
    }

    /// Whether a charge of 1 can be paid.
    #[inline(always)]
    pub fn can_pay(&self) -> bool
        ensures { result ≡ can_be_paid 1 self.now.fuel }
    {
        self.fuel.can_pay()
    }

    /// The fuel left.
    #[inline(always)]
    pub fn fuel_left(&self) -> u64
        ensures { result ≡ self.now.fuel }
    {
        self.fuel.remaining()
    }

    /// Pays all but `left`.
    #[inline(always)]
    pub fn pay_down_to(&mut self, left: u64)
        requires { left ≤ self.old.fuel }
        ensures { self.new ≡ record self.old { fuel = left } }
    {
        self.fuel.pay_down_to(left);
    }

    /// Pays a charge of 1.
    #[inline(always)]
    pub fn pay_one(&mut self)
        requires { CanPay 1 self.old.fuel }
        ensures { self.new ≡ record self.old { fuel = self.old.fuel - 1 } }
    {
        self.fuel.pay_one();
    }
}
