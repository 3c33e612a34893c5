//! Numbers of states.
ghost use Rattle.std.specs.Prelude.{◌≡◌, ◌+◌, ◌-◌, ◌^◌, ◌<◌, [], ◌∷◌, MatchResult};

use std::marker::Model;
use tm_values::{Error, ErrorKind};

/// A counter that numbers states, each uniquely. A contract sees the next number.
#[derive(Drop)]
pub struct StateIds {
    next: u64,
}

impl Model for StateIds {
    ghost use Rattle.std.specs.Prelude.{ℕ};

    ghost Value = { ℕ };

    ghost view = { λ a. a.next };
}

impl Default for StateIds {
    ghost use Rattle.std.specs.Prelude.{◌≡◌};

    ghost is_default = { λ ids. ids ≡ 0 };

    /// A counter whose next number is 0.
    fn default() -> StateIds {
        StateIds::new()
    }
}

impl StateIds {
    /// A counter whose next number is 0.
    pub fn new() -> StateIds
        ensures { result ≡ 0 }
    {
        StateIds { next: 0 }
    }

    /// A counter that continues a saved one at the number `next`. At `u64::MAX` it is full.
    pub fn resume(next: u64) -> StateIds
        ensures { result ≡ next }
    {
        StateIds { next }
    }

    /// The next number, which is never returned again. InvalidOperation if it is `u64::MAX`; then
    /// nothing changes.
    pub fn next(&mut self) -> Result<u64, Error>
        ensures { MatchResult result
            (λ id. (id ≡ self.old) × (id < 2 ^ 64 - 1) × (self.new ≡ self.old + 1))
            (λ e. (e ≡ ErrorKind.InvalidOperation ∷ []) × (self.old ≡ 2 ^ 64 - 1)
            × (self.new ≡ self.old)) }
    {
        if self.next == u64::MAX {
            return Err(Error::from(ErrorKind::InvalidOperation));
        }
        let id = self.next;
        self.next += 1;
        Ok(id)
    }
}
