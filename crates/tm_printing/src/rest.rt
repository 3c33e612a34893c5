//! What is left to write of a list or a map.
use tm_output::TargetFailed;
use tm_values::Value;

/// What is left to write of a list or a map. The number limits how deeply namespaces in it are
/// entered.
#[derive(Clone, Copy)]
pub enum Rest<'a> {
    /// Items, and whether one comes before them.
    Items(&'a [Value], bool, usize),
    /// Pairs, and whether one comes before them.
    Pairs(&'a [(Value, Value)], bool, usize),
    /// The value of a pair whose key was written already, and the pairs after it.
    Member(&'a Value, &'a [(Value, Value)], usize),
}

/// The next value, how deeply namespaces in it are entered, and what is left after it.
#[derive(Clone, Copy)]
pub struct NextValue<'a> {
    /// The value.
    pub value: &'a Value,
    /// The levels.
    pub levels: usize,
    /// What is left.
    pub after: Rest<'a>,
}

/// Why a value wasn't written to its end.
#[derive(Clone, Copy, Debug, PartialEq, Eq)]
pub enum Unwritten {
    /// The target failed.
    Target,
    /// Memory ran out for the work list.
    Memory,
}

impl From<TargetFailed> for Unwritten {
    ghost use Rattle.std.specs.Prelude.{◌≡◌};
    ghost use Rattle.tm_printing.specs.declared.rest.Unwritten.TheVariants.{Target};

    ghost from_gives = { λ failed unwritten. unwritten ≡ Target };

    fn from(_failed: TargetFailed) -> Unwritten {
        Unwritten::Target
    }
}
