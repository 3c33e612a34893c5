//! How undefined values behave.
ghost use Rattle.std.specs.Prelude.{◌≡◌};
ghost use Rattle.tm_values.specs.Undefined.{undefined_refusal};

use crate::error::ErrorKind;

/// How undefined values behave in an environment, from the mildest to the strictest.
#[derive(Clone, Copy, PartialEq, Eq, Debug)]
pub enum UndefinedBehavior {
    /// An undefined value prints as nothing, has no items and is false. Looking up an attribute or
    /// an item of it fails.
    Lenient,
    /// Like `Lenient`, but the attributes and items of an undefined value are undefined.
    Chainable,
    /// Like `Lenient`, but emitting and iterating fail. Testing its truth doesn't.
    SemiStrict,
    /// Every use fails, except `*` in a call.
    Strict,
}

/// What an undefined value is used for.
#[derive(Clone, Copy, PartialEq, Eq, Debug)]
pub enum UndefinedUse {
    /// It is emitted.
    Emission,
    /// A `for` loop iterates over it.
    Iteration,
    /// One of its attributes or items is looked up.
    Member,
    /// Its truth is tested.
    Truth,
    /// It is compared, joined by `~`, or the left operand of `in`.
    Comparison,
    /// It is the right operand of `in`.
    Containment,
    /// It is sliced.
    Slice,
    /// It follows `**` in a call.
    KeywordSpread,
    /// It follows `*` in a call.
    ItemSpread,
    /// It is added, subtracted, multiplied, divided, raised or negated.
    Arithmetic,
}

impl Default for UndefinedBehavior {
    ghost use Rattle.std.specs.Prelude.{◌≡◌};
    ghost use Rattle.tm_values.specs.declared.undefined.UndefinedBehavior.TheVariants.{Lenient};

    ghost is_default = { λ behavior. behavior ≡ Lenient };

    /// `Lenient`.
    fn default() -> UndefinedBehavior {
        UndefinedBehavior::Lenient
    }
}

impl UndefinedBehavior {
    /// The error of using an undefined value for `purpose`: UndefinedError or InvalidOperation, or
    /// None if the use is allowed. Emitting a silent undefined value and testing its truth never
    /// fail.
    pub fn refusal(self, purpose: UndefinedUse, silent: bool) -> Option<ErrorKind>
        ensures { result ≡ undefined_refusal self purpose silent }
    {
        match (purpose, self) {
            (UndefinedUse::Emission | UndefinedUse::Truth, _) if silent => None,
            (UndefinedUse::Emission, Self::SemiStrict | Self::Strict)
            | (UndefinedUse::Iteration, Self::SemiStrict | Self::Strict)
            | (UndefinedUse::Containment, Self::SemiStrict | Self::Strict)
            | (UndefinedUse::KeywordSpread, Self::SemiStrict | Self::Strict)
            | (UndefinedUse::Member, Self::Lenient | Self::SemiStrict | Self::Strict)
            | (UndefinedUse::Truth, Self::Strict)
            | (UndefinedUse::Comparison, Self::Strict)
            | (UndefinedUse::Slice, Self::Strict) => Some(ErrorKind::UndefinedError),
            (UndefinedUse::KeywordSpread | UndefinedUse::Arithmetic, _) => Some(
                ErrorKind::InvalidOperation,
            ),
            _ => None,
        }
    }
}
