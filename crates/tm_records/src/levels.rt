//! The depth of runs.
ghost use Rattle.std.specs.Prelude.{◌≡◌};
ghost use Rattle.tm_meaning.specs.Calls.{include_cost};

/// How much deeper an included template runs.
pub const INCLUDE_DEPTH: usize = 10;

/// The levels of depth that an include costs: one more if it is `apart`, in a scope of its own.
pub fn include_cost(apart: bool) -> usize
    ensures { result ≡ include_cost apart }
{
    if apart {
        INCLUDE_DEPTH + 1
    } else {
        INCLUDE_DEPTH
    }
}
