//! Names that must differ.
ghost use Rattle.std.specs.Prelude.{◌≡◌, IfOk};
ghost use Rattle.tm_parser.specs.Distinct as spec;
ghost use Rattle.tm_parser.specs.Distinct.{texts};

use std::alloc::{AllocError, Global};
use std::collections::BTreeSet;
use tm_syntax::Name;

/// Whether all names are different. Compares their hashes, and texts only where hashes are equal.
/// AllocError if memory runs out.
pub fn are_distinct(alloc: Global, names: &[&Name]) -> Result<bool, AllocError>
    ensures { IfOk result (λ distinct. distinct ≡ spec.are_distinct (texts names.now)) }
{
    let mut seen = BTreeSet::new(alloc);
    for name in names {
        if !seen.insert(*name)? {
            return Ok(false);
        }
    }
    Ok(true)
}
