//! How template names are joined.
ghost use Rattle.std.specs.Prelude.{List};
ghost use Rattle.tm_objects.specs.Stated.{Join};
ghost use Rattle.tm_values.specs.Answer.{IsAnswer};

use std::alloc::Global;
use tm_syntax::Name;
use tm_values::Error;

/// An object of the caller that says which template a name means. Its meaning is a function of the
/// name and of the name of the running template.
pub trait PathJoin: Drop {
    ghost joins: { Self → Join };

    /// The name of the template that `name` means in the template named `parent`, or the stated
    /// fault; OutOfMemory if memory runs out.
    fn join(&self, alloc: Global, name: &str, parent: &str) -> Result<Name, Error>
        ensures { IsAnswer result (joins self.now name.now parent.now) };
}

impl PathJoin for Box<dyn PathJoin> {
    ghost joins = { λ b. (PathJoin-box b).joins b.value };

    fn join(&self, alloc: Global, name: &str, parent: &str) -> Result<Name, Error> {
        (**self).join(alloc, name, parent)
    }
}
