//! A stack of places.
ghost use Rattle.std.specs.Prelude.{◌≡◌, [], ◌∷◌, MatchOption, OnErr, OnOk};

use std::alloc::{AllocError, Global};
use std::marker::Model;

/// The places that are left to visit. A contract sees a list, the topmost first.
pub(crate) struct Pile {
    items: Vec<usize>,
}

impl Model for Pile {
    ghost use Rattle.std.specs.Prelude.{List, reverse, ℕ};

    ghost Value = { List ℕ };

    ghost view = { λ p. reverse p.items.items };
}

impl Drop for Pile {
    fn drop(self) {
        let Pile { items: _items } = self;
    }
}

impl Pile {
    /// An empty stack.
    pub(crate) fn new(alloc: Global) -> Pile
        ensures { result ≡ [] }
    {
        Pile {
            items: Vec::new(alloc),
        }
    }

    /// Pushes a place. AllocError if memory runs out; then nothing changes.
    pub(crate) fn push(&mut self, place: usize) -> Result<(), AllocError>
        ensures ok { OnOk result (self.new ≡ place ∷ self.old) }
        ensures err { OnErr result (self.new ≡ self.old) }
    {
        self.items.push(place)?;
        Ok(())
    }

    /// Pops the topmost place.
    pub(crate) fn pop(&mut self) -> Option<usize>
        ensures { MatchOption result ((self.old ≡ []) × (self.new ≡ []))
            (λ top. self.old ≡ top ∷ self.new) }
    {
        self.items.pop()
    }
}
