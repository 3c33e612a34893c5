//! Memory of finished work, for reuse.
ghost use Rattle.std.specs.Prelude.{◌≡◌, []};

use crate::nested::NestedRun;
use crate::pool::ContextPool;
use std::alloc::Global;
use tm_values::Value;

/// Memory of finished work, which holds no values. No contract on a state sees it.
pub struct Rooms {
    /// The contexts for macro calls.
    pub contexts: ContextPool,
    operands: Vec<Vec<Value>>,
    runs: Vec<Box<NestedRun>>,
}

// Written by hand: one drop call per owner instead of dropping each part.
impl Drop for Rooms {
    fn drop(self) {
        let Rooms {
            contexts: _contexts,
            operands: _operands,
            runs: _runs,
        } = self;
    }
}

impl Rooms {
    /// Nothing to reuse; allocates nothing.
    pub fn new(alloc: Global) -> Rooms {
        Rooms {
            contexts: ContextPool::new(alloc),
            operands: Vec::new(alloc),
            runs: Vec::new(alloc),
        }
    }

    /// The allocator.
    pub fn allocator(&self) -> Global {
        *self.runs.allocator()
    }

    /// An empty vector for values: a kept one or a new one. Allocates nothing.
    pub fn take_operands(&mut self, alloc: Global) -> Vec<Value>
        ensures { result.items ≡ [] }
    {
        match self.operands.pop() {
            Some(mut room) => {
                room.clear();
                room
            }
            None => Vec::new(alloc),
        }
    }

    /// Drops `values` and keeps the memory of the vector if there is memory to store it.
    pub fn keep_operands(&mut self, mut values: Vec<Value>) {
        values.clear();
        let _kept = self.operands.push(values);
    }

    /// A kept box of a finished macro run, or None if there is none.
    #[inline(always)]
    pub fn take_run(&mut self) -> Option<Box<NestedRun>> {
        self.runs.pop()
    }

    /// Keeps the box of a finished macro run if there is memory to store it.
    #[inline(always)]
    pub fn keep_run(&mut self, run: Box<NestedRun>) {
        let _kept = self.runs.push(run);
    }
}
