//! Code under construction, with jumps whose targets aren't set yet.
#![tactic(auto, unfolding(crate::proofs::Steps::steps))]

ghost use Rattle.std.specs.Prelude.{◌≡◌, ◌++◌, [], ◌∷◌, OnOk, IfOk, length, slice_set};
ghost use Rattle.tm_generator.specs.Building.{with_one, jumped, left, continued, begun, bound, joined};
ghost use Rattle.tm_generator.specs.Building.{place_of, outs_of, outer_of, loop_begun, rounds_ended};
ghost use Rattle.tm_generator.specs.Building.{settled, led, finished};
ghost use Rattle.tm_generator.specs.Building.{around_of, body_begun, body_ended};
ghost use Rattle.tm_trees.specs.Instructions.instructions.{Jump};

use std::alloc::{AllocError, Global};
use std::mem;
use tm_items::Items;
use tm_syntax::{Instruction, JumpKind, LoopFlags};

/// A jump out of a part of the code, whose target isn't set yet.
#[derive(Clone, Copy)]
pub(crate) struct Out {
    kind: JumpKind,
    place: usize,
}

/// A jump out of a round of a loop, by its place.
#[derive(Clone, Copy)]
pub(crate) enum Exit {
    /// Leaves the loop.
    Leave(usize),
    /// Continues with the next item.
    Next(usize),
}

/// What is saved when a loop begins: the exits of the loop around it, and the place of its own
/// `Iterate`.
#[derive(Drop)]
pub(crate) struct Outer {
    exits: Items<Exit>,
    again: usize,
}

/// What is saved when a macro's body begins: the jumps out and the exits of the code around it, the
/// place of the jump over it, and its entry.
#[derive(Drop)]
pub(crate) struct Around {
    outs: Items<Out>,
    exits: Items<Exit>,
    place: usize,
    entry: usize,
}

/// Code under construction, and the jumps in it whose targets aren't set yet.
pub(crate) struct Builder {
    alloc: Global,
    code: Items<Instruction>,
    outs: Items<Out>,
    exits: Items<Exit>,
}

// Written by hand, so that an owner drops a builder with one call and not part by part.
impl Drop for Builder {
    fn drop(self) {
        let Builder {
            alloc: _alloc,
            code: _code,
            outs: _outs,
            exits: _exits,
        } = self;
    }
}

impl Builder {
    /// A builder without code.
    pub(crate) fn new(alloc: Global) -> Builder
        ensures { result ≡ record { alloc = alloc; code = []; outs = []; exits = [] } }
    {
        Builder {
            alloc,
            code: Items::new(alloc),
            outs: Items::new(alloc),
            exits: Items::new(alloc),
        }
    }

    /// The allocator.
    pub(crate) fn alloc(&self) -> Global {
        self.alloc
    }

    /// Appends an instruction. AllocError if memory runs out.
    pub(crate) fn emit(&mut self, instruction: Instruction) -> Result<(), AllocError>
        ensures { OnOk result (self.new ≡ with_one instruction self.old) }
    {
        self.code.push(instruction)
    }

    /// Appends a jump out of the current part. Its target is set later. AllocError if memory runs
    /// out.
    pub(crate) fn jump_out(&mut self, kind: JumpKind) -> Result<(), AllocError>
        ensures { OnOk result (self.new ≡ jumped kind self.old) }
    {
        let place = self.code.len();
        self.outs.push(Out { kind, place })?;
        self.code.push(kind.to(0))
    }

    /// Appends a jump that leaves the innermost loop. AllocError if memory runs out.
    pub(crate) fn break_loop(&mut self) -> Result<(), AllocError>
        ensures { OnOk result (self.new ≡ left self.old) }
    {
        self.exits.push(Exit::Leave(self.code.len()))?;
        self.code.push(Instruction::Jump(0))
    }

    /// Appends a jump to the next round of the innermost loop. AllocError if memory runs out.
    pub(crate) fn next_round(&mut self) -> Result<(), AllocError>
        ensures { OnOk result (self.new ≡ continued self.old) }
    {
        self.exits.push(Exit::Next(self.code.len()))?;
        self.code.push(Instruction::Jump(0))
    }

    /// Begins a part that has its own jumps out. Returns those of the part around it.
    pub(crate) fn begin(&mut self) -> Items<Out>
        ensures outer { result ≡ outs_of self.old }
        ensures code { self.new ≡ begun self.old }
    {
        mem::replace(&mut self.outs, Items::new(self.alloc))
    }

    /// Ends the part: its jumps out go to the end of the code so far. `outer` are the jumps out of
    /// the part around it.
    pub(crate) fn bound(&mut self, outer: Items<Out>)
        ensures { self.new ≡ bound outer self.old }
    {
        let here = self.code.len();
        settle(&mut self.code, self.outs.as_slice(), here);
        self.outs = outer;
    }

    /// Ends the first of two parts with a jump over the second. The jumps out of the first go to
    /// the second. Returns the place of the jump over the second. AllocError if memory runs out.
    pub(crate) fn second(&mut self, outer: Items<Out>) -> Result<usize, AllocError>
        ensures place { IfOk result (λ place. place ≡ place_of self.old) }
        ensures ok { OnOk result (self.new ≡ bound outer (with_one (Jump 0) self.old)) }
    {
        let place = self.code.len();
        self.emit(Instruction::Jump(0))?;
        self.bound(outer);
        Ok(place)
    }

    /// Ends the second of two parts: the jump over it, at `place`, goes to the end of the code so
    /// far.
    pub(crate) fn join(&mut self, place: usize)
        ensures { self.new ≡ joined place self.old }
    {
        let here = self.code.len();
        patch(&mut self.code, place, Instruction::Jump(here));
    }

    /// Begins a loop and its rounds. AllocError if memory runs out.
    pub(crate) fn begin_loop(&mut self, flags: LoopFlags) -> Result<Outer, AllocError>
        ensures outer { IfOk result (λ outer. outer ≡ outer_of self.old) }
        ensures ok { OnOk result (self.new ≡ loop_begun flags self.old) }
    {
        self.code.push(Instruction::PushLoop(flags))?;
        let again = self.code.len();
        self.code.push(Instruction::Iterate(0))?;
        let exits = mem::replace(&mut self.exits, Items::new(self.alloc));
        Ok(Outer { exits, again })
    }

    /// Ends the rounds of a loop. AllocError if memory runs out.
    pub(crate) fn end_rounds(&mut self, outer: Outer) -> Result<(), AllocError>
        ensures { OnOk result (self.new ≡ rounds_ended outer self.old) }
    {
        let Outer { exits, again } = outer;
        self.code.push(Instruction::Jump(again))?;
        let after = self.code.len();
        patch(&mut self.code, again, Instruction::Iterate(after));
        lead(&mut self.code, self.exits.as_slice(), again, after);
        self.exits = exits;
        Ok(())
    }

    /// Begins a macro's body with a jump over it. AllocError if memory runs out.
    pub(crate) fn begin_body(&mut self) -> Result<Around, AllocError>
        ensures around { IfOk result (λ around. around ≡ around_of self.old) }
        ensures ok { OnOk result (self.new ≡ body_begun self.old) }
    {
        let place = self.code.len();
        self.code.push(Instruction::Jump(0))?;
        Ok(Around {
            outs: mem::replace(&mut self.outs, Items::new(self.alloc)),
            exits: mem::replace(&mut self.exits, Items::new(self.alloc)),
            place,
            entry: self.code.len(),
        })
    }

    /// Ends a macro's body. Jumps out of it go to its end, where it returns. Returns its entry.
    /// AllocError if memory runs out.
    pub(crate) fn end_body(&mut self, around: Around) -> Result<usize, AllocError>
        ensures entry { IfOk result (λ entry. entry ≡ around.entry) }
        ensures ok { OnOk result (self.new ≡ body_ended around self.old) }
    {
        let Around {
            outs,
            exits,
            place,
            entry,
        } = around;
        let end = self.code.len();
        settle(&mut self.code, self.outs.as_slice(), end);
        lead(&mut self.code, self.exits.as_slice(), end, end);
        self.code.push(Instruction::Return)?;
        let after = self.code.len();
        patch(&mut self.code, place, Instruction::Jump(after));
        self.outs = outs;
        self.exits = exits;
        Ok(entry)
    }

    /// The finished code. All jumps out of it go to its end.
    pub(crate) fn finish(self) -> Items<Instruction>
        ensures { result ≡ finished self }
    {
        let Builder {
            alloc: _,
            mut code,
            outs,
            exits,
        } = self;
        let end = code.len();
        settle(&mut code, outs.as_slice(), end);
        lead(&mut code, exits.as_slice(), end, end);
        code
    }
}

/// Replaces the instruction at `place`, if there is one.
fn patch(code: &mut Items<Instruction>, place: usize, instruction: Instruction)
    ensures { code.new ≡ slice_set code.old place instruction }
{
    if place < code.len() {
        code.set(place, instruction);
    }
}

/// Sets the target of jumps out to `to`.
fn settle(code: &mut Items<Instruction>, outs: &[Out], to: usize)
    ensures { code.new ≡ settled code.old outs.now to }
{
    for out in outs {
        patch(code, out.place, out.kind.to(to));
    }
}

/// Sets the targets of a loop's exits: `again` for the next item, and `after` to leave the loop.
fn lead(code: &mut Items<Instruction>, exits: &[Exit], again: usize, after: usize)
    ensures { code.new ≡ led code.old exits.now again after }
{
    for exit in exits {
        match *exit {
            Exit::Leave(place) => patch(code, place, Instruction::Jump(after)),
            Exit::Next(place) => patch(code, place, Instruction::Jump(again)),
        }
    }
}
