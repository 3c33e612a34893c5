//! Accepted streams, in the form that the machine runs.
ghost use Rattle.std.specs.List.Sorted.{IsNonDecreasingBy};
ghost use Rattle.std.specs.Prelude.{◌≡◌, ◌-◌, ◌^◌, ℕ, ◌<◌, [], IfOk, IfSome, ltb, slice_get, true};
ghost use Rattle.tm_shapes.specs.Accepts.{accepts};
ghost use Rattle.tm_shapes.specs.Verified.{IsAccepted};
ghost use Rattle.tm_syntax.specs.Entries.{entries, entry_number, name_count};
ghost use Rattle.tm_syntax.specs.Loops.{loop_places, loops_before};

use crate::kind::Form;
use std::alloc::{AllocError, Global};
use std::collections::BTreeMap;
use std::marker::Model;
use tm_items::Items;
use tm_syntax::{Instruction, LoopPlace};
use tm_values::{Node, Value};

/// An accepted stream, which never gets stuck: its instructions, the places where its loops begin,
/// and the entries of its macros, each with its number of arguments. A contract sees the
/// instructions.
pub struct Verified {
    form: Form,
    instructions: Items<Instruction>,
    loops: Vec<LoopPlace>,
    macros: Vec<(usize, usize)>,
}

// By hand: one call for each owner, instead of a drop of each part.
impl Drop for Verified {
    fn drop(self) {
        let Verified {
            form: _form,
            instructions: _instructions,
            loops: _loops,
            macros: _macros,
        } = self;
    }
}

impl Model for Verified {
    ghost use Rattle.std.specs.Prelude.{◌≡◌, ℕ, List, true};
    ghost use Rattle.std.specs.List.Sorted.{IsNonDecreasingBy};
    ghost use Rattle.std.specs.Coded.{codes};
    ghost use Rattle.tm_values.specs.Code.{coded_Val};
    ghost use Rattle.tm_shapes.specs.Accepts.{accepts};
    ghost use Rattle.tm_syntax.specs.Entries.{entries};
    ghost use Rattle.tm_syntax.specs.Loops.{loop_places};
    ghost use Rattle.tm_trees.specs.Instructions.{Instruction as Made};

    ghost Value = { List Made };

    ghost coded = { Prim.hlevel (codes, coded_Val) };

    ghost view = { λ a. a.instructions };

    ghost invariant = { λ a. (a.loops.items ≡ loop_places 0 a.instructions) × (a.macros.items ≡ entries a.instructions) ×
        IsNonDecreasingBy (λ (e : ℕ × ℕ). e.0) a.macros.items × (accepts a.form a.instructions ≡ true) };
}

/// The code of a block, and whether another template has to replace it.
pub struct BlockCode {
    /// Whether it is refused if no template replaces it.
    pub required: bool,
    /// Its code.
    pub code: Verified,
}

// By hand: one call for each owner, instead of a drop of each part.
impl Drop for BlockCode {
    fn drop(self) {
        let BlockCode {
            required: _required,
            code: _code,
        } = self;
    }
}

/// The places where loops begin, in the order of their numbers. AllocError if memory runs out.
fn places_of(alloc: Global, instructions: &[Instruction]) -> Result<Vec<LoopPlace>, AllocError>
    ensures { IfOk result (λ places. places.items ≡ loop_places 0 instructions.now) }
{
    let mut places = Vec::new(alloc);
    for (place, instruction) in instructions.iter().enumerate() {
        if let Instruction::PushLoop(flags) = instruction {
            places.push(LoopPlace {
                place,
                flags: *flags,
            })?;
        }
    }
    Ok(places)
}

/// The length of a literal list of names.
#[tactic(auto, using(tm_values::proofs::Lists::round_trips))]
pub(crate) fn count_of_names(names: &Value) -> usize
    ensures { result ≡ name_count names.now }
{
    match &names.node {
        Node::List(items, _) => items.len(),
        _ => 0,
    }
}

/// The entries of macros, each with its number of arguments. AllocError if memory runs out.
fn entries_by_place(
    alloc: Global,
    instructions: &[Instruction],
) -> Result<BTreeMap<usize, usize>, AllocError>
    ensures { IfOk result (λ found. found.entries ≡ entries instructions.now) }
{
    let mut found = BTreeMap::new(alloc);
    let mut before = None;
    for instruction in instructions {
        before = match instruction {
            Instruction::BuildMacro(_, place, _) => {
                if let Some(count) = before {
                    found.insert(*place, count)?;
                }
                None
            }
            Instruction::LoadConst(value) => Some(count_of_names(value)),
            _ => None,
        };
    }
    Ok(found)
}

/// The same as a list, in the order of the places. AllocError if memory runs out.
fn entries_of(
    alloc: Global,
    instructions: &[Instruction],
) -> Result<Vec<(usize, usize)>, AllocError>
    ensures all { IfOk result (λ found. found.items ≡ entries instructions.now) }
    ensures order { IfOk result
        (λ found. IsNonDecreasingBy (λ (e : ℕ × ℕ). e.0) found.items) }
{
    let by_place = entries_by_place(alloc, instructions)?;
    let mut found = Vec::new(alloc);
    for (place, count) in by_place.iter() {
        found.push((*place, *count))?;
    }
    Ok(found)
}

impl Verified {
    /// The empty stream.
    pub fn empty(alloc: Global) -> Verified
        ensures { result ≡ [] }
    {
        Verified {
            form: Form::Template,
            instructions: Items::new(alloc),
            loops: Vec::new(alloc),
            macros: Vec::new(alloc),
        }
    }

    /// The stream of these instructions. The caller proves that they are accepted, so nothing is
    /// checked here. AllocError if memory runs out.
    pub fn new(
        alloc: Global,
        instructions: Items<Instruction>,
        form: Form,
    ) -> Result<Verified, AllocError>
        requires { accepts form instructions ≡ true }
        ensures { IfOk result (λ code. code ≡ instructions) }
    {
        let loops = places_of(alloc, instructions.as_slice())?;
        let macros = entries_of(alloc, instructions.as_slice())?;
        Ok(Verified {
            form,
            instructions,
            loops,
            macros,
        })
    }

    /// It is accepted. This call does nothing.
    pub fn accepted(&self)
        ensures { IsAccepted self.now }
    {
        let _form = &self.form;
    }

    /// The instructions.
    pub fn as_slice(&self) -> &[Instruction]
        ensures { result.now ≡ self.now }
    {
        self.instructions.as_slice()
    }

    /// The instructions, moved out of the stream. A changed stream has to be verified again.
    pub fn into_instructions(self) -> Vec<Instruction>
        ensures { result.items ≡ self }
    {
        let Verified {
            form: _form,
            instructions,
            loops: _loops,
            macros: _macros,
        } = self;
        instructions.into_vec()
    }

    /// The number of loops that begin before a place: the number of the loop that begins there.
    pub fn loop_number(&self, place: usize) -> usize
        ensures { result ≡ loops_before place self.now }
    {
        self.loops.as_slice().partition_point(
            |found|
                ensures { result ≡ ltb found.now.place place }
            { found.place < place },
        )
    }

    /// The number of the entry at a place.
    pub fn entry_number(&self, place: usize) -> usize
        ensures { result ≡ entry_number place self.now }
    {
        self.macros.as_slice().partition_point(
            |found|
                ensures { result ≡ ltb found.now.0 place }
            { found.0 < place },
        )
    }

    /// The place and the number of arguments of the entry with this number, if there is one.
    pub fn entry(&self, number: usize) -> Option<(usize, usize)>
        ensures { result ≡ slice_get (entries self.now) number }
    {
        match self.macros.get(number) {
            Some(found) => Some(*found),
            None => None,
        }
    }

    /// The place of the loop with this number, if there is one; it is within the instructions.
    pub fn loop_place(&self, number: usize) -> Option<LoopPlace>
        ensures found { result ≡ slice_get (loop_places 0 self.now) number }
        ensures within { IfSome result (λ found. found.place < 2 ^ 64 - 1) }
    {
        let found = *self.loops.get(number)?;
        let count = self.instructions.len();
        prove!(found.place < count);
        Some(found)
    }
}
