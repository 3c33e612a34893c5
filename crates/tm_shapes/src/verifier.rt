//! Verifying streams.
ghost use Rattle.std.specs.Prelude.{◌≡◌, ◌≤◌, ◌++◌, IfErr, IfOk, OnOk, ℕ, false, length, true};
ghost use Rattle.tm_shapes.specs.Accepts.{Readings as Reads, accepts, all_seeds, fits, fits_as_taken, fits_either, has_zero, returns_fit};
ghost use Rattle.tm_shapes.specs.Accepts.{ask_all, ask_some, loads_zero};
ghost use Rattle.tm_shapes.specs.Marks.{AreMarks};
ghost use Rattle.tm_shapes.specs.Searched.{AreReadings, IsAsked, count_after, entry_of, seed_of, seeds_of};
ghost use Rattle.tm_shapes.specs.Verified.{IsRefused};
ghost use Rattle.tm_shapes.specs.declared.refusal.Refusal.TheVariants.{BadStream};
ghost use Rattle.tm_shapes.specs.declared.kind.Form.TheVariants.{Expression};

use crate::code::{Verified, count_of_names};
use crate::kind::Form;
use crate::placed::{caches_fit, entered_places, parts_fit};
use crate::refusal::Refusal;
use crate::search::{Asked, Readings, Seed, Stream, groups_in, search};
use crate::site::is_zero;
use std::alloc::{AllocError, Global};
use tm_items::Items;
use tm_syntax::Instruction;
use tm_values::{Error, ErrorKind};

/// The number of names in the literal that an instruction loads, if it loads one.
fn count_after(instruction: &Instruction) -> Option<usize>
    ensures { result ≡ count_after instruction.now }
{
    match instruction {
        Instruction::LoadConst(value) => Some(count_of_names(value)),
        _ => None,
    }
}

/// The entry of a macro, if the instruction builds one after a literal of that many names.
fn entry_of(before: Option<usize>, instruction: &Instruction) -> Option<Seed>
    ensures { seed_of result ≡ entry_of before instruction.now }
{
    match (instruction, before) {
        (Instruction::BuildMacro(_, place, _), Some(values)) => Some(Seed {
            place: *place,
            values,
        }),
        _ => None,
    }
}

/// Appends a seed, if there is one. AllocError if memory runs out.
fn add_seed(seeds: &mut Vec<Seed>, seed: Option<Seed>) -> Result<(), AllocError>
    ensures { OnOk result (seeds_of seeds.new.items ≡ seeds_of seeds.old.items ++ seed_of seed) }
{
    if let Some(seed) = seed {
        seeds.push(seed)?;
    }
    Ok(())
}

/// The seeds of a stream: its start, and the entry of each macro that is built after a literal list
/// of names. AllocError if memory runs out.
fn all_seeds(alloc: Global, code: &[Instruction]) -> Result<Vec<Seed>, AllocError>
    ensures { IfOk result (λ seeds. seeds_of seeds.items ≡ all_seeds code.now) }
{
    let mut seeds = Vec::new(alloc);
    seeds.push(Seed {
        place: 0,
        values: 0,
    })?;
    let mut before = None;
    for instruction in code {
        add_seed(&mut seeds, entry_of(before, instruction))?;
        before = count_after(instruction);
    }
    Ok(seeds)
}

/// Whether an instruction loads a 0.
fn loads_zero(instruction: &Instruction) -> bool
    ensures { result ≡ loads_zero instruction.now }
{
    match instruction {
        Instruction::LoadConst(value) => is_zero(value),
        _ => false,
    }
}

/// Whether any instruction loads a 0.
fn has_zero(code: &[Instruction]) -> bool
    ensures { result ≡ has_zero code.now }
{
    for instruction in code {
        if loads_zero(instruction) {
            return true;
        }
    }
    false
}

/// A search of everything that is reached.
fn ask_all<'a>(read: &Readings<'a>, form: Form) -> Asked<'a>
    ensures { (reads : Reads) → AreReadings read.now reads → IsAsked result (ask_all reads form) }
{
    let (returned, left) = match form {
        Form::Template => (Some(0), 0),
        Form::Expression => (None, 1),
    };
    Asked {
        read: *read,
        returned,
        left,
        enters: true,
    }
}

/// A search of what is reached from some places, in which a `Return` leaves `left` operands.
fn ask_some<'a>(read: &Readings<'a>, left: usize) -> Asked<'a>
    ensures { (reads : Reads) → AreReadings read.now reads → IsAsked result (ask_some reads left) }
{
    Asked {
        read: *read,
        returned: Some(left),
        left: 1,
        enters: false,
    }
}

/// In an expression, a `Return` that the start reaches must leave one operand, and a `Return` that
/// an entry reaches none. BadStream if that isn't so. OutOfMemory if memory runs out.
fn returns_fit(
    alloc: Global,
    stream: &Stream<'_>,
    seeds: &[Seed],
    read: &Readings<'_>,
) -> Result<(), Refusal>
    requires marks { AreMarks stream.now.code.now stream.now.entered.now }
    requires long { length stream.now.code.now ≤ length stream.now.entered.now }
    ensures found { OnOk result ((reads : Reads) → AreReadings read.now reads →
        seeds_of seeds.now ≡ all_seeds stream.now.code.now →
        returns_fit reads Expression stream.now.code.now ≡ true) }
    ensures none { IfErr result (λ e. e ≡ BadStream → (reads : Reads) → AreReadings read.now reads →
        seeds_of seeds.now ≡ all_seeds stream.now.code.now →
        returns_fit reads Expression stream.now.code.now ≡ false) }
{
    match seeds {
        [start, entries @ ..] => {
            search(alloc, stream, &ask_some(read, 1), &[*start])?;
            search(alloc, stream, &ask_some(read, 0), entries)
        }
        [] => Ok(()),
    }
}

/// Finds shapes, with each 0 read in the given way. BadStream if there are none. OutOfMemory if
/// memory runs out.
fn fits(
    alloc: Global,
    stream: &Stream<'_>,
    seeds: &[Seed],
    read: &Readings<'_>,
    form: Form,
) -> Result<(), Refusal>
    requires marks { AreMarks stream.now.code.now stream.now.entered.now }
    requires long { length stream.now.code.now ≤ length stream.now.entered.now }
    ensures found { OnOk result ((reads : Reads) → AreReadings read.now reads →
        seeds_of seeds.now ≡ all_seeds stream.now.code.now →
        fits reads form stream.now.code.now ≡ true) }
    ensures none { IfErr result (λ e. e ≡ BadStream → (reads : Reads) → AreReadings read.now reads →
        seeds_of seeds.now ≡ all_seeds stream.now.code.now →
        fits reads form stream.now.code.now ≡ false) }
{
    search(alloc, stream, &ask_all(read, form), seeds)?;
    match form {
        Form::Template => Ok(()),
        Form::Expression => returns_fit(alloc, stream, seeds, read),
    }
}

/// Finds shapes with each 0 read as it is taken; some 0 must be loaded. BadStream if there are
/// none. OutOfMemory if memory runs out.
fn fits_as_taken(
    alloc: Global,
    stream: &Stream<'_>,
    seeds: &[Seed],
    form: Form,
) -> Result<(), Refusal>
    requires marks { AreMarks stream.now.code.now stream.now.entered.now }
    requires long { length stream.now.code.now ≤ length stream.now.entered.now }
    ensures found { OnOk result (seeds_of seeds.now ≡ all_seeds stream.now.code.now →
        fits_as_taken form stream.now.code.now ≡ true) }
    ensures none { IfErr result (λ e. e ≡ BadStream →
        seeds_of seeds.now ≡ all_seeds stream.now.code.now →
        fits_as_taken form stream.now.code.now ≡ false) }
{
    if !has_zero(stream.code) {
        return Err(Refusal::BadStream);
    }
    let groups = groups_in(alloc, stream, seeds)?;
    fits(alloc, stream, seeds, &Readings::Groups(&groups), form)
}

/// Finds shapes with each 0 read as it is taken, or with all read as values. BadStream if there are
/// none. OutOfMemory if memory runs out.
fn fits_either(alloc: Global, stream: &Stream<'_>, form: Form) -> Result<(), Refusal>
    requires marks { AreMarks stream.now.code.now stream.now.entered.now }
    requires long { length stream.now.code.now ≤ length stream.now.entered.now }
    ensures found { OnOk result (fits_either form stream.now.code.now ≡ true) }
    ensures none { IfErr result (λ e. e ≡ BadStream →
        fits_either form stream.now.code.now ≡ false) }
{
    let seeds = all_seeds(alloc, stream.code)?;
    match fits_as_taken(alloc, stream, &seeds, form) {
        Ok(()) => Ok(()),
        Err(Refusal::OutOfMemory) => Err(Refusal::OutOfMemory),
        Err(Refusal::BadStream) => fits(alloc, stream, &seeds, &Readings::Values, form),
    }
}

/// Checks whether a stream is accepted. BadStream if it isn't. OutOfMemory if memory runs out.
fn check(alloc: Global, code: &[Instruction], form: Form) -> Result<(), Refusal>
    ensures accepted { OnOk result (accepts form code.now ≡ true) }
    ensures refused { IfErr result (λ e. e ≡ BadStream → accepts form code.now ≡ false) }
{
    let entered = match entered_places(alloc, code)? {
        Some(entered) => entered,
        None => return Err(Refusal::BadStream),
    };
    if !caches_fit(alloc, code)? || !parts_fit(code, &entered) {
        return Err(Refusal::BadStream);
    }
    let stream = Stream {
        code,
        entered: &entered,
    };
    fits_either(alloc, &stream, form)
}

/// The stream of these instructions, if it is accepted. BadStream if it isn't. OutOfMemory if
/// memory runs out.
fn verified(
    alloc: Global,
    instructions: Items<Instruction>,
    form: Form,
) -> Result<Verified, Refusal>
    ensures accepted { IfOk result (λ made.
        (made ≡ instructions) × (accepts form instructions ≡ true)) }
    ensures refused { IfErr result (λ e. e ≡ BadStream → accepts form instructions ≡ false) }
{
    check(alloc, instructions.as_slice(), form)?;
    Ok(Verified::new(alloc, instructions, form)?)
}

/// Verifies a stream: an accepted one never gets stuck. BadStream if it isn't accepted. OutOfMemory
/// if memory runs out. The instructions are dropped on an error. The time is roughly proportional
/// to the number of instructions.
pub fn verify(alloc: Global, instructions: Vec<Instruction>, form: Form) -> Result<Verified, Error>
    ensures accepted { IfOk result (λ made.
        (made ≡ instructions.items) × (accepts form instructions.items ≡ true)) }
    ensures refused { IfErr result (IsRefused form instructions.items) }
{
    match verified(alloc, Items::from_vec(instructions), form) {
        Ok(made) => Ok(made),
        Err(Refusal::BadStream) => Err(Error::from(ErrorKind::BadStream)),
        Err(Refusal::OutOfMemory) => Err(Error::from(ErrorKind::OutOfMemory)),
    }
}
