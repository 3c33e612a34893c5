//! Checks of every instruction in a stream, reached or not.
ghost use Rattle.std.specs.Prelude.{◌≡◌, ◌&&◌, IfOk, MatchOption, List, false, length, true};
ghost use Rattle.tm_shapes.specs.declared.before.Before.TheVariants.{Nothing};
ghost use Rattle.tm_trees.specs.Instructions.{Instruction as Made};
ghost use Rattle.tm_shapes.specs.CacheNames.{CachesRefused, CachesTaken, names_of, no_names, taken, told};
ghost use Rattle.tm_shapes.specs.Marks.{AreMarks, MarkEntered, is_among, with_mark};
ghost use Rattle.tm_shapes.specs.Placed.{before_next, build_fits, caches_fit, filters_in, parts_fit, target, targets_within, tests_in};

use crate::before::Before;
use crate::flow::name_count;
use crate::site::is_marked;
use std::alloc::{AllocError, Global};
use tm_syntax::{CACHES, Instruction, NO_CACHE, Name};

/// The place that an instruction may lead to, besides the next one.
fn target(instruction: &Instruction) -> Option<usize>
    ensures { result ≡ target instruction.now }
{
    match instruction {
        Instruction::Jump(place) => Some(*place),
        Instruction::JumpIfFalse(place) => Some(*place),
        Instruction::JumpIfFalseOrPop(place) => Some(*place),
        Instruction::JumpIfTrueOrPop(place) => Some(*place),
        Instruction::Iterate(place) => Some(*place),
        Instruction::BuildMacro(_, place, _) => Some(*place),
        _ => None,
    }
}

/// Marks a place, if there is one. Returns false if it is out of range.
fn mark(marks: &mut Vec<bool>, place: Option<usize>) -> bool
    ensures within { result ≡ is_among (length marks.old.items) place }
    ensures marked { result ≡ true → marks.new.items ≡ with_mark place marks.old.items }
    ensures long { length marks.new.items ≡ length marks.old.items }
{
    match place {
        Some(place) => match marks.get_mut(place) {
            Some(mark) => {
                *mark = true;
                true
            }
            None => false,
        },
        None => true,
    }
}

/// For each place and the end: whether a jump or a macro's entry leads there. None if one leads
/// past the end. AllocError if memory runs out.
pub(crate) fn entered_places(
    alloc: Global,
    code: &[Instruction],
) -> Result<Option<Vec<bool>>, AllocError>
    ensures { IfOk result (λ found. MatchOption found
        (targets_within (length code.now) code.now ≡ false)
        (λ marks. MarkEntered code.now marks.items)) }
{
    let mut marks = vec![in alloc; false; code.len() + 1]?;
    for instruction in code {
        if !mark(&mut marks, target(instruction)) {
            return Ok(None);
        }
    }
    Ok(Some(marks))
}

/// The names that use each cache number so far. A contract sees them.
#[derive(Drop)]
struct CacheNames<'a> {
    names: Vec<Option<&'a Name>>,
}

impl<'a> CacheNames<'a> {
    /// No names. AllocError if memory runs out.
    fn new(alloc: Global) -> Result<CacheNames<'a>, AllocError>
        ensures { IfOk result (λ made. names_of made.names.items ≡ no_names) }
    {
        Ok(CacheNames {
            names: vec![in alloc; None; CACHES as usize]?,
        })
    }

    /// Whether the number means no cache, or is a cache that no other name uses; then this name
    /// uses it.
    fn take(&mut self, name: &'a Name, number: u8) -> bool
        ensures { taken name.now number (names_of self.old.names.items) ≡
            told result (names_of self.new.names.items) }
    {
        if number == NO_CACHE {
            return true;
        }
        let place = number as usize;
        let known = match self.names.get(place) {
            Some(known) => *known,
            None => return false,
        };
        match known {
            Some(known) => name == known,
            None => {
                self.names[place] = Some(name);
                true
            }
        }
    }
}

/// The names that use cache numbers, for filters and for tests.
#[derive(Drop)]
struct Caches<'a> {
    filters: CacheNames<'a>,
    tests: CacheNames<'a>,
}

impl<'a> Caches<'a> {
    /// Whether the instruction has no cache number, or one that means no cache, or one that no
    /// other name uses.
    fn take(&mut self, instruction: &'a Instruction) -> bool
        ensures taken { result ≡ true → CachesTaken instruction.now
            (names_of self.old.filters.names.items) (names_of self.old.tests.names.items)
            (names_of self.new.filters.names.items) (names_of self.new.tests.names.items) }
        ensures refused { result ≡ false → CachesRefused instruction.now
            (names_of self.old.filters.names.items) (names_of self.old.tests.names.items) }
    {
        match instruction {
            Instruction::ApplyFilter(name, _, number) => self.filters.take(name, *number),
            Instruction::PerformTest(name, _, number) => self.tests.take(name, *number),
            _ => true,
        }
    }
}

/// Whether each cache number means no cache, or is a cache used by one name only; filters and tests
/// are separate. AllocError if memory runs out.
pub(crate) fn caches_fit(alloc: Global, code: &[Instruction]) -> Result<bool, AllocError>
    ensures { IfOk result (λ fit.
        fit ≡ (caches_fit (filters_in code.now) && caches_fit (tests_in code.now))) }
{
    let mut caches = Caches {
        filters: CacheNames::new(alloc)?,
        tests: CacheNames::new(alloc)?,
    };
    for instruction in code {
        if !caches.take(instruction) {
            return Ok(false);
        }
    }
    Ok(true)
}

/// The parts of a macro before the next place.
fn before_next(before: Before, instruction: &Instruction) -> Before
    ensures { result ≡ before_next before instruction.now }
{
    match (before, instruction) {
        (_, Instruction::GetClosure) => Before::Closure,
        (Before::Closure, Instruction::LoadConst(value)) => match name_count(value) {
            Some(_) => Before::Names,
            None => Before::Nothing,
        },
        _ => Before::Nothing,
    }
}

/// Whether a macro that is built here comes directly after its other parts, and nothing jumps
/// between them.
fn build_fits(before: Before, instruction: &Instruction, entered: &[bool], place: usize) -> bool
    ensures { (code : List Made) → AreMarks code entered.now →
        result ≡ build_fits code place before instruction.now }
{
    match instruction {
        Instruction::BuildMacro(_, _, _) => {
            before == Before::Names
                && !(is_marked(entered, place) || is_marked(entered, place.saturating_sub(1)))
        }
        _ => true,
    }
}

/// Whether the parts of each macro are adjacent, and nothing jumps between them.
pub(crate) fn parts_fit(code: &[Instruction], entered: &[bool]) -> bool
    requires { AreMarks code.now entered.now }
    ensures { result ≡ parts_fit code.now 0 Nothing code.now }
{
    let mut before = Before::Nothing;
    for (place, instruction) in code.iter().enumerate() {
        if !build_fits(before, instruction, entered, place) {
            return false;
        }
        before = before_next(before, instruction);
    }
    true
}
