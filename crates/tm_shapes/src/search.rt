//! The search for shapes.
ghost use Rattle.std.specs.Prelude.{◌≡◌, ◌≤◌, ◌<◌, ◌^◌, ◌-◌, IfErr, IfOk, List, OnOk, false, is_some, length, option_and_then, slice_get, true};
ghost use Rattle.tm_shapes.specs.Accepts.{Asked as Question, all_seeds, before_it, ends_with, found, groups_in, site_of, swaps};
ghost use Rattle.tm_shapes.specs.Flows.{Flow as Led};
ghost use Rattle.tm_shapes.specs.Marks.{AreMarks, with_mark};
ghost use Rattle.tm_shapes.specs.Searched.{Comes, IsAsked, IsFound, IsSeen, follow_of, glance_of, look_of, note_of};
ghost use Rattle.tm_shapes.specs.Searched.{reach_of, reading_of, seeds_of, trace_of, unshaped};
ghost use Rattle.tm_shapes.specs.Search.{Found as Finding, Seen as Seeing};
ghost use Rattle.tm_shapes.specs.Shapes.{Shape as Spec, itself};
ghost use Rattle.tm_shapes.specs.Shown.{Shows};
ghost use Rattle.tm_shapes.specs.Sites.{IsSite};
ghost use Rattle.tm_shapes.specs.Told.{Tells, TellsWay};
ghost use Rattle.tm_shapes.specs.declared.cells.Cell.{Cell as Celled};
ghost use Rattle.tm_shapes.specs.declared.refusal.Refusal.TheVariants.{BadStream};
ghost use Rattle.tm_trees.specs.Instructions.{Instruction};

use crate::cells::Cells;
use crate::flow::{Flow, Way, flow_of};
use crate::kind::Reading;
use crate::pile::Pile;
use crate::refusal::Refusal;
use crate::shape::Shape;
use crate::site::{Site, is_marked};
use std::alloc::{AllocError, Global};
use tm_syntax::Instruction;

/// A stream. For each of its places and its end, `entered` says whether a jump or a macro's entry
/// leads there.
#[derive(Clone, Copy)]
pub(crate) struct Stream<'a> {
    pub(crate) code: &'a [Instruction],
    pub(crate) entered: &'a [bool],
}

/// How the 0 at each place is read.
#[derive(Clone, Copy)]
pub(crate) enum Readings<'a> {
    /// All as values.
    Values,
    /// Those at marked places as groups, the others as values.
    Groups(&'a [bool]),
    /// All as either.
    Open,
}

/// The parameters of a search: how each 0 is read, how many operands a `Return` leaves, if that is
/// required, how many are left at the end, and whether the entries of macros are followed.
#[derive(Clone, Copy)]
pub(crate) struct Asked<'a> {
    pub(crate) read: Readings<'a>,
    pub(crate) returned: Option<usize>,
    pub(crate) left: usize,
    pub(crate) enters: bool,
}

/// The start of a run: its place, and the number of values on the stack.
#[derive(Clone, Copy)]
pub(crate) struct Seed {
    pub(crate) place: usize,
    pub(crate) values: usize,
}

impl<'a> Readings<'a> {
    /// How the 0 at a place is read.
    fn of(&self, place: usize) -> Reading
        ensures { result ≡ reading_of self.now place }
    {
        match self {
            Readings::Values => Reading::Value,
            Readings::Groups(marks) if is_marked(marks, place) => Reading::Group,
            Readings::Groups(_) => Reading::Value,
            Readings::Open => Reading::Open,
        }
    }
}

/// Whether the instruction before a place is `Swap`.
fn is_after_swap(code: &[Instruction], place: usize) -> bool
    ensures { result ≡ swaps (option_and_then (slice_get code.now) (before_it place)) }
{
    let Some(before) = place.checked_sub(1) else {
        return false;
    };
    match code.get(before) {
        Some(Instruction::Swap) => true,
        _ => false,
    }
}

impl<'a> Asked<'a> {
    /// Whether a stream may end in this shape.
    fn ends_with(&self, shape: &Shape) -> bool
        ensures { (cells : List Celled) (s : Spec) → Shows cells shape.now s →
            result ≡ ends_with self.now.left s }
    {
        shape.is_closed() && shape.operands() == self.left
    }
}

impl<'a> Stream<'a> {
    /// The site of the instruction at a place.
    fn site(&self, asked: &Asked<'_>, place: usize) -> Site<'a>
        requires place { place < length self.now.code.now }
        requires marks { AreMarks self.now.code.now self.now.entered.now }
        requires long { length self.now.code.now ≤ length self.now.entered.now }
        ensures { (question : Question) → IsAsked asked.now question →
            IsSite result (site_of question self.now.code.now place) }
    {
        Site {
            place,
            rest: &self.code[place + 1..],
            entered: &self.entered[place..],
            is_after_swap: is_after_swap(self.code, place),
            reading: asked.read.of(place),
            returned: asked.returned,
            enters: asked.enters,
        }
    }
}

/// No shape yet, for each place and for the end. AllocError if memory runs out.
fn no_shapes(alloc: Global, code: &[Instruction]) -> Result<Vec<Option<Shape>>, AllocError>
    ensures { IfOk result (λ shapes. shapes.items ≡ unshaped code.now) }
{
    let mut shapes = Vec::new(alloc);
    shapes.push(None)?;
    for _instruction in code {
        shapes.push(None)?;
    }
    Ok(shapes)
}

/// The shape of a place, if it has one.
fn shape_at(shapes: &[Option<Shape>], place: usize) -> Option<Shape>
    ensures { result ≡ option_and_then itself (slice_get shapes.now place) }
{
    *shapes.get(place)?
}

/// The shapes so far, and the places that are left to visit.
#[derive(Drop)]
struct Found {
    cells: Cells,
    shapes: Vec<Option<Shape>>,
    work: Pile,
}

impl Found {
    /// Reaches a place in a shape. Refused if the place is past the end, or has another shape.
    fn reach(&mut self, place: usize, shape: Shape) -> Result<(), Refusal>
        ensures reached { (question : Question) (code : List Instruction) (f : Finding) (s : Spec) →
            IsFound self.old f → Shows self.old.cells shape s →
            Comes self.new (reach_of question code place s f) result }
        ensures cells { self.new.cells ≡ self.old.cells }
    {
        match self.shapes.get(place) {
            None => Err(Refusal::BadStream),
            Some(Some(known)) if self.cells.is_same(&shape, known) => Ok(()),
            Some(Some(_)) => Err(Refusal::BadStream),
            Some(None) => {
                self.work.push(place)?;
                self.shapes[place] = Some(shape);
                Ok(())
            }
        }
    }

    /// Reaches the places that an instruction leads to.
    fn follow(&mut self, place: usize, way: Way) -> Result<(), Refusal>
        requires { place < 2 ^ 64 - 1 }
        ensures { (question : Question) (code : List Instruction) (f : Finding) (x : Led) →
            IsFound self.old f → TellsWay self.old.cells place way x →
            Comes self.new (follow_of question code x f) result }
    {
        match way {
            Way::Refused => Err(Refusal::BadStream),
            Way::Ends => Ok(()),
            Way::On(shape) => self.reach(place + 1, shape),
            Way::To(target, shape) => self.reach(target, shape),
            Way::Either(next, target, shape) => {
                self.reach(place + 1, next)?;
                self.reach(target, shape)
            }
        }
    }

    /// Visits a place.
    fn look(&mut self, stream: &Stream<'_>, asked: &Asked<'_>, place: usize) -> Result<(), Refusal>
        requires marks { AreMarks stream.now.code.now stream.now.entered.now }
        requires long { length stream.now.code.now ≤ length stream.now.entered.now }
        ensures { (question : Question) (f : Finding) → IsAsked asked.now question →
            IsFound self.old f →
            Comes self.new (look_of question stream.now.code.now place f) result }
    {
        let Some(shape) = shape_at(&self.shapes, place) else {
            return Err(Refusal::BadStream);
        };
        match stream.code.get(place) {
            Some(instruction) => {
                let site = stream.site(asked, place);
                let flow = flow_of(&mut self.cells, &site, instruction, shape)?;
                self.follow(place, flow.way)
            }
            None if place == stream.code.len() && asked.ends_with(&shape) => Ok(()),
            None => Err(Refusal::BadStream),
        }
    }
}

/// Finds shapes for everything that the seeds lead to. BadStream if there are none. OutOfMemory if
/// memory runs out.
pub(crate) fn search(
    alloc: Global,
    stream: &Stream<'_>,
    asked: &Asked<'_>,
    seeds: &[Seed],
) -> Result<(), Refusal>
    requires marks { AreMarks stream.now.code.now stream.now.entered.now }
    requires long { length stream.now.code.now ≤ length stream.now.entered.now }
    ensures found { OnOk result ((question : Question) → IsAsked asked.now question →
        is_some (found question stream.now.code.now (seeds_of seeds.now)) ≡ true) }
    ensures none { IfErr result (λ e. e ≡ BadStream →
        (question : Question) → IsAsked asked.now question →
        is_some (found question stream.now.code.now (seeds_of seeds.now)) ≡ false) }
{
    let mut found = Found {
        cells: Cells::new(alloc),
        shapes: no_shapes(alloc, stream.code)?,
        work: Pile::new(alloc),
    };
    for seed in seeds {
        found.reach(seed.place, Shape::over(seed.values))?;
    }
    while let Some(place) = found.work.pop() {
        found.look(stream, asked, place)?;
    }
    Ok(())
}

/// The places reached so far, those that are left to visit, and those whose 0 is taken as a group.
#[derive(Drop)]
struct Seen {
    cells: Cells,
    shapes: Vec<Option<Shape>>,
    work: Pile,
    groups: Vec<bool>,
}

impl Seen {
    /// Notes the shape of a place. A place keeps the first shape; places past the end are ignored.
    fn note(&mut self, place: usize, shape: Shape) -> Result<(), AllocError>
        ensures noted { OnOk result ((question : Question) (code : List Instruction)
            (f : Seeing) (s : Spec) → IsSeen self.old f →
            Shows self.old.cells shape s → IsSeen self.new (note_of question code place s f)) }
        ensures cells { self.new.cells ≡ self.old.cells }
    {
        match self.shapes.get(place) {
            Some(None) => {
                self.work.push(place)?;
                self.shapes[place] = Some(shape);
                Ok(())
            }
            Some(Some(_)) => Ok(()),
            None => Ok(()),
        }
    }

    /// Marks the 0 at a place as taken as a group, if there is one.
    fn take(&mut self, taken: Option<usize>)
        ensures groups { self.new.groups.items ≡ with_mark taken self.old.groups.items }
        ensures cells { self.new.cells ≡ self.old.cells }
        ensures shapes { self.new.shapes.items ≡ self.old.shapes.items }
        ensures work { self.new.work ≡ self.old.work }
    {
        if let Some(place) = taken {
            if let Some(mark) = self.groups.get_mut(place) {
                *mark = true;
            }
        }
    }

    /// Notes the places that an instruction leads to.
    fn trace(&mut self, place: usize, flow: Flow) -> Result<(), AllocError>
        requires { place < 2 ^ 64 - 1 }
        ensures { OnOk result ((question : Question) (code : List Instruction)
            (f : Seeing) (x : Led) → IsSeen self.old f →
            Tells self.old.cells place flow x → IsSeen self.new (trace_of question code x f)) }
    {
        self.take(flow.taken);
        match flow.way {
            Way::Refused => Ok(()),
            Way::Ends => Ok(()),
            Way::On(shape) => self.note(place + 1, shape),
            Way::To(target, shape) => self.note(target, shape),
            Way::Either(next, target, shape) => {
                self.note(place + 1, next)?;
                self.note(target, shape)
            }
        }
    }

    /// Visits a place.
    fn glance(
        &mut self,
        stream: &Stream<'_>,
        asked: &Asked<'_>,
        place: usize,
    ) -> Result<(), AllocError>
        requires marks { AreMarks stream.now.code.now stream.now.entered.now }
        requires long { length stream.now.code.now ≤ length stream.now.entered.now }
        ensures { OnOk result ((question : Question) (f : Seeing) → IsAsked asked.now question →
            IsSeen self.old f → IsSeen self.new (glance_of question stream.now.code.now place f)) }
    {
        let Some(shape) = shape_at(&self.shapes, place) else {
            return Ok(());
        };
        match stream.code.get(place) {
            Some(instruction) => {
                let site = stream.site(asked, place);
                let flow = flow_of(&mut self.cells, &site, instruction, shape)?;
                self.trace(place, flow)
            }
            None => Ok(()),
        }
    }
}

/// The places whose 0 is taken as a group, if each place has the first shape in which it is
/// reached. AllocError if memory runs out.
pub(crate) fn groups_in(
    alloc: Global,
    stream: &Stream<'_>,
    seeds: &[Seed],
) -> Result<Vec<bool>, AllocError>
    requires marks { AreMarks stream.now.code.now stream.now.entered.now }
    requires long { length stream.now.code.now ≤ length stream.now.entered.now }
    ensures { IfOk result (λ groups. seeds_of seeds.now ≡ all_seeds stream.now.code.now →
        groups.items ≡ groups_in stream.now.code.now) }
{
    let asked = Asked {
        read: Readings::Open,
        returned: None,
        left: 1,
        enters: true,
    };
    let mut seen = Seen {
        cells: Cells::new(alloc),
        shapes: no_shapes(alloc, stream.code)?,
        work: Pile::new(alloc),
        groups: vec![in alloc; false; stream.code.len()]?,
    };
    for seed in seeds {
        seen.note(seed.place, Shape::over(seed.values))?;
    }
    while let Some(place) = seen.work.pop() {
        seen.glance(stream, &asked, place)?;
    }
    Ok(seen.groups)
}
