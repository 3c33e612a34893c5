//! Where each instruction leads from the shape at its place: the table of instructions.
ghost use Rattle.std.specs.Prelude.{◌≡◌, ◌∷◌, ◌+◌, List, None, Some, IfOk, length};
ghost use Rattle.std.specs.Option.{option_map};
ghost use Rattle.tm_syntax.specs.Entries.{names_in, texts_in};
ghost use Rattle.tm_syntax.specs.Choices.{choose};
ghost use Rattle.tm_shapes.specs.Cells.{Grown, IsLevel, Special, capture_item};
ghost use Rattle.tm_shapes.specs.Flows.{Flow as Told, add, are, build_macro, did_not_iterate, end_capture, flow_of, get_closure};
ghost use Rattle.tm_shapes.specs.Flows.{iterate, jump_if, jump_or_pop, load, load_names, load_zero, next, on, on_loop, pop};
ghost use Rattle.tm_shapes.specs.Flows.{pop_escape, pop_frame, pop_loop, push_escape, push_loop, refused, replaces};
ghost use Rattle.tm_shapes.specs.Flows.{replaces_counted, returns, swap_group, swap_over, swap_zero, unpack_lists, with_captures, with_frames};
ghost use Rattle.tm_shapes.specs.Leading.{AreMacroParts, IsLoopEnded, IsOpened, IsTopFrame, TellsOf, TellsThere};
ghost use Rattle.tm_shapes.specs.Shapes.{Part, Shape as Spec};
ghost use Rattle.tm_shapes.specs.Shown.{Shows};
ghost use Rattle.tm_shapes.specs.declared.cells.Cell.{Cell as Celled};
ghost use Rattle.tm_shapes.specs.declared.kind.Kind.TheVariants.{Value as value};

use crate::cells::{Cell, Cells, Item, Level};
use crate::kind::{Frame, Kind, Reading};
use crate::shape::Shape;
use crate::site::{Site, is_one, is_zero};
use std::alloc::AllocError;
use tm_syntax::{CaptureMode, Instruction, LoopFlags};
use tm_values::Value;

/// Where an instruction leads.
#[derive(Clone, Copy)]
pub(crate) enum Way {
    /// Nowhere: an operand is missing, or what it closes isn't open.
    Refused,
    /// To the end of the run.
    Ends,
    /// To the next place.
    On(Shape),
    /// To another place.
    To(usize, Shape),
    /// To the next place, or to another one.
    Either(Shape, usize, Shape),
}

/// Where an instruction leads, and the place whose 0 it takes as a group, if any.
#[derive(Clone, Copy)]
pub(crate) struct Flow {
    pub(crate) taken: Option<usize>,
    pub(crate) way: Way,
}

/// A flow that takes no 0 as a group.
fn plain(way: Way) -> Flow
    ensures { result ≡ record { taken = None; way = way } }
{
    Flow { taken: None, way }
}

/// Continues at the next place with a value pushed on `left`.
fn valued(left: Shape) -> Result<Flow, AllocError>
    ensures { IfOk result (λ made. (cells : List Celled) →
        TellsOf cells cells left made (λ site s. next site (value ∷ s.part.operands) s)) }
{
    Ok(plain(Way::On(left.pushed(1)?)))
}

/// Replaces `taken` values by `given` values.
fn replaces(cells: &Cells, shape: Shape, taken: usize, given: usize) -> Result<Flow, AllocError>
    ensures { IfOk result (λ made.
        TellsOf cells.now cells.now shape made (λ site s. replaces site taken given s)) }
{
    match shape.without(cells, taken) {
        Some(left) => Ok(plain(Way::On(left.pushed(given)?))),
        None => Ok(plain(Way::Refused)),
    }
}

/// Replaces `count` pairs by a value.
fn replaces_pairs(cells: &Cells, shape: Shape, count: usize) -> Result<Flow, AllocError>
    ensures { IfOk result (λ made.
        TellsOf cells.now cells.now shape made (λ site s. replaces site (count + count) 1 s)) }
{
    match shape.without(cells, count) {
        Some(left) => replaces(cells, left, count, 1),
        None => Ok(plain(Way::Refused)),
    }
}

/// Replaces a group by a value.
fn replaces_group(cells: &Cells, shape: Shape) -> Result<Flow, AllocError>
    ensures { IfOk result (λ made.
        TellsOf cells.now cells.now shape made (λ site s. replaces_counted site None s)) }
{
    match shape.pop(cells) {
        Some((Kind::Group(_), left)) => valued(left),
        Some((Kind::Zero(place), left)) => Ok(Flow {
            taken: Some(place),
            way: Way::On(left.pushed(1)?),
        }),
        _ => Ok(plain(Way::Refused)),
    }
}

/// Replaces `count` values, or a group if `count` is None, by a value.
fn replaces_counted(cells: &Cells, shape: Shape, count: &Option<usize>) -> Result<Flow, AllocError>
    ensures { IfOk result (λ made.
        TellsOf cells.now cells.now shape made (λ site s. replaces_counted site count.now s)) }
{
    match count {
        Some(count) => replaces(cells, shape, *count, 1),
        None => replaces_group(cells, shape),
    }
}

/// Pushes an operand of this kind, which isn't `Value`.
fn on_with(cells: &mut Cells, shape: Shape, kind: Kind) -> Result<Flow, AllocError>
    requires { Special kind }
    ensures told { IfOk result (λ made.
        TellsOf cells.old cells.new shape made (λ site s. next site (kind ∷ s.part.operands) s)) }
    ensures grown { Grown cells.old cells.new }
{
    Ok(plain(Way::On(shape.with(cells, kind)?)))
}

/// The number of values, if each of them is a text.
fn text_count(values: &[Value]) -> Option<usize>
    ensures { result ≡ option_map length (texts_in values.now) }
{
    for value in values {
        value.as_str()?;
    }
    Some(values.len())
}

/// The length of a literal list of texts.
pub(crate) fn name_count(value: &Value) -> Option<usize>
    ensures { result ≡ option_map length (names_in value.now) }
{
    match value.as_list() {
        Some(items) => text_count(items),
        None => None,
    }
}

fn load_names(cells: &mut Cells, shape: Shape, value: &Value) -> Result<Flow, AllocError>
    ensures told { IfOk result (λ made.
        TellsOf cells.old cells.new shape made (λ site s. load_names (names_in value.now) site s)) }
    ensures grown { Grown cells.old cells.new }
{
    match name_count(value) {
        Some(count) => on_with(cells, shape, Kind::Names(count)),
        None => Ok(plain(Way::Refused)),
    }
}

fn load_zero(cells: &mut Cells, at: &Site<'_>, shape: Shape) -> Result<Flow, AllocError>
    ensures told { IfOk result (λ made.
        TellsThere at.now cells.old cells.new shape made (λ site s. load_zero site s)) }
    ensures grown { Grown cells.old cells.new }
{
    match at.reading {
        Reading::Group => on_with(cells, shape, Kind::Group(Some(at.place))),
        Reading::Open if shape.operands() == 0 => on_with(cells, shape, Kind::Zero(at.place)),
        _ => valued(shape),
    }
}

fn load(cells: &mut Cells, at: &Site<'_>, shape: Shape, value: &Value) -> Result<Flow, AllocError>
    ensures told { IfOk result (λ made.
        TellsThere at.now cells.old cells.new shape made (λ site s. load site value.now s)) }
    ensures grown { Grown cells.old cells.new }
{
    if at.builds() {
        load_names(cells, shape, value)
    } else if at.is_between() && is_one(value) {
        on_with(cells, shape, Kind::One)
    } else if is_zero(value) {
        load_zero(cells, at, shape)
    } else {
        valued(shape)
    }
}

fn get_closure(cells: &mut Cells, at: &Site<'_>, shape: Shape) -> Result<Flow, AllocError>
    ensures told { IfOk result (λ made.
        TellsThere at.now cells.old cells.new shape made (λ site s. get_closure site s)) }
    ensures grown { Grown cells.old cells.new }
{
    if at.builds_after() {
        on_with(cells, shape, Kind::Closure)
    } else {
        valued(shape)
    }
}

/// If a list of names and a closure are on top: the number of names, and the shape without these.
fn macro_parts(cells: &Cells, shape: Shape) -> Option<(usize, Shape)>
    ensures { (s : Spec) → Shows cells.now shape s → AreMacroParts cells.now s result }
{
    let (kind, left) = shape.pop(cells)?;
    let Kind::Names(count) = kind else {
        return None;
    };
    let (kind, left) = left.pop(cells)?;
    match kind {
        Kind::Closure => Some((count, left)),
        _ => None,
    }
}

fn build_macro(cells: &Cells, at: &Site<'_>, shape: Shape, place: usize) -> Result<Flow, AllocError>
    ensures { IfOk result (λ made. TellsThere at.now cells.now cells.now shape made
        (λ site s. build_macro site place s s.part.operands)) }
{
    match macro_parts(cells, shape) {
        Some((count, left)) => {
            let next = left.pushed(1)?;
            if at.enters {
                Ok(plain(Way::Either(next, place, Shape::over(count))))
            } else {
                Ok(plain(Way::On(next)))
            }
        }
        None => Ok(plain(Way::Refused)),
    }
}

/// A value above a group goes into it only by `Swap`, `LoadConst 1` and `Add` in a row.
fn swap_group(
    cells: &mut Cells,
    at: &Site<'_>,
    left: Shape,
    origin: Option<usize>,
) -> Result<Flow, AllocError>
    ensures told { IfOk result (λ made. TellsThere at.now cells.old cells.new left made
        (λ site s. swap_group site s origin s.part.operands)) }
    ensures grown { Grown cells.old cells.new }
{
    if at.is_row() {
        on_with(cells, left, Kind::Opened(origin))
    } else {
        Ok(plain(Way::Refused))
    }
}

/// A value above a 0 goes into it by such a row, as into an empty group; otherwise the two are
/// swapped like values.
fn swap_zero(
    cells: &mut Cells,
    at: &Site<'_>,
    left: Shape,
    place: usize,
) -> Result<Flow, AllocError>
    ensures told { IfOk result (λ made. TellsThere at.now cells.old cells.new left made
        (λ site s. swap_zero site s place s.part.operands)) }
    ensures grown { Grown cells.old cells.new }
{
    if at.is_row() {
        Ok(Flow {
            taken: Some(place),
            way: Way::On(left.with(cells, Kind::Opened(Some(place)))?),
        })
    } else {
        Ok(plain(Way::On(left.pushed(2)?)))
    }
}

/// Swaps a value with the operand below it, which is on top here.
fn swap_over(cells: &mut Cells, at: &Site<'_>, shape: Shape) -> Result<Flow, AllocError>
    ensures told { IfOk result (λ made. TellsThere at.now cells.old cells.new shape made
        (λ site s. swap_over site s s.part.operands)) }
    ensures grown { Grown cells.old cells.new }
{
    let Some((kind, left)) = shape.pop(cells) else {
        return Ok(plain(Way::Refused));
    };
    match kind {
        Kind::Group(origin) => swap_group(cells, at, left, origin),
        Kind::Zero(place) => swap_zero(cells, at, left, place),
        _ => replaces(cells, shape, 1, 2),
    }
}

fn swap(cells: &mut Cells, at: &Site<'_>, shape: Shape) -> Result<Flow, AllocError>
    ensures told { IfOk result (λ made. TellsThere at.now cells.old cells.new shape made
        (λ site s. pop s.part.operands (swap_over site s))) }
    ensures grown { Grown cells.old cells.new }
{
    match shape.without(cells, 1) {
        Some(left) => swap_over(cells, at, left),
        None => Ok(plain(Way::Refused)),
    }
}

/// If a 1 above an opened group is on top: the place of the group's count, and the shape without
/// these.
fn opened(cells: &Cells, shape: Shape) -> Option<(Option<usize>, Shape)>
    ensures { (s : Spec) → Shows cells.now shape s → IsOpened cells.now s result }
{
    let (kind, left) = shape.pop(cells)?;
    let Kind::One = kind else {
        return None;
    };
    let (kind, left) = left.pop(cells)?;
    match kind {
        Kind::Opened(origin) => Some((origin, left)),
        _ => None,
    }
}

fn add(cells: &mut Cells, shape: Shape) -> Result<Flow, AllocError>
    ensures told { IfOk result (λ made.
        TellsOf cells.old cells.new shape made (λ site s. add site s s.part.operands)) }
    ensures grown { Grown cells.old cells.new }
{
    match opened(cells, shape) {
        Some((origin, left)) => on_with(cells, left, Kind::Group(origin)),
        None => replaces(cells, shape, 2, 1),
    }
}

fn unpack_lists(cells: &mut Cells, shape: Shape, count: usize) -> Result<Flow, AllocError>
    ensures told { IfOk result (λ made.
        TellsOf cells.old cells.new shape made (λ site s. unpack_lists site count s)) }
    ensures grown { Grown cells.old cells.new }
{
    match shape.without(cells, count) {
        Some(left) => on_with(cells, left, Kind::Group(None)),
        None => Ok(plain(Way::Refused)),
    }
}

fn jump_if(cells: &Cells, shape: Shape, place: usize) -> Flow
    ensures { TellsOf cells.now cells.now shape result (λ site s. jump_if site place s) }
{
    match shape.without(cells, 1) {
        Some(left) => plain(Way::Either(left, place, left)),
        None => plain(Way::Refused),
    }
}

fn jump_or_pop(cells: &Cells, shape: Shape, place: usize) -> Result<Flow, AllocError>
    ensures { IfOk result (λ made.
        TellsOf cells.now cells.now shape made (λ site s. jump_or_pop site place s)) }
{
    match shape.without(cells, 1) {
        Some(left) => Ok(plain(Way::Either(left, place, left.pushed(1)?))),
        None => Ok(plain(Way::Refused)),
    }
}

// ---------------------------------------------------------------- scopes, loops, captures and escapes
fn push_frame(cells: &mut Cells, shape: Shape, frame: Frame) -> Result<Flow, AllocError>
    ensures told { IfOk result (λ made.
        TellsOf cells.old cells.new shape made
        (λ site s. on site (with_frames (frame ∷ s.part.frames) s))) }
    ensures grown { Grown cells.old cells.new }
{
    let frames = cells.put(Cell {
        item: Item::Frame(frame),
        below: shape.level.frames,
    })?;
    Ok(plain(Way::On(shape.at_level(Level {
        frames,
        ..shape.level
    }))))
}

/// The innermost scope of the part, and the others.
fn top_frame(cells: &Cells, level: Level) -> Option<(Frame, Level)>
    ensures { (part : Part) → IsLevel cells.now level part →
        IsTopFrame cells.now level part result }
{
    let Cell { item, below } = cells.get(level.frames)?;
    match item {
        Item::Frame(frame) => Some((
            frame,
            Level {
                frames: below,
                ..level
            },
        )),
        _ => None,
    }
}

fn pop_frame(cells: &Cells, shape: Shape) -> Flow
    ensures { TellsOf cells.now cells.now shape result (λ site s. pop_frame site s s.part.frames) }
{
    match top_frame(cells, shape.level) {
        Some((Frame::Scope, level)) => plain(Way::On(shape.at_level(level))),
        _ => plain(Way::Refused),
    }
}

/// A loop that can be called begins a part.
fn push_loop(cells: &mut Cells, shape: Shape, flags: &LoopFlags) -> Result<Flow, AllocError>
    ensures told { IfOk result (λ made.
        TellsOf cells.old cells.new shape made (λ site s. push_loop site flags.now s)) }
    ensures grown { Grown cells.old cells.new }
{
    match shape.without(cells, 1) {
        Some(left) if flags.recursive => Ok(plain(Way::On(left.in_part(cells)?))),
        Some(left) => {
            let level = left.level;
            let frame = Frame::Loop(left.operands(), level.open, level.escapes);
            push_frame(cells, left, frame)
        }
        None => Ok(plain(Way::Refused)),
    }
}

/// Whether the innermost scope is that of a loop.
fn is_in_loop(cells: &Cells, shape: Shape) -> bool
    ensures { (s : Spec) (f : Told) → Shows cells.now shape s →
        on_loop s.part.frames s.below f ≡ choose result (λ _. f) (λ _. refused) }
{
    match top_frame(cells, shape.level) {
        Some((Frame::Loop(_, _, _), _)) => true,
        Some((Frame::Scope, _)) => false,
        None => shape.below != 0,
    }
}

fn iterate(cells: &Cells, shape: Shape, place: usize) -> Result<Flow, AllocError>
    ensures { IfOk result (λ made.
        TellsOf cells.now cells.now shape made (λ site s. iterate site place s)) }
{
    if is_in_loop(cells, shape) {
        Ok(plain(Way::Either(shape.pushed(1)?, place, shape)))
    } else {
        Ok(plain(Way::Refused))
    }
}

fn did_not_iterate(cells: &Cells, shape: Shape) -> Result<Flow, AllocError>
    ensures { IfOk result (λ made.
        TellsOf cells.now cells.now shape made (λ site s. did_not_iterate site s)) }
{
    if is_in_loop(cells, shape) {
        valued(shape)
    } else {
        Ok(plain(Way::Refused))
    }
}

/// The shape without the innermost loop, if everything opened in it is closed.
fn without_loop(cells: &Cells, shape: Shape) -> Option<Shape>
    ensures { (s : Spec) → Shows cells.now shape s → IsLoopEnded cells.now s result }
{
    match top_frame(cells, shape.level) {
        Some((Frame::Loop(_, open, escapes), level))
            if level.open == open && level.escapes == escapes => { Some(shape.at_level(level)) }
        Some(_) => None,
        None if shape.level.open == 0 && shape.level.escapes == 0 => shape.without_part(cells),
        None => None,
    }
}

fn pop_loop(cells: &Cells, shape: Shape) -> Flow
    ensures { TellsOf cells.now cells.now shape result (λ site s. pop_loop site s s.part.frames) }
{
    match without_loop(cells, shape) {
        Some(left) => plain(Way::On(left)),
        None => plain(Way::Refused),
    }
}

/// A capture as an item.
fn capture_item(mode: &CaptureMode) -> Item
    ensures { result ≡ capture_item mode.now }
{
    match mode {
        CaptureMode::Capture => Item::Capture,
        CaptureMode::Discard => Item::Discard,
    }
}

fn begin_capture(cells: &mut Cells, shape: Shape, mode: &CaptureMode) -> Result<Flow, AllocError>
    ensures told { IfOk result (λ made. TellsOf cells.old cells.new shape made
        (λ site s. on site (with_captures (mode.now ∷ s.part.captures) s))) }
    ensures grown { Grown cells.old cells.new }
{
    let open = match shape.level.open.checked_add(1) {
        Some(open) => open,
        None => return Err(AllocError),
    };
    let captures = cells.put(Cell {
        item: capture_item(mode),
        below: shape.level.captures,
    })?;
    Ok(plain(Way::On(shape.at_level(Level {
        captures,
        open,
        ..shape.level
    }))))
}

fn end_capture(cells: &Cells, shape: Shape) -> Result<Flow, AllocError>
    ensures { IfOk result (λ made.
        TellsOf cells.now cells.now shape made (λ site s. end_capture site s s.part.captures)) }
{
    let level = shape.level;
    match (cells.get(level.captures), level.open.checked_sub(1)) {
        (Some(cell), Some(open)) => {
            let level = Level {
                captures: cell.below,
                open,
                ..level
            };
            valued(shape.at_level(level))
        }
        _ => Ok(plain(Way::Refused)),
    }
}

fn push_escape(cells: &Cells, shape: Shape) -> Result<Flow, AllocError>
    ensures { IfOk result (λ made.
        TellsOf cells.now cells.now shape made (λ site s. push_escape site s)) }
{
    let escapes = match shape.level.escapes.checked_add(1) {
        Some(escapes) => escapes,
        None => return Err(AllocError),
    };
    match shape.without(cells, 1) {
        Some(left) => Ok(plain(Way::On(left.at_level(Level {
            escapes,
            ..left.level
        })))),
        None => Ok(plain(Way::Refused)),
    }
}

fn pop_escape(shape: Shape) -> Flow
    ensures { (cells : List Celled) →
        TellsOf cells cells shape result (λ site s. pop_escape site s s.part.escapes) }
{
    match shape.level.escapes.checked_sub(1) {
        Some(escapes) => plain(Way::On(shape.at_level(Level {
            escapes,
            ..shape.level
        }))),
        None => plain(Way::Refused),
    }
}

/// Whether the required number of operands is left.
fn leaves(at: &Site<'_>, shape: Shape) -> bool
    ensures { (cells : List Celled) (s : Spec) → Shows cells shape s →
        result ≡ are at.now.returned s.part.operands }
{
    match at.returned {
        Some(count) => shape.operands() == count,
        None => true,
    }
}

fn returns(at: &Site<'_>, shape: Shape) -> Flow
    ensures { (cells : List Celled) →
        TellsThere at.now cells cells shape result (λ site s. returns site s) }
{
    if shape.is_closed() && leaves(at, shape) {
        plain(Way::Ends)
    } else {
        plain(Way::Refused)
    }
}

/// Where an instruction leads from a shape. AllocError if memory runs out.
pub(crate) fn flow_of(
    cells: &mut Cells,
    at: &Site<'_>,
    instruction: &Instruction,
    shape: Shape,
) -> Result<Flow, AllocError>
    ensures told { IfOk result (λ made. TellsThere at.now cells.old cells.new shape made
        (λ site s. flow_of site instruction.now s)) }
    ensures grown { Grown cells.old cells.new }
{
    match instruction {
        Instruction::EmitRaw(_) => replaces(cells, shape, 0, 0),
        Instruction::Emit => replaces(cells, shape, 1, 0),
        Instruction::Lookup(_) => replaces(cells, shape, 0, 1),
        Instruction::LoadConst(value) => load(cells, at, shape, value),
        Instruction::GetAttr(_) => replaces(cells, shape, 1, 1),
        Instruction::GetItem => replaces(cells, shape, 2, 1),
        Instruction::Slice => replaces(cells, shape, 4, 1),
        Instruction::BuildList(count) => replaces_counted(cells, shape, count),
        Instruction::BuildTuple(count) => replaces(cells, shape, *count, 1),
        Instruction::BuildMap(count) => replaces_pairs(cells, shape, *count),
        Instruction::BuildKwargs(count) => replaces_pairs(cells, shape, *count),
        Instruction::MergeKwargs(count) => replaces(cells, shape, *count, 1),
        Instruction::UnpackLists(count) => unpack_lists(cells, shape, *count),
        Instruction::CompareAndPreserve(_) => replaces(cells, shape, 2, 2),
        Instruction::Add => add(cells, shape),
        Instruction::Neg => replaces(cells, shape, 1, 1),
        Instruction::Not => replaces(cells, shape, 1, 1),
        Instruction::IsUndefined => replaces(cells, shape, 1, 1),
        Instruction::Swap => swap(cells, at, shape),
        Instruction::DupTop => replaces(cells, shape, 1, 2),
        Instruction::DiscardTop => replaces(cells, shape, 1, 0),
        Instruction::Jump(place) => Ok(plain(Way::To(*place, shape))),
        Instruction::JumpIfFalse(place) => Ok(jump_if(cells, shape, *place)),
        Instruction::JumpIfFalseOrPop(place) => jump_or_pop(cells, shape, *place),
        Instruction::JumpIfTrueOrPop(place) => jump_or_pop(cells, shape, *place),
        Instruction::CallFunction(_, count) => replaces_counted(cells, shape, count),
        Instruction::CallMethod(_, count) => replaces_counted(cells, shape, count),
        Instruction::CallObject(count) => replaces_counted(cells, shape, count),
        Instruction::ApplyFilter(_, count, _) => replaces_counted(cells, shape, count),
        Instruction::PerformTest(_, count, _) => replaces_counted(cells, shape, count),
        Instruction::FastRecurse => replaces(cells, shape, 1, 0),
        Instruction::CallBlock(_) => replaces(cells, shape, 0, 0),
        Instruction::FastSuper => replaces(cells, shape, 0, 0),
        Instruction::LoadBlocks => replaces(cells, shape, 1, 0),
        Instruction::Include(_) => replaces(cells, shape, 1, 0),
        Instruction::IncludeModule => replaces(cells, shape, 1, 0),
        Instruction::ExportLocals => replaces(cells, shape, 1, 1),
        Instruction::StoreLocal(_) => replaces(cells, shape, 1, 0),
        Instruction::Enclose(_) => replaces(cells, shape, 0, 0),
        Instruction::GetClosure => get_closure(cells, at, shape),
        Instruction::BuildMacro(_, place, _) => build_macro(cells, at, shape, *place),
        Instruction::Return => Ok(returns(at, shape)),
        Instruction::UnpackList(count) => replaces(cells, shape, 1, *count),
        Instruction::SetAttr(_) => replaces(cells, shape, 2, 0),
        Instruction::PushWith => push_frame(cells, shape, Frame::Scope),
        Instruction::PopFrame => Ok(pop_frame(cells, shape)),
        Instruction::PushLoop(flags) => push_loop(cells, shape, flags),
        Instruction::Iterate(place) => iterate(cells, shape, *place),
        Instruction::PushDidNotIterate => did_not_iterate(cells, shape),
        Instruction::PopLoopFrame => Ok(pop_loop(cells, shape)),
        Instruction::BeginCapture(mode) => begin_capture(cells, shape, mode),
        Instruction::EndCapture => end_capture(cells, shape),
        Instruction::PushAutoEscape => push_escape(cells, shape),
        Instruction::PopAutoEscape => Ok(pop_escape(shape)),
        // A binary operator.
        _ => replaces(cells, shape, 2, 1),
    }
}
