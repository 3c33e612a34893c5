//! The shape of a place, as stacks.
ghost use Rattle.std.specs.Prelude.{◌≡◌, ◌≤◌, ◌+◌, ◌∷◌, List, IfOk, IfSome, length};
ghost use Rattle.tm_shapes.specs.Accepts.{same_shape};
ghost use Rattle.tm_shapes.specs.Cells.{AllOnce, Grown, IsLevel, Special};
ghost use Rattle.tm_shapes.specs.Flows.{is_closed, with_operands};
ghost use Rattle.tm_shapes.specs.Shapes.{Shape as Spec, entry_shape, no_part, pushed};
ghost use Rattle.tm_shapes.specs.Shown.{Shows};
ghost use Rattle.tm_shapes.specs.Told.{IsLower, IsPopped, IsWithout};
ghost use Rattle.tm_shapes.specs.declared.cells.Cell.{Cell as Celled};

use crate::cells::{Cell, Cells, Item, Level};
use crate::kind::Kind;
use std::alloc::AllocError;

/// The shape of a place: its operands, what is open in the innermost part, and the parts below.
#[derive(Clone, Copy, PartialEq, Eq)]
pub(crate) struct Shape {
    /// The number of values on top.
    values: usize,
    /// The stack below them.
    top: usize,
    /// The number of operands in total.
    height: usize,
    /// What is open in the innermost part.
    pub(crate) level: Level,
    /// The parts below.
    pub(crate) below: usize,
}

/// Nothing is open; `floor` operands are below.
fn no_level(floor: usize) -> Level
    ensures none { (cells : List Celled) → IsLevel cells result no_part }
    ensures floor { result.floor ≡ floor }
{
    Level {
        frames: 0,
        captures: 0,
        open: 0,
        escapes: 0,
        floor,
    }
}

impl Shape {
    /// The start of a run with that many values and nothing open.
    pub(crate) fn over(values: usize) -> Shape
        ensures { (cells : List Celled) → Shows cells result (entry_shape values) }
    {
        Shape {
            values,
            top: 0,
            height: values,
            level: no_level(0),
            below: 0,
        }
    }

    /// The number of operands in the innermost part.
    pub(crate) fn operands(&self) -> usize
        ensures counted { (cells : List Celled) (s : Spec) → Shows cells self.now s →
            result ≡ length s.part.operands }
        ensures within { result ≤ self.now.height }
    {
        self.height.saturating_sub(self.level.floor)
    }

    /// Pushes `count` values. AllocError if the number overflows.
    pub(crate) fn pushed(self, count: usize) -> Result<Shape, AllocError>
        ensures { IfOk result (λ made. (cells : List Celled) (s : Spec) → Shows cells self s →
            Shows cells made (with_operands (pushed count s.part.operands) s)) }
    {
        match (
            self.values.checked_add(count),
            self.height.checked_add(count),
        ) {
            (Some(values), Some(height)) => Ok(Shape {
                values,
                height,
                ..self
            }),
            _ => Err(AllocError),
        }
    }

    /// Pushes an operand of this kind, which isn't `Value`. AllocError if memory runs out.
    pub(crate) fn with(self, cells: &mut Cells, kind: Kind) -> Result<Shape, AllocError>
        requires { Special kind }
        ensures shown { IfOk result (λ made. (s : Spec) → Shows cells.old self s →
            Shows cells.new made (with_operands (kind ∷ s.part.operands) s)) }
        ensures grown { Grown cells.old cells.new }
    {
        let height = match self.height.checked_add(1) {
            Some(height) => height,
            None => return Err(AllocError),
        };
        let top = cells.put(Cell {
            item: Item::Operand(kind, self.values),
            below: self.top,
        })?;
        Ok(Shape {
            values: 0,
            top,
            height,
            ..self
        })
    }

    /// Pops the topmost operand of the innermost part.
    pub(crate) fn pop(self, cells: &Cells) -> Option<(Kind, Shape)>
        ensures popped { (s : Spec) → Shows cells.now self s → IsPopped cells.now s result }
        ensures lower { IfSome result (λ p. p.1.height + 1 ≡ self.height) }
    {
        if self.height <= self.level.floor {
            return None;
        }
        let height = self.height - 1;
        if let Some(values) = self.values.checked_sub(1) {
            return Some((
                Kind::Value,
                Shape {
                    values,
                    height,
                    ..self
                },
            ));
        }
        match cells.get(self.top)? {
            Cell {
                item: Item::Operand(kind, values),
                below,
            } => Some((
                kind,
                Shape {
                    values,
                    top: below,
                    height,
                    ..self
                },
            )),
            _ => None,
        }
    }

    /// Pops `count` values, if the innermost part has that many on top.
    pub(crate) fn without(self, cells: &Cells, count: usize) -> Option<Shape>
        ensures { (s : Spec) → Shows cells.now self s → IsWithout cells.now count s result }
    {
        if self.operands() < count {
            return None;
        }
        let mut shape = self;
        let mut left = count;
        while left > 0 {
            if left <= shape.values {
                shape.values -= left;
                shape.height -= left;
                return Some(shape);
            }
            left -= shape.values;
            shape.height -= shape.values;
            shape.values = 0;
            match shape.pop(cells)? {
                (Kind::Zero(_) | Kind::One | Kind::Value, rest) => shape = rest,
                _ => return None,
            }
            left -= 1;
        }
        Some(shape)
    }

    /// Replaces what is open in the innermost part.
    pub(crate) fn at_level(self, level: Level) -> Shape
        ensures { result ≡ record self { level = level } }
    {
        Shape { level, ..self }
    }

    /// Begins a new innermost part. AllocError if memory runs out.
    pub(crate) fn in_part(self, cells: &mut Cells) -> Result<Shape, AllocError>
        ensures shown { IfOk result (λ made. (s : Spec) → Shows cells.old self s →
            Shows cells.new made (record { part = no_part; below = s.part ∷ s.below })) }
        ensures grown { Grown cells.old cells.new }
    {
        let below = cells.put(Cell {
            item: Item::Part(self.level),
            below: self.below,
        })?;
        Ok(Shape {
            level: no_level(self.height),
            below,
            ..self
        })
    }

    /// Ends the innermost part, whose operands stay on top of those below. None if there is no part
    /// below.
    pub(crate) fn without_part(self, cells: &Cells) -> Option<Shape>
        ensures { (s : Spec) → Shows cells.now self s → IsLower cells.now s result }
    {
        match cells.get(self.below)? {
            Cell {
                item: Item::Part(level),
                below,
            } => Some(Shape {
                level,
                below,
                ..self
            }),
            _ => None,
        }
    }

    /// Whether everything that was opened is closed.
    pub(crate) fn is_closed(&self) -> bool
        ensures { (cells : List Celled) (s : Spec) → Shows cells self.now s → result ≡ is_closed s }
    {
        self.level.frames == 0 && self.level.open == 0 && self.level.escapes == 0 && self.below == 0
    }

    /// Whether both shapes are equal.
    pub(crate) fn is_same(&self, other: &Shape) -> bool
        ensures { (cells : List Celled) (s t : Spec) → AllOnce cells → Shows cells self.now s →
            Shows cells other.now t → result ≡ same_shape s t }
    {
        *self == *other
    }
}
