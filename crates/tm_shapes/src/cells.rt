//! Stacks that share their lower parts. A stack is the number of its topmost cell. Equal stacks
//! have the same number, so comparing two is fast.
ghost use Rattle.std.specs.Prelude.{◌≡◌, [], IfOk, Some};
ghost use Rattle.tm_shapes.specs.Accepts.{same_shape};
ghost use Rattle.tm_shapes.specs.Cells.{AllOnce, Grown, cell_at};
ghost use Rattle.tm_shapes.specs.Shapes.{Shape as Spec};
ghost use Rattle.tm_shapes.specs.Shown.{Shows};

use crate::kind::{Frame, Kind};
use crate::shape::Shape;
use std::alloc::{AllocError, Global};
use std::collections::BTreeMap;
use std::marker::Model;

/// What is open in a part.
#[derive(Clone, Copy, PartialEq, Eq, PartialOrd, Ord)]
pub(crate) struct Level {
    /// The stack of scopes.
    pub(crate) frames: usize,
    /// The stack of captures.
    pub(crate) captures: usize,
    /// The number of captures.
    pub(crate) open: usize,
    /// The number of escapes.
    pub(crate) escapes: usize,
    /// The number of operands below the part.
    pub(crate) floor: usize,
}

/// An item on a stack.
#[derive(Clone, Copy, PartialEq, Eq, PartialOrd, Ord)]
pub(crate) enum Item {
    /// An operand whose kind isn't `Value`, and the number of values below it.
    Operand(Kind, usize),
    /// A scope.
    Frame(Frame),
    /// A capture whose text becomes a value.
    Capture,
    /// A capture whose text is dropped.
    Discard,
    /// A part below another one.
    Part(Level),
}

/// An item, and the stack below it.
#[derive(Clone, Copy, PartialEq, Eq, PartialOrd, Ord)]
pub(crate) struct Cell {
    /// The item.
    pub(crate) item: Item,
    /// The number of the stack below, or 0 if it is empty.
    pub(crate) below: usize,
}

/// The cells of all stacks, numbered from 1, each stored once. A contract sees the cells.
#[derive(Drop)]
pub(crate) struct Cells {
    cells: Vec<Cell>,
    numbers: BTreeMap<Cell, usize>,
}

impl Model for Cells {
    ghost use Rattle.std.specs.Prelude.{List};
    ghost use Rattle.tm_shapes.specs.declared.cells.Cell.{Cell as Made};
    ghost use Rattle.tm_shapes.specs.Numbers.{Fit};

    ghost Value = { List Made };

    ghost view = { λ a. a.cells.items };

    ghost invariant = { λ a. Fit a.cells.items a.numbers.entries };
}

impl Cells {
    /// No cells.
    pub(crate) fn new(alloc: Global) -> Cells
        ensures { result ≡ [] }
    {
        Cells {
            cells: Vec::new(alloc),
            numbers: BTreeMap::new(alloc),
        }
    }

    /// The cell with this number, if there is one.
    pub(crate) fn get(&self, number: usize) -> Option<Cell>
        ensures found { result ≡ cell_at self.now number }
        ensures once { AllOnce self.now }
    {
        match self.cells.get(number.checked_sub(1)?) {
            Some(cell) => Some(*cell),
            None => None,
        }
    }

    /// The number of a cell, which is added if it is new. AllocError if memory runs out.
    pub(crate) fn put(&mut self, cell: Cell) -> Result<usize, AllocError>
        ensures found { IfOk result (λ n. cell_at self.new n ≡ Some cell) }
        ensures grown { Grown self.old self.new }
    {
        if let Some(number) = self.numbers.get(&cell) {
            return Ok(*number);
        }
        self.cells.push(cell)?;
        let number = self.cells.len();
        match self.numbers.insert(cell, number) {
            Ok(_) => Ok(number),
            Err(failed) => {
                self.cells.pop();
                Err(failed.into())
            }
        }
    }

    /// Whether two shapes are equal.
    pub(crate) fn is_same(&self, shape: &Shape, other: &Shape) -> bool
        ensures { (s t : Spec) → Shows self.now shape.now s → Shows self.now other.now t →
            result ≡ same_shape s t }
    {
        // For the invariant that no cell is stored twice.
        let _cells = &self.cells;
        shape.is_same(other)
    }
}
