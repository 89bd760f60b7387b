//! The cells that are still to be looked at.

ghost use Rattle.std.specs.Prelude.{◌≡◌, ◌<◌, [], ◌∷◌, length, IfSome, IfNone};

use crate::cells::Cell;
use arrayvec::ArrayVec;
use std::marker::Model;

/// The cells that are still to be looked at, the next one on top.
#[derive(Drop)]
pub struct Stack {
    cells: ArrayVec<Cell, 64>,
}

impl Model for Stack {
    ghost use Rattle.std.specs.Prelude.{List, reverse};
    ghost use Rattle.fibre_bound.specs.declared.cells.Cell.{Cell};

    ghost Value = { List Cell };

    ghost view = { λ s. reverse s.cells.items };
}

impl Stack {
    /// One cell alone.
    pub fn new(first: Cell) -> Stack
        ensures { result ≡ first ∷ [] }
    {
        let mut cells: ArrayVec<Cell, 64> = ArrayVec::new();
        cells.push(first);
        Stack { cells }
    }

    /// Takes the cell on top.
    pub fn pop(&mut self) -> Option<Cell>
        ensures some { IfSome result (λ cell. self.old ≡ cell ∷ self.new) }
        ensures none { IfNone result (self.old ≡ []) }
        ensures kept { IfNone result (self.new ≡ []) }
    {
        self.cells.pop()
    }

    /// Puts a cell on top.
    pub fn push(&mut self, cell: Cell)
        requires room { length self.old < 64 }
        ensures { self.new ≡ cell ∷ self.old }
    {
        self.cells.push(cell);
    }
}
