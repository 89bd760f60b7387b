//! The cells that have no letter yet.

ghost use Rattle.std.specs.Prelude.{◌≡◌, ◌≤◌, ◌<◌, ◌+◌, [], ◌∷◌, length, IfSome, IfNone, IsTrue, ◌↔◌};
ghost use Rattle.case_types.specs.Grid.Cells.{region_of, lower_half, upper_half, edge_length};
ghost use Rattle.density_boxes.specs.Halvings.{halvings_left};

use arrayvec::ArrayVec;
use case_types::Cell;
use density_boxes::halve;
use std::marker::Model;

/// The cells that have no letter yet, the next one on top.
#[derive(Drop)]
pub struct Stack {
    cells: ArrayVec<Cell, 160>,
}

impl Model for Stack {
    ghost use Rattle.std.specs.Prelude.{List, reverse, map};
    ghost use Rattle.case_types.specs.Grid.Cells.{Region, region_of};

    ghost Value = { List Region };

    ghost view = { λ s. reverse (map region_of s.cells.items) };
}

impl Stack {
    /// One cell alone.
    pub fn new(first: Cell) -> Stack
        ensures { result ≡ region_of first ∷ [] }
    {
        let mut cells: ArrayVec<Cell, 160> = ArrayVec::new();
        cells.push(first);
        Stack { cells }
    }

    /// How many cells there are.
    pub fn len(&self) -> usize
        ensures { result ≡ length self.now }
    {
        self.cells.len()
    }

    /// Whether there is none.
    pub fn is_empty(&self) -> bool
        ensures { IsTrue result ↔ (self.now ≡ []) }
    {
        self.cells.is_empty()
    }

    /// Puts a cell on top.
    pub fn put_back(&mut self, cell: Cell)
        requires { length self.old < 160 }
        ensures { self.new ≡ region_of cell ∷ self.old }
    {
        self.cells.push(cell);
    }

    /// Takes the cell on top.
    pub fn pop(&mut self) -> Option<Cell>
        ensures some { IfSome result (λ c. self.old ≡ region_of c ∷ self.new) }
        ensures none { IfNone result (self.old ≡ []) }
        ensures kept { IfNone result (self.new ≡ self.old) }
    {
        self.cells.pop()
    }

    /// Puts the halves of a cell along an edge on top, the lower half first.
    pub fn push_halves(&mut self, cell: &Cell, edge: u8)
        requires edge { edge ≤ 3 }
        requires wide { 2 ≤ edge_length (region_of cell.now) edge }
        requires room { length self.old + 2 ≤ 160 }
        ensures halves { self.new ≡ lower_half edge (region_of cell.now) ∷ upper_half edge (region_of cell.now) ∷ self.old }
        ensures lower_left { halvings_left (lower_half edge (region_of cell.now)) < halvings_left (region_of cell.now) }
        ensures upper_left { halvings_left (upper_half edge (region_of cell.now)) < halvings_left (region_of cell.now) }
    {
        let (lower, upper) = halve(cell, edge);
        self.cells.push(upper);
        self.cells.push(lower);
    }
}
