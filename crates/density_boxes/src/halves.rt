//! The halves of a cell.

ghost use Rattle.std.specs.Prelude.{◌≡◌, ◌≤◌, ◌<◌};
ghost use Rattle.case_types.specs.Grid.Cells.{region_of, lower_half, upper_half, edge_length};
ghost use Rattle.density_boxes.specs.Halvings.{halvings_left};

use crate::edges::PACKING;
use case_types::Cell;

/// The lower and the upper half of the cell along an edge, which share the cut. Each can be halved at least once less.
pub fn halve(cell: &Cell, edge: u8) -> (Cell, Cell)
    requires edge { edge ≤ 3 }
    requires wide { 2 ≤ edge_length (region_of cell.now) edge }
    ensures lower { region_of result.0 ≡ lower_half edge (region_of cell.now) }
    ensures upper { region_of result.1 ≡ upper_half edge (region_of cell.now) }
    ensures lower_left { halvings_left (region_of result.0) < halvings_left (region_of cell.now) }
    ensures upper_left { halvings_left (region_of result.1) < halvings_left (region_of cell.now) }
{
    if edge == PACKING {
        halve_packing(cell)
    } else {
        halve_fraction(cell, edge)
    }
}

/// The halves along the packing.
fn halve_packing(cell: &Cell) -> (Cell, Cell)
    requires { 2 ≤ edge_length (region_of cell.now) 3 }
    ensures lower { region_of result.0 ≡ lower_half 3 (region_of cell.now) }
    ensures upper { region_of result.1 ≡ upper_half 3 (region_of cell.now) }
    ensures lower_left { halvings_left (region_of result.0) < halvings_left (region_of cell.now) }
    ensures upper_left { halvings_left (region_of result.1) < halvings_left (region_of cell.now) }
{
    let cut = (cell.ylo + cell.yhi) / 2;
    let lower = Cell {
        lo: cell.lo,
        hi: cell.hi,
        ylo: cell.ylo,
        yhi: cut,
    };
    let upper = Cell {
        lo: cell.lo,
        hi: cell.hi,
        ylo: cut,
        yhi: cell.yhi,
    };
    (lower, upper)
}

/// The halves along a fraction.
fn halve_fraction(cell: &Cell, edge: u8) -> (Cell, Cell)
    requires fraction { edge < 3 }
    requires wide { 2 ≤ edge_length (region_of cell.now) edge }
    ensures lower { region_of result.0 ≡ lower_half edge (region_of cell.now) }
    ensures upper { region_of result.1 ≡ upper_half edge (region_of cell.now) }
    ensures lower_left { halvings_left (region_of result.0) < halvings_left (region_of cell.now) }
    ensures upper_left { halvings_left (region_of result.1) < halvings_left (region_of cell.now) }
{
    let place = edge as usize;
    let cut = (cell.lo[place] + cell.hi[place]) / 2;
    let mut hi = cell.hi;
    hi[place] = cut;
    let mut lo = cell.lo;
    lo[place] = cut;
    let lower = Cell {
        lo: cell.lo,
        hi,
        ylo: cell.ylo,
        yhi: cell.yhi,
    };
    let upper = Cell {
        lo,
        hi: cell.hi,
        ylo: cell.ylo,
        yhi: cell.yhi,
    };
    (lower, upper)
}
