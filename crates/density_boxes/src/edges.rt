//! The edge of a cell that is halved.

ghost use Rattle.std.specs.Prelude.{◌≡◌, ◌≤◌, ◌<◌, ◌↔◌, ◌⊎◌, ◌-◌, ◌*◌, ◌^◌, IsTrue, nat_le};
ghost use Rattle.case_types.specs.Grid.Cells.{region_of, edge_to_halve as named_edge, edge_length, widest_below, is_unit as has_unit};
ghost use Rattle.log_laws.specs.Sums.{all_below};

use crate::fractions::WHOLE;
use case_types::Cell;

/// The edge of the packing.
pub const PACKING: u8 = 3;

/// The edge to halve, in a cell of `n` components: the packing where four times its width is at least every width of a
/// fraction, else the first of the widest fractions.
pub fn edge_to_halve(n: u8, cell: &Cell) -> u8
    requires one { 1 ≤ n }
    requires four { n ≤ 4 }
    ensures named { result ≡ named_edge n (region_of cell.now) }
    ensures edge { (result < n - 1) ⊎ (result ≡ 3) }
    ensures long { 1 ≤ edge_length (region_of cell.now) result }
{
    if is_packing_wide(n, cell) {
        PACKING
    } else {
        widest_fraction(n, cell)
    }
}

/// Whether four times the width of the packing is at least every width of a fraction.
fn is_packing_wide(n: u8, cell: &Cell) -> bool
    requires one { 1 ≤ n }
    requires four { n ≤ 4 }
    ensures { result ≡ all_below (n - 1) (λ i. nat_le (edge_length (region_of cell.now) i * 2 ^ 20) (4 * edge_length (region_of cell.now) 3)) }
{
    let limit = 4 * length_of(cell, PACKING);
    for edge in 0..n - 1 {
        if length_of(cell, edge) * WHOLE > limit {
            return false;
        }
    }
    true
}

/// The first of the widest free fractions.
fn widest_fraction(n: u8, cell: &Cell) -> u8
    requires one { 1 ≤ n }
    requires four { n ≤ 4 }
    ensures { result ≡ widest_below (region_of cell.now) (n - 1) }
{
    let mut widest = 0;
    for edge in 0..n - 1 {
        if length_of(cell, widest) < length_of(cell, edge) {
            widest = edge;
        }
    }
    widest
}

/// The length of an edge, in the units of its ends.
fn length_of(cell: &Cell, edge: u8) -> u64
    requires { edge ≤ 3 }
    ensures value { result ≡ edge_length (region_of cell.now) edge }
    ensures small { result ≤ 2 ^ 40 }
    ensures fraction { edge < 3 → result ≤ 2 ^ 20 }
{
    if edge == PACKING {
        cell.yhi - cell.ylo
    } else {
        (cell.hi[edge as usize] - cell.lo[edge as usize]) as u64
    }
}

/// Whether the edge has one unit of the grid.
pub fn is_unit(cell: &Cell, edge: u8) -> bool
    requires { edge ≤ 3 }
    ensures value { result ≡ has_unit (region_of cell.now) edge }
    ensures unit { IsTrue result ↔ (edge_length (region_of cell.now) edge ≡ 1) }
{
    length_of(cell, edge) == 1
}
