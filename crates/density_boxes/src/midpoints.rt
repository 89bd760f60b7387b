//! The middle of a cell on the grid.

ghost use Rattle.std.specs.Prelude.{◌≡◌, ◌≤◌, ◌<◌, ◌*◌, ◌^◌, IfSome, IsTrue, slice_index};
ghost use Rattle.std.specs.Option.{option_map};
ghost use Rattle.case_types.specs.Grid.Cells.{region_of, box_of_region, midpoint as region_midpoint, middle_of, middle_point};
ghost use Rattle.case_types.specs.Grid.Columns.{IsGridPoint};
ghost use Rattle.log_laws.specs.Sums.{list_below};
ghost use Rattle.case_types.specs.Ranges.{is_each_at_most};

use crate::boxes::in_packing_units;
use crate::fractions::{WHOLE, composition, free_sum, rest_of};
use case_types::{Cell, SLOTS};

/// The composition of `n` components in the middle, in 2^-20, and the packing in the middle, in 2^-40. There is none where
/// the rest of the composition would be negative, or the packing 0.
pub fn midpoint(n: u8, cell: &Cell) -> Option<([u32; SLOTS], u64)>
    requires one { 1 ≤ n }
    requires four { n ≤ 4 }
    ensures value { option_map (λ m. record { composition = m.0; packing = m.1 }) result ≡ region_midpoint n (region_of cell.now) }
    ensures point { IfSome result (λ m. IsGridPoint n (record { composition = m.0; packing = m.1 })) }
{
    let middles = middles(cell);
    let sum = free_sum(n, &middles);
    let packing = (cell.ylo + cell.yhi) / 2;
    if sum > WHOLE || packing == 0 {
        return None;
    }
    Some((composition(n, &middles, rest_of(sum)), packing))
}

/// The fractions of `n` components in the middle, in 2^-40: the last is 0 where the others add up to more than 1.
pub fn middle_fractions(n: u8, cell: &Cell) -> [u64; SLOTS]
    requires one { 1 ≤ n }
    requires four { n ≤ 4 }
    ensures at { result ≡ list_below 4 (λ i. slice_index (middle_point n (region_of cell.now)).composition i * 2 ^ 20) }
    ensures low { IsTrue (is_each_at_most 4 (box_of_region n (region_of cell.now)).lo result) }
    ensures high { IsTrue (is_each_at_most 4 result (box_of_region n (region_of cell.now)).hi) }
{
    let middles = middles(cell);
    in_packing_units(composition(n, &middles, rest_of(free_sum(n, &middles))))
}

/// The middles of the free fractions, in 2^-20.
fn middles(cell: &Cell) -> [u32; 3]
    ensures { result ≡ list_below 3 (middle_of (region_of cell.now)) }
{
    [middle(cell, 0), middle(cell, 1), middle(cell, 2)]
}

/// The middle of a free fraction, in 2^-20.
fn middle(cell: &Cell, edge: u8) -> u32
    requires { edge < 3 }
    ensures { result ≡ middle_of (region_of cell.now) edge }
{
    (cell.lo[edge as usize] + cell.hi[edge as usize]) / 2
}
