//! The whole domain, and the compositions of a cell and of a grid point.

ghost use Rattle.std.specs.Prelude.{◌≡◌, ◌≤◌, ◌+◌, ◌-◌, ◌*◌, ◌^◌, IsFalse, cond, nat_lt, slice_index};
ghost use Rattle.case_types.specs.Arithmetic.Bounds.{box_of};
ghost use Rattle.case_types.specs.Grid.Columns.{point_box};
ghost use Rattle.case_types.specs.Grid.Cells.{root_region, region_of, misses as region_misses, box_of_region};
ghost use Rattle.log_laws.specs.Sums.{list_below, sum_below};
ghost use Rattle.density_boxes.specs.Halvings.{halvings_left};

use crate::fractions::{WHOLE, composition, free_sum, rest_of};
use case_types::{BoxX, Cell, SLOTS};

/// 1 in 2^-40.
const ONE: u64 = 1 << 40;

/// The cell of the whole domain: every composition of `n` components, and every packing from 0 to 1.
pub fn root(n: u8) -> Cell
    requires one { 1 ≤ n }
    requires four { n ≤ 4 }
    ensures whole { region_of result ≡ root_region n }
    ensures halvings { halvings_left (region_of result) ≡ 20 * (n - 1) + 40 }
{
    Cell {
        lo: [0; 3],
        hi: [root_end(n, 0), root_end(n, 1), root_end(n, 2)],
        ylo: 0,
        yhi: ONE,
    }
}

/// The upper end of an edge of the whole domain, in 2^-20: 1 for a free fraction, and 0 for one that isn't there.
fn root_end(n: u8, edge: u8) -> u32
    requires { 1 ≤ n }
    ensures { result ≡ cond (nat_lt edge (n - 1)) (2 ^ 20) 0 }
{
    if edge < n - 1 { WHOLE as u32 } else { 0 }
}

/// Whether no composition of `n` components lies in the cell: its lower fractions add up to more than 1.
pub fn misses(n: u8, cell: &Cell) -> bool
    requires one { 1 ≤ n }
    requires four { n ≤ 4 }
    ensures { result ≡ region_misses n (region_of cell.now) }
{
    free_sum(n, &cell.lo) > WHOLE
}

/// The fractions of all `n` components in the cell, in 2^-40, the last being what the others leave of 1.
pub fn cell_box(n: u8, cell: &Cell) -> BoxX
    requires one { 1 ≤ n }
    requires four { n ≤ 4 }
    requires meets { IsFalse (region_misses n (region_of cell.now)) }
    ensures lo { result.a ≡ (box_of_region n (region_of cell.now)).lo }
    ensures hi { result.b ≡ (box_of_region n (region_of cell.now)).hi }
{
    let least = rest_of(free_sum(n, &cell.hi));
    let greatest = rest_of(free_sum(n, &cell.lo));
    BoxX {
        a: in_packing_units(composition(n, &cell.lo, least)),
        b: in_packing_units(composition(n, &cell.hi, greatest)),
    }
}

/// The box of one composition, which is in 2^-20.
pub fn box_at(comp: [u32; SLOTS]) -> BoxX
    requires { sum_below 4 (slice_index comp) ≡ 2 ^ 20 }
    ensures { box_of result ≡ point_box comp }
{
    let ends = [
        comp[0] as u64 * WHOLE,
        comp[1] as u64 * WHOLE,
        comp[2] as u64 * WHOLE,
        comp[3] as u64 * WHOLE,
    ];
    BoxX { a: ends, b: ends }
}

/// Fractions in 2^-20 as fractions in 2^-40.
pub fn in_packing_units(fractions: [u32; SLOTS]) -> [u64; SLOTS]
    ensures { result ≡ list_below 4 (λ i. slice_index fractions i * 2 ^ 20) }
{
    [
        fractions[0] as u64 * WHOLE,
        fractions[1] as u64 * WHOLE,
        fractions[2] as u64 * WHOLE,
        fractions[3] as u64 * WHOLE,
    ]
}
