//! Prices over a basis, and what the amounts for a point cost.

ghost use Rattle.std.specs.Prelude.{◌≡◌, ◌≤◌, ◌<◌, ◌+◌, ◌^◌, ◌-ℤ◌, ◌+ℤ◌, ◌*ℤ◌, pos, unsigned_abs, slice_index};
ghost use Rattle.log_laws.specs.Sums.{sum_below};
ghost use Rattle.energy_surface.specs.Program.Bases.{AreColumns, IsBasis};
ghost use Rattle.energy_surface.specs.Program.Pivots.{IsPriced};
ghost use Rattle.exact_lp.specs.Frames.{paid as paid_of, row_of, live_parts};

use crate::frames::Frame;
use crate::normals::{Point, along};
use crate::points::{Basis, Costs, basis_frame, costs_of, live_point};
use case_types::{Case, Column, Columns};

/// The column that enters the basis: the first of negative price over it, or none at an optimum.
///
/// The price is the reduced cost: how far the cost of the column lies above the plane of the basis at its composition.
pub fn price(case: &Case, columns: &Columns, basis: &Basis) -> Option<u32>
    requires columns { AreColumns case.now.n columns.now.items }
    requires basis { IsBasis case.now columns.now.items basis.now.at }
    ensures { IsPriced case.now.n columns.now.items basis.now.at result }
{
    let frame = basis_frame(case.n, columns, basis);
    let costs = costs_of(case.n, columns, basis);
    for j in 0..columns.len() {
        if price_over(case.n, &frame, &costs, columns.get(j)) < 0 {
            return Some(j as u32);
        }
    }
    None
}

/// The price of a column, times the size of the frame: its cost less what the amounts for it cost.
fn price_over(n: u8, frame: &Frame, costs: &Costs, column: &Column) -> i128
    requires some { 1 ≤ n }
    requires few { n ≤ 4 }
    requires light { sum_below n (slice_index column.now.comp) ≤ 2 ^ 20 }
    requires cost { unsigned_abs column.now.cost ≤ 2 ^ 39 }
    ensures { result ≡ pos frame.now.size *ℤ column.now.cost -ℤ paid_of frame.now.first.a frame.now.second.a frame.now.third.a frame.now.fourth.a costs.now.c (row_of (live_parts n column.now.comp)) }
{
    let point = live_point(n, &column.comp);
    priced(frame.size, column.cost, paid(frame, costs, &point))
}

/// The number size*cost - paid.
fn priced(size: u128, cost: i64, paid: i128) -> i128
    requires size_small { size ≤ 2 ^ 80 }
    requires cost_small { unsigned_abs cost ≤ 2 ^ 39 }
    requires paid_small { unsigned_abs paid ≤ 2 ^ 121 }
    ensures { result ≡ pos size *ℤ cost -ℤ paid }
{
    size as i128 * cost as i128 - paid
}

/// What the amounts for a point cost, times the size of the frame.
pub fn paid(frame: &Frame, costs: &Costs, point: &Point) -> i128
    ensures value { result ≡ paid_of frame.now.first.a frame.now.second.a frame.now.third.a frame.now.fourth.a costs.now.c (row_of point.now.x) }
    ensures small { unsigned_abs result ≤ 2 ^ 121 }
{
    let [c0, c1, c2, c3] = costs.c;
    four(
        share(along(&frame.first, point), c0),
        share(along(&frame.second, point), c1),
        share(along(&frame.third, point), c2),
        share(along(&frame.fourth, point), c3),
    )
}

/// The sum of four shares.
fn four(a: i128, b: i128, c: i128, d: i128) -> i128
    requires a_small { unsigned_abs a ≤ 2 ^ 119 }
    requires b_small { unsigned_abs b ≤ 2 ^ 119 }
    requires c_small { unsigned_abs c ≤ 2 ^ 119 }
    requires d_small { unsigned_abs d ≤ 2 ^ 119 }
    ensures value { result ≡ a +ℤ b +ℤ c +ℤ d }
    ensures small { unsigned_abs result ≤ 2 ^ 121 }
{
    a + b + c + d
}

/// What an amount costs.
fn share(amount: i128, cost: i64) -> i128
    requires amount_small { unsigned_abs amount ≤ 2 ^ 80 }
    requires cost_small { unsigned_abs cost ≤ 2 ^ 39 }
    ensures value { result ≡ amount *ℤ cost }
    ensures small { unsigned_abs result ≤ 2 ^ 119 }
{
    amount * cost as i128
}
