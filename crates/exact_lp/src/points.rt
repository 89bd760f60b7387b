//! Columns, the feed and units as points, and the frame of a basis.

ghost use Rattle.case_types.specs.declared.rounds.Column.{Column};
ghost use Rattle.std.specs.Prelude.{List, ℕ, ◌≡◌, ◌≤◌, ◌<◌, ◌+◌, ◌^◌, length, unsigned_abs, slice_index, IsTrue};
ghost use Rattle.case_types.specs.Ranges.{is_each_below};
ghost use Rattle.log_laws.specs.Sums.{sum_below};
ghost use Rattle.energy_surface.specs.Program.Bases.{AreColumns, IsBasis, start_places, system};
ghost use Rattle.energy_surface.specs.Program.Pivots.{IsPureOptimal};
ghost use Rattle.exact_lp.specs.Frames.{filled, live as live_of, live_parts, unit_parts, row_parts, live_cost, live_costs, IsFrame};

use crate::frames::{Frame, frame_of};
use crate::normals::Point;
use case_types::{Case, Columns, SLOTS};

/// A basis of the linear program: as many columns as there are live components, whose compositions are linearly independent.
#[derive(Clone, Copy, Debug, PartialEq, Eq)]
pub struct Basis {
    /// The places of its columns in the list, from 0. Those past the live components have no meaning.
    pub at: [u32; SLOTS],
}

/// The costs of the columns of a basis in 2^-30 bit, and 0 past the live components.
#[derive(Clone, Copy)]
pub struct Costs {
    pub c: [i64; SLOTS],
    pub ghost small: { IsTrue (is_each_below 4 c (2 ^ 39 + 1)) },
}

/// The basis of the pure columns, which are the first `n` of every list of columns.
///
/// Over it no pure column has a negative price, so that it has a plane.
pub fn start(_case: &Case) -> Basis
    ensures places { result.at ≡ start_places }
    ensures basis { (cols : List Column) → AreColumns _case.now.n cols → IsBasis _case.now cols result.at }
    ensures optimal { (cols : List Column) → AreColumns _case.now.n cols → IsPureOptimal _case.now.n cols result.at }
{
    Basis { at: [0, 1, 2, 3] }
}

/// The parts of the live components, and none of the others.
pub fn live_point(n: u8, x: &[u32; SLOTS]) -> Point
    requires some { 1 ≤ n }
    requires few { n ≤ 4 }
    requires light { sum_below n (slice_index x.now) ≤ 2 ^ 20 }
    ensures { result.x ≡ live_parts n x.now }
{
    Point {
        x: [live(n, x, 0), live(n, x, 1), live(n, x, 2), live(n, x, 3)],
    }
}

/// A part, where the component is live.
fn live(n: u8, x: &[u32; SLOTS], i: usize) -> u32
    requires { i < 4 }
    ensures { result ≡ live_of n x.now i }
{
    if i < n as usize { x[i] } else { 0 }
}

/// One part of one component.
pub fn unit(k: usize) -> Point
    ensures { result.x ≡ unit_parts k }
{
    Point {
        x: [
            if k == 0 { 1 } else { 0 },
            if k == 1 { 1 } else { 0 },
            if k == 2 { 1 } else { 0 },
            if k == 3 { 1 } else { 0 },
        ],
    }
}

/// The composition of the column at a place of the basis, or a unit past the live components.
fn row(n: u8, columns: &Columns, basis: &Basis, k: usize) -> Point
    requires some { 1 ≤ n }
    requires few { n ≤ 4 }
    requires place { k < 4 }
    requires columns { AreColumns n columns.now.items }
    requires inside { (k : ℕ) → k < n → slice_index basis.now.at k < length columns.now.items }
    ensures { result.x ≡ row_parts n columns.now.items basis.now.at k }
{
    if k < n as usize {
        live_point(n, &columns.get(basis.at[k] as usize).comp)
    } else {
        unit(k)
    }
}

/// The frame of a basis.
pub fn basis_frame(n: u8, columns: &Columns, basis: &Basis) -> Frame
    requires some { 1 ≤ n }
    requires few { n ≤ 4 }
    requires columns { AreColumns n columns.now.items }
    requires inside { (k : ℕ) → k < n → slice_index basis.now.at k < length columns.now.items }
    ensures { IsFrame (filled n (system columns.now.items basis.now.at)) result.size result.first.a result.second.a result.third.a result.fourth.a }
{
    frame_of(
        &row(n, columns, basis, 0),
        &row(n, columns, basis, 1),
        &row(n, columns, basis, 2),
        &row(n, columns, basis, 3),
    )
}

/// The costs of a basis.
pub fn costs_of(n: u8, columns: &Columns, basis: &Basis) -> Costs
    requires some { 1 ≤ n }
    requires few { n ≤ 4 }
    requires columns { AreColumns n columns.now.items }
    requires inside { (k : ℕ) → k < n → slice_index basis.now.at k < length columns.now.items }
    ensures { result.c ≡ live_costs n columns.now.items basis.now.at }
{
    Costs {
        c: [
            cost(n, columns, basis, 0),
            cost(n, columns, basis, 1),
            cost(n, columns, basis, 2),
            cost(n, columns, basis, 3),
        ],
    }
}

/// The cost of the column at a place of the basis, or 0 past the live components.
fn cost(n: u8, columns: &Columns, basis: &Basis, k: usize) -> i64
    requires place { k < 4 }
    requires columns { AreColumns n columns.now.items }
    requires inside { (k : ℕ) → k < n → slice_index basis.now.at k < length columns.now.items }
    ensures value { result ≡ live_cost n columns.now.items basis.now.at k }
    ensures small { unsigned_abs result ≤ 2 ^ 39 }
{
    if k < n as usize {
        columns.get(basis.at[k] as usize).cost
    } else {
        0
    }
}
