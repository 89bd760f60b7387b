//! The tangent plane of a basis.

ghost use Rattle.std.specs.Prelude.{◌≡◌, ◌≤◌, ◌<◌, ◌+◌, ◌*◌, ◌^◌, ◌/◌, ◌+ℤ◌, ◌*ℤ◌, pos, unsigned_abs};
ghost use Rattle.log_laws.specs.Whole.{floor_over};
ghost use Rattle.energy_surface.specs.Program.Bases.{AreColumns, IsBasis, system};
ghost use Rattle.energy_surface.specs.Program.Pivots.{IsPureOptimal};
ghost use Rattle.energy_surface.specs.Program.Planes.{plane_of, live_entry};
ghost use Rattle.energy_surface.specs.Program.Solutions.{size};
ghost use Rattle.exact_lp.specs.Frames.{filled, live_costs, IsFrame};

use crate::frames::Frame;
use crate::points::{Basis, Costs, basis_frame, costs_of, unit};
use crate::pricing::paid;
use case_types::{Case, Columns, Plane};

/// The tangent plane of a basis: through the costs of its columns, by potentials in 2^-40 bit, each rounded down.
///
/// No pure column may lie below the plane, as none does at an optimum or over the basis of [`start`](crate::start): then each
/// potential is of size below 2^80.
pub fn plane(case: &Case, columns: &Columns, basis: &Basis) -> Plane
    requires columns { AreColumns case.now.n columns.now.items }
    requires basis { IsBasis case.now columns.now.items basis.now.at }
    requires optimal { IsPureOptimal case.now.n columns.now.items basis.now.at }
    ensures { result.lam ≡ plane_of case.now.n columns.now.items basis.now.at }
{
    let frame = basis_frame(case.n, columns, basis);
    let costs = costs_of(case.n, columns, basis);
    Plane {
        lam: [
            entry(case, columns, basis, &frame, &costs, 0),
            entry(case, columns, basis, &frame, &costs, 1),
            entry(case, columns, basis, &frame, &costs, 2),
            entry(case, columns, basis, &frame, &costs, 3),
        ],
    }
}

/// The entry of a component, or 0 past the live ones.
fn entry(
    case: &Case,
    columns: &Columns,
    basis: &Basis,
    frame: &Frame,
    costs: &Costs,
    i: usize,
) -> i128
    requires columns { AreColumns case.now.n columns.now.items }
    requires basis { IsBasis case.now columns.now.items basis.now.at }
    requires optimal { IsPureOptimal case.now.n columns.now.items basis.now.at }
    requires frame { IsFrame (filled case.now.n (system columns.now.items basis.now.at)) frame.now.size frame.now.first.a frame.now.second.a frame.now.third.a frame.now.fourth.a }
    requires costs { costs.now.c ≡ live_costs case.now.n columns.now.items basis.now.at }
    ensures value { result ≡ live_entry case.now.n columns.now.items basis.now.at i }
    ensures small { unsigned_abs result < 2 ^ 80 }
{
    if i < case.n as usize {
        scaled_floor(paid(frame, costs, &unit(i)), frame.size)
    } else {
        0
    }
}

/// The floor of 2^30 times a number over a size, by a shift that makes it natural.
fn scaled_floor(y: i128, size: u128) -> i128
    requires some { 1 ≤ size }
    requires size_small { size ≤ 2 ^ 80 }
    requires y_small { unsigned_abs y ≤ 2 ^ 40 * size }
    ensures { result ≡ floor_over (y *ℤ pos (2 ^ 30)) size }
{
    scaled_quotient(raised(y, size), size) as i128 - (1 << 70)
}

/// The number and 2^40 sizes, which isn't negative.
fn raised(y: i128, size: u128) -> u128
    requires size_small { size ≤ 2 ^ 80 }
    requires y_small { unsigned_abs y ≤ 2 ^ 40 * size }
    ensures value { pos result ≡ y +ℤ pos (2 ^ 40 * size) }
    ensures small { result ≤ 2 ^ 41 * size }
{
    (y + size as i128 * (1 << 40)).unsigned_abs()
}

/// The quotient of 2^30 times a number by a size.
fn scaled_quotient(a: u128, size: u128) -> u128
    requires some { 1 ≤ size }
    requires size_small { size ≤ 2 ^ 80 }
    requires small { a ≤ 2 ^ 41 * size }
    ensures value { result ≡ (a * 2 ^ 30) / size }
    ensures small { result ≤ 2 ^ 72 }
{
    a / size * (1 << 30) + a % size * (1 << 30) / size
}
