//! A tangent plane at a composition.

ghost use Rattle.std.specs.Prelude.{◌≡◌, ◌≤◌, ◌<◌, ◌^◌, ◌↔◌, IsTrue, pos, ◌≤ℤ◌, ◌<ℤ◌, ◌+ℤ◌, ◌*ℤ◌, unsigned_abs, slice_index_or};
ghost use Rattle.log_laws.specs.Whole.{floor_over};
ghost use Rattle.case_types.specs.Arithmetic.Bounds.{plane_at, plane_times};
ghost use Rattle.case_types.specs.Grid.Columns.{point_of, plane_at_point};

use case_types::{Case, Column, Plane, SLOTS};

/// Whether the column lies below the plane by more than `delta`.
pub fn refutes(n: u8, plane: &Plane, delta: i128, column: &Column) -> bool
    requires few { n ≤ 4 }
    requires up { unsigned_abs column.now.up < 2 ^ 49 }
    requires delta_low { pos 1 ≤ℤ delta }
    requires delta_high { delta ≤ℤ pos (2 ^ 39) }
    ensures { IsTrue result ↔ ((column.now.up +ℤ delta) <ℤ plane_at_point n plane.now.lam (point_of column.now)) }
{
    (column.up as i128) + delta < plane_on(n, plane, &column.comp)
}

/// The plane of `n` components at a composition in 2^-20, rounded down to 2^-40 bit.
pub fn plane_on(n: u8, plane: &Plane, comp: &[u32; SLOTS]) -> i128
    requires { n ≤ 4 }
    ensures value { result ≡ plane_at n plane.now.lam comp.now (2 ^ 20) }
    ensures small { unsigned_abs result ≤ 2 ^ 114 }
{
    rounded_down(plane_sum(n, plane, comp))
}

/// The plane at the feed, rounded down to 2^-40 bit.
pub fn plane_at_feed(case: &Case, plane: &Plane) -> i128
    ensures value { result ≡ plane_at case.now.n plane.now.lam case.now.z case.now.total }
    ensures small { unsigned_abs result ≤ 2 ^ 114 }
{
    for_a_mole(plane_sum(case.n, plane, &case.z), case.total)
}

/// What is for all parts of the feed, for a mole of it: rounded down.
fn for_a_mole(sum: i128, total: u32) -> i128
    requires sum { unsigned_abs sum ≤ 2 ^ 114 }
    requires total { 1 ≤ total }
    ensures value { result ≡ floor_over sum total }
    ensures small { unsigned_abs result ≤ 2 ^ 114 }
{
    sum.div_euclid(total as i128)
}

/// The plane of `n` components at a composition, times the number of its parts, in 2^-40 bit.
pub fn plane_sum(n: u8, plane: &Plane, parts: &[u32; SLOTS]) -> i128
    requires { n ≤ 4 }
    ensures value { result ≡ plane_times n plane.now.lam parts.now }
    ensures small { unsigned_abs result ≤ 2 ^ 114 }
{
    let mut sum = 0;
    for i in 0..n {
        sum += product(potential(plane, i), parts[i as usize]);
    }
    sum
}

/// The potential of the component `i`.
fn potential(plane: &Plane, i: u8) -> i128
    requires { i < 4 }
    ensures value { result ≡ slice_index_or plane.now.lam i (pos 0) }
    ensures small { unsigned_abs result < 2 ^ 80 }
{
    plane.lam[i as usize]
}

/// A potential times a number of parts.
fn product(potential: i128, parts: u32) -> i128
    requires { unsigned_abs potential < 2 ^ 80 }
    ensures value { result ≡ potential *ℤ pos parts }
    ensures small { unsigned_abs result ≤ 2 ^ 112 }
{
    potential * parts as i128
}

/// A number in 2^-60 bit, rounded down to 2^-40 bit.
fn rounded_down(z: i128) -> i128
    requires { unsigned_abs z ≤ 2 ^ 114 }
    ensures value { result ≡ floor_over z (2 ^ 20) }
    ensures small { unsigned_abs result ≤ 2 ^ 114 }
{
    z >> 20
}
