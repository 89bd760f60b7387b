//! The form of a plane over a cell.

ghost use Rattle.std.specs.Prelude.{◌≡◌, ◌≤◌, ◌<◌, ◌^◌, pos, ◌*ℤ◌, Some, slice_index, unsigned_abs, IsTrue};
ghost use Rattle.log_laws.specs.Interval.{ends, ends_of};
ghost use Rattle.log_laws.specs.Whole.{floor_over, ceil_over};
ghost use Rattle.case_types.specs.Arithmetic.Bounds.{one, plane_sum, potential as potential_of};
ghost use Rattle.case_types.specs.Arithmetic.Numbers.{numbers_of};
ghost use Rattle.case_types.specs.Grid.Cells.{Region};
ghost use Rattle.slope_form.specs.Arithmetic.{capped, ends_if};
ghost use Rattle.slope_form.specs.Forms.{form_if};
ghost use Rattle.tangent_bound.specs.SlopeLows.{has_small_potential, have_small_potentials, plane_form as plane_form_of};
ghost use Rattle.tangent_bound.specs.SlopeParts.{AreFractions};

use crate::fractions::Fractions;
use crate::mix_forms::{NOTHING, mix_form};
use case_types::Plane;
use fix_interval::{cap, outward as rounded_outward};
use log_laws::{Iv, Slope};
use pr_params::Params;

/// The plane of `n` components, where their potentials are of size below 2^60.
pub fn plane_form(params: &Params, plane: &Plane, x: &Fractions) -> Option<Slope>
    ensures { (r : Region) → AreFractions (numbers_of params.now.case).count r x.now → form_if result ≡ plane_form_of (numbers_of params.now.case) plane.now.lam r }
{
    let n = params.case.n;
    if !are_small(n, plane) {
        return None;
    }
    let numbers = [
        potential(n, plane, 0),
        potential(n, plane, 1),
        potential(n, plane, 2),
        potential(n, plane, 3),
    ];
    let at = in_bits(plane_in_middle(n, plane, x));
    mix_form(n, at, Some(NOTHING), &numbers)
}

/// A number in 2^-80, in 2^-40 rounded outward.
fn in_bits(z: i128) -> Option<Iv>
    requires { unsigned_abs z ≤ 2 ^ 102 }
    ensures { ends_if result ≡ capped (floor_over z one) (ceil_over z one) }
{
    let (lo, hi) = rounded_outward(z, z, 40);
    cap(lo, hi)
}

/// Whether the potentials of `n` components are of size below 2^60.
fn are_small(n: u8, plane: &Plane) -> bool
    requires { n ≤ 4 }
    ensures { result ≡ have_small_potentials n plane.now.lam }
{
    for i in 0..n {
        if !is_small(plane, i) {
            return false;
        }
    }
    true
}

/// Whether the potential of the component `i` is of size below 2^60.
fn is_small(plane: &Plane, i: u8) -> bool
    requires { i < 4 }
    ensures { result ≡ has_small_potential plane.now.lam i }
{
    plane.lam[i as usize].unsigned_abs() < 1 << 60
}

/// The potential of the component `i` of `n`, as an interval, and none for one that isn't there.
fn potential(n: u8, plane: &Plane, i: u8) -> Option<Iv>
    requires few { n ≤ 4 }
    requires slot { i < 4 }
    requires small { IsTrue (have_small_potentials n plane.now.lam) }
    ensures { i < n → ends_if result ≡ Some (ends (potential_of plane.now.lam i) (potential_of plane.now.lam i)) }
{
    if i < n {
        Some(exact(plane.lam[i as usize]))
    } else {
        None
    }
}

/// A number as an interval.
fn exact(z: i128) -> Iv
    requires { unsigned_abs z < 2 ^ 60 }
    ensures { ends_of result ≡ ends z z }
{
    Iv { lo: z, hi: z }
}

/// The plane of `n` components in the middle, in 2^-80 bit.
fn plane_in_middle(n: u8, plane: &Plane, x: &Fractions) -> i128
    requires few { n ≤ 4 }
    requires small { IsTrue (have_small_potentials n plane.now.lam) }
    ensures value { result ≡ plane_sum n (potential_of plane.now.lam) (slice_index x.now.middle) }
    ensures small { unsigned_abs result ≤ 2 ^ 102 }
{
    let mut sum = 0;
    for i in 0..n {
        sum += part(plane.lam[i as usize], x.middle_of(i));
    }
    sum
}

/// A potential times a fraction, in 2^-80 bit.
fn part(potential: i128, fraction: u64) -> i128
    requires potential { unsigned_abs potential < 2 ^ 60 }
    requires fraction { fraction ≤ 2 ^ 40 }
    ensures value { result ≡ potential *ℤ pos fraction }
    ensures small { unsigned_abs result ≤ 2 ^ 100 }
{
    potential * fraction as i128
}
