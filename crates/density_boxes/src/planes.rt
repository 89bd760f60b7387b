//! A tangent plane over a box.

ghost use Rattle.std.specs.Prelude.{◌≡◌, ◌≤◌, ◌<◌, ◌^◌, pos, ◌*ℤ◌, ◌≤ℤ◌, unsigned_abs};
ghost use Rattle.log_laws.specs.Sums.{greatest_below};
ghost use Rattle.case_types.specs.Arithmetic.Bounds.{box_of, plane_high, potential as potential_of};
ghost use Rattle.case_types.specs.Energy.Divisions.{State, moles};
ghost use Rattle.case_types.specs.Arithmetic.Holding.{IsInBox};
ghost use Rattle.case_types.specs.Arithmetic.Bounds.{plane_sum};

use case_types::{BoxX, Plane};
use fix_interval::affine_high;

/// The plane of `n` components is at most this at every composition of the box, in 2^-40 bit. As every potential, it is of
/// size below 2^80.
pub fn plane_hi(n: u8, plane: &Plane, x: &BoxX) -> i128
    requires one { 1 ≤ n }
    requires four { n ≤ 4 }
    ensures value { result ≡ plane_high n plane.now.lam (box_of x.now) }
    ensures above { (f : State) →
        IsInBox n (box_of x.now) f →
        plane_sum n (potential_of plane.now.lam) f.parts ≤ℤ (result *ℤ pos (moles n f)) }
    ensures small { unsigned_abs result < 2 ^ 80 }
{
    let rest = n - 1;
    let last = potential(plane, rest);
    greatest(n, plane).min(affine_high(rest, last, &plane.lam, last, &x.a, &x.b))
}

/// The potential of the component `i`.
fn potential(plane: &Plane, i: u8) -> i128
    requires { i < 4 }
    ensures value { result ≡ potential_of plane.now.lam i }
    ensures small { unsigned_abs result < 2 ^ 80 }
{
    plane.lam[i as usize]
}

/// The greatest potential of `n` components.
fn greatest(n: u8, plane: &Plane) -> i128
    requires one { 1 ≤ n }
    requires four { n ≤ 4 }
    ensures value { result ≡ greatest_below n (potential_of plane.now.lam) (potential_of plane.now.lam 0) }
    ensures small { unsigned_abs result < 2 ^ 80 }
{
    let mut most = potential(plane, 0);
    for i in 1..n {
        most = most.max(potential(plane, i));
    }
    most
}
