//! The logarithm of the attraction term, `log2((1+y+s*y)/(1+y-s*y))` with s the root of 2.

ghost use Rattle.std.specs.Prelude.{◌≡◌, ◌+◌, ◌≤◌, ◌^◌, unsigned_abs};
ghost use Rattle.log_laws.specs.Fraction.{Fraction, IsAtMost};
ghost use Rattle.log_laws.specs.LogSum.{AtLeast, AtMost, ratio};
ghost use Rattle.case_types.specs.declared.cases.Case.{Case};
ghost use Rattle.case_types.specs.Energy.Divisions.{bits, log_of, attraction_argument};
ghost use Rattle.case_types.specs.Energy.Instances.{Instance, IsInstance};
ghost use Rattle.case_types.specs.Arithmetic.Numbers.{numbers_of, enclosures_of};
ghost use Rattle.case_types.specs.Arithmetic.Bounds.{lambda_up, lambda_down, stretched_up, stretched_down};
ghost use Rattle.pr_params.specs.Packings.{IsPacking};

use crate::constants::{ROOT_TWO_HI, ROOT_TWO_LO};
use crate::naturals::interval;
use crate::numbers::Params;
use log_enclose::Logarithms;
use log_laws::Iv;

/// 1 in 2^-40.
const ONE: u128 = 1 << 40;

/// The logarithm at the packing fraction `y` in 2^-40, at least and at most, in 2^-40.
pub fn lambda_ends(logs: Logarithms<'_>, y: u64) -> Iv
    requires { y ≤ 2 ^ 40 }
    ensures lo { (c : Case) → result.lo ≡ lambda_down (numbers_of c) y }
    ensures hi { (c : Case) → result.hi ≡ lambda_up (numbers_of c) y }
    ensures at_least { (c : Case) (x : Instance) (packing : Fraction) →
        IsInstance c (enclosures_of c) x →
        IsPacking packing →
        IsAtMost (ratio y (2 ^ 40)) packing →
        AtLeast (log_of (attraction_argument x.root_two packing)) (bits result.lo) }
    ensures at_most { (c : Case) (x : Instance) (packing : Fraction) →
        IsInstance c (enclosures_of c) x →
        IsPacking packing →
        IsAtMost packing (ratio y (2 ^ 40)) →
        AtMost (log_of (attraction_argument x.root_two packing)) (bits result.hi) }
    ensures lo_small { unsigned_abs result.lo ≤ 2 ^ 42 }
    ensures hi_small { unsigned_abs result.hi ≤ 2 ^ 42 }
{
    let (lo, hi) = stretched(y);
    let whole = ONE + y as u128;
    let above = logs.of(interval(whole + lo, whole + hi), 40);
    let below = logs.of(interval(whole - hi, whole - lo), 40);
    Iv {
        lo: above.lo - below.hi,
        hi: above.hi - below.lo,
    }
}

/// The logarithm at most, in 2^-40, at the packing fraction `y` in 2^-40.
pub fn lam_hi(_params: &Params, y: u64) -> i128
    requires { y ≤ 2 ^ 40 }
    ensures value { result ≡ lambda_up (numbers_of _params.now.case) y }
    ensures at_most { (x : Instance) (packing : Fraction) →
        IsInstance _params.now.case (enclosures_of _params.now.case) x →
        IsPacking packing →
        IsAtMost packing (ratio y (2 ^ 40)) →
        AtMost (log_of (attraction_argument x.root_two packing)) (bits result) }
    ensures small { unsigned_abs result ≤ 2 ^ 42 }
{
    lambda_ends(Logarithms::Anew, y).hi
}

/// The logarithm at least, in 2^-40, at the packing fraction `y` in 2^-40.
pub fn lam_lo(_params: &Params, y: u64) -> i128
    requires { y ≤ 2 ^ 40 }
    ensures value { result ≡ lambda_down (numbers_of _params.now.case) y }
    ensures at_least { (x : Instance) (packing : Fraction) →
        IsInstance _params.now.case (enclosures_of _params.now.case) x →
        IsPacking packing →
        IsAtMost (ratio y (2 ^ 40)) packing →
        AtLeast (log_of (attraction_argument x.root_two packing)) (bits result) }
    ensures small { unsigned_abs result ≤ 2 ^ 42 }
{
    lambda_ends(Logarithms::Anew, y).lo
}

/// The root of 2 times the packing fraction, rounded down and rounded up.
fn stretched(y: u64) -> (u128, u128)
    requires { y ≤ 2 ^ 40 }
    ensures down { (c : Case) → result.0 ≡ stretched_down (numbers_of c) y }
    ensures up { (c : Case) → result.1 ≡ stretched_up (numbers_of c) y }
    ensures ordered { result.0 ≤ result.1 }
    ensures low { y ≤ result.0 }
    ensures high { result.1 ≤ 2 ^ 39 + y }
{
    let y = y as u128;
    (
        ROOT_TWO_LO * y / (1 << 60),
        (ROOT_TWO_HI * y).div_ceil(1 << 60),
    )
}
