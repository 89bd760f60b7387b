//! The two sides of a bound.

ghost use Rattle.std.specs.Prelude.{◌≡◌, ◌≤◌, ◌<◌, ◌*◌, ◌^◌, pos, ◌≤ℤ◌, unsigned_abs};
ghost use Rattle.log_laws.specs.Interval.{ends_of};
ghost use Rattle.case_types.specs.Arithmetic.Bounds.{box_of};
ghost use Rattle.pr_params.specs.Rounding.{end_on, fraction_on, rounded_on};

use crate::covolume_means::{floored, raised};
use case_types::BoxX;
use log_laws::Iv;

/// Whether a number is to be at least or at most what it stands for.
#[derive(Clone, Copy)]
pub enum Bound {
    /// By lower ends, rounded down.
    AtLeast,
    /// By upper ends, rounded up.
    AtMost,
}

impl Bound {
    /// The end of an interval on this side.
    pub fn end(self, v: Iv) -> i128
        ensures value { result ≡ end_on self (ends_of v) }
        ensures small { unsigned_abs result < 2 ^ 62 }
    {
        match self {
            Bound::AtLeast => v.lo,
            Bound::AtMost => v.hi,
        }
    }

    /// The fraction of a component on this side of the box, in 2^-40.
    pub fn fraction(self, x: &BoxX, i: u8) -> u64
        requires { i < 4 }
        ensures value { pos result ≡ fraction_on self (box_of x.now) i }
        ensures inside { result ≤ 2 ^ 40 }
    {
        match self {
            Bound::AtLeast => x.a[i as usize],
            Bound::AtMost => x.b[i as usize],
        }
    }

    /// A number in 2^-40, rounded to this side.
    pub fn rounded(self, z: i128) -> i128
        requires { unsigned_abs z ≤ 2 ^ 106 }
        ensures value { result ≡ rounded_on self z }
        ensures small { unsigned_abs result ≤ 2 ^ 66 }
    {
        match self {
            Bound::AtLeast => floored(z),
            Bound::AtMost => raised(z),
        }
    }
}
