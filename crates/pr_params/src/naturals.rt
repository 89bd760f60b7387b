//! Intervals of numbers that aren't negative.

ghost use Rattle.std.specs.Prelude.{◌≡◌, ◌<◌, ◌≤◌, ◌^◌, pos, ◌≤ℤ◌};
ghost use Rattle.case_types.specs.Arithmetic.Tables.{no_ends};
ghost use Rattle.log_laws.specs.Interval.{ends, ends_of};

use log_laws::Iv;

/// The interval of two ends that aren't negative.
pub fn interval(lo: u128, hi: u128) -> Iv
    requires ordered { lo ≤ hi }
    requires small { hi < 2 ^ 62 }
    ensures lo { result.lo ≡ pos lo }
    ensures hi { result.hi ≡ pos hi }
{
    Iv {
        lo: lo as i128,
        hi: hi as i128,
    }
}

/// The interval from 0 to 0.
pub fn none() -> Iv
    ensures { ends_of result ≡ no_ends }
{
    Iv { lo: 0, hi: 0 }
}

/// The two ends of an interval of numbers that aren't negative.
pub fn natural_ends(v: Iv) -> (u128, u128)
    requires { pos 0 ≤ℤ v.lo }
    ensures ends { ends (pos result.0) (pos result.1) ≡ ends_of v }
    ensures ordered { result.0 ≤ result.1 }
    ensures small { result.1 < 2 ^ 62 }
{
    (v.lo as u128, v.hi as u128)
}
