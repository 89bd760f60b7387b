//! The reduced co-volume of a component, `0.07780*P*Tc/(Pc*T)`: Peng and Robinson 1976.

ghost use Rattle.std.specs.Prelude.{◌≡◌, ◌+◌, ◌*◌, ◌/◌, ◌^◌, ◌<◌, ◌≤◌, pos, ◌≤ℤ◌};
ghost use Rattle.log_laws.specs.Whole.{ceil_quotient};
ghost use Rattle.case_types.specs.Energy.Parameters.{covolume_num as num_of, covolume_den as den_of};

use crate::lifting::row_at;
use crate::naturals::interval;
use case_types::Case;
use fix_interval::ratio_ends;
use log_laws::Iv;

/// The numerator of the reduced co-volume of a live component, `389*P*Tc`.
pub fn covolume_num(case: &Case, i: usize) -> u128
    requires { i < case.now.n }
    ensures value { result ≡ num_of case.now i }
    ensures small { result < 2 ^ 56 }
{
    389 * case.p as u128 * row_at(case, i).tc as u128
}

/// The denominator of the reduced co-volume of a live component, `5000*Pc*T`.
pub fn covolume_den(case: &Case, i: usize) -> u128
    requires { i < case.now.n }
    ensures value { result ≡ den_of case.now i }
    ensures positive { 1 ≤ result }
    ensures small { result < 2 ^ 59 }
{
    5000 * row_at(case, i).pc as u128 * case.t as u128
}

/// The ends of `num / den`, in `2^-(56+lift)`.
pub fn covolume(num: u128, den: u128, lift: u32) -> Iv
    requires positive { 1 ≤ den }
    requires den { den < 2 ^ 59 }
    requires lift { lift ≤ 29 }
    requires lifted { num * 2 ^ lift ≤ 32 * den }
    ensures lo { result.lo ≡ pos (num * 2 ^ (56 + lift) / den) }
    ensures hi { result.hi ≡ pos (ceil_quotient (num * 2 ^ (56 + lift)) den) }
    ensures low { pos 0 ≤ℤ result.lo }
    ensures high { result.hi ≤ℤ pos (2 ^ 61) }
{
    let (lo, hi) = ratio_ends(num, den, 56 + lift);
    interval(lo, hi)
}
