//! The mean co-volume and the mean attraction over it, at every composition of a box.

ghost use Rattle.std.specs.Prelude.{◌≡◌, ◌≤◌, ◌<◌, ◌^◌, ◌+◌, ◌*◌, ◌/◌, pos, ◌*ℤ◌, ◌≤ℤ◌};
ghost use Rattle.log_laws.specs.Whole.{floor_div, ceil_div, ceil_quotient};
ghost use Rattle.log_laws.specs.Interval.{ends_of};
ghost use Rattle.log_laws.specs.Between.{IsBetween};
ghost use Rattle.log_laws.specs.Fraction.{IsAtMost};
ghost use Rattle.case_types.specs.Arithmetic.Numbers.{numbers_of, enclosures_of};
ghost use Rattle.case_types.specs.Arithmetic.Bounds.{attraction_high, attraction_low, covolume_range, ratio_high, ratio_low};
ghost use Rattle.case_types.specs.Energy.Divisions.{State, moles, bits, mean_covolume};
ghost use Rattle.case_types.specs.Arithmetic.Holding.{IsInBox, attraction_ratio};
ghost use Rattle.case_types.specs.Energy.Instances.{Instance, IsInstance};
ghost use Rattle.case_types.specs.Arithmetic.Bounds.{box_of};

use crate::attraction_means::attraction;
use crate::bounds::Bound;
use crate::covolume_means::{
    greater, greatest_covolume, high_by_rest, least_covolume, lesser, low_by_rest,
};
use crate::numbers::Params;
use crate::readers::greatest_of;
use case_types::BoxX;
use log_laws::Iv;

/// The range of the mean reduced co-volume over a box, in `2^-(56+lift)`.
pub fn b_range(params: &Params, x: &BoxX) -> Iv
    ensures ends { ends_of result ≡ covolume_range (numbers_of params.now.case) (box_of x.now) }
    ensures low { pos (2 ^ 50) ≤ℤ result.lo }
    ensures high { result.hi ≤ℤ pos (2 ^ 61) }
    ensures holds { (f : State) →
        IsInBox params.now.case.n (box_of x.now) f → 0 < moles params.now.case.n f →
        IsBetween (ends_of result) (2 ^ (56 + (numbers_of params.now.case).lift)) (mean_covolume params.now.case f) }
{
    Iv {
        lo: greater(least_covolume(params), low_by_rest(params, x)),
        hi: lesser(greatest_covolume(params), high_by_rest(params, x)),
    }
}

/// The mean reduced attraction over a box, at least and at most, in `2^-(49+lift)`.
pub fn attraction_range(params: &Params, x: &BoxX) -> (i128, i128)
    ensures low { result.0 ≡ attraction_low (numbers_of params.now.case) (box_of x.now) }
    ensures high { result.1 ≡ attraction_high (numbers_of params.now.case) (box_of x.now) }
    ensures low_positive { pos 0 ≤ℤ result.0 }
    ensures low_small { result.0 ≤ℤ pos (2 ^ 66) }
    ensures high_positive { pos 0 ≤ℤ result.1 }
    ensures high_small { result.1 ≤ℤ pos (2 ^ 66) }
{
    let low = attraction(params, x, Bound::AtLeast);
    let high = attraction(params, x, Bound::AtMost);
    (low, high)
}

/// The mean attraction over the mean co-volume at most, over a box, in 2^-40.
pub fn g_hi(params: &Params, x: &BoxX) -> i128
    ensures value { result ≡ ratio_high (numbers_of params.now.case) (box_of x.now) }
    ensures low { pos 0 ≤ℤ result }
    ensures high { result ≤ℤ pos (2 ^ 47) }
    ensures at_most { (i : Instance) (f : State) →
        IsInstance params.now.case (enclosures_of params.now.case) i →
        IsInBox params.now.case.n (box_of x.now) f → 0 < moles params.now.case.n f →
        IsAtMost (attraction_ratio params.now.case i f) (bits result) }
{
    let ratio = ratio_up(attraction(params, x, Bound::AtMost), b_range(params, x).lo);
    lesser(ratio, greatest_of(params))
}

/// The mean attraction over the mean co-volume at least, over a box, in 2^-40.
pub fn g_lo(params: &Params, x: &BoxX) -> i128
    ensures value { result ≡ ratio_low (numbers_of params.now.case) (box_of x.now) }
    ensures low { pos 0 ≤ℤ result }
    ensures high { result ≤ℤ pos (2 ^ 47) }
    ensures at_least { (i : Instance) (f : State) →
        IsInstance params.now.case (enclosures_of params.now.case) i →
        IsInBox params.now.case.n (box_of x.now) f → 0 < moles params.now.case.n f →
        IsAtMost (bits result) (attraction_ratio params.now.case i f) }
{
    ratio_down(attraction(params, x, Bound::AtLeast), b_range(params, x).hi)
}

/// The ceiling of an attraction over a co-volume, in 2^-40, from ends in `2^-(49+lift)` and `2^-(56+lift)`.
fn ratio_up(attraction: i128, covolume: i128) -> i128
    requires attraction_low { pos 0 ≤ℤ attraction }
    requires attraction_high { attraction ≤ℤ pos (2 ^ 66) }
    requires covolume_low { pos (2 ^ 50) ≤ℤ covolume }
    requires covolume_high { covolume ≤ℤ pos (2 ^ 61) }
    ensures value { result ≡ ceil_div (attraction *ℤ pos (2 ^ 47)) covolume }
    ensures low { pos 0 ≤ℤ result }
    ensures high { result ≤ℤ pos (2 ^ 64) }
{
    ceil_ratio(attraction as u128, covolume as u128) as i128
}

/// The same for natural numbers.
fn ceil_ratio(attraction: u128, covolume: u128) -> u128
    requires attraction { attraction ≤ 2 ^ 66 }
    requires covolume { 2 ^ 50 ≤ covolume }
    ensures value { result ≡ ceil_quotient (attraction * 2 ^ 47) covolume }
    ensures high { result ≤ 2 ^ 64 }
{
    (attraction * (1 << 47)).div_ceil(covolume)
}

/// The floor of an attraction over a co-volume, in 2^-40, from ends in `2^-(49+lift)` and `2^-(56+lift)`.
fn ratio_down(attraction: i128, covolume: i128) -> i128
    requires attraction_low { pos 0 ≤ℤ attraction }
    requires attraction_high { attraction ≤ℤ pos (2 ^ 66) }
    requires covolume_low { pos (2 ^ 50) ≤ℤ covolume }
    requires covolume_high { covolume ≤ℤ pos (2 ^ 61) }
    ensures value { result ≡ floor_div (attraction *ℤ pos (2 ^ 47)) covolume }
    ensures low { pos 0 ≤ℤ result }
    ensures high { result ≤ℤ pos (2 ^ 64) }
{
    floor_ratio(attraction as u128, covolume as u128) as i128
}

/// The same for natural numbers.
fn floor_ratio(attraction: u128, covolume: u128) -> u128
    requires attraction { attraction ≤ 2 ^ 66 }
    requires covolume { 2 ^ 50 ≤ covolume }
    ensures value { result ≡ attraction * 2 ^ 47 / covolume }
    ensures high { result ≤ 2 ^ 64 }
{
    attraction * (1 << 47) / covolume
}
