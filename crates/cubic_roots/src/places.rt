//! Places between which the pressure passes that of the case.

ghost use Rattle.std.specs.Prelude.{◌≡◌, ◌≤◌, ◌<◌, ◌+◌, ◌++◌, ◌⊎◌, ◌^◌, true, false, length, All, MatchOption};
ghost use Rattle.std.specs.List.Sorted.{IsStrictlyIncreasing};
ghost use Rattle.std.specs.Option.{option_to_list};
ghost use Rattle.case_types.specs.Arithmetic.Numbers.{numbers_of};
ghost use Rattle.case_types.specs.Arithmetic.Bounds.{box_of};
ghost use Rattle.cubic_roots.specs.Pressures.{ChangesSign, IsPlace};
ghost use Rattle.cubic_roots.specs.Middles.{is_above, IsRiseBetween};

use crate::bends::bends;
use crate::middles::{Middles, ONE, middles_over};
use arrayvec::ArrayVec;
use case_types::BoxX;
use pr_params::Params;

/// One to three packing fractions in 2^-40, rising: between each and the next number in 2^-40 the pressure of the equation of
/// Peng and Robinson passes that of the case, at the middles of the parameters over the box.
///
/// The root of a gas and that of a liquid are looked for, on both sides of where the pressure bends. Not all roots need be
/// found.
pub fn packings(params: &Params, x: &BoxX) -> ArrayVec<u64, 3>
    ensures some { 1 ≤ length result.items }
    ensures few { length result.items ≤ 3 }
    ensures inside { All IsPlace result.items }
    ensures changes { All (ChangesSign (numbers_of params.now.case) (box_of x.now)) result.items }
    ensures rising { IsStrictlyIncreasing result.items }
{
    let middles = middles_over(params, x);
    let (left, right) = bends(&middles);
    both(place(&middles, 1, left), place(&middles, right, ONE - 1))
}

/// Those of two places that there are.
fn both(lower: Option<u64>, upper: Option<u64>) -> ArrayVec<u64, 3>
    ensures { result.items ≡ option_to_list lower ++ option_to_list upper }
{
    let mut places = ArrayVec::new();
    if let Some(place) = lower {
        places.push(place);
    }
    if let Some(place) = upper {
        places.push(place);
    }
    places
}

/// A place where the pressure rises past that of the case, if it does so from one end to the other.
fn place(middles: &Middles, from: u64, to: u64) -> Option<u64>
    requires some { 1 ≤ from }
    requires ordered { from ≤ to }
    requires inside { to < 2 ^ 40 }
    ensures { MatchOption result
        ((is_above middles.now from ≡ true) ⊎ (is_above middles.now to ≡ false))
        (IsRiseBetween middles.now from to) }
{
    if middles.is_above(from) || !middles.is_above(to) {
        return None;
    }
    Some(rise(middles, from, to))
}

/// That place, by halving.
fn rise(middles: &Middles, from: u64, to: u64) -> u64
    requires ordered { from ≤ to }
    requires inside { to < 2 ^ 40 }
    requires from_below { is_above middles.now from ≡ false }
    requires to_above { is_above middles.now to ≡ true }
    ensures { IsRiseBetween middles.now from to result }
{
    let mut below = from;
    let mut above = to;
    while above - below > 1 {
        let middle = (below + above) / 2;
        if middles.is_above(middle) {
            above = middle;
        } else {
            below = middle;
        }
    }
    below
}
