//! The share of vapour.

ghost use Rattle.std.specs.Prelude.{◌≡◌, ◌≤◌, ◌^◌, IsTrue, pos, ◌≤ℤ◌, ◌<ℤ◌};
ghost use Rattle.rachford_rice.specs.declared.shares.VapourShare.{VapourShare};
ghost use Rattle.rachford_rice.specs.Sum.{are_ratios, rachford_rice};
ghost use Rattle.rachford_rice.specs.Shares.{IsShareOf};

use crate::sums::sum_at;
use case_types::{Case, SLOTS};

/// All of a feed, in 2^-20.
const ALL: u32 = 1 << 20;

/// How much of a feed is vapour.
#[derive(Clone, Copy, Debug, PartialEq, Eq)]
pub enum VapourShare {
    /// Between two neighbours, in 2^-20.
    Inside { lo: u32, hi: u32 },
    /// Nothing: the feed is a liquid below its bubble point.
    AllLiquid,
    /// All: the feed is a vapour above its dew point.
    AllVapour,
}

/// The share of vapour at the ratios `k` of the fractions in vapour and liquid, in 2^-32.
///
/// By the sum of Rachford and Rice at the share V: all is liquid exactly where it is negative at 0, all is vapour exactly where it
/// isn't negative at 1, and elsewhere it isn't negative at the lower neighbour and is negative at the upper one. Nothing else
/// is right.
pub fn rr(case: &Case, k: &[u64; SLOTS]) -> VapourShare
    requires ratios { IsTrue (are_ratios case.now.n k.now) }
    ensures right { IsShareOf (rachford_rice case.now k.now) result }
    ensures alone { (share : VapourShare) → IsShareOf (rachford_rice case.now k.now) share → share ≡ result }
{
    if sum_at(case, k, 0) < 0 {
        return VapourShare::AllLiquid;
    }
    if sum_at(case, k, ALL) >= 0 {
        return VapourShare::AllVapour;
    }
    inside(case, k)
}

/// The neighbours between which the sum changes its sign, by bisection: at most 20 halvings.
fn inside(case: &Case, k: &[u64; SLOTS]) -> VapourShare
    requires ratios { IsTrue (are_ratios case.now.n k.now) }
    requires first { pos 0 ≤ℤ rachford_rice case.now k.now 0 }
    requires last { rachford_rice case.now k.now (2 ^ 20) <ℤ pos 0 }
    ensures { IsShareOf (rachford_rice case.now k.now) result }
{
    let mut lo = 0;
    let mut hi = ALL;
    while hi - lo > 1 {
        let middle = (lo + hi) / 2;
        if sum_at(case, k, middle) < 0 {
            hi = middle;
        } else {
            lo = middle;
        }
    }
    VapourShare::Inside { lo, hi }
}
