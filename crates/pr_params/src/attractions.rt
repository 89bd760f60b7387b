//! The reduced attraction of a pair, `(1-k)*0.45724*P*Tc_i*Tc_j*m_i*m_j/(T^2*q_ij)`: Peng and Robinson 1976.

ghost use Rattle.std.specs.Prelude.{◌≡◌, ◌+◌, ◌*◌, ◌/◌, ◌^◌, ◌<◌, ◌≤◌, pos, neg_ℤ, ◌-ℤ◌, ◌*ℤ◌, ◌≤ℤ◌};
ghost use Rattle.log_laws.specs.Whole.{ceil_quotient};

use crate::naturals::interval;
use fix_interval::{ratio_ends, ratio_floor};
use log_laws::Iv;

/// 1 less an interaction in 1e-4, in 1e-4.
fn rest_of(k: i32) -> u128
    requires low { neg_ℤ (pos 5000) ≤ℤ k }
    requires high { k ≤ℤ pos 5000 }
    ensures value { pos result ≡ pos 10000 -ℤ k }
    ensures small { result ≤ 15000 }
{
    (10000 - k) as u128
}

/// `11431*P*Tc_i*Tc_j`.
fn cohesion_of(p: u32, tc: u32, other_tc: u32) -> u128
    requires p { p ≤ 100000000 }
    requires tc { tc ≤ 1500000 }
    requires other_tc { other_tc ≤ 1500000 }
    ensures value { result ≡ 11431 * p * tc * other_tc }
    ensures small { result < 2 ^ 82 }
{
    11431 * p as u128 * tc as u128 * other_tc as u128
}

/// The numerator of the attraction without alpha, `(10000-k)*11431*P*Tc_i*Tc_j`, from `k` in 1e-4.
pub fn cohesion_num(k: i32, p: u32, tc: u32, other_tc: u32) -> u128
    requires k_low { neg_ℤ (pos 5000) ≤ℤ k }
    requires k_high { k ≤ℤ pos 5000 }
    requires p { p ≤ 100000000 }
    requires tc { tc ≤ 1500000 }
    requires other_tc { other_tc ≤ 1500000 }
    ensures value { pos result ≡ (pos 10000 -ℤ k) *ℤ pos (11431 * p * tc * other_tc) }
    ensures small { result < 2 ^ 96 }
{
    rest_of(k) * cohesion_of(p, tc, other_tc)
}

/// The denominator of the attraction without alpha and without the root of the critical pressures, `250000000*T^2`.
pub fn cohesion_den(t: u32) -> u128
    requires t_low { 50000 ≤ t }
    requires t_high { t ≤ 1500000 }
    ensures value { result ≡ 250000000 * t ^ 2 }
    ensures positive { 1 ≤ result }
    ensures high { result ≤ 250000000 * 1500000 ^ 2 }
{
    250_000_000 * t as u128 * t as u128
}

/// The ends of `num / den`, in `2^-(47+lift)`, for a denominator that is known between two ends in `2^-32`.
pub fn bare_attraction(num: u128, den_lo: u128, den_hi: u128, lift: u32) -> Iv
    requires lift { lift ≤ 29 }
    requires positive { 1 ≤ den_lo }
    requires ordered { den_lo ≤ den_hi }
    requires small_den { den_hi < 2 ^ 127 }
    requires fits { num * 2 ^ (79 + lift) ≤ 2 ^ 61 * den_lo }
    ensures lo { result.lo ≡ pos (num * 2 ^ (79 + lift) / den_hi) }
    ensures hi { result.hi ≡ pos (ceil_quotient (num * 2 ^ (79 + lift)) den_lo) }
    ensures high { result.hi ≤ℤ pos (2 ^ 61) }
{
    let lo = ratio_floor(num, den_hi, 79 + lift);
    let (_, hi) = ratio_ends(num, den_lo, 79 + lift);
    interval(lo, hi)
}

/// The attraction at least, in `2^-(49+lift)`, from that without alpha and the roots of alpha in `2^-48`.
pub fn attraction_floor(bare: u128, root: u128, other_root: u128) -> u128
    requires bare { bare ≤ 2 ^ 61 }
    requires root { root ≤ 2 ^ 56 }
    requires other_root { other_root ≤ 2 ^ 56 }
    ensures value { result ≡ bare * (root * other_root / 2 ^ 48) / 2 ^ 46 }
{
    let alpha = root * other_root / (1 << 48);
    bare * alpha / (1 << 46)
}

/// The attraction at most, in `2^-(49+lift)`, from that without alpha and the roots of alpha in `2^-48`.
pub fn attraction_ceil(bare: u128, root: u128, other_root: u128) -> u128
    requires bare { bare ≤ 2 ^ 61 }
    requires root { root ≤ 2 ^ 56 }
    requires other_root { other_root ≤ 2 ^ 56 }
    ensures value { result ≡ ceil_quotient (bare * ceil_quotient (root * other_root) (2 ^ 48)) (2 ^ 46) }
    ensures small { result < 2 ^ 80 }
{
    let alpha = (root * other_root).div_ceil(1 << 48);
    (bare * alpha).div_ceil(1 << 46)
}

/// The ceiling of an attraction over a co-volume, in 2^-40, from ends in `2^-(49+lift)` and `2^-(56+lift)`.
pub fn ratio_of(attraction: u128, covolume: u128) -> u128
    requires ordered { attraction ≤ covolume }
    requires positive { 1 ≤ covolume }
    requires small { covolume < 2 ^ 62 }
    ensures value { result ≡ ceil_quotient (attraction * 2 ^ 47) covolume }
    ensures high { result ≤ 2 ^ 47 }
{
    (attraction * (1 << 47)).div_ceil(covolume)
}
