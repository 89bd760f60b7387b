//! The root of alpha of a component, `1 + kappa*(1 - root of T/Tc)`: Peng and Robinson 1976, Robinson and Peng 1978.

ghost use Rattle.std.specs.Prelude.{◌≡◌, ◌*◌, ◌^◌, ◌<◌, ◌≤◌, pos, neg_ℤ, ◌+ℤ◌, ◌-ℤ◌, ◌*ℤ◌, ◌≤ℤ◌, ◌<ℤ◌, unsigned_abs};
ghost use Rattle.std.specs.Int.{int_min, int_max};
ghost use Rattle.log_laws.specs.Interval.{ends_of};
ghost use Rattle.log_laws.specs.Roots.{root_ends};
ghost use Rattle.log_laws.specs.Whole.{floor_over, ceil_over};
ghost use Rattle.case_types.specs.Energy.Parameters.{kappa_of, kappa_1976 as usual_kappa, kappa_1978 as heavy_kappa, kappa_scale, parabola as parabola_at};

use case_types::{Edition, Row};
use log_laws::Iv;
use root_enclose::root_iv;

const ONE: i128 = 1 << 48;

const KAPPA_SCALE: i128 = 1_000_000_000_000_000_000;

/// The ends of the root of T/Tc, in 2^-48.
pub fn temperature_root(t: u32, tc: u32) -> Iv
    requires t_high { t ≤ 1500000 }
    requires tc_low { 5000 ≤ tc }
    ensures ends { ends_of result ≡ root_ends t tc 48 }
    ensures low { pos 0 ≤ℤ result.lo }
    ensures high { result.hi <ℤ pos (2 ^ 53) }
{
    root_iv(t as u128, tc as u128, 48)
}

/// The slope kappa of alpha of a component, in 1e-18, by the edition.
pub fn kappa(row: &Row, edition: Edition) -> i128
    requires low { neg_ℤ (pos 5000) ≤ℤ row.now.w }
    requires high { row.now.w ≤ℤ pos 15000 }
    ensures value { result ≡ kappa_of edition row.now.w }
    ensures small { unsigned_abs result < 2 ^ 62 }
{
    match edition {
        Edition::Y1976 => kappa_1976(row.w),
        Edition::Y1978 => {
            if row.w > 4900 {
                kappa_1978(row.w)
            } else {
                kappa_1976(row.w)
            }
        }
    }
}

/// `0.37464 + 1.54226*w - 0.26992*w^2` in 1e-18, from the acentric factor in 1e-4: Peng and Robinson 1976.
fn kappa_1976(w: i32) -> i128
    requires { unsigned_abs w ≤ 15000 }
    ensures value { result ≡ usual_kappa w }
    ensures small { unsigned_abs result < 2 ^ 62 }
{
    parabola(
        374_640_000_000_000_000,
        154_226_000_000_000,
        2_699_200_000,
        w as i128,
    )
}

/// `0.379642 + 1.48503*w - 0.164423*w^2 + 0.016666*w^3` in 1e-18, from the acentric factor in 1e-4: Robinson and Peng 1978.
fn kappa_1978(w: i32) -> i128
    requires { unsigned_abs w ≤ 15000 }
    ensures value { result ≡ heavy_kappa w }
    ensures small { unsigned_abs result < 2 ^ 62 }
{
    let w = w as i128;
    let bent = parabola(
        379_642_000_000_000_000,
        148_503_000_000_000,
        1_644_230_000,
        w,
    );
    bent + times(times(times(16_666, w), w), w)
}

/// `a + b*w - c*w^2`.
fn parabola(a: i128, b: i128, c: i128, w: i128) -> i128
    requires a { unsigned_abs a < 2 ^ 59 }
    requires b { unsigned_abs b < 2 ^ 48 }
    requires c { unsigned_abs c < 2 ^ 32 }
    requires w { unsigned_abs w < 2 ^ 14 }
    ensures value { result ≡ parabola_at a b c w }
    ensures small { unsigned_abs result < 2 ^ 63 }
{
    a + times(b, w) - times(times(c, w), w)
}

/// The product of a number and an acentric factor.
fn times(number: i128, w: i128) -> i128
    requires number { unsigned_abs number < 2 ^ 48 }
    requires w { unsigned_abs w < 2 ^ 14 }
    ensures value { result ≡ number *ℤ w }
    ensures small { unsigned_abs result ≤ unsigned_abs number * 2 ^ 14 }
{
    number * w
}

/// Kappa times 1 less a root, in 1e-18 times 2^-48.
fn slope_at(kappa: i128, root: i128) -> i128
    requires kappa { unsigned_abs kappa < 2 ^ 62 }
    requires root_low { pos 0 ≤ℤ root }
    requires root_high { root <ℤ pos (2 ^ 53) }
    ensures value { result ≡ kappa *ℤ (pos (2 ^ 48) -ℤ root) }
    ensures small { unsigned_abs result < 2 ^ 115 }
{
    kappa * (ONE - root)
}

/// A number in 1e-18, rounded down.
fn unscaled_floor(z: i128) -> i128
    requires { unsigned_abs z < 2 ^ 115 }
    ensures value { result ≡ floor_over z kappa_scale }
    ensures small { unsigned_abs result ≤ 3 * 2 ^ 54 }
{
    z.div_euclid(KAPPA_SCALE)
}

/// A number in 1e-18, rounded up.
fn unscaled_ceil(z: i128) -> i128
    requires { unsigned_abs z < 2 ^ 115 }
    ensures value { result ≡ ceil_over z kappa_scale }
    ensures small { unsigned_abs result ≤ 3 * 2 ^ 54 }
{
    -unscaled_floor(-z)
}

/// The root of alpha, in 2^-48, from kappa in 1e-18 and the root of T/Tc in 2^-48.
pub fn alpha_root(kappa: i128, root: Iv) -> Iv
    requires kappa { unsigned_abs kappa < 2 ^ 62 }
    requires root_low { pos 0 ≤ℤ root.lo }
    requires root_high { root.hi <ℤ pos (2 ^ 53) }
    ensures lo { result.lo ≡ pos (2 ^ 48) +ℤ
        floor_over (int_min (kappa *ℤ (pos (2 ^ 48) -ℤ root.lo)) (kappa *ℤ (pos (2 ^ 48) -ℤ root.hi))) kappa_scale }
    ensures hi { result.hi ≡ pos (2 ^ 48) +ℤ
        ceil_over (int_max (kappa *ℤ (pos (2 ^ 48) -ℤ root.lo)) (kappa *ℤ (pos (2 ^ 48) -ℤ root.hi))) kappa_scale }
    ensures lo_small { unsigned_abs result.lo < 2 ^ 56 }
    ensures hi_small { unsigned_abs result.hi < 2 ^ 56 }
{
    let at_lo = slope_at(kappa, root.lo);
    let at_hi = slope_at(kappa, root.hi);
    Iv {
        lo: ONE + unscaled_floor(at_lo.min(at_hi)),
        hi: ONE + unscaled_ceil(at_lo.max(at_hi)),
    }
}
