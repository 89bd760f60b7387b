//! Logarithms of fractions whose denominator is a power of 2.

ghost use Rattle.std.specs.Prelude.{◌≡◌, ◌^◌, ◌≤◌, ◌<◌, ℕ, pos, ◌+ℤ◌, ◌-ℤ◌, ◌*ℤ◌, ◌≤ℤ◌, unsigned_abs, ◌+◌, ◌*◌, ◌-◌};
ghost use Rattle.log_laws.specs.Interval.{ends_of};
ghost use Rattle.log_laws.specs.LogE.{log_e_ends, HoldsLogE};
ghost use Rattle.log_laws.specs.Logarithms.{LogOfMore, LogOfLess};
ghost use Rattle.log_laws.specs.Fraction.{whole};
ghost use Rattle.log_laws.specs.LogSum.{AtLeast, AtMost, times_log, ratio};
ghost use Rattle.log_laws.specs.Squaring.{exponent, log_down, log_up, IsNormal, IsSmall};

use crate::digits::{log2_both, log2_down, log2_up};
use log_laws::Iv;

/// A lower end of the logarithm of `n / 2^scale`, in `2^-40`.
pub fn log2_lo(n: u128, scale: u32) -> i128
    requires positive { 1 ≤ n }
    requires below { n < 2 ^ 62 }
    requires scaled { scale ≤ 100 }
    ensures value { result ≡ log_down n scale }
    ensures at_least { AtLeast (times_log (whole (pos 1)) (ratio n (2 ^ scale))) (record { num = result; den = 2 ^ 40 }) }
    ensures small { IsSmall result }
    ensures from_power { (k : ℕ) → 2 ^ k ≤ n → ((pos k -ℤ pos scale) *ℤ pos (2 ^ 40)) ≤ℤ result }
    ensures to_power { (k : ℕ) → n < 2 ^ k → result ≤ℤ ((pos k -ℤ pos scale) *ℤ pos (2 ^ 40)) }
{
    let (exponent, mantissa) = parts_of(n);
    joined(exponent, scale, log2_down(mantissa, 40))
}

/// An upper end of the logarithm of `n / 2^scale`, in `2^-40`.
pub fn log2_hi(n: u128, scale: u32) -> i128
    requires positive { 1 ≤ n }
    requires below { n < 2 ^ 62 }
    requires scaled { scale ≤ 100 }
    ensures value { result ≡ log_up n scale }
    ensures at_most { AtMost (times_log (whole (pos 1)) (ratio n (2 ^ scale))) (record { num = result; den = 2 ^ 40 }) }
    ensures small { IsSmall result }
    ensures from_power { (k : ℕ) → 2 ^ k ≤ n → ((pos k -ℤ pos scale) *ℤ pos (2 ^ 40)) ≤ℤ result }
    ensures to_power { (k : ℕ) → n < 2 ^ k → result ≤ℤ ((pos k -ℤ pos scale) *ℤ pos (2 ^ 40)) }
{
    let (exponent, mantissa) = parts_of(n);
    joined(exponent, scale, log2_up(mantissa, 40))
}

/// A lower end of the logarithm of `low / 2^scale` and an upper end of that of `high / 2^scale`, in `2^-40`: [`log2_lo`] of
/// the one and [`log2_hi`] of the other, in hardly more than the time of one.
pub fn log2_ends(low: u128, high: u128, scale: u32) -> (i128, i128)
    requires low_positive { 1 ≤ low }
    requires low_below { low < 2 ^ 62 }
    requires high_positive { 1 ≤ high }
    requires high_below { high < 2 ^ 62 }
    requires scaled { scale ≤ 100 }
    ensures low { result.0 ≡ log_down low scale }
    ensures high { result.1 ≡ log_up high scale }
    ensures low_small { IsSmall result.0 }
    ensures high_small { IsSmall result.1 }
{
    let (low_exponent, low_mantissa) = parts_of(low);
    let (high_exponent, high_mantissa) = parts_of(high);
    let (low_digits, high_digits) = log2_both(low_mantissa, high_mantissa, 40);
    (
        joined(low_exponent, scale, low_digits),
        joined(high_exponent, scale, high_digits),
    )
}

/// The exponent of a number and its mantissa, in `2^-61`.
pub(crate) fn parts_of(n: u128) -> (u32, u128)
    requires positive { 1 ≤ n }
    requires below { n < 2 ^ 62 }
    ensures exponent { result.0 ≡ exponent n }
    ensures mantissa { result.1 ≡ n * 2 ^ (61 - exponent n) }
    ensures few { result.0 ≤ 61 }
    ensures normal { IsNormal result.1 }
{
    let exponent = 127 - n.leading_zeros();
    (exponent, n << (61 - exponent))
}

/// A logarithm in `2^-40` from the exponent of the number, its scale and the digits of its mantissa.
pub(crate) fn joined(exponent: u32, scale: u32, digits: u128) -> i128
    requires exponent { exponent ≤ 61 }
    requires scaled { scale ≤ 100 }
    requires digits { digits ≤ 2 ^ 40 }
    ensures value { result ≡ (pos exponent -ℤ pos scale) *ℤ pos (2 ^ 40) +ℤ pos digits }
    ensures small { IsSmall result }
{
    (exponent as i128 - scale as i128) * (1 << 40) + digits as i128
}

/// The ends of the logarithm of e, in `2^-40`.
///
/// With M = 2^24, e lies between (1 + 1/M)^M and (1 + 1/M)^(M+1). The logarithm of `1 + d` is at most d times the upper end
/// for d of at least 0, and at most d times the lower end for d above -1 and at most 0.
pub fn log2e() -> Iv
    ensures ends { ends_of result ≡ log_e_ends }
    ensures lo { result.lo ≡ pos 1586259924992 }
    ensures hi { result.hi ≡ pos 1586260020565 }
    ensures right { HoldsLogE (ends_of result) }
    ensures more { LogOfMore (ends_of result) }
    ensures less { LogOfLess (ends_of result) }
{
    Iv {
        lo: 1_586_259_924_992,
        hi: 1_586_260_020_565,
    }
}
