//! Where logarithms come from.

ghost use Rattle.std.specs.Prelude.{◌≡◌, ◌^◌, ◌≤◌, ◌<◌, ℕ, pos, ◌-ℤ◌, ◌*ℤ◌, ◌≤ℤ◌, unsigned_abs};
ghost use Rattle.log_laws.specs.Fraction.{whole};
ghost use Rattle.log_laws.specs.LogSum.{AtLeast, AtMost, times_log, ratio};
ghost use Rattle.log_laws.specs.Squaring.{log_down, log_up, IsSmall};

use crate::ends::{joined, log2_ends, log2_hi, log2_lo, parts_of};
use crate::store::LogStore;
use log_laws::Iv;

/// Logarithms to the base 2, each made anew by squaring, or looked up in a store first. The answers are the same.
#[derive(Clone, Copy)]
pub enum Logarithms<'a> {
    Anew,
    Kept(&'a LogStore),
}

impl Logarithms<'_> {
    /// A lower end of the logarithm of `n / 2^scale`, in `2^-40`: that of [`log2_lo`].
    pub fn lower(self, n: u128, scale: u32) -> i128
        requires positive { 1 ≤ n }
        requires below { n < 2 ^ 62 }
        requires scaled { scale ≤ 100 }
        ensures value { result ≡ log_down n scale }
        ensures small { IsSmall result }
        ensures from_power { (k : ℕ) → 2 ^ k ≤ n → ((pos k -ℤ pos scale) *ℤ pos (2 ^ 40)) ≤ℤ result }
        ensures to_power { (k : ℕ) → n < 2 ^ k → result ≤ℤ ((pos k -ℤ pos scale) *ℤ pos (2 ^ 40)) }
    {
        match self {
            Logarithms::Anew => log2_lo(n, scale),
            Logarithms::Kept(store) => {
                let (exponent, mantissa) = parts_of(n);
                joined(
                    exponent,
                    scale,
                    store.ends_of(mantissa as u64).lower as u128,
                )
            }
        }
    }

    /// An upper end of the logarithm of `n / 2^scale`, in `2^-40`: that of [`log2_hi`].
    pub fn upper(self, n: u128, scale: u32) -> i128
        requires positive { 1 ≤ n }
        requires below { n < 2 ^ 62 }
        requires scaled { scale ≤ 100 }
        ensures value { result ≡ log_up n scale }
        ensures small { IsSmall result }
        ensures from_power { (k : ℕ) → 2 ^ k ≤ n → ((pos k -ℤ pos scale) *ℤ pos (2 ^ 40)) ≤ℤ result }
        ensures to_power { (k : ℕ) → n < 2 ^ k → result ≤ℤ ((pos k -ℤ pos scale) *ℤ pos (2 ^ 40)) }
    {
        match self {
            Logarithms::Anew => log2_hi(n, scale),
            Logarithms::Kept(store) => {
                let (exponent, mantissa) = parts_of(n);
                joined(
                    exponent,
                    scale,
                    store.ends_of(mantissa as u64).upper as u128,
                )
            }
        }
    }

    /// A lower end of the logarithm of `low / 2^scale` and an upper end of that of `high / 2^scale`, in `2^-40`.
    fn ends(self, low: u128, high: u128, scale: u32) -> (i128, i128)
        requires low_positive { 1 ≤ low }
        requires low_below { low < 2 ^ 62 }
        requires high_positive { 1 ≤ high }
        requires high_below { high < 2 ^ 62 }
        requires scaled { scale ≤ 100 }
        ensures low { result.0 ≡ log_down low scale }
        ensures high { result.1 ≡ log_up high scale }
        ensures low_small { IsSmall result.0 }
        ensures high_small { IsSmall result.1 }
    {
        match self {
            Logarithms::Anew => log2_ends(low, high, scale),
            Logarithms::Kept(_) => (self.lower(low, scale), self.upper(high, scale)),
        }
    }

    /// Ends of the logarithms of all `n / 2^scale` with n in the interval, in `2^-40`.
    pub fn of(self, a: Iv, scale: u32) -> Iv
        requires positive { pos 1 ≤ℤ a.lo }
        requires scaled { scale ≤ 100 }
        ensures lo { result.lo ≡ log_down (unsigned_abs a.lo) scale }
        ensures hi { result.hi ≡ log_up (unsigned_abs a.hi) scale }
        ensures at_least { (n : ℕ) → a.lo ≤ℤ pos n → pos n ≤ℤ a.hi →
            AtLeast (times_log (whole (pos 1)) (ratio n (2 ^ scale))) (record { num = result.lo; den = 2 ^ 40 }) }
        ensures at_most { (n : ℕ) → a.lo ≤ℤ pos n → pos n ≤ℤ a.hi →
            AtMost (times_log (whole (pos 1)) (ratio n (2 ^ scale))) (record { num = result.hi; den = 2 ^ 40 }) }
    {
        let (lo, hi) = self.ends(a.lo as u128, a.hi as u128, scale);
        Iv { lo, hi }
    }
}

/// Ends of the logarithms of all `n / 2^scale` with n in the interval, in `2^-40`, made anew.
pub fn log2_iv(a: Iv, scale: u32) -> Iv
    requires positive { pos 1 ≤ℤ a.lo }
    requires scaled { scale ≤ 100 }
    ensures lo { result.lo ≡ log_down (unsigned_abs a.lo) scale }
    ensures hi { result.hi ≡ log_up (unsigned_abs a.hi) scale }
    ensures at_least { (n : ℕ) → a.lo ≤ℤ pos n → pos n ≤ℤ a.hi →
        AtLeast (times_log (whole (pos 1)) (ratio n (2 ^ scale))) (record { num = result.lo; den = 2 ^ 40 }) }
    ensures at_most { (n : ℕ) → a.lo ≤ℤ pos n → pos n ≤ℤ a.hi →
        AtMost (times_log (whole (pos 1)) (ratio n (2 ^ scale))) (record { num = result.hi; den = 2 ^ 40 }) }
{
    Logarithms::Anew.of(a, scale)
}
