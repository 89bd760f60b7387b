//! The mixing terms, at most.

ghost use Rattle.std.specs.Prelude.{◌≡◌, ◌≤◌, ◌<◌, ◌^◌, ◌*◌, pos, ◌*ℤ◌, unsigned_abs, slice_index};
ghost use Rattle.log_laws.specs.Sums.{int_sum_below};
ghost use Rattle.log_laws.specs.Whole.{ceil_div};
ghost use Rattle.case_types.specs.Arithmetic.Bounds.{mixing_up};

use case_types::BoxX;
use log_enclose::Logarithms;

/// 1 in 2^-40.
pub const ONE: u64 = 1 << 40;

/// The sum of the mixing terms of the first `n` components, at most, in 2^-40.
pub fn entropy(logs: Logarithms<'_>, n: u8, x: &BoxX) -> i128
    requires { n ≤ 4 }
    ensures value { result ≡ int_sum_below n (λ i. mixing_up (slice_index x.now.a i) (slice_index x.now.b i)) }
    ensures small { unsigned_abs result ≤ 2 ^ 46 }
{
    let mut sum = 0;
    for i in 0..n {
        sum += mixing_at(logs, x, i);
    }
    sum
}

/// The mixing term of the component `i`, at most.
fn mixing_at(logs: Logarithms<'_>, x: &BoxX, i: u8) -> i128
    requires { i < 4 }
    ensures value { result ≡ mixing_up (slice_index x.now.a i) (slice_index x.now.b i) }
    ensures small { unsigned_abs result ≤ slice_index x.now.a i * 2 ^ 6 }
{
    mixing(logs, x.a[i as usize], x.b[i as usize])
}

/// The mixing term `x log2 x` of a fraction from `a` to `b` in 2^-40, at most. It is 0 where `b` is 0 or 1.
fn mixing(logs: Logarithms<'_>, a: u64, b: u64) -> i128
    requires ordered { a ≤ b }
    requires inside { b ≤ 2 ^ 40 }
    ensures value { result ≡ mixing_up a b }
    ensures small { unsigned_abs result ≤ a * 2 ^ 6 }
{
    if b == 0 || b == ONE {
        return 0;
    }
    ceiling(part(a, logs.upper(b as u128, 40)))
}

/// A fraction times a logarithm.
fn part(a: u64, log: i128) -> i128
    requires a { a ≤ 2 ^ 40 }
    requires log { unsigned_abs log ≤ 2 ^ 46 }
    ensures value { result ≡ pos a *ℤ log }
    ensures small { unsigned_abs result ≤ a * 2 ^ 46 }
{
    a as i128 * log
}

/// A number in 2^-40, rounded up.
fn ceiling(z: i128) -> i128
    requires { unsigned_abs z ≤ 2 ^ 86 }
    ensures value { result ≡ ceil_div z (pos (2 ^ 40)) }
    ensures small { unsigned_abs result ≤ 2 ^ 46 }
{
    -((-z) >> 40)
}
