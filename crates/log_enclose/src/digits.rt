//! The binary digits of a logarithm.

ghost use Rattle.std.specs.Prelude.{◌≡◌, ◌+◌, ◌*◌, ◌^◌, ◌≤◌, ◌<◌, pos};
ghost use Rattle.log_laws.specs.Fraction.{whole};
ghost use Rattle.log_laws.specs.LogSum.{AtLeast, AtMost, times_log, ratio};
ghost use Rattle.log_laws.specs.Squaring.{IsNormal, square_down, square_up, digit, next_down, next_up, down, up};

/// A lower end of the logarithm of the mantissa `m / 2^61`, in `2^-bits`.
///
/// It is below the upper end of [`log2_up`] by at most 2.
pub fn log2_down(m: u128, bits: u32) -> u128
    requires normal { IsNormal m }
    requires few { bits ≤ 56 }
    ensures value { result ≡ down m bits }
    ensures small { result < 2 ^ bits }
    ensures below { AtLeast (times_log (whole (pos (2 ^ bits))) (ratio m (2 ^ 61))) (whole (pos result)) }
{
    let mut at = m as u64;
    let mut digits: u64 = 0;
    for _place in 0..bits {
        let (first, rest) = digit_down(at);
        at = rest;
        digits = 2 * digits + first;
    }
    digits as u128
}

/// An upper end of the logarithm of the mantissa `m / 2^61`, in `2^-bits`.
pub fn log2_up(m: u128, bits: u32) -> u128
    requires normal { IsNormal m }
    requires few { bits ≤ 56 }
    ensures value { result ≡ up m bits }
    ensures small { result ≤ 2 ^ bits }
    ensures above { AtMost (times_log (whole (pos (2 ^ bits))) (ratio m (2 ^ 61))) (whole (pos result)) }
    ensures above_lower { down m bits ≤ result }
    ensures near { result ≤ down m bits + 2 }
{
    let mut at = m as u64;
    let mut digits: u64 = 0;
    for _place in 0..bits {
        let (first, rest) = digit_up(at);
        at = rest;
        digits = 2 * digits + first;
    }
    rounded_up(digits, at)
}

/// The lower end of [`log2_down`] of one mantissa and the upper end of [`log2_up`] of another, side by side: neither chain of
/// squarings waits for the other, so both take hardly longer than one.
pub fn log2_both(low: u128, high: u128, bits: u32) -> (u128, u128)
    requires low_normal { IsNormal low }
    requires high_normal { IsNormal high }
    requires few { bits ≤ 56 }
    ensures low { result.0 ≡ down low bits }
    ensures low_small { result.0 < 2 ^ bits }
    ensures high { result.1 ≡ up high bits }
    ensures high_small { result.1 ≤ 2 ^ bits }
{
    let mut low_at = low as u64;
    let mut high_at = high as u64;
    let mut low_digits: u64 = 0;
    let mut high_digits: u64 = 0;
    for _place in 0..bits {
        let (low_first, low_rest) = digit_down(low_at);
        let (high_first, high_rest) = digit_up(high_at);
        low_at = low_rest;
        high_at = high_rest;
        low_digits = 2 * low_digits + low_first;
        high_digits = 2 * high_digits + high_first;
    }
    (low_digits as u128, rounded_up(high_digits, high_at))
}

/// The first digit of a mantissa's logarithm and the mantissa of the other digits, rounded down.
fn digit_down(at: u64) -> (u64, u64)
    requires { IsNormal at }
    ensures first { result.0 ≡ digit (square_down at) }
    ensures rest { result.1 ≡ next_down (square_down at) }
    ensures normal { IsNormal result.1 }
    ensures small { result.0 ≤ 1 }
{
    let square = ((at as u128 * at as u128) >> 61) as u64;
    let first = square >> 62;
    (first, square >> first)
}

/// The first digit of a mantissa's logarithm and the mantissa of the other digits, rounded up.
fn digit_up(at: u64) -> (u64, u64)
    requires { IsNormal at }
    ensures first { result.0 ≡ digit (square_up at) }
    ensures rest { result.1 ≡ next_up (square_up at) }
    ensures normal { IsNormal result.1 }
    ensures small { result.0 ≤ 1 }
{
    let square = ((at as u128 * at as u128 + ((1 << 61) - 1)) >> 61) as u64;
    let first = square >> 62;
    (first, (square + first) >> first)
}

/// All digits rounded up: one more, unless what is left of the mantissa is 1.
fn rounded_up(digits: u64, at: u64) -> u128
    ensures value { result ≡ digits + up at 0 }
    ensures small { result ≤ digits + 1 }
{
    if at == 1 << 61 {
        digits as u128
    } else {
        digits as u128 + 1
    }
}
