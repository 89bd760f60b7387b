//! Quotients of numbers past 128 bits.

ghost use Rattle.std.specs.Prelude.{◌≡◌, ◌*◌, ◌/◌, ◌%◌, ◌<◌, ◌≤◌, ◌^◌, pos};
ghost use Rattle.log_laws.specs.Whole.{ceil_quotient};
ghost use Rattle.log_laws.specs.LogSum.{ratio};
ghost use Rattle.log_laws.specs.Between.{IsBetween};
ghost use Rattle.log_laws.specs.Interval.{ends};

/// `num`*2^`bits` over `den`, rounded down, and what is left, by long division in binary digits.
fn long_division(num: u128, den: u128, bits: u32) -> (u128, u128)
    requires positive { 1 ≤ den }
    requires den_fits { den < 2 ^ 127 }
    requires fits { num * 2 ^ bits / den < 2 ^ 127 }
    ensures quotient { result.0 ≡ num * 2 ^ bits / den }
    ensures rest { result.1 ≡ num * 2 ^ bits % den }
{
    let mut quotient = num / den;
    let mut rest = num % den;
    for i in 0..bits {
        quotient *= 2;
        rest *= 2;
        if rest >= den {
            rest -= den;
            quotient += 1;
        }
    }
    (quotient, rest)
}

/// `num`*2^`bits` over `den`, rounded down, by long division: the product may be past 128 bits.
/// The divisor is positive, and it and the result are below 2^127.
pub fn ratio_floor(num: u128, den: u128, bits: u32) -> u128
    requires positive { 1 ≤ den }
    requires den_fits { den < 2 ^ 127 }
    requires fits { num * 2 ^ bits / den < 2 ^ 127 }
    ensures { result ≡ num * 2 ^ bits / den }
{
    long_division(num, den, bits).0
}

/// `num`*2^`bits` over `den`, rounded down and rounded up: the ends of `num`/`den` over the scale
/// 2^`bits`, under the conditions of [`ratio_floor`].
pub fn ratio_ends(num: u128, den: u128, bits: u32) -> (u128, u128)
    requires positive { 1 ≤ den }
    requires den_fits { den < 2 ^ 127 }
    requires fits { num * 2 ^ bits / den < 2 ^ 127 }
    ensures lo { result.0 ≡ num * 2 ^ bits / den }
    ensures hi { result.1 ≡ ceil_quotient (num * 2 ^ bits) den }
    ensures holds { IsBetween (ends (pos result.0) (pos result.1)) (2 ^ bits) (ratio num den) }
{
    let (floor, rest) = long_division(num, den, bits);
    let ceiling = if rest == 0 { floor } else { floor + 1 };
    (floor, ceiling)
}
