//! Quotients.

ghost use Rattle.std.specs.Prelude.{◌≡◌, ℕ, ◌*◌, ◌<◌, ◌≤◌, ◌^◌, pos, ◌*ℤ◌, ◌≤ℤ◌, unsigned_abs};
ghost use Rattle.std.specs.Int.{int_min};
ghost use Rattle.log_laws.specs.Whole.{floor_div};
ghost use Rattle.log_laws.specs.Fraction.{Fraction, quotient_of};
ghost use Rattle.log_laws.specs.Between.{IsBetween};
ghost use Rattle.log_laws.specs.Interval.{ends, ends_of};
ghost use Rattle.fix_interval.specs.Extremes.{least_quotient, greatest_quotient};

use log_laws::Iv;

/// `z` times 2^`shift`.
fn scaled(z: i128, shift: u32) -> i128
    requires z { unsigned_abs z < 2 ^ 62 }
    requires shift { shift ≤ 60 }
    ensures value { result ≡ z *ℤ pos (2 ^ shift) }
    ensures small { unsigned_abs result < 2 ^ 123 }
{
    z * (1 << shift)
}

/// `z` over `d`, rounded down.
fn floor_quotient(z: i128, d: i128) -> i128
    requires z { unsigned_abs z < 2 ^ 123 }
    requires d { pos 1 ≤ℤ d }
    ensures value { result ≡ floor_div z d }
    ensures small { unsigned_abs result ≤ 2 ^ 123 }
{
    z.div_euclid(d)
}

/// `z` times 2^`shift` over a value of `b`, at least, rounded down: a negative number's quotient by the least divisor, and
/// another's by the greatest.
fn least(z: i128, b: Iv, shift: u32) -> i128
    requires z { unsigned_abs z < 2 ^ 62 }
    requires positive { pos 1 ≤ℤ b.lo }
    requires shift { shift ≤ 60 }
    ensures value { result ≡ int_min (floor_div (z *ℤ pos (2 ^ shift)) b.lo) (floor_div (z *ℤ pos (2 ^ shift)) b.hi) }
    ensures small { unsigned_abs result ≤ 2 ^ 123 }
{
    let divisor = if z < 0 { b.lo } else { b.hi };
    floor_quotient(scaled(z, shift), divisor)
}

/// The ends of the quotients of a value of `a` by a value of `b`, times 2^`shift`: the least
/// rounded down, the greatest up. The values of `b` are positive. The ends may be of any size
/// that such quotients have.
///
/// With `a` over the scale `s` and `b` over `t`, the ends are over `s`*2^`shift`/`t`.
pub fn div_ends(a: Iv, b: Iv, shift: u32) -> (i128, i128)
    requires positive { pos 1 ≤ℤ b.lo }
    requires shift { shift ≤ 60 }
    ensures lo { result.0 ≡ least_quotient a b shift }
    ensures hi { result.1 ≡ greatest_quotient a b shift }
    ensures ordered { result.0 ≤ℤ result.1 }
    ensures holds { (f g : Fraction) (s t r : ℕ) → r * t ≡ s * 2 ^ shift →
        IsBetween (ends_of a) s f → IsBetween (ends_of b) t g →
        IsBetween (ends result.0 result.1) r (quotient_of f g) }
{
    (least(a.lo, b, shift), -least(-a.hi, b, shift))
}

/// The interval of the quotients of a value of `a` by a value of `b`, times 2^`shift`, with the
/// ends of [`div_ends`], which are to be of size below 2^62. The values of `b` are positive.
pub fn div_shift(a: Iv, b: Iv, shift: u32) -> Iv
    requires positive { pos 1 ≤ℤ b.lo }
    requires shift { shift ≤ 60 }
    requires lo_fits { unsigned_abs (least_quotient a b shift) < 2 ^ 62 }
    requires hi_fits { unsigned_abs (greatest_quotient a b shift) < 2 ^ 62 }
    ensures lo { result.lo ≡ least_quotient a b shift }
    ensures hi { result.hi ≡ greatest_quotient a b shift }
    ensures holds { (f g : Fraction) (s t r : ℕ) → r * t ≡ s * 2 ^ shift →
        IsBetween (ends_of a) s f → IsBetween (ends_of b) t g →
        IsBetween (ends_of result) r (quotient_of f g) }
{
    let (lo, hi) = div_ends(a, b, shift);
    Iv { lo, hi }
}
