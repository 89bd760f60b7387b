//! Products and squares.

ghost use Rattle.std.specs.Prelude.{◌≡◌, ℕ, ◌*◌, ◌<◌, ◌≤◌, ◌^◌, pos, ◌≤ℤ◌, unsigned_abs};
ghost use Rattle.log_laws.specs.Whole.{floor_over, ceil_over};
ghost use Rattle.log_laws.specs.Fraction.{Fraction, product_of};
ghost use Rattle.log_laws.specs.Between.{IsBetween};
ghost use Rattle.log_laws.specs.Interval.{ends, ends_of};
ghost use Rattle.fix_interval.specs.Extremes.{least_product, greatest_product, least_square, greatest_square};

use super::extremes::{outward, product_extremes, square_extremes};
use log_laws::Iv;

/// The ends of the products of a value of `a` and a value of `b`, over 2^`shift`: the least
/// rounded down, the greatest up. They may be of any size that such products have.
///
/// With `a` over the scale `s` and `b` over `t`, the ends are over `s`*`t`/2^`shift`.
pub fn mul_ends(a: Iv, b: Iv, shift: u32) -> (i128, i128)
    requires { shift ≤ 126 }
    ensures lo { result.0 ≡ floor_over (least_product a b) (2 ^ shift) }
    ensures hi { result.1 ≡ ceil_over (greatest_product a b) (2 ^ shift) }
    ensures ordered { result.0 ≤ℤ result.1 }
    ensures holds { (f g : Fraction) (s t r : ℕ) → s * t ≡ r * 2 ^ shift →
        IsBetween (ends_of a) s f → IsBetween (ends_of b) t g →
        IsBetween (ends result.0 result.1) r (product_of f g) }
{
    let (least, greatest) = product_extremes(a, b);
    outward(least, greatest, shift)
}

/// The interval of the products of a value of `a` and a value of `b`, over 2^`shift`, with the
/// ends of [`mul_ends`], which are to be of size below 2^62.
pub fn mul_shift(a: Iv, b: Iv, shift: u32) -> Iv
    requires shift { shift ≤ 126 }
    requires lo_fits { unsigned_abs (floor_over (least_product a b) (2 ^ shift)) < 2 ^ 62 }
    requires hi_fits { unsigned_abs (ceil_over (greatest_product a b) (2 ^ shift)) < 2 ^ 62 }
    ensures lo { result.lo ≡ floor_over (least_product a b) (2 ^ shift) }
    ensures hi { result.hi ≡ ceil_over (greatest_product a b) (2 ^ shift) }
    ensures holds { (f g : Fraction) (s t r : ℕ) → s * t ≡ r * 2 ^ shift →
        IsBetween (ends_of a) s f → IsBetween (ends_of b) t g →
        IsBetween (ends_of result) r (product_of f g) }
{
    let (lo, hi) = mul_ends(a, b, shift);
    Iv { lo, hi }
}

/// The interval of the squares of a value of `a`, over 2^`shift`: the least rounded down, the
/// greatest up. The lower end is 0 where `a` holds 0. The ends of the result are to be of size
/// below 2^62.
///
/// With `a` over the scale `s`, the ends are over `s`*`s`/2^`shift`.
pub fn square_shift(a: Iv, shift: u32) -> Iv
    requires shift { shift ≤ 126 }
    requires lo_fits { unsigned_abs (floor_over (least_square a) (2 ^ shift)) < 2 ^ 62 }
    requires hi_fits { unsigned_abs (ceil_over (greatest_square a) (2 ^ shift)) < 2 ^ 62 }
    ensures lo { result.lo ≡ floor_over (least_square a) (2 ^ shift) }
    ensures hi { result.hi ≡ ceil_over (greatest_square a) (2 ^ shift) }
    ensures zero { a.lo ≤ℤ pos 0 → pos 0 ≤ℤ a.hi → result.lo ≡ pos 0 }
    ensures holds { (f : Fraction) (s r : ℕ) → s * s ≡ r * 2 ^ shift →
        IsBetween (ends_of a) s f → IsBetween (ends_of result) r (product_of f f) }
{
    let (least, greatest) = square_extremes(a);
    let (lo, hi) = outward(least, greatest, shift);
    Iv { lo, hi }
}
