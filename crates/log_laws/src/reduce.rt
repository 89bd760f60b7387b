//! Lowest terms.

ghost use Rattle.std.specs.Prelude.{◌≡◌, ◌^◌, ◌<◌, ◌≤◌, IsTrue, IsFalse, pos, neg_ℤ};
ghost use Rattle.std.specs.Int.{IsGcd};
ghost use Rattle.log_laws.specs.Fraction.{IsSame};
ghost use Rattle.log_laws.specs.Reduced.{fraction_of, IsLowest};

use crate::frac::Frac;

/// The same number in lowest terms.
pub fn frac_reduce(a: Frac) -> Frac
    ensures same { IsSame (fraction_of result) (fraction_of a) }
    ensures lowest { IsLowest (fraction_of result) }
{
    let size = a.num.unsigned_abs();
    let divisor = greatest_divisor(size, a.den);
    Frac {
        num: with_sign(size / divisor, a.num < 0),
        den: a.den / divisor,
    }
}

/// A number of the given size and sign.
fn with_sign(size: u128, negative: bool) -> i128
    requires fits { size ≤ 2 ^ 127 }
    requires positive { IsFalse negative → size < 2 ^ 127 }
    ensures positive { IsFalse negative → result ≡ pos size }
    ensures negative { IsTrue negative → result ≡ neg_ℤ (pos size) }
{
    if !negative {
        size as i128
    } else if size == 0 {
        0
    } else {
        -((size - 1) as i128) - 1
    }
}

/// The greatest common divisor, by Euclid.
fn greatest_divisor(a: u128, b: u128) -> u128
    requires { 1 ≤ b }
    ensures gcd { IsGcd a b result }
    ensures positive { 1 ≤ result }
{
    let mut left = a;
    let mut right = b;
    while right != 0 {
        (left, right) = (right, left % right);
    }
    left
}
