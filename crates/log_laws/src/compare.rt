//! The order of two fractions.

ghost use Rattle.std.specs.Prelude.{◌≡◌, ◌*◌, ◌^◌, ◌<◌, unsigned_abs};
ghost use Rattle.std.specs.Ordering.{nat_cmp};
ghost use Rattle.log_laws.specs.Reduced.{fraction_of, Compares};

use crate::frac::Frac;
use std::cmp::Ordering;

/// The order of two fractions, by repeated division: no product is formed.
pub fn frac_cmp(a: Frac, b: Frac) -> Ordering
    requires a_num { unsigned_abs a.num < 2 ^ 126 }
    requires b_num { unsigned_abs b.num < 2 ^ 126 }
    requires a_den { a.den < 2 ^ 126 }
    requires b_den { b.den < 2 ^ 126 }
    ensures { Compares result (fraction_of a) (fraction_of b) }
{
    if a.num < 0 && b.num >= 0 {
        Ordering::Less
    } else if a.num >= 0 && b.num < 0 {
        Ordering::Greater
    } else if a.num >= 0 {
        quotient_cmp(a.num as u128, a.den, b.num as u128, b.den)
    } else {
        quotient_cmp(b.num.unsigned_abs(), b.den, a.num.unsigned_abs(), a.den)
    }
}

/// The order of `n / d` and `m / e`.
fn quotient_cmp(n: u128, d: u128, m: u128, e: u128) -> Ordering
    requires left { 0 < d }
    requires right { 0 < e }
    ensures { result ≡ nat_cmp (n * e) (m * d) }
{
    let first = n / d;
    let second = m / e;
    if first != second {
        return first.cmp(&second);
    }
    let left = n % d;
    let right = m % e;
    if left == 0 || right == 0 {
        return left.cmp(&right);
    }
    quotient_cmp(e, right, d, left)
}
