//! The extremes of products and squares, and their rounding.

ghost use Rattle.std.specs.Prelude.{◌≡◌, ◌<◌, ◌≤◌, ◌^◌, ◌*ℤ◌, ◌≤ℤ◌, unsigned_abs};
ghost use Rattle.log_laws.specs.Whole.{floor_over, ceil_over};
ghost use Rattle.fix_interval.specs.Extremes.{least_product, greatest_product, least_square, greatest_square};

use log_laws::Iv;

/// The product of two ends, which 64 bits hold.
fn product(x: i128, y: i128) -> i128
    requires x { unsigned_abs x < 2 ^ 62 }
    requires y { unsigned_abs y < 2 ^ 62 }
    ensures value { result ≡ x *ℤ y }
    ensures small { unsigned_abs result < 2 ^ 124 }
{
    (x as i64 as i128) * (y as i64 as i128)
}

/// The least and the greatest of the products of a value of `a` and a value of `b`.
pub fn product_extremes(a: Iv, b: Iv) -> (i128, i128)
    ensures least { result.0 ≡ least_product a b }
    ensures greatest { result.1 ≡ greatest_product a b }
    ensures least_small { unsigned_abs result.0 < 2 ^ 124 }
    ensures greatest_small { unsigned_abs result.1 < 2 ^ 124 }
    ensures ordered { result.0 ≤ℤ result.1 }
{
    let ll = product(a.lo, b.lo);
    let lh = product(a.lo, b.hi);
    let hl = product(a.hi, b.lo);
    let hh = product(a.hi, b.hi);
    let least = ll.min(lh).min(hl.min(hh));
    let greatest = ll.max(lh).max(hl.max(hh));
    (least, greatest)
}

/// The least and the greatest of the squares of a value of `a`.
pub fn square_extremes(a: Iv) -> (i128, i128)
    ensures least { result.0 ≡ least_square a }
    ensures greatest { result.1 ≡ greatest_square a }
    ensures least_small { unsigned_abs result.0 < 2 ^ 124 }
    ensures greatest_small { unsigned_abs result.1 < 2 ^ 124 }
    ensures ordered { result.0 ≤ℤ result.1 }
{
    let nearest = 0i128.clamp(a.lo, a.hi);
    let least = product(nearest, nearest);
    let greatest = product(a.lo, a.lo).max(product(a.hi, a.hi));
    (least, greatest)
}

/// `least` over 2^`shift`, rounded down, and `greatest` over 2^`shift`, rounded up.
pub fn outward(least: i128, greatest: i128, shift: u32) -> (i128, i128)
    requires shift { shift ≤ 126 }
    requires least_small { unsigned_abs least < 2 ^ 124 }
    requires greatest_small { unsigned_abs greatest < 2 ^ 124 }
    requires ordered { least ≤ℤ greatest }
    ensures lo { result.0 ≡ floor_over least (2 ^ shift) }
    ensures hi { result.1 ≡ ceil_over greatest (2 ^ shift) }
    ensures ordered { result.0 ≤ℤ result.1 }
{
    (least >> shift, -(-greatest >> shift))
}
