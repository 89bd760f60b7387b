//! The mean co-volume over a box, from its ends and from those of the components.

ghost use Rattle.std.specs.Prelude.{◌≡◌, ◌≤◌, ◌<◌, ◌^◌, ◌-◌, pos, ◌+ℤ◌, ◌-ℤ◌, ◌*ℤ◌, ◌≤ℤ◌, unsigned_abs, ℕ, IsTrue, nat_le, slice_index_or};
ghost use Rattle.std.specs.Int.{int_min, int_max};
ghost use Rattle.log_laws.specs.Sums.{all_below, least_below, greatest_below};
ghost use Rattle.log_laws.specs.Whole.{floor_div, ceil_div};
ghost use Rattle.case_types.specs.Arithmetic.Numbers.{numbers_of};
ghost use Rattle.case_types.specs.Arithmetic.Tables.{ends_at};
ghost use Rattle.case_types.specs.Arithmetic.Bounds.{covolume_low_by_rest, covolume_high_by_rest};
ghost use Rattle.case_types.specs.Arithmetic.Bounds.{box_of};

use crate::numbers::Params;
use crate::readers::covolume_of;
use case_types::{BoxX, SLOTS};
use fix_interval::{affine_high, affine_low};

/// The least lower end of the co-volumes, in `2^-(56+lift)`.
pub fn least_covolume(params: &Params) -> i128
    ensures value { let b = (numbers_of params.now.case).covolumes in
        result ≡ least_below params.now.case.n (λ i. (ends_at b i).lo) (ends_at b 0).lo }
    ensures low { pos (2 ^ 50) ≤ℤ result }
    ensures high { result ≤ℤ pos (2 ^ 61) }
{
    let mut least = covolume_of(params, 0).lo;
    for i in 0..params.case.n {
        least = lesser(least, covolume_of(params, i).lo);
    }
    least
}

/// The greatest upper end of the co-volumes, in `2^-(56+lift)`.
pub fn greatest_covolume(params: &Params) -> i128
    ensures value { let b = (numbers_of params.now.case).covolumes in
        result ≡ greatest_below params.now.case.n (λ i. (ends_at b i).hi) (ends_at b 0).hi }
    ensures low { pos (2 ^ 50) ≤ℤ result }
    ensures high { result ≤ℤ pos (2 ^ 61) }
{
    let mut greatest = covolume_of(params, 0).hi;
    for i in 0..params.case.n {
        greatest = greater(greatest, covolume_of(params, i).hi);
    }
    greatest
}

/// The mean co-volume at least, the last fraction being what the others leave of 1, in `2^-(56+lift)`.
pub fn low_by_rest(params: &Params, x: &BoxX) -> i128
    ensures value { result ≡ covolume_low_by_rest (numbers_of params.now.case) (box_of x.now) }
    ensures small { unsigned_abs result ≤ 2 ^ 83 }
{
    let rest = params.case.n - 1;
    let last = covolume_of(params, rest);
    affine_low(rest, last.lo, &covolumes_low(params), last.hi, &x.a, &x.b)
}

/// The mean co-volume at most, the last fraction being what the others leave of 1, in `2^-(56+lift)`.
pub fn high_by_rest(params: &Params, x: &BoxX) -> i128
    ensures value { result ≡ covolume_high_by_rest (numbers_of params.now.case) (box_of x.now) }
    ensures small { unsigned_abs result ≤ 2 ^ 83 }
{
    let rest = params.case.n - 1;
    let last = covolume_of(params, rest);
    affine_high(rest, last.hi, &covolumes_high(params), last.lo, &x.a, &x.b)
}

/// The lower ends of the co-volumes, in `2^-(56+lift)`, and 0 for components that aren't live.
fn covolumes_low(params: &Params) -> [i128; SLOTS]
    ensures at { (i : ℕ) → i < params.now.case.n → slice_index_or result i (pos 0) ≡ (ends_at (numbers_of params.now.case).covolumes i).lo }
    ensures small { IsTrue (all_below 4 (λ i. nat_le (unsigned_abs (slice_index_or result i (pos 0))) (2 ^ 80))) }
{
    let b = &params.b;
    [b[0].lo, b[1].lo, b[2].lo, b[3].lo]
}

/// The upper ends of the co-volumes, in `2^-(56+lift)`, and 0 for components that aren't live.
fn covolumes_high(params: &Params) -> [i128; SLOTS]
    ensures at { (i : ℕ) → i < params.now.case.n → slice_index_or result i (pos 0) ≡ (ends_at (numbers_of params.now.case).covolumes i).hi }
    ensures small { IsTrue (all_below 4 (λ i. nat_le (unsigned_abs (slice_index_or result i (pos 0))) (2 ^ 80))) }
{
    let b = &params.b;
    [b[0].hi, b[1].hi, b[2].hi, b[3].hi]
}

/// A number in 2^-40, rounded down.
pub fn floored(z: i128) -> i128
    requires { unsigned_abs z ≤ 2 ^ 106 }
    ensures value { result ≡ floor_div z (pos (2 ^ 40)) }
    ensures small { unsigned_abs result ≤ 2 ^ 66 }
{
    z >> 40
}

/// A number in 2^-40, rounded up.
pub fn raised(z: i128) -> i128
    requires { unsigned_abs z ≤ 2 ^ 106 }
    ensures value { result ≡ ceil_div z (pos (2 ^ 40)) }
    ensures small { unsigned_abs result ≤ 2 ^ 66 }
{
    -floored(-z)
}

/// The lesser of two numbers.
pub fn lesser(a: i128, b: i128) -> i128
    requires a { unsigned_abs a ≤ 2 ^ 83 }
    requires b { unsigned_abs b ≤ 2 ^ 83 }
    ensures value { result ≡ int_min a b }
    ensures small { unsigned_abs result ≤ 2 ^ 83 }
{
    if a <= b { a } else { b }
}

/// The greater of two numbers.
pub fn greater(a: i128, b: i128) -> i128
    requires a { unsigned_abs a ≤ 2 ^ 83 }
    requires b { unsigned_abs b ≤ 2 ^ 83 }
    ensures value { result ≡ int_max a b }
    ensures small { unsigned_abs result ≤ 2 ^ 83 }
{
    if a <= b { b } else { a }
}
