//! The forms of the mixing terms and of the mean co-volume over a cell.

ghost use Rattle.std.specs.Prelude.{ℕ, ◌≡◌, ◌≤◌, ◌<◌, ◌^◌, Some, option_map, slice_index};
ghost use Rattle.log_laws.specs.Interval.{ends_of};
ghost use Rattle.case_types.specs.Arithmetic.Bounds.{covolume_range as covolume_range_of};
ghost use Rattle.case_types.specs.Arithmetic.Numbers.{numbers_of};
ghost use Rattle.case_types.specs.Arithmetic.Tables.{ends_at};
ghost use Rattle.case_types.specs.Grid.Cells.{Region, box_of_region};
ghost use Rattle.slope_form.specs.Arithmetic.{both, capped, ends_if, product_of_ends};
ghost use Rattle.slope_form.specs.Forms.{form_if, point_ends, two_if};
ghost use Rattle.tangent_bound.specs.SlopeLows.{covolume_form as covolume_form_of, mixing_ends, mixing_form as mixing_form_of, outward as outward_of};
ghost use Rattle.tangent_bound.specs.SlopeParts.{AreFractions, entry};

use crate::fractions::{Fractions, fraction_hi, fraction_lo};
use crate::mix_forms::{Entries, NOTHING, mix_form, sum_of_all};
use fix_interval::{cap, outward as rounded_outward};
use log_enclose::{Logarithms, log2e};
use log_laws::{Iv, Slope};
use pr_params::{Params, b_range, covolume_of};
use slope_form::{product, xlogx};

/// A fraction as an interval.
pub fn point(fraction: u64) -> Iv
    requires { fraction ≤ 2 ^ 40 }
    ensures { ends_of result ≡ point_ends fraction }
{
    Iv {
        lo: fraction as i128,
        hi: fraction as i128,
    }
}

/// An interval over 2^`shift`, rounded outward.
pub fn outward(v: Iv, shift: u32) -> Iv
    requires { shift ≤ 60 }
    ensures { ends_of result ≡ outward_of shift (ends_of v) }
{
    let (lo, hi) = rounded_outward(v.lo, v.hi, shift);
    Iv { lo, hi }
}

/// The sum of the mixing terms: the number of a component is the slope of its `x log x`.
pub fn mixing_form(params: &Params, logs: Logarithms<'_>, x: &Fractions) -> Option<Slope>
    ensures { (r : Region) → AreFractions (numbers_of params.now.case).count r x.now → form_if result ≡ mixing_form_of (numbers_of params.now.case) r }
{
    let n = params.case.n;
    let first = mixing(params, logs, x, 0);
    let second = mixing(params, logs, x, 1);
    let third = mixing(params, logs, x, 2);
    let fourth = mixing(params, logs, x, 3);
    let values = [
        value_of(first),
        value_of(second),
        value_of(third),
        value_of(fourth),
    ];
    let slopes = [
        slope_of(first),
        slope_of(second),
        slope_of(third),
        slope_of(fourth),
    ];
    mix_form(n, sum_of_all(n, &values), Some(NOTHING), &slopes)
}

/// `x log x` of the component `i`: its value in the middle and its slope.
fn mixing(params: &Params, logs: Logarithms<'_>, x: &Fractions, i: u8) -> Option<(Iv, Iv)>
    requires { i < 4 }
    ensures { (r : Region) → i < params.now.case.n → AreFractions (numbers_of params.now.case).count r x.now → two_if result ≡ mixing_ends (numbers_of params.now.case) r i }
{
    let a = fraction_lo(&x.ends, i);
    let b = fraction_hi(&x.ends, i);
    xlogx(logs, a, b, x.middle_of(i), log2e())
}

/// The value of a pair of value and slope.
fn value_of(both: Option<(Iv, Iv)>) -> Option<Iv>
    ensures { ends_if result ≡ option_map (λ m. m.0) (two_if both) }
{
    Some(both?.0)
}

/// The slope of a pair of value and slope.
fn slope_of(both: Option<(Iv, Iv)>) -> Option<Iv>
    ensures { ends_if result ≡ option_map (λ m. m.1) (two_if both) }
{
    Some(both?.1)
}

/// The mean co-volume, from the co-volumes over 2^`shift`.
pub fn covolume_form(params: &Params, x: &Fractions, shift: u32) -> Option<Slope>
    requires { shift ≤ 60 }
    ensures { (r : Region) → AreFractions (numbers_of params.now.case).count r x.now → form_if result ≡ covolume_form_of (numbers_of params.now.case) r shift }
{
    let n = params.case.n;
    let b = [
        covolume(params, shift, 0),
        covolume(params, shift, 1),
        covolume(params, shift, 2),
        covolume(params, shift, 3),
    ];
    let at = sum_of_all(n, &in_middle(x, &b));
    mix_form(n, at, covolume_range(params, x, shift), &b)
}

/// The range of the mean co-volume over 2^`shift`.
fn covolume_range(params: &Params, x: &Fractions, shift: u32) -> Option<Iv>
    requires { shift ≤ 60 }
    ensures { (r : Region) → AreFractions (numbers_of params.now.case).count r x.now →
        let range = outward_of shift (covolume_range_of (numbers_of params.now.case) (box_of_region (numbers_of params.now.case).count r)) in
        ends_if result ≡ capped range.lo range.hi }
{
    capped_again(outward(b_range(params, &x.ends), shift))
}

/// An interval whose ends are of size below 2^61.
fn capped_again(v: Iv) -> Option<Iv>
    ensures { ends_if result ≡ capped v.lo v.hi }
{
    cap(v.lo, v.hi)
}

/// The co-volume of the component `i` over 2^`shift`, and none for one that isn't live.
fn covolume(params: &Params, shift: u32, i: u8) -> Option<Iv>
    requires { shift ≤ 60 }
    ensures { i < params.now.case.n → ends_if result ≡ Some (outward_of shift (ends_at (numbers_of params.now.case).covolumes i)) }
{
    if i < params.case.n {
        Some(outward(covolume_of(params, i), shift))
    } else {
        None
    }
}

/// Each number times the fraction of its component in the middle.
fn in_middle(x: &Fractions, v: &Entries) -> Entries
    ensures { (i : ℕ) → i < 4 → entry result i ≡ both product_of_ends (Some (point_ends (slice_index x.now.middle i))) (entry v.now i) }
{
    [
        times(x.middle[0], v[0]),
        times(x.middle[1], v[1]),
        times(x.middle[2], v[2]),
        times(x.middle[3], v[3]),
    ]
}

/// A fraction times a number, where it is there.
fn times(fraction: u64, number: Option<Iv>) -> Option<Iv>
    requires { fraction ≤ 2 ^ 40 }
    ensures { ends_if result ≡ both product_of_ends (Some (point_ends fraction)) (ends_if number) }
{
    product(point(fraction), number?)
}
